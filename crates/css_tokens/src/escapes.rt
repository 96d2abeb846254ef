//! Code points and escapes in names, strings and urls (CSS Syntax 3, sections 4.3.7 and 4.3.8).
ghost use Rattle.std.specs.Prelude.{◌≡◌, ◌≤◌, ◌<◌, ◌^◌, ◌∷◌, length, drop, min, option_to_list};
ghost use Rattle.std.specs.Str.{chars};
ghost use Rattle.css_model.specs.Classes.{backslash};
ghost use Rattle.css_model.specs.Parts as model;
ghost use Rattle.css_model.specs.inner.Fronts.{hex_digits_in, hex_escape_in, escape_in, part_in};
ghost use Rattle.css_tokens.specs.inner.Parts.{part_view};

use crate::classes::{
    Class, is_ident_char, is_ident_start, is_non_printable, is_quote, is_whitespace,
};
use crate::runs::{first, one, run_length, split_ascii};
use css_model::Place;

/// U+FFFD, which replaces what is not a code point.
const REPLACEMENT: char = '\u{fffd}';

/// The first number past U+10FFFF.
const TOO_LARGE: u32 = 0x11_0000;

/// A code point that stands for itself, or an escape.
#[derive(Clone, Copy, Debug)]
pub enum Part<'a> {
    /// A code point that is not a backslash.
    Itself(char),
    /// A backslash and the code point that it stands for.
    Escaped(char),
    /// A backslash, hex digits that write a code point, and perhaps one whitespace code point.
    HexEscape {
        /// The hex digits.
        digits: &'a [u8],
        /// The whitespace after them.
        blank: &'a [u8],
    },
    /// A backslash and a newline.
    EscapedNewline,
    /// A backslash that is the last code point of the text.
    EscapeAtEnd,
}

impl<'a> Part<'a> {
    /// Whether the part may stand at `place`.
    pub fn may_stand(&self, place: Place) -> bool
        ensures { result ≡ model.may_stand place (part_view self.now) }
    {
        match self {
            Part::Itself(c) => is_allowed(place, *c),
            Part::EscapedNewline => allows_escaped_newline(place),
            Part::Escaped(_) | Part::HexEscape { .. } | Part::EscapeAtEnd => true,
        }
    }

    /// The code point that the part stands for at `place`, if it stands for one.
    pub fn meaning(&self, place: Place) -> Option<char>
        ensures { option_to_list result ≡ model.meaning place (part_view self.now) }
    {
        match self {
            Part::Itself(c) | Part::Escaped(c) => Some(*c),
            Part::HexEscape { digits, .. } => Some(code_point_of(hex_value(*digits))),
            Part::EscapedNewline => None,
            Part::EscapeAtEnd => meaning_at_end(place),
        }
    }

    /// Whether a name may start with the part.
    pub fn starts_name(&self) -> bool
        ensures { result ≡ model.starts_name (part_view self.now) }
    {
        match self {
            Part::Itself(c) => is_ident_start(*c),
            Part::EscapedNewline => false,
            Part::Escaped(_) | Part::HexEscape { .. } | Part::EscapeAtEnd => true,
        }
    }

    /// Whether the part is a `-` that is not escaped.
    pub fn is_hyphen(&self) -> bool
        ensures { result ≡ model.is_hyphen (part_view self.now) }
    {
        match self {
            Part::Itself(c) => *c == '-',
            _ => false,
        }
    }
}

/// Whether `c` stands for itself at `place`, unless it is a backslash.
pub fn is_allowed(place: Place, c: char) -> bool
    ensures { result ≡ model.is_allowed place c }
{
    match place {
        Place::InName => is_ident_char(c),
        Place::InString(quote) => c != quote && c != '\n',
        Place::InUrl => {
            !is_quote(c) && c != '(' && c != ')' && !is_whitespace(c) && !is_non_printable(c)
        }
        Place::InBadUrl => c != ')',
    }
}

/// Whether an escaped newline may stand at `place`.
fn allows_escaped_newline(place: Place) -> bool
    ensures { result ≡ model.allows_escaped_newline place }
{
    match place {
        Place::InName | Place::InUrl => false,
        Place::InString(_) | Place::InBadUrl => true,
    }
}

/// What a backslash at the end of the text stands for at `place`.
fn meaning_at_end(place: Place) -> Option<char>
    ensures { option_to_list result ≡ model.meaning_at_end place }
{
    match place {
        Place::InString(_) => None,
        Place::InName | Place::InUrl | Place::InBadUrl => Some(REPLACEMENT),
    }
}

/// The part that `c` and then `rest` begin with, and the text after it.
pub fn part_at<'a>(c: char, rest: &'a str) -> (Part<'a>, &'a str)
    ensures part { part_view result.0 ≡ part_in c (chars rest.now) }
    ensures rest { chars result.1.now
        ≡ drop (length (model.part_text (part_in c (chars rest.now)))) (c ∷ chars rest.now) }
{
    if c == '\\' {
        escape_at(rest)
    } else {
        (Part::Itself(c), rest)
    }
}

/// The escape after whose backslash `rest` begins, and the text after it.
fn escape_at<'a>(rest: &'a str) -> (Part<'a>, &'a str)
    ensures part { part_view result.0 ≡ escape_in (chars rest.now) }
    ensures rest { chars result.1.now
        ≡ drop (length (model.part_text (escape_in (chars rest.now)))) (backslash ∷ chars rest.now) }
{
    match first(rest) {
        None => (Part::EscapeAtEnd, rest),
        Some((c, after)) => {
            if c == '\n' {
                (Part::EscapedNewline, after)
            } else if c.is_ascii_hexdigit() {
                hex_escape_at(rest)
            } else {
                (Part::Escaped(c), after)
            }
        }
    }
}

/// The hex escape after whose backslash `rest` begins, and the text after it.
fn hex_escape_at<'a>(rest: &'a str) -> (Part<'a>, &'a str)
    ensures part { part_view result.0 ≡ hex_escape_in (chars rest.now) }
    ensures rest { chars result.1.now
        ≡ drop (length (model.part_text (hex_escape_in (chars rest.now)))) (backslash ∷ chars rest.now) }
{
    let (digits, after) = hex_digits(rest);
    let (blank, after) = one(Class::Whitespace, after);
    (Part::HexEscape { digits, blank }, after)
}

/// The hex digits in front of `cs`, but no more than six, and the rest.
fn hex_digits<'a>(cs: &'a str) -> (&'a [u8], &'a str)
    ensures digits { result.0.now ≡ hex_digits_in 6 (chars cs.now) }
    ensures rest { chars result.1.now ≡ drop (length (hex_digits_in 6 (chars cs.now))) (chars cs.now) }
{
    split_ascii(cs, hex_length(cs.as_bytes()))
}

/// How many hex digits are in front of `bytes`, or six if there are more.
fn hex_length(bytes: &[u8]) -> usize
    ensures digits { result ≡ length (hex_digits_in 6 bytes.now) }
    ensures within { result ≤ length bytes.now }
{
    let (front, _) = bytes.split_at(bytes.len().min(6));
    run_length(Class::HexDigit, front)
}

/// The number that hex digits write, clamped to the first number past U+10FFFF.
fn hex_value(digits: &[u8]) -> u32
    ensures { result ≡ min 0x110000 (model.hex_value_after 0 digits.now) }
{
    let mut value = 0;
    for b in digits {
        value = (value * 16 + hex_digit_value(*b)).min(TOO_LARGE);
    }
    value
}

fn hex_digit_value(b: u8) -> u32
    ensures value { result ≡ model.hex_digit_value b }
    ensures small { result < 2 ^ 21 }
{
    let code = b as u32;
    if b.is_ascii_digit() {
        code - 48
    } else if b <= b'F' {
        code.saturating_sub(55)
    } else {
        code.saturating_sub(87)
    }
}

/// The code point of this number: U+FFFD for zero, a surrogate and a number past U+10FFFF.
fn code_point_of(n: u32) -> char
    ensures { result ≡ model.code_point_of n }
{
    match char::from_u32(n) {
        Some(c) => { if c == '\0' { REPLACEMENT } else { c } }
        None => REPLACEMENT,
    }
}
