//! The parts of a name, string or url in front of a text (CSS Syntax 3, sections 4.3.5, 4.3.6, 4.3.9
//! and 4.3.11).
ghost use Rattle.std.specs.Prelude.{◌≡◌, ◌++◌, length, drop, not, option_map, option_to_list, string_bytes, IfSome, IfOk, OnOk};
ghost use Rattle.std.specs.List.{prefix_len};
ghost use Rattle.std.specs.Str.{chars};
ghost use Rattle.css_model.specs.declared.place.Place.TheVariants.{InName};
ghost use Rattle.css_model.specs.Classes.{begins, backslash, is_empty};
ghost use Rattle.css_model.specs.Parts as model;
ghost use Rattle.css_model.specs.Parts.{part_text, parts_text, meanings};
ghost use Rattle.css_model.specs.inner.Fronts as fronts;
ghost use Rattle.css_model.specs.inner.Fronts.{parts_in, run_in};
ghost use Rattle.css_tokens.specs.inner.Parts as spec;
ghost use Rattle.css_tokens.specs.inner.Parts.{part_view, is_backslash, HasAsciiQuote};

use crate::classes::is_ident_start;
use crate::escapes::{Part, is_allowed, part_at};
use crate::runs::first;
use css_model::Place;
use port_core::{NoMemory, Text, push_char};
use std::alloc::Global;

/// The text after the parts in front of `cs`, as long as they may stand at `place`.
pub fn after_parts<'a>(place: Place, cs: &'a str) -> &'a str
    requires { HasAsciiQuote place }
    ensures { chars result.now ≡ fronts.after_parts (parts_in place (chars cs.now)) (chars cs.now) }
{
    let (_, rest) = plain_parts(place, cs);
    if begins_escape(rest) {
        after_escapes(place, cs)
    } else {
        rest
    }
}

/// What the parts in front of `cs` stand for, as long as they may stand at `place`.
pub fn meaning_of_parts(alloc: Global, place: Place, cs: &str) -> Result<Text, NoMemory>
    requires { HasAsciiQuote place }
    ensures { IfOk result (λ t. t ≡ meanings place (parts_in place (chars cs.now))) }
{
    let (plain, rest) = plain_parts(place, cs);
    if begins_escape(rest) {
        return meaning_of_escapes(alloc, place, cs);
    }
    Text::new(alloc, plain)
}

/// The code points in front of `cs` that stand for themselves at `place`, and the rest.
fn plain_parts<'a>(place: Place, cs: &'a str) -> (&'a str, &'a str)
    requires { HasAsciiQuote place }
    ensures front { chars result.0.now ≡ run_in (spec.is_plain place) (chars cs.now) }
    ensures rest { chars result.1.now ≡ drop (length (run_in (spec.is_plain place) (chars cs.now))) (chars cs.now) }
{
    cs.split_at(plain_length(place, cs.as_bytes()))
}

/// How many bytes in front of `bytes` stand for themselves at `place`.
fn plain_length(place: Place, bytes: &[u8]) -> usize
    ensures { result ≡ prefix_len (spec.is_plain place) bytes.now }
{
    match place {
        Place::InName => bytes
            .iter()
            .take_while(|b| is_plain(Place::InName, **b))
            .count(),
        _ => bytes.iter().take_while(|b| is_plain(place, **b)).count(),
    }
}

fn is_plain(place: Place, b: u8) -> bool
    ensures { result ≡ spec.is_plain place b }
{
    b != b'\\' && is_allowed(place, b as char)
}

fn begins_escape(cs: &str) -> bool
    ensures { result ≡ begins is_backslash (chars cs.now) }
{
    match first(cs) {
        Some((c, _)) => c == '\\',
        None => false,
    }
}

/// The text after the parts in front of `cs`, read one by one.
fn after_escapes<'a>(place: Place, cs: &'a str) -> &'a str
    ensures { chars result.now ≡ fronts.after_parts (parts_in place (chars cs.now)) (chars cs.now) }
{
    let mut left = cs;
    while let Some(front) = front_part(place, left) {
        left = front.1;
    }
    left
}

/// What the parts in front of `cs` stand for, read one by one.
fn meaning_of_escapes(alloc: Global, place: Place, cs: &str) -> Result<Text, NoMemory>
    ensures { IfOk result (λ t. t ≡ meanings place (parts_in place (chars cs.now))) }
{
    let mut text = String::new(alloc);
    let mut left = cs;
    while let Some((part, rest)) = front_part(place, left) {
        push_meaning(&mut text, part.meaning(place))?;
        left = rest;
    }
    Text::new(alloc, text.as_str())
}

fn push_meaning(text: &mut String, meaning: Option<char>) -> Result<(), NoMemory>
    ensures { OnOk result (chars (string_bytes text.new)
        ≡ chars (string_bytes text.old) ++ option_to_list meaning) }
{
    match meaning {
        Some(c) => push_char(text, c),
        None => Ok(()),
    }
}

/// The part in front of `cs`, if it may stand at `place`, and the text after it.
fn front_part<'a>(place: Place, cs: &'a str) -> Option<(Part<'a>, &'a str)>
    ensures part { option_map (λ p. part_view p.0) result ≡ spec.front_part place (chars cs.now) }
    ensures rest { IfSome result (λ p. chars p.1.now
        ≡ drop (length (part_text (part_view p.0))) (chars cs.now)) }
{
    let (c, after) = first(cs)?;
    let (part, rest) = part_at(c, after);
    if part.may_stand(place) {
        Some((part, rest))
    } else {
        None
    }
}

/// Whether `cs` begins with a part that may stand at `place`.
pub fn begins_part(place: Place, cs: &str) -> bool
    ensures { result ≡ not (is_empty (parts_text (parts_in place (chars cs.now)))) }
{
    front_part(place, cs).is_some()
}

/// Whether the parts of a name in front of `cs` would start an identifier (section 4.3.9).
pub fn would_start_ident(cs: &str) -> bool
    ensures { result ≡ model.would_start_ident (parts_in InName (chars cs.now)) }
{
    match first(cs) {
        Some((c, _)) => {
            if c == '-' || c == '\\' {
                parts_start_ident(cs)
            } else {
                is_ident_start(c)
            }
        }
        None => false,
    }
}

/// The same, read part by part.
fn parts_start_ident(cs: &str) -> bool
    ensures { result ≡ model.would_start_ident (parts_in InName (chars cs.now)) }
{
    match front_part(Place::InName, cs) {
        Some((part, rest)) => { part.starts_name() || (part.is_hyphen() && follows_hyphen(rest)) }
        None => false,
    }
}

/// Whether the parts of a name in front of `cs` may stand after a leading `-`.
fn follows_hyphen(cs: &str) -> bool
    ensures { result ≡ model.follows_hyphen (parts_in InName (chars cs.now)) }
{
    match front_part(Place::InName, cs) {
        Some((part, _)) => part.starts_name() || part.is_hyphen(),
        None => false,
    }
}
