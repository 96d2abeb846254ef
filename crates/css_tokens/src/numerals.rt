//! Numbers as they are written (CSS Syntax 3, sections 4.3.10, 4.3.12 and 4.3.13).
ghost use Rattle.std.specs.Prelude.{◌≡◌, ◌^◌, length, drop, min, true};
ghost use Rattle.std.specs.List.{list_all};
ghost use Rattle.std.specs.Str.{chars};
ghost use Rattle.css_model.specs.Classes.{is_digit};
ghost use Rattle.css_model.specs.Numerals as written;
ghost use Rattle.css_model.specs.inner.Fronts as model;
ghost use Rattle.css_tokens.specs.inner.Numerals.{numeral_view};

use crate::classes::{Class, is_e, is_sign};
use crate::magnitudes::{enlarged, reduced};
use crate::runs::{begins, begins_bytes, first, one, run};
use css_model::Number;
use units64::Fixed6;

/// What is written of a number; each part may be empty.
#[derive(Clone, Copy, Debug)]
pub struct Numeral<'a> {
    /// `+` or `-`.
    pub sign: &'a [u8],
    /// The digits before the point.
    pub integer: &'a [u8],
    /// The digits after the point, without it.
    pub fraction: &'a [u8],
    /// The `e` or `E` before an exponent.
    pub mark: &'a [u8],
    /// The `+` or `-` of the exponent.
    pub exponent_sign: &'a [u8],
    /// The digits of the exponent.
    pub exponent: &'a [u8],
}

/// A number begins here, its sign left out.
fn begins_unsigned(cs: &str) -> bool
    ensures { result ≡ model.begins_unsigned (chars cs.now) }
{
    match first(cs) {
        None => false,
        Some((c, rest)) => c.is_ascii_digit() || (c == '.' && begins(Class::Digit, rest)),
    }
}

/// A number begins here.
pub fn would_start_number(cs: &str) -> bool
    ensures { result ≡ model.would_start_number (chars cs.now) }
{
    match first(cs) {
        None => false,
        Some((c, rest)) => {
            if is_sign(c) {
                begins_unsigned(rest)
            } else {
                begins_unsigned(cs)
            }
        }
    }
}

/// Perhaps a sign, and a digit stand in front.
fn begins_signed_digit(cs: &str) -> bool
    ensures { result ≡ written.begins_signed_digit (chars cs.now) }
{
    match first(cs) {
        None => false,
        Some((c, rest)) => c.is_ascii_digit() || (is_sign(c) && begins(Class::Digit, rest)),
    }
}

/// An `e` or `E`, perhaps a sign, and a digit stand in front.
fn begins_exponent(cs: &str) -> bool
    ensures { result ≡ written.begins_exponent (chars cs.now) }
{
    match first(cs) {
        None => false,
        Some((c, rest)) => is_e(c) && begins_signed_digit(rest),
    }
}

/// The digits after a point in front of `cs`, and the rest; a point that no digit follows stays there.
fn read_fraction<'a>(cs: &'a str) -> (&'a [u8], &'a str)
    ensures front { result.0.now ≡ model.fraction_in (chars cs.now) }
    ensures rest { chars result.1.now
        ≡ drop (length (written.fraction_text (model.fraction_in (chars cs.now)))) (chars cs.now) }
{
    match first(cs) {
        Some(('.', rest)) => {
            let (digits, rest) = run(Class::Digit, rest);
            if digits.is_empty() {
                return (digits, cs);
            }
            (digits, rest)
        }
        _ => (&[], cs),
    }
}

/// The number of these parts, and of the exponent in front of `cs`, and the text after it.
fn with_exponent<'a>(
    sign: &'a [u8],
    integer: &'a [u8],
    fraction: &'a [u8],
    cs: &'a str,
) -> (Numeral<'a>, &'a str)
    ensures numeral { numeral_view result.0
        ≡ model.with_exponent sign.now integer.now fraction.now (chars cs.now) }
    ensures rest { chars result.1.now
        ≡ drop (length (written.exponent_text (numeral_view result.0))) (chars cs.now) }
{
    let mut numeral = Numeral {
        sign,
        integer,
        fraction,
        mark: &[],
        exponent_sign: &[],
        exponent: &[],
    };
    if !begins_exponent(cs) {
        return (numeral, cs);
    }
    let (mark, rest) = one(Class::Mark, cs);
    let (exponent_sign, rest) = one(Class::Sign, rest);
    let (exponent, rest) = run(Class::Digit, rest);
    numeral.mark = mark;
    numeral.exponent_sign = exponent_sign;
    numeral.exponent = exponent;
    (numeral, rest)
}

/// The number that a text begins with, and the text after it.
pub fn read_numeral<'a>(cs: &'a str) -> (Numeral<'a>, &'a str)
    ensures numeral { numeral_view result.0 ≡ model.numeral_in (chars cs.now) }
    ensures rest { chars result.1.now
        ≡ drop (length (written.numeral_text (model.numeral_in (chars cs.now)))) (chars cs.now) }
{
    let (sign, rest) = one(Class::Sign, cs);
    let (integer, rest) = run(Class::Digit, rest);
    let (fraction, rest) = read_fraction(rest);
    with_exponent(sign, integer, fraction, rest)
}

impl<'a> Numeral<'a> {
    /// Its size in millionths, limited.
    fn size(&self) -> u128
        requires integer { list_all is_digit (numeral_view self.now).integer ≡ true }
        requires fraction { list_all is_digit (numeral_view self.now).fraction ≡ true }
        ensures { result ≡ min (10 ^ 15) (written.magnitude (numeral_view self.now)) }
    {
        if begins_bytes(Class::Hyphen, self.exponent_sign) {
            reduced(self.integer, self.fraction, self.exponent)
        } else {
            enlarged(self.integer, self.fraction, self.exponent)
        }
    }

    /// Its value in millionths.
    fn millionths(&self) -> Fixed6
        requires integer { list_all is_digit (numeral_view self.now).integer ≡ true }
        requires fraction { list_all is_digit (numeral_view self.now).fraction ≡ true }
        ensures { result ≡ written.value_of (numeral_view self.now) }
    {
        let size = self.size() as i128;
        if begins_bytes(Class::Hyphen, self.sign) {
            Fixed6::new(-size)
        } else {
            Fixed6::new(size)
        }
    }

    /// Its value, and how it was written.
    pub fn number(&self) -> Number
        requires integer { list_all is_digit (numeral_view self.now).integer ≡ true }
        requires fraction { list_all is_digit (numeral_view self.now).fraction ≡ true }
        ensures { result ≡ written.number_of (numeral_view self.now) }
    {
        Number {
            millionths: self.millionths(),
            is_integer: self.fraction.is_empty() && self.exponent.is_empty(),
            is_signed: !self.sign.is_empty(),
        }
    }
}
