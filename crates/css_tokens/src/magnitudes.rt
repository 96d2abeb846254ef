//! The size of a number: its decimal value without a sign, truncated to millionths and clamped
//! (CSS Syntax 3, section 4.3.13).
//!
//! A number may have any count of digits and any exponent. Its point moves by the exponent's places,
//! and six more for millionths, and what is then before the point is read.
ghost use Rattle.std.specs.Prelude.{◌≡◌, ◌+◌, ◌-◌, ◌*◌, ◌/◌, ◌^◌, ◌++◌, length, take, min, true};
ghost use Rattle.std.specs.List.{list_all};
ghost use Rattle.css_model.specs.Classes.{is_digit};
ghost use Rattle.css_model.specs.Numerals.{decimal_after};

use crate::decimals::{decimal_within, with_zeros};

/// The greatest size, in millionths.
const MAX_SIZE: u128 = 1_000_000_000_000_000;

/// More places than any number has digits.
const MAX_PLACES: u128 = 1 << 65;

/// How many places millionths have.
const MILLIONTHS: u128 = 6;

/// The number before the point after it has moved to the right by `places`, clamped.
fn moved_right(integer: &[u8], fraction: &[u8], places: u128) -> u128
    ensures { result ≡ min (10 ^ 15)
        (decimal_after 0 (integer.now ++ take places fraction.now) * 10 ^ (places - length fraction.now)) }
{
    let kept = places.min(fraction.len() as u128);
    let value = decimal_within(MAX_SIZE, 0, integer);
    let value = decimal_within(MAX_SIZE, value, &fraction[..kept as usize]);
    with_zeros(MAX_SIZE, value, places - kept)
}

/// The number before the point after it has moved to the left by `places`, clamped.
fn moved_left(integer: &[u8], places: u128) -> u128
    ensures { result ≡ min (10 ^ 15) (decimal_after 0 (take (length integer.now - places) integer.now)) }
{
    let cut = places.min(integer.len() as u128) as usize;
    decimal_within(MAX_SIZE, 0, &integer[..integer.len() - cut])
}

/// The places of an exponent, at most `MAX_PLACES`.
fn places_of(exponent: &[u8]) -> u128
    ensures { result ≡ min (2 ^ 65) (decimal_after 0 exponent.now) }
{
    decimal_within(MAX_PLACES, 0, exponent)
}

/// The size of a number whose exponent is not negative.
pub fn enlarged(integer: &[u8], fraction: &[u8], exponent: &[u8]) -> u128
    requires fraction { list_all is_digit fraction.now ≡ true }
    ensures { result ≡ min (10 ^ 15)
        ((decimal_after 0 (integer.now ++ fraction.now) * 10 ^ (6 + decimal_after 0 exponent.now))
        / 10 ^ (length fraction.now + 0)) }
{
    moved_right(integer, fraction, MILLIONTHS + places_of(exponent))
}

/// The size of a number whose exponent is negative.
pub fn reduced(integer: &[u8], fraction: &[u8], exponent: &[u8]) -> u128
    requires integer { list_all is_digit integer.now ≡ true }
    requires fraction { list_all is_digit fraction.now ≡ true }
    ensures { result ≡ min (10 ^ 15)
        ((decimal_after 0 (integer.now ++ fraction.now) * 10 ^ (6 + 0))
        / 10 ^ (length fraction.now + decimal_after 0 exponent.now)) }
{
    let places = places_of(exponent);
    if places < MILLIONTHS {
        return moved_right(integer, fraction, MILLIONTHS - places);
    }
    moved_left(integer, places - MILLIONTHS)
}
