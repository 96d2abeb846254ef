//! Values of lengths (CSS Values 4, sections 5 and 6).
ghost use Rattle.std.specs.Prelude.{◌≡◌, ◌*ℤ◌, pos};
ghost use Rattle.units64.specs.Conversions.{millionths_of};
ghost use Rattle.units64.specs.Limits.{clamped_millionths};
ghost use Rattle.value_model.specs.Lengths as lengths;

use crate::bases::{base_length, millionths};
use units64::{Fixed6, MILLIONTHS_PER_PIXEL, Units, mul_ratio, to_units};
use value_model::{Bases, LengthUnit};

/// The value of `number` of a unit, in millionths of a pixel: one exact quotient, truncated towards
/// zero. It is 0 where the denominator is.
pub(crate) fn dimension_value(b: &Bases, number: Fixed6, unit: LengthUnit) -> Fixed6
    ensures { result ≡ lengths.dimension_value b.now number unit }
{
    if unit.denominator == 0 {
        return Fixed6::new(0);
    }
    let base = base_length(b, unit.base);
    let dividend = times(unit.numerator, base);
    let divisor = in_pixels(unit.denominator);
    mul_ratio(number, dividend, divisor)
}

/// The millionths of a pixel that so many times a length are.
fn times(numerator: u16, base: Units) -> i64
    ensures { result ≡ pos numerator *ℤ millionths_of base }
{
    i64::from(numerator) * millionths(base)
}

/// A divisor of millionths, for millionths of pixels.
fn in_pixels(denominator: u16) -> i64
    ensures { result ≡ pos denominator *ℤ MILLIONTHS_PER_PIXEL }
{
    denominator as i64 * MILLIONTHS_PER_PIXEL
}

/// Returns a percentage of a length, in millionths of a pixel: one exact quotient, truncated towards
/// zero (CSS Values 4, section 5).
pub fn percentage_value(number: Fixed6, base: Units) -> Fixed6
    ensures { result ≡ lengths.percentage_value number base }
{
    mul_ratio(number, millionths(base), in_pixels(100))
}

/// Returns a length in millionths of a pixel, clamped.
pub fn in_millionths(length: Units) -> Fixed6
    ensures { result ≡ clamped_millionths (millionths_of length) }
{
    Fixed6::new(millionths(length) as i128)
}
