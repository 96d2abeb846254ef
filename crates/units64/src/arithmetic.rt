//! Sums, differences and products, exact and then clamped.
ghost use Rattle.std.specs.Prelude.{◌≡◌, ◌+ℤ◌, ◌-ℤ◌, ◌*ℤ◌, ◌<ℤ◌, pos, int_div};
ghost use Rattle.units64.specs.Conversions.{units_of};
ghost use Rattle.units64.specs.Limits.{clamped_units, clamped_millionths};

use crate::constants::{MILLIONTHS_PER_PIXEL, UNITS_PER_PIXEL};
use crate::fixed6::Fixed6;
use crate::units::Units;

/// Adds two lengths.
pub fn add(a: Units, b: Units) -> Units
    ensures { result ≡ clamped_units (a +ℤ b) }
{
    Units::new(sum(a.get(), b.get()))
}

/// Subtracts `b` from `a`.
pub fn sub(a: Units, b: Units) -> Units
    ensures { result ≡ clamped_units (a -ℤ b) }
{
    Units::new(difference(a.get(), b.get()))
}

/// Multiplies `a` by `num / den`: the exact product, divided and truncated towards zero.
pub fn mul_ratio(a: Fixed6, num: i64, den: i64) -> Fixed6
    requires { pos 0 <ℤ den }
    ensures { result ≡ clamped_millionths (int_div (a *ℤ num) den) }
{
    Fixed6::new(quotient(product(a.get(), num), den))
}

/// Makes a length of `a` pixels, truncated towards zero to units.
pub fn to_units(a: Fixed6) -> Units
    ensures { result ≡ clamped_units (units_of a) }
{
    Units::new(a.get() * UNITS_PER_PIXEL / MILLIONTHS_PER_PIXEL)
}

/// Returns the exact sum, which always fits.
fn sum(a: i32, b: i32) -> i64
    ensures { result ≡ a +ℤ b }
{
    a as i64 + b as i64
}

/// Returns the exact difference, which always fits.
fn difference(a: i32, b: i32) -> i64
    ensures { result ≡ a -ℤ b }
{
    a as i64 - b as i64
}

/// Returns the exact product, which always fits.
pub(crate) fn product(a: i64, b: i64) -> i128
    ensures { result ≡ a *ℤ b }
{
    a as i128 * b as i128
}

/// Returns the quotient, truncated towards zero.
fn quotient(n: i128, den: i64) -> i128
    requires { pos 0 <ℤ den }
    ensures { result ≡ int_div n den }
{
    n / den as i128
}

#[cfg(test)]
mod tests {
    use super::{add, mul_ratio, sub, to_units};
    use crate::fixed6::Fixed6;
    use crate::units::Units;
    use std::test::Fail;

    #[test]
    fn sums(rt: HostRuntime) -> Result<(), Fail> {
        let table: [(i64, i64, i32); 4] = [
            (51_200, 64, 51_264),
            (-5, 3, -2),
            (1_073_741_824, 1, 1_073_741_824),
            (-1_073_741_824, -1_073_741_824, -1_073_741_824),
        ];
        for (a, b, sum) in table {
            assert_eq!(rt; add(Units::new(a), Units::new(b)).get(), sum);
        }
        Ok(())
    }

    #[test]
    fn differences(rt: HostRuntime) -> Result<(), Fail> {
        let table: [(i64, i64, i32); 4] = [
            (64, 51_200, -51_136),
            (3, 3, 0),
            (1_073_741_824, -1, 1_073_741_824),
            (-1_073_741_824, 1, -1_073_741_824),
        ];
        for (a, b, difference) in table {
            assert_eq!(rt; sub(Units::new(a), Units::new(b)).get(), difference);
        }
        Ok(())
    }

    #[test]
    fn products(rt: HostRuntime) -> Result<(), Fail> {
        let most = 1_000_000_000_000_000;
        assert_eq!(rt; mul_ratio(Fixed6::new(1_500_000), 2, 3).get(), 1_000_000);
        assert_eq!(rt; mul_ratio(Fixed6::new(-7), 1, 2).get(), -3);
        assert_eq!(rt; mul_ratio(Fixed6::new(7), -1, 2).get(), -3);
        assert_eq!(rt; mul_ratio(Fixed6::new(0), 5, 7).get(), 0);
        assert_eq!(rt; mul_ratio(Fixed6::new(5), 0, 7).get(), 0);
        assert_eq!(rt;
            mul_ratio(Fixed6::new(most), i64::MAX, i64::MAX).get(),
            1_000_000_000_000_000
        );
        assert_eq!(rt;
            mul_ratio(Fixed6::new(most), 1_000, 1_001).get(),
            999_000_999_000_999
        );
        assert_eq!(rt;
            mul_ratio(Fixed6::new(most), 3, 2).get(),
            1_000_000_000_000_000
        );
        assert_eq!(rt;
            mul_ratio(Fixed6::new(-most), i64::MAX, 1).get(),
            -1_000_000_000_000_000
        );
        Ok(())
    }

    #[test]
    fn pixels(rt: HostRuntime) -> Result<(), Fail> {
        let table: [(i128, i32); 9] = [
            (800_000_000, 51_200),
            (15_625, 1),
            (15_624, 0),
            (-15_624, 0),
            (-31_249, -1),
            (16_777_216_000_000, 1_073_741_824),
            (16_777_215_999_999, 1_073_741_823),
            (1_000_000_000_000_000, 1_073_741_824),
            (-1_000_000_000_000_000, -1_073_741_824),
        ];
        for (millionths, units) in table {
            assert_eq!(rt; to_units(Fixed6::new(millionths)).get(), units);
        }
        Ok(())
    }
}
