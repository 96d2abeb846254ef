//! Exact comparisons.
ghost use Rattle.std.specs.Prelude.{◌≡◌, ◌*ℤ◌, ◌≤ℤ◌, pos};
ghost use Rattle.std.specs.Ordering.{int_cmp};
ghost use Rattle.units64.specs.Conversions.{millionths_of};

use crate::arithmetic::product;
use crate::constants::MILLIONTHS_PER_UNIT;
use crate::fixed6::Fixed6;
use crate::units::Units;
use std::cmp::Ordering;

/// Compares `a` with `b` pixels, exactly.
pub fn cmp_length(a: Units, b: Fixed6) -> Ordering
    ensures { result ≡ int_cmp (millionths_of a) b }
{
    let millionths = a.get() as i64 * MILLIONTHS_PER_UNIT;
    millionths.cmp(&b.get())
}

/// Compares the ratio `w / h` with `a / b`, exactly and by products alone: any of the four may be 0.
pub fn cmp_ratio(w: Units, h: Units, a: Fixed6, b: Fixed6) -> Ordering
    requires width { pos 0 ≤ℤ w }
    requires height { pos 0 ≤ℤ h }
    requires numerator { pos 0 ≤ℤ a }
    requires denominator { pos 0 ≤ℤ b }
    ensures { result ≡ int_cmp (w *ℤ b) (a *ℤ h) }
{
    let left = product(w.get() as i64, b.get());
    let right = product(a.get(), h.get() as i64);
    left.cmp(&right)
}

#[cfg(test)]
mod tests {
    use super::{cmp_length, cmp_ratio};
    use crate::fixed6::Fixed6;
    use crate::units::Units;
    use std::cmp::Ordering;
    use std::test::Fail;

    #[test]
    fn lengths(rt: HostRuntime) -> Result<(), Fail> {
        let table: [(i64, i128, Ordering); 9] = [
            (1, 15_624, Ordering::Greater),
            (1, 15_625, Ordering::Equal),
            (1, 15_626, Ordering::Less),
            (-1, -15_625, Ordering::Equal),
            (-1, -15_626, Ordering::Greater),
            (0, 0, Ordering::Equal),
            (0, 1, Ordering::Less),
            (1_073_741_824, 16_777_216_000_000, Ordering::Equal),
            (1_073_741_824, 1_000_000_000_000_000, Ordering::Less),
        ];
        for (units, millionths, order) in table {
            assert_eq!(rt;
                cmp_length(Units::new(units), Fixed6::new(millionths)),
                order
            );
        }
        Ok(())
    }

    #[test]
    fn ratios(rt: HostRuntime) -> Result<(), Fail> {
        let table: [(u32, u32, u64, u64, Ordering); 9] = [
            (51_200, 25_600, 2, 1, Ordering::Equal),
            (1, 3, 333_333, 1_000_000, Ordering::Greater),
            (1, 3, 333_334, 1_000_000, Ordering::Less),
            (1, 0, 5, 0, Ordering::Equal),
            (1, 0, 1_000_000_000_000_000, 1, Ordering::Greater),
            (0, 0, 5, 7, Ordering::Equal),
            (0, 5, 0, 7, Ordering::Equal),
            (0, 5, 1, 7, Ordering::Less),
            (
                1_073_741_824,
                1_073_741_823,
                1_000_000_000_000_000,
                999_999_999_999_999,
                Ordering::Greater,
            ),
        ];
        for (w, h, a, b, order) in table {
            let (w, h) = (Units::new(w as i64), Units::new(h as i64));
            let (a, b) = (Fixed6::new(a as i128), Fixed6::new(b as i128));
            assert_eq!(rt; cmp_ratio(w, h, a, b), order);
        }
        Ok(())
    }
}
