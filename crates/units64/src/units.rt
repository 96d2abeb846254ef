//! Lengths in units of 1/64 pixel.
ghost use Rattle.std.specs.Prelude.{◌≡◌};
ghost use Rattle.units64.specs.Limits.{clamped_units};

use crate::constants::MAX_UNITS;
use std::marker::Model;

/// A length in units of 1/64 pixel, from -2^30 to 2^30.
#[derive(Clone, Copy, Debug, PartialEq, Eq, PartialOrd, Ord)]
pub struct Units {
    units: i32,
}

impl Model for Units {
    ghost use Rattle.std.specs.Prelude.{ℤ};
    ghost use Rattle.units64.specs.Limits.{FitsUnits};

    ghost Value = { ℤ };

    ghost view = { λ u. u.units };

    ghost invariant = { λ u. FitsUnits u.units };

    ghost inverse = { λ z. record { units = z } };
}

impl Units {
    /// Makes a length of `n` units, clamped to what a length may be.
    pub fn new(n: i64) -> Units
        ensures { result ≡ clamped_units n }
    {
        let units = n.max(-MAX_UNITS).min(MAX_UNITS) as i32;
        Units { units }
    }

    /// Returns the number of units.
    pub fn get(self) -> i32
        ensures { result ≡ self }
    {
        self.units
    }
}

#[cfg(test)]
mod tests {
    use super::Units;
    use std::test::Fail;

    #[test]
    fn limits(rt: HostRuntime) -> Result<(), Fail> {
        assert_eq!(rt; Units::new(51200).get(), 51200);
        assert_eq!(rt; Units::new(-3).get(), -3);
        assert_eq!(rt; Units::new(1 << 31).get(), 1073741824);
        assert_eq!(rt; Units::new(-5000000000).get(), -1073741824);
        Ok(())
    }
}
