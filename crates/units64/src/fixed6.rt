//! Numbers in millionths.
ghost use Rattle.std.specs.Prelude.{◌≡◌};
ghost use Rattle.units64.specs.Limits.{clamped_millionths};

use crate::constants::MAX_MILLIONTHS;
use std::marker::Model;

/// A number in millionths, from -10^15 to 10^15 of them.
#[derive(Clone, Copy, Debug, PartialEq, Eq, PartialOrd, Ord)]
pub struct Fixed6 {
    millionths: i64,
}

impl Model for Fixed6 {
    ghost use Rattle.std.specs.Prelude.{ℤ};
    ghost use Rattle.units64.specs.Limits.{FitsFixed6};

    ghost Value = { ℤ };

    ghost view = { λ f. f.millionths };

    ghost invariant = { λ f. FitsFixed6 f.millionths };

    ghost inverse = { λ z. record { millionths = z } };
}

impl Fixed6 {
    /// Makes a number of `n` millionths, clamped to what a number may be.
    pub fn new(n: i128) -> Fixed6
        ensures { result ≡ clamped_millionths n }
    {
        let millionths = n.max(-MAX_MILLIONTHS).min(MAX_MILLIONTHS) as i64;
        Fixed6 { millionths }
    }

    /// Returns the number of millionths.
    pub fn get(self) -> i64
        ensures { result ≡ self }
    {
        self.millionths
    }
}

#[cfg(test)]
mod tests {
    use super::Fixed6;
    use std::test::Fail;

    #[test]
    fn limits(rt: HostRuntime) -> Result<(), Fail> {
        assert_eq!(rt; Fixed6::new(1_500_000).get(), 1_500_000);
        assert_eq!(rt; Fixed6::new(-1).get(), -1);
        assert_eq!(rt;
            Fixed6::new(1_000_000_000_000_001).get(),
            1_000_000_000_000_000
        );
        assert_eq!(rt;
            Fixed6::new(-1_000_000_000_000_001).get(),
            -1_000_000_000_000_000
        );
        assert_eq!(rt; Fixed6::new(-(1 << 100)).get(), -1_000_000_000_000_000);
        Ok(())
    }
}
