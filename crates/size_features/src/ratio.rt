//! Ratios (CSS Values 4, section 5.7).
ghost use Rattle.std.specs.Prelude.{pos, ◌≤ℤ◌};

use units64::Fixed6;

/// A ratio: two numbers that are at least 0, in millionths.
#[derive(Clone, Copy, Debug, PartialEq, Eq)]
pub struct Ratio {
    /// The first number.
    pub across: Fixed6,
    /// The number by which it is divided; it may be 0.
    pub down: Fixed6,
    ghost across_is_not_negative: { pos 0 ≤ℤ across },
    ghost down_is_not_negative: { pos 0 ≤ℤ down },
}
