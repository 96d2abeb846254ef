//! What features are judged on (Media Queries 4, sections 4.1 to 4.4).
ghost use Rattle.std.specs.Prelude.{pos, ◌≤ℤ◌};

use units64::Units;
use value_model::Bases;

/// A width and a height, neither below 0, and what lengths refer to.
#[derive(Clone, Copy, Debug, PartialEq, Eq)]
pub struct Measured {
    /// The width.
    pub width: Units,
    /// The height.
    pub height: Units,
    /// What lengths refer to.
    pub bases: Bases,
    ghost width_is_not_negative: { pos 0 ≤ℤ width },
    ghost height_is_not_negative: { pos 0 ≤ℤ height },
}
