//! What a box is laid into.
use units64::Units;

/// The containing block of a box (CSS 2.1, section 10.1), and by which rules it is laid into it.
#[derive(Clone, Copy, Debug, PartialEq, Eq)]
pub struct Containing {
    /// The width of the containing block.
    pub w: Units,
    /// Its height, where that does not depend on its contents.
    pub h: Option<Units>,
    /// The box is an inline-block.
    pub inline_block: bool,
}
