//! Units of length, and what they refer to (CSS Values 4, section 6; CSS Conditional 5, section 7).
use units64::Units;

/// What a unit of length refers to.
#[derive(Clone, Copy, Debug, PartialEq, Eq)]
pub enum LengthBase {
    /// One pixel.
    Pixel,
    /// The font size.
    Em,
    /// The font size of the root.
    Rem,
    /// The width of the viewport.
    Vw,
    /// Its height.
    Vh,
    /// The smaller of the two.
    Vmin,
    /// The larger of the two.
    Vmax,
    /// The width of the container.
    Cqw,
    /// Its height.
    Cqh,
    /// The smaller of the two.
    Cqmin,
    /// The larger of the two.
    Cqmax,
}

/// A unit of length: this quotient of what it refers to.
#[derive(Clone, Copy, Debug, PartialEq, Eq)]
pub struct LengthUnit {
    /// What it refers to.
    pub base: LengthBase,
    /// The numerator, at most 9,600.
    pub numerator: u16,
    /// The denominator, from 1 to 254.
    pub denominator: u16,
}

/// The lengths that relative lengths refer to.
#[derive(Clone, Copy, Debug, PartialEq, Eq)]
pub struct Bases {
    /// The font size.
    pub em: Units,
    /// The font size of the root.
    pub rem: Units,
    /// The width of the viewport.
    pub vw: Units,
    /// The height of the viewport.
    pub vh: Units,
    /// The width of the container.
    pub cqw: Units,
    /// The height of the container.
    pub cqh: Units,
}
