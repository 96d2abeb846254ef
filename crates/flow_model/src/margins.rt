//! What is seen of a set of adjoining margins.
use units64::Units;

/// What is seen of a set of adjoining margins (CSS 2.1, section 8.3.1).
#[derive(Clone, Copy, Debug, PartialEq, Eq)]
pub struct Margins {
    /// The greatest positive margin, or 0.
    pub positive: Units,
    /// The most negative margin, or 0.
    pub negative: Units,
}
