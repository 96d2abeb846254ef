//! The used values of a box (CSS 2.1, section 8.1 and chapter 10).
use units64::Units;

/// The used values of a box, and what layout asks of its style besides.
#[derive(Clone, Copy, Debug, PartialEq, Eq)]
pub struct Used {
    /// The left margin.
    pub ml: Units,
    /// The left border.
    pub bl: Units,
    /// The left padding.
    pub pl: Units,
    /// The width of the content box.
    pub w: Units,
    /// The right padding.
    pub pr: Units,
    /// The right border.
    pub br: Units,
    /// The right margin.
    pub mr: Units,
    /// The top margin.
    pub mt: Units,
    /// The top border.
    pub bt: Units,
    /// The top padding.
    pub pt: Units,
    /// The bottom padding.
    pub pb: Units,
    /// The bottom border.
    pub bb: Units,
    /// The bottom margin.
    pub mb: Units,
    /// The least height of the content box.
    pub min_h: Units,
    /// The height of the content box before its limits; `None` is `auto`.
    pub h: Option<Units>,
    /// The greatest height of the content box; `None` is no limit.
    pub max_h: Option<Units>,
    /// The box is the root of a block formatting context.
    pub independent: bool,
    /// The box has size containment.
    pub size_contained: bool,
    /// The box has layout containment.
    pub layout_contained: bool,
    /// `overflow` is `visible`.
    pub overflow_visible: bool,
}
