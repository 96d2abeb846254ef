//! The seven values that stand side by side in a containing block (CSS 2.1, section 10.3.3).
use units64::Units;

/// What is specified beside the width of a box.
#[derive(Clone, Copy, Debug, PartialEq, Eq)]
pub struct Beside {
    /// The left margin; `None` is `auto`.
    pub margin_left: Option<Units>,
    /// The left border.
    pub border_left: Units,
    /// The left padding.
    pub padding_left: Units,
    /// The right padding.
    pub padding_right: Units,
    /// The right border.
    pub border_right: Units,
    /// The right margin; `None` is `auto`.
    pub margin_right: Option<Units>,
}

/// The used values of a box from its left margin to its right one.
#[derive(Clone, Copy, Debug, PartialEq, Eq)]
pub struct Row {
    /// The left margin.
    pub margin_left: Units,
    /// The left border.
    pub border_left: Units,
    /// The left padding.
    pub padding_left: Units,
    /// The width of the content box.
    pub width: Units,
    /// The right padding.
    pub padding_right: Units,
    /// The right border.
    pub border_right: Units,
    /// The right margin.
    pub margin_right: Units,
}
