//! Orientations (Media Queries 4, section 4.4).

/// A value of the feature `orientation`.
#[derive(Clone, Copy, Debug, PartialEq, Eq)]
pub enum Orientation {
    /// The height is at least the width.
    Portrait,
    /// The width is more than the height.
    Landscape,
}
