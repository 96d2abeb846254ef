//! Features of a size (Media Queries 4, sections 4.1 to 4.4).

/// A feature of a size.
#[derive(Clone, Copy, Debug, PartialEq, Eq)]
pub enum FeatureName {
    /// `width`.
    Width,
    /// `height`.
    Height,
    /// `aspect-ratio`.
    AspectRatio,
    /// `orientation`.
    Orientation,
}
