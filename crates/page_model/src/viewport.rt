//! The viewport.

/// The viewport's sides, in pixels.
#[derive(Clone, Copy, Debug, PartialEq, Eq)]
pub struct Viewport {
    /// The width, in pixels.
    pub width: u64,
    /// The height, in pixels.
    pub height: u64,
}
