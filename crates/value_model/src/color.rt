//! Colours (CSS Color 4).

/// A colour of the sRGB space: three components and alpha, each from 0 to 255 (CSS Color 4, section
/// 4).
#[derive(Clone, Copy, Debug, PartialEq, Eq)]
pub struct Rgba {
    /// Red.
    pub red: u8,
    /// Green.
    pub green: u8,
    /// Blue.
    pub blue: u8,
    /// Alpha: 0 is transparent, 255 opaque.
    pub alpha: u8,
}

/// A colour as it is computed (CSS Color 4, section 6.4).
#[derive(Clone, Copy, Debug, PartialEq, Eq)]
pub enum Color {
    /// The value of `color`.
    CurrentColor,
    /// This colour.
    Rgba(Rgba),
}
