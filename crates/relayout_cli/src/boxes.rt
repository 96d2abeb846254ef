//! The boxes of elements.
ghost use Rattle.std.specs.Prelude.{◌≡◌, ◌≤◌};
ghost use Rattle.page_model.specs.declared.limits.TheConstants.{MAX_SIDE};
ghost use Rattle.layout_model.specs.Boxes.{units_of_pixels};
ghost use Rattle.relayout_cli.specs.inner.Flat.{flat_box};
ghost use Rattle.relayout_cli.specs.inner.Frames.{frame_view};

use units64::Units;

/// The number of units of a pixel.
const UNITS_PER_PIXEL: i64 = 64;

/// An element's box, in units: how far its border edge stands from the content edge of its
/// containing block, and the sizes of its border box and its content box (CSS 2.1 section 8.1).
#[derive(Clone, Copy, Debug, PartialEq, Eq)]
pub struct Frame {
    pub left: Units,
    pub top: Units,
    pub width: Units,
    pub height: Units,
    pub content_width: Units,
    pub content_height: Units,
}

impl Frame {
    /// Returns the box of a block without margins, borders, paddings and a height of its own: it
    /// fills the width that it has (CSS 2.1 sections 10.3.3 and 10.6.3).
    pub fn flat(available: Units) -> Frame
        ensures { frame_view result ≡ flat_box available }
    {
        let none = Units::new(0);
        Frame {
            left: none,
            top: none,
            width: available,
            height: none,
            content_width: available,
            content_height: none,
        }
    }
}

/// Returns `pixels`, at most 10,000, in units.
pub fn units_of(pixels: u64) -> Units
    requires small { pixels ≤ MAX_SIDE }
    ensures { result ≡ units_of_pixels pixels }
{
    Units::new(UNITS_PER_PIXEL * pixels as i64)
}
