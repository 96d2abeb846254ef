//! What a style makes of an element's box.
use crate::box_kind::BoxKind;

/// The kind of an element's box, and which containment it has.
#[derive(Clone, Copy, Debug, PartialEq, Eq)]
pub struct Effects {
    /// The kind of box.
    pub kind: BoxKind,
    /// The box is the root of a block formatting context (CSS 2.1, section 9.4.1).
    pub independent: bool,
    /// The box has inline-size containment (CSS Containment 3, section 3.2).
    pub inline_contained: bool,
    /// The box has size containment (CSS Containment 2, section 3.1).
    pub size_contained: bool,
    /// The box has layout containment (CSS Containment 2, section 3.2).
    pub layout_contained: bool,
}
