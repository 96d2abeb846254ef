//! Kinds of boxes (CSS 2.1, section 9.2).

/// The kind of box that an element has.
#[derive(Clone, Copy, Debug, PartialEq, Eq)]
pub enum BoxKind {
    /// A block box.
    Block,
    /// An inline-block box.
    InlineBlock,
    /// Inline boxes.
    Inline,
    /// None.
    NoBox,
}
