//! A node as it is kept.
use crate::attrs::Attrs;
use crate::link::Link;
use port_core::Text;

/// What stands in a slot.
#[derive(Debug, Drop)]
pub enum Content {
    /// An element: its name and its attributes.
    Element(Text, Attrs),
    /// A text: its code points.
    Chars(Text),
    /// Nothing; the link leads to the next slot in the list of free ones.
    Free(Link),
}

/// A node as it is kept, with links to those beside it.
#[derive(Debug, Drop)]
pub struct Slot {
    /// The node's id.
    pub id: u32,
    /// The element that has the node among its children.
    pub parent: Link,
    /// The sibling before the node.
    pub prev: Link,
    /// The sibling after the node.
    pub next: Link,
    /// The first child.
    pub first: Link,
    /// The last child.
    pub last: Link,
    /// The number of children.
    pub children: u32,
    /// The number of code points of the text, or of the values of the attributes together.
    pub size: u32,
    /// What the node is.
    pub content: Content,
}
