//! A tree before it gets ids.
ghost use Rattle.std.specs.Prelude.{◌≡◌, ◌-◌, ◌^◌, min, map};
ghost use Rattle.page_model.specs.Trees.{size, sizes, trees_of};
ghost use Rattle.dom_arena.specs.Shape.{shape};

use crate::attrs::Attrs;
use port_core::{Seq, Text};

/// A tree that has no ids yet: an element or a text.
#[derive(Debug, Drop)]
pub enum Tree {
    /// An element: its name, its attributes, its children.
    Elem(Text, Attrs, Seq<Tree>),
    /// A text.
    Chars(Text),
}

impl Tree {
    /// How many nodes the tree has, texts included; 2^32 - 1 where it has more than that.
    pub fn node_count(&self) -> u32
        ensures { result ≡ min (size (shape self.now)) (2 ^ 32 - 1) }
    {
        count(self)
    }
}

#[cycle(count)]
fn count(tree: &Tree) -> u32
    ensures { result ≡ min (size (shape tree.now)) (2 ^ 32 - 1) }
{
    match tree {
        Tree::Elem(_, _, children) => count_all(children.as_slice()).saturating_add(1),
        Tree::Chars(_) => 1,
    }
}

#[cycle(count)]
fn count_all(children: &[Tree]) -> u32
    ensures { result ≡ min (sizes (trees_of (map shape children.now))) (2 ^ 32 - 1) }
{
    let mut nodes: u32 = 0;
    for child in children {
        nodes = nodes.saturating_add(count(child));
    }
    nodes
}
