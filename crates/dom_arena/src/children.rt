//! The children of a node, one after another (DOM section 4.4, childNodes).
ghost use Rattle.std.specs.Prelude.{◌≡◌};
ghost use Rattle.std.specs.Iterator.{YieldsFirst, item_count};
ghost use Rattle.dom_arena.specs.Reading.{ids_from};
ghost use Rattle.dom_arena.specs.Slots.{target};

use crate::link::Link;
use crate::reading::next_of;
use crate::store::Store;
use port_core::NodeId;
use std::marker::Model;

/// The ids of a node's children, in order.
///
/// Contracts see the list of those that are left.
#[derive(Debug, Drop)]
pub struct Children<'a> {
    store: &'a Store,
    /// The next child.
    next: Link,
    /// How many are left.
    left: u32,
}

impl<'a> Model for Children<'a> {
    ghost use Rattle.std.specs.Prelude.{List, ℕ};
    ghost use Rattle.dom_arena.specs.Reading.{ids_from};
    ghost use Rattle.dom_arena.specs.Slots.{target};

    ghost Value = { List ℕ };

    ghost view = { λ c. ids_from c.store.now.slots.items c.left (target c.next) };
}

impl<'a> Children<'a> {
    /// Returns the ids of `count` siblings, from that in the slot of `first` on.
    pub(crate) fn from(store: &'a Store, first: Link, count: u32) -> Children<'a>
        ensures { result ≡ ids_from store.entry.now.slots.items count (target first) }
    {
        Children {
            store,
            next: first,
            left: count,
        }
    }
}

impl<'a> Iterator for Children<'a> {
    type Item = NodeId;

    ghost next_gives = { YieldsFirst (λ c. c) };

    ghost remaining = { item_count (λ c. c) };

    fn next(&mut self) -> Option<NodeId> {
        if self.left == 0 {
            return None;
        }
        let at = self.next.get()?;
        self.next = next_of(self.store.slots.as_slice(), at);
        self.left -= 1;
        Some(self.store.id_in(at))
    }
}
