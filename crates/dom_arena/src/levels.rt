//! The level of a node.
ghost use Rattle.std.specs.Prelude.{◌≡◌, Some, ℕ};
ghost use Rattle.page_model.specs.Edits.{level};
ghost use Rattle.dom_arena.specs.Docs.{IsDoc};
ghost use Rattle.dom_arena.specs.Reading.{tree_in};
ghost use Rattle.dom_arena.specs.Slots.{IsLive};
ghost use Rattle.dom_arena.specs.Views.{kept};

use crate::reading::parent_of;
use crate::store::Store;
use page_model::MAX_DEPTH;

/// Returns the level of the node in the slot `at` of a document, where the root stands at level 1. Its
/// time is linear in the level.
pub fn level(store: &Store, at: u32) -> u32
    ensures { (x : ℕ) → IsDoc (kept store.now) x → IsLive store.now.slots.items at
        → level at (tree_in store.now.slots.items x) ≡ Some result }
{
    let mut up = at;
    for above in 0..MAX_DEPTH {
        match parent_of(store.slots.as_slice(), up).get() {
            Some(parent) => up = parent,
            None => return above + 1,
        }
    }
    MAX_DEPTH
}
