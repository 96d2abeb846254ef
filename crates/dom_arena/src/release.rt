//! Releasing the slots of a node and of all below it.
ghost use Rattle.std.specs.Prelude.{◌≡◌, length, List};
ghost use Rattle.page_model.specs.Trees.{text_size, text_sizes};
ghost use Rattle.page_model.specs.Document.{Node, nodes_of, ids, all_ids, without_ids, all_without_ids};
ghost use Rattle.dom_arena.specs.Slots.{target};
ghost use Rattle.dom_arena.specs.Built.{Released, IsBranch, AreBranches};
ghost use Rattle.dom_arena.specs.Views.{kept};

use crate::link::Link;
use crate::reading::{children_of, next_of};
use crate::store::Store;

/// Releases the node in the slot `at` and all below it, at most `levels` deep.
#[cycle(release)]
pub fn release_tree(store: &mut Store, at: u32, levels: u32)
    ensures { (n : Node) → IsBranch (kept store.old) at levels n
        → Released (kept store.old) (kept store.new) (ids n) (text_size (without_ids n)) }
{
    if levels == 0 {
        return;
    }
    let (first, count) = children_of(store.slots.as_slice(), at);
    release_children(store, first, count, levels - 1);
    if (at as usize) < store.slots.len() {
        store.release(at);
    }
}

/// Releases `count` siblings from `first` on with all below them, at most `levels` deep.
#[cycle(release)]
fn release_children(store: &mut Store, first: Link, count: u32, levels: u32)
    ensures { (ns : List Node) → AreBranches (kept store.old) (target first) levels ns → length ns ≡ count
        → Released (kept store.old) (kept store.new) (all_ids (nodes_of ns))
        (text_sizes (all_without_ids (nodes_of ns))) }
{
    let mut at = first;
    for index in 0..count {
        let _ = index;
        let Some(child) = at.get() else {
            return;
        };
        at = next_of(store.slots.as_slice(), child);
        release_tree(store, child, levels);
    }
}
