//! Giving a node another place in a document (DOM section 4.2.3, remove and insert).
ghost use Rattle.std.specs.Prelude.{◌≡◌, ◌≢◌, ◌≤◌, ◌+◌, ℕ, None, false, is_some, length, nat_lt, option_and_then, slice_get, unwrap_or};
ghost use Rattle.page_model.specs.Document.{Node, children_of, id_of, ids_of};
ghost use Rattle.page_model.specs.Edits.{child_count, document_after_move, height_at, is_within, level as level_of, move_causes, tree_after_remove};
ghost use Rattle.page_model.specs.Refusals.{first_of};
ghost use Rattle.page_model.specs.declared.limits.TheConstants.{MAX_DEPTH};
ghost use Rattle.dom_arena.specs.Cells.{IsLinked};
ghost use Rattle.dom_arena.specs.Docs.{IsDoc, document_in};
ghost use Rattle.dom_arena.specs.Faults.{ChecksBy};
ghost use Rattle.dom_arena.specs.Moving.{IsHung, leads_to, slot_document};
ghost use Rattle.dom_arena.specs.Reading.{tree_in};
ghost use Rattle.dom_arena.specs.Slots.{IsLive, cells_of, content_at, id_at, name_in, target, up_link};
ghost use Rattle.dom_arena.specs.Taking.{IsDocOf};
ghost use Rattle.dom_arena.specs.Views.{kept};

use crate::fault::DocFault;
use crate::heights::height;
use crate::levels::level;
use crate::links::attach;
use crate::places::place;
use crate::reading::{children_of, is_element_at, parent_of};
use crate::remove::take_out;
use crate::slot::Slot;
use crate::store::Store;
use page_model::MAX_DEPTH;

/// Whether the node in the slot `from` is that in the slot `at`, which is not the root, or stands below
/// it. Its time is linear in the level of `from`.
fn stands_within(store: &Store, at: u32, from: u32) -> bool
    ensures { (x : ℕ) → IsDoc (kept store.now) x → IsLive store.now.slots.items at
        → IsLive store.now.slots.items from → at ≢ x
        → result ≡ is_within at from (tree_in store.now.slots.items x) }
{
    let mut up = from;
    for above in 0..MAX_DEPTH {
        let _ = above;
        if up == at {
            return true;
        }
        match parent_of(store.slots.as_slice(), up).get() {
            Some(parent) => up = parent,
            None => return false,
        }
    }
    false
}

/// Whether the node in the slot `at` is a child of that in the slot `parent`.
fn is_child(slots: &[Slot], at: u32, parent: u32) -> bool
    ensures { result ≡ leads_to parent (target (up_link (slice_get slots.now at))) }
{
    match parent_of(slots, at).get() {
        Some(up) => up == parent,
        None => false,
    }
}

/// Returns how many children the node in the slot `parent` has besides that in the slot `at`.
fn children_without(store: &Store, at: u32, parent: u32) -> u32
    ensures { (x : ℕ) → IsDoc (kept store.now) x → IsLive store.now.slots.items at
        → IsLive store.now.slots.items parent → at ≢ x
        → is_within at parent (tree_in store.now.slots.items x) ≡ false
        → result ≡ child_count parent (tree_after_remove at (tree_in store.now.slots.items x)) }
{
    let slots = store.slots.as_slice();
    let (_, count) = children_of(slots, parent);
    if is_child(slots, at, parent) {
        count.saturating_sub(1)
    } else {
        count
    }
}

/// Whether the tree below the slot `at` would reach too deep below the node in the slot `parent`. Its
/// time is linear in the nodes of the tree and in the level of `parent`.
fn is_too_deep(store: &Store, at: u32, parent: u32) -> bool
    ensures { (x : ℕ) → IsDoc (kept store.now) x → IsLive store.now.slots.items at
        → IsLive store.now.slots.items parent
        → result ≡ nat_lt MAX_DEPTH (unwrap_or (level_of parent (tree_in store.now.slots.items x)) 0
        + height_at at (tree_in store.now.slots.items x)) }
{
    let above = level(store, parent);
    let levels = height(store.slots.as_slice(), at, MAX_DEPTH);
    above.saturating_add(levels) > MAX_DEPTH
}

/// Refuses to make the node in the slot `at` the child at `index` of that in the slot `parent`.
pub fn check_move(
    store: &Store,
    root: u32,
    at: u32,
    parent: u32,
    index: usize,
) -> Result<(), DocFault>
    requires doc { IsDoc (kept store.now) root }
    requires node { IsLive store.now.slots.items at }
    requires parent { IsLive store.now.slots.items parent }
    ensures { ChecksBy (move_causes at parent index (slot_document (kept store.now) root)) result }
{
    if at == root {
        return Err(DocFault::IsRoot);
    }
    if !is_element_at(store.slots.as_slice(), parent) {
        return Err(DocFault::NotElement);
    }
    if stands_within(store, at, parent) {
        return Err(DocFault::Cycle);
    }
    if index > children_without(store, at, parent) as usize {
        return Err(DocFault::BadIndex);
    }
    if is_too_deep(store, at, parent) {
        return Err(DocFault::DepthLimit);
    }
    Ok(())
}

/// Hangs the node in the slot `at` below that in the slot `parent`, as the child at `index`.
fn hang(slots: &mut [Slot], at: u32, parent: u32, index: usize)
    ensures { (p : Node) → id_of p ≡ parent → IsLinked (cells_of slots.old) p
        → index ≤ length (ids_of (children_of p))
        → IsHung slots.old slots.new parent at index (ids_of (children_of p)) }
{
    let (prev, next) = place(slots, parent, index);
    attach(slots, parent, at, prev, next);
}

/// Makes the node in the slot `at` the child at `index` of that in the slot `parent`.
pub fn move_tree(store: &mut Store, at: u32, parent: u32, index: usize)
    ensures { (root : ℕ) → IsDoc (kept store.old) root → IsLive store.old.slots.items at
        → IsLive store.old.slots.items parent
        → first_of (move_causes at parent index (slot_document (kept store.old) root)) ≡ None
        → IsDocOf (kept store.new) root (document_after_move (id_at store.old.slots.items at)
        (id_at store.old.slots.items parent) index (document_in (kept store.old) root)) }
{
    let slots = store.slots.as_mut_slice();
    take_out(slots, at);
    hang(slots, at, parent, index);
}
