//! Taking a node out of a document (DOM section 4.2.3, remove).
ghost use Rattle.std.specs.Prelude.{◌≡◌, ◌≢◌, ℕ, Some, IfOk};
ghost use Rattle.page_model.specs.Edits.{document_after_remove, remove_causes};
ghost use Rattle.dom_arena.specs.Docs.{IsDoc, document_in};
ghost use Rattle.dom_arena.specs.Faults.{ChecksBy};
ghost use Rattle.dom_arena.specs.Slots.{IsLive, id_at, table_at};
ghost use Rattle.dom_arena.specs.Taking.{IsDocOf, taken_out};
ghost use Rattle.dom_arena.specs.Views.{kept};

use crate::fault::DocFault;
use crate::links::detach;
use crate::reading::place_of;
use crate::release::release_tree;
use crate::slot::Slot;
use crate::store::Store;
use page_model::MAX_DEPTH;
use port_core::NodeId;

/// Returns the slot of the node `id`, which is not the root.
pub fn inner_slot(store: &Store, root: u32, id: NodeId) -> Result<u32, DocFault>
    requires { IsDoc (kept store.now) root }
    ensures slot { IfOk result (λ at. table_at store.now.table.items id ≡ Some at) }
    ensures inner { IfOk result (λ at. at ≢ root) }
    ensures causes { ChecksBy (remove_causes id (document_in (kept store.now) root)) result }
{
    let Some(at) = store.at(id) else {
        return Err(DocFault::NoNode);
    };
    if at == root {
        return Err(DocFault::IsRoot);
    }
    Ok(at)
}

/// Takes the node in the slot `at` out of its parent's children; its own links stay.
pub fn take_out(slots: &mut [Slot], at: u32)
    ensures { slots.new ≡ taken_out at slots.old }
{
    let (parent, prev, next) = place_of(slots, at);
    if let Some(parent) = parent.get() {
        detach(slots, parent, prev, next);
    }
}

/// Takes the node in the slot `at` out of its parent's children, and releases it with all below it.
pub fn remove_tree(store: &mut Store, at: u32)
    ensures { (root : ℕ) → IsDoc (kept store.old) root → IsLive store.old.slots.items at → at ≢ root
        → IsDocOf (kept store.new) root
        (document_after_remove (id_at store.old.slots.items at) (document_in (kept store.old) root)) }
{
    take_out(store.slots.as_mut_slice(), at);
    release_tree(store, at, MAX_DEPTH);
}
