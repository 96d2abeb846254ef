//! Putting a new tree below an element (DOM section 4.2.3, insert).
ghost use Rattle.std.specs.Prelude.{◌≡◌, ℕ, Some, None, IfOk, OnOk, OnErr};
ghost use Rattle.page_model.specs.Edits.{insert_causes, taken_below};
ghost use Rattle.page_model.specs.Refusals.{first_of};
ghost use Rattle.dom_arena.specs.Docs.{IsDoc, document_in};
ghost use Rattle.dom_arena.specs.Faults.{ChecksBy};
ghost use Rattle.dom_arena.specs.Inserting.{HasRoom, Inserts, element_causes};
ghost use Rattle.dom_arena.specs.Measures.{taken_of};
ghost use Rattle.dom_arena.specs.Shape.{shape};
ghost use Rattle.dom_arena.specs.Slots.{table_at};
ghost use Rattle.dom_arena.specs.Taking.{IsDocOf};
ghost use Rattle.dom_arena.specs.Views.{kept};

use crate::build::build;
use crate::fault::DocFault;
use crate::levels::level;
use crate::limits::{self, Taken};
use crate::links::attach;
use crate::places::place;
use crate::reading::{children_of, is_element_at};
use crate::store::Store;
use crate::tree::Tree;
use port_core::{NoMemory, NodeId};
use std::alloc::Global;

/// Returns the slot of the element `id`.
pub fn element_slot(store: &Store, id: NodeId) -> Result<u32, DocFault>
    ensures slot { IfOk result (λ at. table_at store.now.table.items id ≡ Some at) }
    ensures causes { (root : ℕ) → IsDoc (kept store.now) root
        → ChecksBy (element_causes id (document_in (kept store.now) root)) result }
{
    let Some(at) = store.at(id) else {
        return Err(DocFault::NoNode);
    };
    if !is_element_at(store.slots.as_slice(), at) {
        return Err(DocFault::NotElement);
    }
    Ok(at)
}

/// Returns how much of the limits is taken where a tree is to stand below the node in the slot `at`.
fn taken_at(store: &Store, at: u32) -> Taken
    requires { (root : ℕ) × IsDoc (kept store.now) root }
    ensures { (root id : ℕ) → IsDoc (kept store.now) root → table_at store.now.table.items id ≡ Some at
        → taken_of result ≡ taken_below id (document_in (kept store.now) root) }
{
    Taken {
        level: level(store, at),
        nodes: store.live,
        ids: store.table.len() as u32,
        code_points: store.code_points,
    }
}

/// Returns the slot of the element `parent`, where an insert of `tree` at `index` is not refused.
pub fn insert_slot(
    store: &Store,
    parent: NodeId,
    index: usize,
    tree: &Tree,
) -> Result<u32, DocFault>
    requires { (root : ℕ) × IsDoc (kept store.now) root }
    ensures slot { IfOk result (λ at. table_at store.now.table.items parent ≡ Some at) }
    ensures causes { (root : ℕ) → IsDoc (kept store.now) root
        → ChecksBy (insert_causes parent index (shape tree.now) (document_in (kept store.now) root)) result }
{
    let at = element_slot(store, parent)?;
    let (_, count) = children_of(store.slots.as_slice(), at);
    if index > count as usize {
        return Err(DocFault::BadIndex);
    }
    limits::check(tree, taken_at(store, at))?;
    Ok(at)
}

/// Builds `tree` and hangs it below the node in the slot `at`, as the child at `index`. Where memory runs
/// out, the document is as before.
pub fn insert_tree(
    store: &mut Store,
    alloc: Global,
    at: u32,
    index: usize,
    tree: &Tree,
) -> Result<(), NoMemory>
    requires { HasRoom (kept store.old) (shape tree.now) }
    ensures inserted { OnOk result (Inserts (kept store.old) (kept store.new) at index (shape tree.now)) }
    ensures kept { OnErr result ((root : ℕ) → IsDoc (kept store.old) root
        → IsDocOf (kept store.new) root (document_in (kept store.old) root)) }
{
    let given = store.table.len();
    match build(store, alloc, tree) {
        Ok(child) => {
            let (prev, next) = place(store.slots.as_slice(), at, index);
            attach(store.slots.as_mut_slice(), at, child, prev, next);
            Ok(())
        }
        Err(fault) => {
            store.table.truncate(given);
            Err(fault)
        }
    }
}
