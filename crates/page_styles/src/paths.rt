//! The way from an element up to the root.
ghost use Rattle.page_styles.specs.Paths.{IsPathAbove};
ghost use Rattle.std.specs.Prelude.{◌≡◌, IfOk};

use dom_arena::Doc;
use port_core::{NoMemory, NodeId, Seq};
use std::alloc::Global;

/// Returns the elements above the node `id`, the nearest first (DOM section 4.4, parentNode).
pub(crate) fn path_above(alloc: Global, doc: &Doc, id: NodeId) -> Result<Seq<NodeId>, NoMemory>
    ensures { IfOk result (IsPathAbove doc.now.document.root id) }
{
    let mut above = Seq::new(alloc);
    let _ = doc.root();
    let mut at = id;
    'up: loop {
        match doc.parent(at) {
            Some(parent) => {
                above.push(parent)?;
                at = parent;
            }
            None => return Ok(above),
        }
    }
}
