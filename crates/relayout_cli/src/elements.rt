//! The elements of a document.
ghost use Rattle.std.specs.Prelude.{◌≡◌, ◌++◌, IfOk, OnOk};
ghost use Rattle.std.specs.List.{All};
ghost use Rattle.selectors_model.specs.Matching.{elements_among, elements_of};
ghost use Rattle.relayout_cli.specs.inner.Walk.{node_at, nodes_at, Reaches, AllReach};
ghost use Rattle.relayout_cli.specs.inner.Elements.{IsElement};

use dom_arena::{Children, Doc};
use page_model::MAX_DEPTH;
use port_core::{NoMemory, NodeId, Seq};
use std::alloc::Global;

/// Returns the ids of the elements of a document, in document order.
pub fn elements(alloc: Global, doc: &Doc) -> Result<Seq<NodeId>, NoMemory>
    ensures ids { IfOk result (λ ids. ids ≡ elements_of doc.now.document.root) }
    ensures elements { IfOk result (All (IsElement doc.now.document.root)) }
{
    let mut ids = Seq::new(alloc);
    push_elements(&mut ids, doc, doc.root(), MAX_DEPTH)?;
    Ok(ids)
}

/// Appends the ids of the node `id`, if it is an element, and of the elements below it. No node
/// stands more than `levels` deep below: the recursion ends by that, and nothing is left out.
#[cycle(elements)]
fn push_elements(ids: &mut Seq<NodeId>, doc: &Doc, id: NodeId, levels: u32) -> Result<(), NoMemory>
    requires { Reaches levels id doc.now.document.root }
    ensures { OnOk result (ids.new ≡ ids.old ++ elements_of (node_at id doc.now.document.root)) }
{
    if doc.tag(id).is_none() {
        return Ok(());
    }
    ids.push(id)?;
    push_elements_among(ids, doc, doc.children(id), levels - 1)
}

/// Appends the ids of the elements among these children and below them.
#[cycle(elements)]
fn push_elements_among(
    ids: &mut Seq<NodeId>,
    doc: &Doc,
    kids: Children,
    levels: u32,
) -> Result<(), NoMemory>
    requires { AllReach levels kids doc.now.document.root }
    ensures { OnOk result (ids.new ≡ ids.old ++ elements_among (nodes_at kids.entry doc.now.document.root)) }
{
    for kid in kids {
        push_elements(ids, doc, kid, levels)?;
    }
    Ok(())
}
