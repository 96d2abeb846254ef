//! Carrying out edits.
ghost use Rattle.std.specs.Prelude.{◌≡◌, OnOk, OnErr, IfOk, IfErr, Some, None, true};
ghost use Rattle.page_model.specs.Document.{find};
ghost use Rattle.page_model.specs.Trees.{is_elem, size};
ghost use Rattle.page_model.specs.Refusals.{first_of, IsRefusedBy};
ghost use Rattle.page_model.specs.Edits.{insert_causes, remove_causes, document_after_insert, document_after_remove};
ghost use Rattle.page_model.specs.declared.refusal.Refusal.TheVariants.{NoNode as no_node};
ghost use Rattle.request_model.specs.Requests.{load, insert, remove};
ghost use Rattle.request_model.specs.States.{edit_causes, state_after_edit, accepted_by, with_document, with_sheets, sheets_after, sheet_causes};
ghost use Rattle.dom_arena.specs.Shape.{shape};
ghost use Rattle.relayout_requests.specs.Views.{edit_view};
ghost use Rattle.relayout_cli.specs.Sheets.{texts_of};
ghost use Rattle.relayout_cli.specs.Pages.{page_view, state_view};
ghost use Rattle.relayout_cli.specs.inner.Edits.{HasRoot};

use crate::page::Page;
use crate::sheets::{change_sheets, read_sheets};
use dom_arena::{Doc, Tree};
use page_model::{MAX_SIDE, Refusal, Viewport};
use port_core::{NodeId, Seq, Text};
use relayout_requests::Edit;
use request_model::Accepted;
use std::alloc::Global;

/// Carries out an edit, or returns why it is not carried out; then nothing is changed.
pub fn apply(alloc: Global, state: &mut Option<Page>, edit: Edit) -> Result<Accepted, Refusal>
    requires root { HasRoot (edit_view edit) }
    ensures accepted { IfOk result (λ a. a ≡ accepted_by (state_view state.old) (edit_view edit)) }
    ensures state { OnOk result (state_view state.new
        ≡ state_after_edit (state_view state.old) (edit_view edit)) }
    ensures allowed { OnOk result (first_of (edit_causes (state_view state.old) (edit_view edit)) ≡ None) }
    ensures refused { IfErr result (IsRefusedBy (edit_causes (state_view state.old) (edit_view edit))) }
    ensures kept { OnErr result (state.new ≡ state.old) }
{
    match edit {
        Edit::Load {
            width,
            height,
            doc,
            sheets,
        } => apply_load(alloc, state, Viewport { width, height }, &doc, sheets),
        Edit::Insert {
            parent,
            index,
            tree,
        } => match state {
            Some(page) => apply_insert(page, parent, index, &tree),
            None => Err(Refusal::NotLoaded),
        },
        Edit::Remove { id } => match state {
            Some(page) => apply_remove(page, id),
            None => Err(Refusal::NotLoaded),
        },
        Edit::Sheet { at, css } => match state {
            Some(page) => apply_sheet(alloc, page, at, css),
            None => Err(Refusal::NotLoaded),
        },
    }
}

/// Replaces what is loaded.
fn apply_load(
    alloc: Global,
    state: &mut Option<Page>,
    viewport: Viewport,
    doc: &Tree,
    sheets: Option<Seq<Text>>,
) -> Result<Accepted, Refusal>
    requires root { is_elem (shape doc.now) ≡ true }
    ensures accepted { IfOk result (λ a. a ≡ record { first = 0; count = size (shape doc.now) }) }
    ensures state { OnOk result (state_view state.new
        ≡ state_after_edit (state_view state.old) (load viewport.width viewport.height
        (shape doc.now) sheets)) }
    ensures allowed { OnOk result
        (first_of (edit_causes (state_view state.old) (load viewport.width viewport.height
        (shape doc.now) sheets)) ≡ None) }
    ensures refused { IfErr result
        (IsRefusedBy (edit_causes (state_view state.old) (load viewport.width viewport.height
        (shape doc.now) sheets))) }
    ensures kept { OnErr result (state.new ≡ state.old) }
{
    if viewport.width > MAX_SIDE || viewport.height > MAX_SIDE {
        return Err(Refusal::ViewportRange);
    }
    let sheets = read_sheets(alloc, sheets)?;
    let document = Doc::new(alloc, doc)?;
    let count = document.next_id();
    let page = Page {
        document,
        sheets,
        viewport,
    };
    *state = Some(page);
    Ok(Accepted { first: 0, count })
}

/// Inserts `tree` at `index` among the children of `parent`.
fn apply_insert(page: &mut Page, parent: u64, index: u64, tree: &Tree) -> Result<Accepted, Refusal>
    ensures accepted { IfOk result (λ a. a
        ≡ record { first = page.old.document.document.next_id; count = size (shape tree.now) }) }
    ensures page { OnOk result (page_view page.new
        ≡ with_document (document_after_insert parent index (shape tree.now))
        (page_view page.old)) }
    ensures allowed { OnOk result
        (first_of (insert_causes parent index (shape tree.now) page.old.document.document) ≡ None) }
    ensures refused { IfErr result
        (IsRefusedBy (insert_causes parent index (shape tree.now) page.old.document.document)) }
    ensures kept { OnErr result (page.new ≡ page.old) }
{
    let parent = node_id(&page.document, parent)?;
    let first = page.document.next_id();
    page.document.insert(parent, index as usize, tree)?;
    let count = page.document.next_id() - first;
    Ok(Accepted { first, count })
}

/// Removes the node `id` with all below it.
fn apply_remove(page: &mut Page, id: u64) -> Result<Accepted, Refusal>
    ensures accepted { IfOk result (λ a. a ≡ record { first = 0; count = 0 }) }
    ensures page { OnOk result (page_view page.new
        ≡ with_document (document_after_remove id) (page_view page.old)) }
    ensures allowed { OnOk result (first_of (remove_causes id page.old.document.document) ≡ None) }
    ensures refused { IfErr result (IsRefusedBy (remove_causes id page.old.document.document)) }
    ensures kept { OnErr result (page.new ≡ page.old) }
{
    let id = node_id(&page.document, id)?;
    page.document.remove(id)?;
    Ok(Accepted { first: 0, count: 0 })
}

/// Puts a style sheet in place of the one at `at` or behind all, or takes that one out.
fn apply_sheet(
    alloc: Global,
    page: &mut Page,
    at: u64,
    css: Option<Text>,
) -> Result<Accepted, Refusal>
    ensures accepted { IfOk result (λ a. a ≡ record { first = 0; count = 0 }) }
    ensures page { OnOk result (page_view page.new
        ≡ with_sheets (sheets_after at css) (page_view page.old)) }
    ensures allowed { OnOk result
        (first_of (sheet_causes at css (texts_of page.old.sheets)) ≡ None) }
    ensures refused { IfErr result
        (IsRefusedBy (sheet_causes at css (texts_of page.old.sheets))) }
    ensures kept { OnErr result (page.new ≡ page.old) }
{
    change_sheets(alloc, &mut page.sheets, at, css)?;
    Ok(Accepted { first: 0, count: 0 })
}

/// Returns `number` as an id, or refuses it where it was not given to any node.
fn node_id(document: &Doc, number: u64) -> Result<NodeId, Refusal>
    ensures id { IfOk result (λ id. id ≡ number) }
    ensures missing { IfErr result (λ r. (r ≡ no_node)
        × (find number document.now.document.root ≡ None)) }
{
    if number < document.next_id() as u64 {
        Ok(number as NodeId)
    } else {
        Err(Refusal::NoNode)
    }
}
