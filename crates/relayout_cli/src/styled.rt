//! Which pages may have other boxes than plain blocks.
ghost use Rattle.std.specs.Prelude.{◌≡◌, IfOk, Some, codes};
ghost use Rattle.std.specs.List.{list_any};
ghost use Rattle.page_model.specs.Document.{name_at};
ghost use Rattle.selectors_model.specs.Elements.{is_same_name};
ghost use Rattle.request_model.specs.States.{is_styled, is_styled_page};
ghost use Rattle.relayout_cli.specs.Pages.{page_view};

use crate::elements::elements;
use crate::page::Page;
use crate::sheets::any_has_rules;
use dom_arena::Doc;
use port_core::{NoMemory, NodeId};
use std::alloc::Global;

/// Returns whether a box of a page may be another than that of a plain block: a sheet has a style
/// rule, or an element is not a `div` or has a `style` attribute.
pub fn is_styled_page(alloc: Global, page: &Page) -> Result<bool, NoMemory>
    ensures { IfOk result (λ styled. styled ≡ is_styled_page (page_view page.now)) }
{
    if any_has_rules(page.sheets.as_slice()) {
        return Ok(true);
    }
    let ids = elements(alloc, &page.document)?;
    Ok(any_is_styled(&page.document, ids.as_slice()))
}

fn any_is_styled(doc: &Doc, ids: &[NodeId]) -> bool
    ensures { result ≡ list_any (is_styled doc.now.document.root) ids.now }
{
    for id in ids {
        if is_styled(doc, *id) {
            return true;
        }
    }
    false
}

fn is_styled(doc: &Doc, id: NodeId) -> bool
    ensures { result ≡ is_styled doc.now.document.root id }
{
    !is_div(doc, id) || doc.attr(id, "style").is_some()
}

fn is_div(doc: &Doc, id: NodeId) -> bool
    ensures { result ≡ is_same_name (name_at id doc.now.document.root) (Some (codes "div")) }
{
    match doc.tag(id) {
        Some(tag) => tag == "div",
        None => false,
    }
}
