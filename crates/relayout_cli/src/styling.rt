//! The reply to `style`.
ghost use Rattle.std.specs.Prelude.{◌≡◌, ◌++◌, [], IfErr, IfOk, IsSome, None, OnErr, OnOk, Some, string_bytes};
ghost use Rattle.std.specs.List.{list_any};
ghost use Rattle.page_model.specs.Document.{name_at};
ghost use Rattle.page_model.specs.Refusals.{first_of};
ghost use Rattle.page_styles.specs.Styles.{LogsStyling};
ghost use Rattle.request_model.specs.UnbuiltStyles.{has_unbuilt_attribute, has_unbuilt_styles};
ghost use Rattle.relayout_cli.specs.Pages.{page_view};
ghost use Rattle.relayout_cli.specs.inner.StyleReplies.{AnswersStyle, IsStyleOf, node_causes};

use crate::elements::elements;
use crate::page::Page;
use crate::replies::{push_error, push_ok};
use cascade_core::RuleBook;
use dom_arena::Doc;
use page_model::Cause;
use page_styles::{any_unbuilt_rule, is_unbuilt_attribute, style_of_element};
use port_core::{NoMemory, NodeId, Steps};
use reply_texts::push_style;
use std::alloc::Global;

/// Answers a style, or refuses it.
pub fn respond_style<L: Drop>(
    alloc: Global,
    page: &Page,
    id: u64,
    reply: &mut String,
    steps: &mut Steps<L>,
) -> Result<(), NoMemory>
    requires empty { string_bytes reply.old ≡ [] }
    ensures answer { OnOk result
        (AnswersStyle id (page_view page.now) (string_bytes reply.new) steps.old steps.new) }
    ensures begun { OnErr result (LogsStyling page.now.document.document.root steps.old steps.new) }
{
    let node = match element_id(&page.document, id) {
        Ok(node) => node,
        Err(cause) => return push_error(reply, cause),
    };
    let unbuilt = has_unbuilt_styles(alloc, page)?;
    if unbuilt {
        return push_error(reply, Cause::NotBuilt);
    }
    push_style_of(alloc, page, node, reply, steps)
}

/// Appends the reply to a style that is not refused.
fn push_style_of<L: Drop>(
    alloc: Global,
    page: &Page,
    id: NodeId,
    reply: &mut String,
    steps: &mut Steps<L>,
) -> Result<(), NoMemory>
    requires empty { string_bytes reply.old ≡ [] }
    requires element { IsSome (name_at id page.now.document.document.root) }
    ensures style { OnOk result (IsStyleOf id (page_view page.now) (string_bytes reply.new)) }
    ensures logged { LogsStyling page.now.document.document.root steps.old steps.new }
{
    let _ = page.document.root();
    let book = RuleBook::read(alloc, &page.sheets)?;
    let styled = style_of_element(alloc, &page.document, &book, page.viewport, id, steps)?;
    push_style(reply, styled.style(), styled.env())?;
    push_ok(reply)
}

/// Returns the element with this id, or why there is none.
fn element_id(doc: &Doc, id: u64) -> Result<NodeId, Cause>
    ensures id { IfOk result (λ node. node ≡ id) }
    ensures element { OnOk result (IsSome (name_at id doc.now.document.root)) }
    ensures allowed { OnOk result (first_of (node_causes id doc.now.document.root) ≡ None) }
    ensures refused { IfErr result (λ cause. first_of (node_causes id doc.now.document.root) ≡ Some cause) }
{
    if id >= doc.next_id() as u64 {
        return Err(Cause::NoNode);
    }
    let node = id as NodeId;
    if !doc.is_live(node) {
        return Err(Cause::NoNode);
    }
    if doc.tag(node).is_none() {
        return Err(Cause::NotElement);
    }
    Ok(node)
}

/// Returns whether styles of a page are not built yet.
fn has_unbuilt_styles(alloc: Global, page: &Page) -> Result<bool, NoMemory>
    ensures { IfOk result (λ unbuilt. unbuilt ≡ has_unbuilt_styles (page_view page.now)) }
{
    if any_unbuilt_rule(page.sheets.as_slice()) {
        return Ok(true);
    }
    let ids = elements(alloc, &page.document)?;
    any_unbuilt_attribute(alloc, &page.document, ids.as_slice())
}

fn any_unbuilt_attribute(alloc: Global, doc: &Doc, ids: &[NodeId]) -> Result<bool, NoMemory>
    ensures { IfOk result (λ unbuilt. unbuilt
        ≡ list_any (has_unbuilt_attribute doc.now.document.root) ids.now) }
{
    for id in ids {
        let unbuilt = has_unbuilt_attribute(alloc, doc, *id)?;
        if unbuilt {
            return Ok(true);
        }
    }
    Ok(false)
}

fn has_unbuilt_attribute(alloc: Global, doc: &Doc, id: NodeId) -> Result<bool, NoMemory>
    ensures { IfOk result (λ unbuilt. unbuilt ≡ has_unbuilt_attribute doc.now.document.root id) }
{
    match doc.attr(id, "style") {
        Some(text) => is_unbuilt_attribute(alloc, text),
        None => Ok(false),
    }
}
