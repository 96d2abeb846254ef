//! The reply to `match` (Selectors 4, section 4.1).
ghost use Rattle.std.specs.Prelude.{◌≡◌, ◌++◌, OnOk, IfOk, codes, filter, flat_map, map, option_map, string_bytes};
ghost use Rattle.std.specs.Fmt.{decimal};
ghost use Rattle.std.specs.List.{All};
ghost use Rattle.selectors_model.specs.Matching.{list_matches};
ghost use Rattle.selectors_model.specs.SelectorTexts.{selector_list_of_text};
ghost use Rattle.selectors.specs.Views.{list_of_selectors, list_view, selector_view};
ghost use Rattle.reply_model.specs.MatchText.{match_line, match_lines};
ghost use Rattle.reply_model.specs.Spelling.{field, ok_line};
ghost use Rattle.relayout_cli.specs.inner.Elements.{IsElement};

use crate::elements::elements;
use crate::replies::push_ok;
use css_rules::{TokenFault, components_of};
use dom_arena::Doc;
use itoa::Buffer;
use port_core::{NoMemory, NodeId, Text};
use reply_texts::{push_field, push_text};
use selectors::{Selector, SelectorList, matches, read_list};
use std::alloc::Global;

/// Returns the selector list that `text` is, or `None` where it is none, or nests too deep.
pub fn read_selector(alloc: Global, text: &Text) -> Result<Option<SelectorList>, NoMemory>
    ensures { IfOk result (λ list. option_map list_view list ≡ selector_list_of_text text.now) }
{
    match components_of(alloc, text.as_str()) {
        Ok(components) => read_list(alloc, &components),
        Err(TokenFault::TooDeep) => Ok(None),
        Err(TokenFault::NoMemory) => Err(NoMemory),
    }
}

/// Appends the reply to `match`: the lines of the elements that `list` matches, in document order,
/// and then `ok`.
pub fn push_matches(
    alloc: Global,
    doc: &Doc,
    list: &SelectorList,
    reply: &mut String,
) -> Result<(), NoMemory>
    ensures { OnOk result (string_bytes reply.new ≡ string_bytes reply.old
        ++ (match_lines (list_view list.now) doc.now.document.root ++ ok_line)) }
{
    let ids = elements(alloc, doc)?;
    push_match_lines(reply, doc, list.members.as_slice(), ids.as_slice())?;
    push_ok(reply)
}

/// Appends the lines of those of these elements that a member matches.
fn push_match_lines(
    reply: &mut String,
    doc: &Doc,
    members: &[Selector],
    ids: &[NodeId],
) -> Result<(), NoMemory>
    requires { All (IsElement doc.now.document.root) ids.now }
    ensures { OnOk result (string_bytes reply.new ≡ string_bytes reply.old
        ++ flat_map match_line (filter (list_matches doc.now.document.root
        (list_of_selectors (map selector_view members.now))) ids.now)) }
{
    for id in ids {
        if any_matches(doc, *id, members) {
            push_match_line(reply, *id)?;
        }
    }
    Ok(())
}

/// Returns whether a member matches an element.
fn any_matches(doc: &Doc, id: NodeId, members: &[Selector]) -> bool
    requires { IsElement doc.now.document.root id }
    ensures { result ≡ list_matches doc.now.document.root
        (list_of_selectors (map selector_view members.now)) id }
{
    for member in members {
        if matches(doc, id, member) {
            return true;
        }
    }
    false
}

/// Appends the line of an element that matches.
#[tactic(auto, unfolding(reply_model::specs::MatchText::match_line))]
fn push_match_line(reply: &mut String, id: NodeId) -> Result<(), NoMemory>
    ensures { OnOk result (string_bytes reply.new ≡ string_bytes reply.old ++ match_line id) }
{
    push_text(reply, "match")?;
    push_field(reply, Buffer::new().format(id))?;
    push_text(reply, "\n")
}
