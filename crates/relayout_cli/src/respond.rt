//! Answering what a line asks for.
ghost use Rattle.std.specs.Prelude.{◌≡◌, [], None, OnOk, OnErr, string_bytes};
ghost use Rattle.page_model.specs.Refusals.{first_of};
ghost use Rattle.request_model.specs.Requests.{edit as an_edit, request as a_request, query as a_query};
ghost use Rattle.request_model.specs.States.{form_causes, logs_of_asked, brings_tree};
ghost use Rattle.relayout_requests.specs.Views.{asked_view, edit_view, request_view};
ghost use Rattle.relayout_cli.specs.Pages.{page_view};
ghost use Rattle.relayout_cli.specs.inner.Dumps.{IsDumpReply};
ghost use Rattle.relayout_cli.specs.inner.MatchReplies.{IsMatchReply};
ghost use Rattle.relayout_cli.specs.inner.Turns.{CarriesOut, IsResponse, SetsOut, empty_logs};

use crate::apply::apply;
use crate::dump::push_dump;
use crate::matches::{push_matches, read_selector};
use crate::page::Page;
use crate::plain::is_built;
use crate::replies::{MAX_EDIT_REPLY, push_accepted, push_error};
use crate::rules::push_rules;
use crate::styled::is_styled_page;
use crate::styling::respond_style;
use page_model::Cause;
use port_core::{NoMemory, Steps, Text};
use relayout_requests::{Asked, Edit, Request};
use request_model::Query;
use std::alloc::Global;

/// Carries out what a line asks for, and appends its reply. Where memory runs out, what is loaded stays as it was.
pub fn respond<L: Drop>(
    alloc: Global,
    state: &mut Option<Page>,
    asked: Asked,
    reply: &mut String,
    steps: &mut Steps<L>,
) -> Result<(), NoMemory>
    requires empty { string_bytes reply.old ≡ [] }
    ensures response { OnOk result (CarriesOut (asked_view asked) (string_bytes reply.new)
        state.old state.new steps.old steps.new) }
    ensures begun { OnErr result (SetsOut (asked_view asked) steps.old steps.new) }
    ensures kept { OnErr result (state.new ≡ state.old) }
{
    match asked {
        Asked::Nothing => Ok(()),
        Asked::Broken(cause) => push_error(reply, cause),
        Asked::Request(request) => {
            if !is_built(&request) {
                return push_error(reply, Cause::NotBuilt);
            }
            respond_built(alloc, state, request, reply, steps)
        }
    }
}

/// Carries out a request whose form is built, or refuses it.
fn respond_built<L: Drop>(
    alloc: Global,
    state: &mut Option<Page>,
    request: Request,
    reply: &mut String,
    steps: &mut Steps<L>,
) -> Result<(), NoMemory>
    requires empty { string_bytes reply.old ≡ [] }
    requires built { first_of (form_causes (request_view request)) ≡ None }
    ensures response { OnOk result (CarriesOut (a_request (request_view request))
        (string_bytes reply.new) state.old state.new steps.old steps.new) }
    ensures begun { OnErr result (SetsOut (a_request (request_view request)) steps.old steps.new) }
    ensures kept { OnErr result (state.new ≡ state.old) }
{
    match request {
        Request::Edit(edit) => respond_edit(alloc, state, edit, reply),
        Request::Query(query) => respond_query(alloc, state, query, reply, steps),
    }
}

/// Carries out an edit, or refuses it. The room for the reply is reserved before anything is
/// changed, so that no memory is wanted afterwards.
fn respond_edit(
    alloc: Global,
    state: &mut Option<Page>,
    edit: Edit,
    reply: &mut String,
) -> Result<(), NoMemory>
    requires empty { string_bytes reply.old ≡ [] }
    requires built { first_of (form_causes (an_edit (edit_view edit))) ≡ None }
    ensures response { OnOk result (IsResponse (a_request (an_edit (edit_view edit)))
        (empty_logs (logs_of_asked (a_request (an_edit (edit_view edit))))) (string_bytes reply.new)
        state.old state.new) }
    ensures kept { OnErr result (state.new ≡ state.old) }
{
    reply.reserve(MAX_EDIT_REPLY)?;
    let brings_tree = brings_tree(&edit);
    match apply(alloc, state, edit) {
        Ok(accepted) => push_accepted(reply, brings_tree, accepted),
        Err(refusal) => match refusal.cause() {
            Some(cause) => push_error(reply, cause),
            None => Err(NoMemory),
        },
    }
}

/// Returns whether an edit brings a tree, whose nodes get ids.
fn brings_tree(edit: &Edit) -> bool
    ensures { result ≡ brings_tree (edit_view edit.now) }
{
    matches!(edit, Edit::Load { .. } | Edit::Insert { .. })
}

/// Answers a query, or refuses it.
fn respond_query<L: Drop>(
    alloc: Global,
    state: &Option<Page>,
    query: Query,
    reply: &mut String,
    steps: &mut Steps<L>,
) -> Result<(), NoMemory>
    requires empty { string_bytes reply.old ≡ [] }
    ensures response { OnOk result (CarriesOut (a_request (a_query query)) (string_bytes reply.new)
        state.now state.now steps.old steps.new) }
    ensures begun { OnErr result (SetsOut (a_request (a_query query)) steps.old steps.new) }
{
    match state {
        Some(page) => match query {
            Query::Dump => respond_dump(alloc, page, reply),
            Query::Rules => push_rules(alloc, page, reply),
            Query::Match(selector) => respond_match(alloc, page, &selector, reply),
            Query::Style(id) => respond_style(alloc, page, id, reply, steps),
        },
        None => push_error(reply, Cause::NotLoaded),
    }
}

/// Dumps a page, or refuses to where a box may be another than that of a plain block.
fn respond_dump(alloc: Global, page: &Page, reply: &mut String) -> Result<(), NoMemory>
    requires empty { string_bytes reply.old ≡ [] }
    ensures { OnOk result (IsDumpReply (page_view page.now) (string_bytes reply.new)) }
{
    let styled = is_styled_page(alloc, page)?;
    if styled {
        return push_error(reply, Cause::NotBuilt);
    }
    push_dump(page, reply)
}

/// Answers a match, or refuses it where the text is no selector list.
fn respond_match(
    alloc: Global,
    page: &Page,
    selector: &Text,
    reply: &mut String,
) -> Result<(), NoMemory>
    requires empty { string_bytes reply.old ≡ [] }
    ensures { OnOk result (IsMatchReply selector.now (page_view page.now) (string_bytes reply.new)) }
{
    match read_selector(alloc, selector)? {
        Some(list) => push_matches(alloc, &page.document, &list, reply),
        None => push_error(reply, Cause::BadSelector),
    }
}
