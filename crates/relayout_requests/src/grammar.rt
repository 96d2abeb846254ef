//! The grammar of requests.
ghost use Rattle.std.specs.Prelude.{◌≡◌, Some, IfOk};
ghost use Rattle.serde_json.specs.View.{view};
ghost use Rattle.request_model.specs.Requests.{asked_of, is_name_not_built, request_named, load_of, insert_of, remove_of, sheet_of, dump_of, rules_of, match_of, style_of};
ghost use Rattle.relayout_requests.specs.Views.{asked_view, request_view, edit_view};
ghost use Rattle.relayout_requests.specs.Reads.{Reads};

use crate::members::{
    count_members, doc_at, number_at, string_at, text_or_null_at, texts_at, tree_at,
};
use crate::request::{Asked, Edit, Request};
use crate::unread::Unread;
use page_model::Cause;
use port_core::{NoMemory, Text};
use request_model::Query;
use serde_json::Value;
use std::alloc::Global;

/// Returns what a value asks for.
#[tactic(auto, unfolding(request_model::specs::Requests::asked_of))]
pub fn ask_value(alloc: Global, value: &Value) -> Result<Asked, NoMemory>
    ensures { IfOk result (λ a. asked_view a ≡ asked_of (Some (view value.now))) }
{
    let Some(name) = string_at(value, "do") else {
        return Ok(Asked::Broken(Cause::BadRequest));
    };
    if is_name_not_built(name) {
        return Ok(Asked::Broken(Cause::NotBuilt));
    }
    match read_named(alloc, name, value) {
        Ok(request) => Ok(Asked::Request(request)),
        Err(Unread::BadRequest) => Ok(Asked::Broken(Cause::BadRequest)),
        Err(Unread::NoMemory) => Err(NoMemory),
    }
}

/// Returns whether requests of this name are known and not built yet.
#[tactic(auto, unfolding(request_model::specs::Requests::is_name_not_built))]
fn is_name_not_built(name: &str) -> bool
    ensures { result ≡ is_name_not_built name.now }
{
    matches!(
        name,
        "resize" | "move" | "set-attr" | "drop-attr" | "set-text" | "counts"
    )
}

/// Reads the request `name`.
#[tactic(auto, unfolding(request_model::specs::Requests::request_named))]
fn read_named(alloc: Global, name: &str, value: &Value) -> Result<Request, Unread>
    ensures { Reads request_view result (request_named name.now (view value.now)) }
{
    match name {
        "load" => Ok(Request::Edit(read_load(alloc, value)?)),
        "insert" => Ok(Request::Edit(read_insert(alloc, value)?)),
        "remove" => Ok(Request::Edit(read_remove(value)?)),
        "sheet" => Ok(Request::Edit(read_sheet(alloc, value)?)),
        "dump" => Ok(Request::Query(read_dump(value)?)),
        "rules" => Ok(Request::Query(read_rules(value)?)),
        "match" => Ok(Request::Query(read_match(alloc, value)?)),
        "style" => Ok(Request::Query(read_style(value)?)),
        _ => Err(Unread::BadRequest),
    }
}

#[tactic(auto, unfolding(request_model::specs::Requests::load_of))]
fn read_load(alloc: Global, value: &Value) -> Result<Edit, Unread>
    ensures { Reads edit_view result (load_of (view value.now)) }
{
    let width = number_at(value, "width")?;
    let height = number_at(value, "height")?;
    let doc = doc_at(alloc, value, "doc")?;
    let sheets = texts_at(alloc, value, "sheets")?;
    let members = if sheets.is_some() { 5 } else { 4 };
    if count_members(value) != members {
        return Err(Unread::BadRequest);
    }
    Ok(Edit::Load {
        width,
        height,
        doc,
        sheets,
    })
}

#[tactic(auto, unfolding(request_model::specs::Requests::insert_of))]
fn read_insert(alloc: Global, value: &Value) -> Result<Edit, Unread>
    ensures { Reads edit_view result (insert_of (view value.now)) }
{
    let parent = number_at(value, "parent")?;
    let index = number_at(value, "index")?;
    let tree = tree_at(alloc, value, "tree")?;
    if count_members(value) != 4 {
        return Err(Unread::BadRequest);
    }
    Ok(Edit::Insert {
        parent,
        index,
        tree,
    })
}

#[tactic(auto, unfolding(request_model::specs::Requests::remove_of))]
fn read_remove(value: &Value) -> Result<Edit, Unread>
    ensures { Reads edit_view result (remove_of (view value.now)) }
{
    let id = number_at(value, "id")?;
    if count_members(value) != 2 {
        return Err(Unread::BadRequest);
    }
    Ok(Edit::Remove { id })
}

#[tactic(auto, unfolding(request_model::specs::Requests::sheet_of))]
fn read_sheet(alloc: Global, value: &Value) -> Result<Edit, Unread>
    ensures { Reads edit_view result (sheet_of (view value.now)) }
{
    let at = number_at(value, "at")?;
    let css = text_or_null_at(alloc, value, "css")?;
    if count_members(value) != 3 {
        return Err(Unread::BadRequest);
    }
    Ok(Edit::Sheet { at, css })
}

#[tactic(auto, unfolding(request_model::specs::Requests::dump_of))]
fn read_dump(value: &Value) -> Result<Query, Unread>
    ensures { Reads (λ q. q) result (dump_of (view value.now)) }
{
    if count_members(value) != 1 {
        return Err(Unread::BadRequest);
    }
    Ok(Query::Dump)
}

#[tactic(auto, unfolding(request_model::specs::Requests::rules_of))]
fn read_rules(value: &Value) -> Result<Query, Unread>
    ensures { Reads (λ q. q) result (rules_of (view value.now)) }
{
    if count_members(value) != 1 {
        return Err(Unread::BadRequest);
    }
    Ok(Query::Rules)
}

#[tactic(auto, unfolding(request_model::specs::Requests::match_of))]
fn read_match(alloc: Global, value: &Value) -> Result<Query, Unread>
    ensures { Reads (λ q. q) result (match_of (view value.now)) }
{
    let Some(selector) = string_at(value, "selector") else {
        return Err(Unread::BadRequest);
    };
    if count_members(value) != 2 {
        return Err(Unread::BadRequest);
    }
    Ok(Query::Match(Text::new(alloc, selector)?))
}

#[tactic(auto, unfolding(request_model::specs::Requests::style_of))]
fn read_style(value: &Value) -> Result<Query, Unread>
    ensures { Reads (λ q. q) result (style_of (view value.now)) }
{
    let id = number_at(value, "id")?;
    if count_members(value) != 2 {
        return Err(Unread::BadRequest);
    }
    Ok(Query::Style(id))
}
