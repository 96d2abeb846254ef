//! The members of an object (RFC 8259 section 4).
ghost use Rattle.std.specs.Prelude.{◌≡◌, option_map};
ghost use Rattle.serde_json.specs.View.{view, items_view};
ghost use Rattle.dom_arena.specs.Shape.{shape};
ghost use Rattle.request_model.specs.Requests.{members, number_at, string_at, tree_at, doc_at, text_or_null_at, texts_at, texts_of, texts_of_items};
ghost use Rattle.relayout_requests.specs.Reads.{Reads};

use crate::unread::Unread;
use dom_arena::Tree;
use jsonml_reader::read_tree;
use port_core::{Seq, Text};
use serde_json::Value;
use std::alloc::Global;

/// Returns the number of members of an object, and 0 for any other value.
pub fn count_members(value: &Value) -> usize
    ensures { result ≡ members (view value.now) }
{
    match value.as_object() {
        Some(map) => map.len(),
        None => 0,
    }
}

/// Returns the member `key`, if it is a string.
pub fn string_at<'v>(value: &'v Value, key: &str) -> Option<&'v str>
    ensures { option_map (λ s. s.now) result ≡ string_at key.now (view value.now) }
{
    value.get(key).and_then(Value::as_str)
}

/// Reads the member `key`, a string or null.
pub fn text_or_null_at(alloc: Global, value: &Value, key: &str) -> Result<Option<Text>, Unread>
    ensures { Reads (λ t. t) result (text_or_null_at key.now (view value.now)) }
{
    match value.get(key) {
        Some(Value::Null) => Ok(None),
        Some(Value::String(text)) => Ok(Some(Text::new(alloc, text.as_str())?)),
        _ => Err(Unread::BadRequest),
    }
}

/// Reads the member `key` as an integer in digits alone.
pub fn number_at(value: &Value, key: &str) -> Result<u64, Unread>
    ensures { Reads (λ n. n) result (number_at key.now (view value.now)) }
{
    match value.get(key).and_then(Value::as_u64) {
        Some(number) => Ok(number),
        None => Err(Unread::BadRequest),
    }
}

/// Reads the member `key` as a tree in JsonML.
pub fn tree_at(alloc: Global, value: &Value, key: &str) -> Result<Tree, Unread>
    ensures { Reads shape result (tree_at key.now (view value.now)) }
{
    match value.get(key) {
        Some(member) => Ok(read_tree(alloc, member)?),
        None => Err(Unread::BadRequest),
    }
}

/// Reads the member `key` as an element in JsonML.
pub fn doc_at(alloc: Global, value: &Value, key: &str) -> Result<Tree, Unread>
    ensures { Reads shape result (doc_at key.now (view value.now)) }
{
    match tree_at(alloc, value, key)? {
        Tree::Chars(_) => Err(Unread::BadRequest),
        doc => Ok(doc),
    }
}

/// Reads the member `key` as an array of strings, or `None` where it is missing.
pub fn texts_at(alloc: Global, value: &Value, key: &str) -> Result<Option<Seq<Text>>, Unread>
    ensures { Reads (λ texts. texts) result (texts_at key.now (view value.now)) }
{
    match value.get(key) {
        Some(member) => Ok(Some(texts_of(alloc, member)?)),
        None => Ok(None),
    }
}

/// Reads a value as an array of strings.
fn texts_of(alloc: Global, value: &Value) -> Result<Seq<Text>, Unread>
    ensures { Reads (λ texts. texts) result (texts_of (view value.now)) }
{
    match value.as_array() {
        Some(items) => texts_of_items(alloc, items),
        None => Err(Unread::BadRequest),
    }
}

fn texts_of_items(alloc: Global, items: &[Value]) -> Result<Seq<Text>, Unread>
    ensures { Reads (λ texts. texts) result (texts_of_items (items_view items.now)) }
{
    let mut texts = Seq::new(alloc);
    for item in items {
        match item.as_str() {
            Some(text) => texts.push(Text::new(alloc, text)?)?,
            None => return Err(Unread::BadRequest),
        }
    }
    Ok(texts)
}
