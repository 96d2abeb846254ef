ghost use Rattle.std.specs.Prelude.{◌≡◌, drop, Some, None, IfOk};
ghost use Rattle.dom_arena.specs.Shape.{shape};
ghost use Rattle.page_model.specs.Jsonml.{tree_of, element_of, attributes_at, children_of, trees_of_items};
ghost use Rattle.serde_json.specs.View.{view, items_view};
ghost use Rattle.jsonml_reader.specs.Reading.{Reads, ReadsAll, name_at};

use crate::attributes::read_attributes;
use crate::fault::TreeFault;
use dom_arena::{Attrs, Tree};
use port_core::{Seq, Text};
use serde_json::Value;
use std::alloc::Global;

/// Reads the tree that a value stands for in JsonML.
/// Memory may run out at any value, also at one that stands for no tree.
/// The recursion is as deep as the value nests, which is at most 127 where it was read from a text.
pub fn read_tree(alloc: Global, value: &Value) -> Result<Tree, TreeFault>
    ensures read { IfOk result (λ tree. tree_of (view value.now) ≡ Some (shape tree)) }
    ensures shape { result ≡ Err TreeFault.Shape → tree_of (view value.now) ≡ None }
{
    tree_from(alloc, value)
}

#[cycle(reading)]
fn tree_from(alloc: Global, value: &Value) -> Result<Tree, TreeFault>
    ensures { Reads shape result (tree_of (view value.now)) }
{
    match value {
        Value::String(text) => Ok(Tree::Chars(Text::new(alloc, text.as_str())?)),
        Value::Array(items) => element_from(alloc, items.as_slice()),
        Value::Null | Value::Bool(_) | Value::Number(_) | Value::Object(_) => Err(TreeFault::Shape),
    }
}

/// Reads an array's items as an element.
#[cycle(reading)]
fn element_from(alloc: Global, items: &[Value]) -> Result<Tree, TreeFault>
    ensures { Reads shape result (element_of (items_view items.now)) }
{
    let name = name_from(alloc, items)?;
    let attributes = attributes_from(alloc, items)?;
    let children = children_from(alloc, items, children_start(items))?;
    Ok(Tree::Elem(name, attributes, children))
}

/// Reads the items from `start` on as trees, in order.
#[cycle(reading)]
fn children_from(alloc: Global, items: &[Value], start: usize) -> Result<Seq<Tree>, TreeFault>
    ensures { ReadsAll result (trees_of_items (items_view (drop start items.now))) }
{
    let mut trees = Seq::new(alloc);
    for i in start..items.len() {
        trees.push(tree_from(alloc, &items[i])?)?;
    }
    Ok(trees)
}

/// Reads an element's name, its first item.
fn name_from(alloc: Global, items: &[Value]) -> Result<Text, TreeFault>
    ensures { Reads (λ name. name) result (name_at (items_view items.now)) }
{
    match items.first() {
        Some(Value::String(name)) => Ok(Text::new(alloc, name.as_str())?),
        _ => Err(TreeFault::Shape),
    }
}

/// Reads an element's attributes, which its second item has if that is an object.
fn attributes_from(alloc: Global, items: &[Value]) -> Result<Attrs, TreeFault>
    ensures { Reads (λ attributes. attributes) result (attributes_at (items_view (drop 1 items.now))) }
{
    match items.get(1) {
        Some(Value::Object(members)) => read_attributes(alloc, members),
        _ => Ok(Attrs::new(alloc)),
    }
}

/// Where an element's children begin: behind its name, and behind its attributes if it has an object of them.
fn children_start(items: &[Value]) -> usize
    ensures { children_of (items_view (drop 1 items.now))
        ≡ trees_of_items (items_view (drop result items.now)) }
{
    match items.get(1) {
        Some(Value::Object(_)) => 2,
        _ => 1,
    }
}
