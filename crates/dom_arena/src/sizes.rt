//! Measuring a new tree for the limits of documents, in one pass.
ghost use Rattle.std.specs.Prelude.{◌≡◌, length, map, nat_lt};
ghost use Rattle.std.specs.Str.{chars};
ghost use Rattle.page_model.specs.Trees as model;
ghost use Rattle.page_model.specs.declared.limits.TheConstants.{MAX_ATTRIBUTES};
ghost use Rattle.page_model.specs.Trees.{characters, no_trees, trees_of};
ghost use Rattle.dom_arena.specs.Measures.{measure_of, measures_of, joined, own_measures, with_element};
ghost use Rattle.dom_arena.specs.Shape.{shape};

use crate::attrs::{Attribute, Attrs};
use crate::counts::{code_points, value_code_points};
use crate::names::{has_bad_name, has_long_value, is_long, is_name};
use crate::tree::Tree;
use page_model::MAX_ATTRIBUTES;
use port_core::Text;

/// What the limits of documents ask of a tree, or of several.
#[derive(Clone, Copy, Debug, PartialEq, Eq)]
pub struct Measured {
    /// The level of the deepest node, where the roots stand at 1; at most 2^32 - 1.
    pub levels: u32,
    /// The number of nodes, at most 2^32 - 1.
    pub nodes: u32,
    /// The number of code points of all texts and values, at most 2^64 - 1.
    pub code_points: u64,
    /// Whether a name is not in the grammar of names.
    pub bad_name: bool,
    /// Whether an element has too many attributes.
    pub many_attributes: bool,
    /// Whether a text or a value has too many code points.
    pub long_text: bool,
}

/// Returns what no trees have.
fn nothing() -> Measured
    ensures { result ≡ measures_of no_trees }
{
    Measured {
        levels: 0,
        nodes: 0,
        code_points: 0,
        bad_name: false,
        many_attributes: false,
        long_text: false,
    }
}

/// Returns what the trees of `a` and of `b` have together.
fn together(a: Measured, b: Measured) -> Measured
    ensures { result ≡ joined a b }
{
    Measured {
        levels: a.levels.max(b.levels),
        nodes: a.nodes.saturating_add(b.nodes),
        code_points: a.code_points.saturating_add(b.code_points),
        bad_name: a.bad_name || b.bad_name,
        many_attributes: a.many_attributes || b.many_attributes,
        long_text: a.long_text || b.long_text,
    }
}

/// Returns what an element has by itself, besides its level.
fn by_itself(name: &Text, attributes: &Attrs) -> Measured
    ensures { result ≡ own_measures name.now attributes.now }
{
    let list = attributes.as_slice();
    Measured {
        levels: 0,
        nodes: 1,
        code_points: value_code_points(list),
        bad_name: is_badly_named(name, list),
        many_attributes: has_many(list),
        long_text: has_long_value(list),
    }
}

/// Returns what an element has whose children have `below`.
fn above(below: Measured, name: &Text, attributes: &Attrs) -> Measured
    ensures { result ≡ with_element name.now attributes.now below }
{
    let mut all = together(by_itself(name, attributes), below);
    all.levels = all.levels.saturating_add(1);
    all
}

/// Whether `name`, or the name of one of `attributes`, is not a name.
fn is_badly_named(name: &Text, attributes: &[Attribute]) -> bool
    ensures { result ≡ model.is_badly_named name.now attributes.now }
{
    !is_name(name.as_str()) || has_bad_name(attributes)
}

/// Whether there are too many attributes for an element.
fn has_many(attributes: &[Attribute]) -> bool
    ensures { result ≡ nat_lt MAX_ATTRIBUTES (length attributes.now) }
{
    attributes.len() > MAX_ATTRIBUTES as usize
}

fn of_text(text: &str) -> Measured
    ensures { result ≡ measure_of (characters (chars text.now)) }
{
    Measured {
        levels: 1,
        nodes: 1,
        code_points: code_points(text) as u64,
        bad_name: false,
        many_attributes: false,
        long_text: is_long(text),
    }
}

/// Measures a tree. Its time is linear in the code points of the tree.
#[cycle(measure)]
pub fn measure(tree: &Tree) -> Measured
    ensures { result ≡ measure_of (shape tree.now) }
{
    match tree {
        Tree::Elem(name, attributes, children) => {
            above(measure_all(children.as_slice()), name, attributes)
        }
        Tree::Chars(text) => of_text(text.as_str()),
    }
}

#[cycle(measure)]
fn measure_all(children: &[Tree]) -> Measured
    ensures { result ≡ measures_of (trees_of (map shape children.now)) }
{
    let mut all = nothing();
    for child in children {
        all = together(all, measure(child));
    }
    all
}
