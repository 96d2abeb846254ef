//! Building the slots of a new tree, beside what is kept.
ghost use Rattle.std.specs.Prelude.{◌≡◌, ◌≤◌, ◌+◌, length, Some, true, IfOk, OnErr, map, slice_get};
ghost use Rattle.page_model.specs.Trees.{elem, characters, no_trees, trees_of, size, text_size, value_size, depth};
ghost use Rattle.page_model.specs.declared.limits.TheConstants.{MAX_NODES, MAX_IDS, MAX_TEXTS, MAX_DEPTH};
ghost use Rattle.dom_arena.specs.declared.slot.Content.TheVariants.{Element, Chars};
ghost use Rattle.dom_arena.specs.Slots.{is_node, tree_of_content, last_link};
ghost use Rattle.dom_arena.specs.Stores.{IsStore, no_link};
ghost use Rattle.dom_arena.specs.Writes.{attached};
ghost use Rattle.dom_arena.specs.Built.{Built, Restored};
ghost use Rattle.dom_arena.specs.Shape.{shape};
ghost use Rattle.dom_arena.specs.Views.{kept};

use crate::attrs::Attrs;
use crate::counts::{code_points, value_code_points};
use crate::link::Link;
use crate::links::attach;
use crate::reading::last_of;
use crate::release::release_tree;
use crate::slot::{Content, Slot};
use crate::store::Store;
use crate::tree::Tree;
use page_model::MAX_DEPTH;
use port_core::{NoMemory, Text};
use std::alloc::Global;

/// Hangs `child` below `parent`, behind all its children.
fn attach_last(slots: &mut [Slot], parent: u32, child: u32)
    ensures { slots.new ≡ attached parent child (last_link (slice_get slots.old parent)) no_link slots.old }
{
    let last = last_of(slots, parent);
    attach(slots, parent, child, last, Link::none());
}

fn element_content(alloc: Global, name: &Text, attributes: &Attrs) -> Result<Content, NoMemory>
    ensures { IfOk result (λ content. content ≡ Element name.now attributes.now) }
{
    let name = Text::new(alloc, name.as_str())?;
    let attributes = attributes.copy(alloc)?;
    Ok(Content::Element(name, attributes))
}

fn text_content(alloc: Global, text: &Text) -> Result<Content, NoMemory>
    ensures { IfOk result (λ content. content ≡ Chars text.now) }
{
    Ok(Content::Chars(Text::new(alloc, text.as_str())?))
}

/// Puts a node without children into the store; returns its slot.
fn add(store: &mut Store, content: Content, size: u32) -> Result<u32, NoMemory>
    requires store { IsStore (kept store.old) }
    requires node { is_node (Some content) ≡ true }
    requires size { size ≡ text_size (tree_of_content content) }
    requires nodes { store.old.live + 1 ≤ MAX_NODES }
    requires ids { length store.old.table.items + 1 ≤ MAX_IDS }
    requires code_points { store.old.code_points + size ≤ MAX_TEXTS }
    ensures built { IfOk result (λ at. Built (kept store.old) (kept store.new) (tree_of_content content) at) }
    ensures restored { OnErr result (Restored (kept store.old) (kept store.new)) }
{
    match store.fresh(content, size) {
        Ok(at) => Ok(at),
        Err(fault) => Err(fault),
    }
}

/// Builds a tree; returns the slot of its root, which hangs nowhere. Where memory runs out, what was
/// built is released.
#[cycle(build)]
pub fn build(store: &mut Store, alloc: Global, tree: &Tree) -> Result<u32, NoMemory>
    requires store { IsStore (kept store.old) }
    requires nodes { store.old.live + size (shape tree.now) ≤ MAX_NODES }
    requires ids { length store.old.table.items + size (shape tree.now) ≤ MAX_IDS }
    requires code_points { store.old.code_points + text_size (shape tree.now) ≤ MAX_TEXTS }
    requires low { depth (shape tree.now) ≤ MAX_DEPTH }
    ensures built { IfOk result (λ at. Built (kept store.old) (kept store.new) (shape tree.now) at) }
    ensures restored { OnErr result (Restored (kept store.old) (kept store.new)) }
{
    match tree {
        Tree::Elem(name, attributes, children) => {
            build_element(store, alloc, name, attributes, children.as_slice())
        }
        Tree::Chars(text) => build_text(store, alloc, text),
    }
}

fn build_text(store: &mut Store, alloc: Global, text: &Text) -> Result<u32, NoMemory>
    requires store { IsStore (kept store.old) }
    requires nodes { store.old.live + 1 ≤ MAX_NODES }
    requires ids { length store.old.table.items + 1 ≤ MAX_IDS }
    requires code_points { store.old.code_points + length text.now ≤ MAX_TEXTS }
    ensures built { IfOk result (λ at. Built (kept store.old) (kept store.new) (characters text.now) at) }
    ensures restored { OnErr result (Restored (kept store.old) (kept store.new)) }
{
    let size = code_points(text.as_str()) as u32;
    let content = text_content(alloc, text)?;
    add(store, content, size)
}

/// Puts an element without children into the store.
fn build_tag(
    store: &mut Store,
    alloc: Global,
    name: &Text,
    attributes: &Attrs,
) -> Result<u32, NoMemory>
    requires store { IsStore (kept store.old) }
    requires nodes { store.old.live + 1 ≤ MAX_NODES }
    requires ids { length store.old.table.items + 1 ≤ MAX_IDS }
    requires code_points { store.old.code_points + value_size attributes.now ≤ MAX_TEXTS }
    ensures built { IfOk result (λ at. Built (kept store.old) (kept store.new)
        (elem name.now attributes.now no_trees) at) }
    ensures restored { OnErr result (Restored (kept store.old) (kept store.new)) }
{
    let size = value_code_points(attributes.as_slice()) as u32;
    let content = element_content(alloc, name, attributes)?;
    add(store, content, size)
}

#[cycle(build)]
fn build_element(
    store: &mut Store,
    alloc: Global,
    name: &Text,
    attributes: &Attrs,
    children: &[Tree],
) -> Result<u32, NoMemory>
    requires store { IsStore (kept store.old) }
    requires nodes { store.old.live + size (elem name.now attributes.now (trees_of (map shape children.now)))
        ≤ MAX_NODES }
    requires ids { length store.old.table.items
        + size (elem name.now attributes.now (trees_of (map shape children.now))) ≤ MAX_IDS }
    requires code_points { store.old.code_points
        + text_size (elem name.now attributes.now (trees_of (map shape children.now))) ≤ MAX_TEXTS }
    requires low { depth (elem name.now attributes.now (trees_of (map shape children.now))) ≤ MAX_DEPTH }
    ensures built { IfOk result (λ at. Built (kept store.old) (kept store.new)
        (elem name.now attributes.now (trees_of (map shape children.now))) at) }
    ensures restored { OnErr result (Restored (kept store.old) (kept store.new)) }
{
    let at = build_tag(store, alloc, name, attributes)?;
    for i in 0..children.len() {
        match build(store, alloc, &children[i]) {
            Ok(child) => attach_last(store.slots.as_mut_slice(), at, child),
            Err(fault) => {
                release_tree(store, at, MAX_DEPTH);
                return Err(fault);
            }
        }
    }
    Ok(at)
}
