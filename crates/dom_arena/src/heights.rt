//! How many levels the tree below a slot has.
ghost use Rattle.std.specs.Prelude.{◌≡◌, ◌-◌, ◌^◌, min, map, slice_get};
ghost use Rattle.page_model.specs.Document as model;
ghost use Rattle.page_model.specs.Document.{nodes_of};
ghost use Rattle.page_model.specs.declared.limits.TheConstants.{MAX_NODES};
ghost use Rattle.dom_arena.specs.Reading.{below, siblings};
ghost use Rattle.dom_arena.specs.Heights.{first_below};
ghost use Rattle.dom_arena.specs.Slots.{cells_of, place_at, target};

use crate::link::Link;
use crate::reading::next_of;
use crate::slot::{Content, Slot};
use page_model::MAX_NODES;

/// Returns the link to the first child of the element in the slot `at`.
fn first_of(slots: &[Slot], at: u32) -> Link
    ensures { target result ≡ first_below (slice_get slots.now at) }
{
    match slots.get(at as usize) {
        Some(slot) => match &slot.content {
            Content::Element(_, _) => slot.first,
            Content::Chars(_) | Content::Free(_) => Link::none(),
        },
        None => Link::none(),
    }
}

/// Returns how many levels the tree below the slot `at` has, of which at most `levels` are looked at.
#[cycle(height)]
pub fn height(slots: &[Slot], at: u32, levels: u32) -> u32
    ensures { result ≡ min (model.height (below (cells_of slots.now) MAX_NODES levels at)) (2 ^ 32 - 1) }
{
    if levels == 0 {
        return 1;
    }
    let first = first_of(slots, at);
    heights(slots, first, levels - 1).saturating_add(1)
}

/// Returns how many levels the trees have that begin at the slot of `first` and at its next siblings.
#[cycle(height)]
fn heights(slots: &[Slot], first: Link, levels: u32) -> u32
    ensures { result ≡ min (model.heights (nodes_of (map (below (cells_of slots.now) MAX_NODES levels)
        (siblings (place_at slots.now) MAX_NODES (target first))))) (2 ^ 32 - 1) }
{
    let mut deepest: u32 = 0;
    let mut next = first;
    for index in 0..MAX_NODES {
        let _ = index;
        let Some(child) = next.get() else {
            return deepest;
        };
        deepest = deepest.max(height(slots, child, levels));
        next = next_of(slots, child);
    }
    deepest
}
