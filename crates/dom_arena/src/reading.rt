//! Reading a slot: that of a node which may be absent, or one by its number.
ghost use Rattle.std.specs.Prelude.{◌≡◌, encode_utf8_all, is_some, option_and_then, option_map, slice_get};
ghost use Rattle.std.specs.Option.{option_copied};
ghost use Rattle.std.specs.Str.{chars};
ghost use Rattle.page_model.specs.Attributes.{value_of};
ghost use Rattle.dom_arena.specs.Between.{before_in};
ghost use Rattle.dom_arena.specs.Built.{after_in};
ghost use Rattle.dom_arena.specs.Slots.{attributes_in_slot, child_number, first_link, last_link, name_in, name_in_slot, next_link, place_at, prev_link, target, text_in, up_link};
ghost use Rattle.dom_arena.specs.Stores.{size_in};
ghost use Rattle.dom_arena.specs.declared.slot.Slot.{Slot as slot};

use crate::link::Link;
use crate::slot::{Content, Slot};

/// Returns the name of the element in `at`.
pub fn name(at: Option<&Slot>) -> Option<&str>
    ensures { option_map (λ s. s.now) result
        ≡ option_map encode_utf8_all (option_and_then (λ (s : slot). name_in s.content) (option_copied at.entry)) }
{
    match &at?.content {
        Content::Element(name, _) => Some(name.as_str()),
        Content::Chars(_) | Content::Free(_) => None,
    }
}

/// Returns the code points of the text in `at`.
pub fn text(at: Option<&Slot>) -> Option<&str>
    ensures { option_map (λ s. s.now) result
        ≡ option_map encode_utf8_all (option_and_then (λ (s : slot). text_in s.content) (option_copied at.entry)) }
{
    match &at?.content {
        Content::Chars(text) => Some(text.as_str()),
        Content::Element(_, _) | Content::Free(_) => None,
    }
}

/// Returns the value of the attribute `name` of the element in `at`.
pub fn value<'a>(at: Option<&'a Slot>, name: &str) -> Option<&'a str>
    ensures { option_map (λ s. s.now) result
        ≡ option_map encode_utf8_all (value_of (chars name.now) (attributes_in_slot (option_copied at.entry))) }
{
    match &at?.content {
        Content::Element(_, attributes) => attributes.get(name),
        Content::Chars(_) | Content::Free(_) => None,
    }
}

/// Returns the link to the first child.
pub fn first(at: Option<&Slot>) -> Link
    ensures { result ≡ first_link (option_copied at.entry) }
{
    match at {
        Some(slot) => slot.first,
        None => Link::none(),
    }
}

/// Returns the number of children.
pub fn count(at: Option<&Slot>) -> u32
    ensures { result ≡ child_number (option_copied at.entry) }
{
    match at {
        Some(slot) => slot.children,
        None => 0,
    }
}

/// Returns the link to the parent.
pub fn parent(at: Option<&Slot>) -> Link
    ensures { result ≡ up_link (option_copied at.entry) }
{
    match at {
        Some(slot) => slot.parent,
        None => Link::none(),
    }
}

/// Returns the link to the sibling after the node.
pub fn next(at: Option<&Slot>) -> Link
    ensures { result ≡ next_link (option_copied at.entry) }
{
    match at {
        Some(slot) => slot.next,
        None => Link::none(),
    }
}

/// Returns the link to the sibling before the node.
pub fn prev(at: Option<&Slot>) -> Link
    ensures { result ≡ prev_link (option_copied at.entry) }
{
    match at {
        Some(slot) => slot.prev,
        None => Link::none(),
    }
}

// ---- by the number of the slot

/// Whether it is an element.
pub fn is_element(content: &Content) -> bool
    ensures { result ≡ is_some (name_in content.now) }
{
    match content {
        Content::Element(_, _) => true,
        Content::Chars(_) | Content::Free(_) => false,
    }
}

/// Whether an element stands in the slot `at`.
pub fn is_element_at(slots: &[Slot], at: u32) -> bool
    ensures { result ≡ is_some (name_in_slot (slice_get slots.now at)) }
{
    match slots.get(at as usize) {
        Some(slot) => is_element(&slot.content),
        None => false,
    }
}

/// Returns how many code points the node in the slot `at` has by itself.
pub fn size_at(slots: &[Slot], at: u32) -> u32
    ensures { result ≡ size_in (slice_get slots.now at) }
{
    match slots.get(at as usize) {
        Some(slot) => slot.size,
        None => 0,
    }
}

/// Returns the parent of the node in the slot `at`.
pub fn parent_of(slots: &[Slot], at: u32) -> Link
    ensures { result ≡ up_link (slice_get slots.now at) }
{
    match slots.get(at as usize) {
        Some(slot) => slot.parent,
        None => Link::none(),
    }
}

/// Returns the sibling before the node in the slot `at`.
pub fn prev_of(slots: &[Slot], at: u32) -> Link
    ensures { target result ≡ before_in (place_at slots.now at) }
{
    match slots.get(at as usize) {
        Some(slot) => slot.prev,
        None => Link::none(),
    }
}

/// Returns the sibling after the node in the slot `at`.
pub fn next_of(slots: &[Slot], at: u32) -> Link
    ensures { target result ≡ after_in (place_at slots.now at) }
{
    match slots.get(at as usize) {
        Some(slot) => slot.next,
        None => Link::none(),
    }
}

/// Returns the first child and the number of children of the node in the slot `at`.
pub fn children_of(slots: &[Slot], at: u32) -> (Link, u32)
    ensures first { result.0 ≡ first_link (slice_get slots.now at) }
    ensures count { result.1 ≡ child_number (slice_get slots.now at) }
{
    match slots.get(at as usize) {
        Some(slot) => (slot.first, slot.children),
        None => (Link::none(), 0),
    }
}

/// Returns the last child of the node in the slot `at`.
pub fn last_of(slots: &[Slot], at: u32) -> Link
    ensures { result ≡ last_link (slice_get slots.now at) }
{
    match slots.get(at as usize) {
        Some(slot) => slot.last,
        None => Link::none(),
    }
}

/// Returns the links from the slot `at` to the parent and to the siblings before and after it.
pub fn place_of(slots: &[Slot], at: u32) -> (Link, Link, Link)
    ensures parent { result.0 ≡ up_link (slice_get slots.now at) }
    ensures prev { result.1 ≡ prev_link (slice_get slots.now at) }
    ensures next { result.2 ≡ next_link (slice_get slots.now at) }
{
    match slots.get(at as usize) {
        Some(slot) => (slot.parent, slot.prev, slot.next),
        None => (Link::none(), Link::none(), Link::none()),
    }
}
