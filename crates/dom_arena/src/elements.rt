//! Changing the attributes of an element.
ghost use Rattle.std.specs.Prelude.{◌≡◌, ◌-◌, ◌≤◌, ◌≢◌, ◌∷◌, true, IfOk, IfErr, OnOk, OnErr};
ghost use Rattle.std.specs.Option.{option_copied};
ghost use Rattle.std.specs.Str.{chars};
ghost use Rattle.page_model.specs.Attributes.{are_in_order, with_attribute, without_attribute};
ghost use Rattle.page_model.specs.declared.limits.TheConstants.{MAX_TEXTS};
ghost use Rattle.dom_arena.specs.Contents.{attr_causes, drop_causes, kept_after, size_with, size_without, total_with, with_attributes, with_content};
ghost use Rattle.dom_arena.specs.Faults.{AnswersBy, ChecksBy};
ghost use Rattle.dom_arena.specs.Slots.{attributes_in_slot, table_at};
ghost use Rattle.dom_arena.specs.Stores.{size_in, slot_by_id};
ghost use Rattle.dom_arena.specs.Views.{kept};
ghost use Rattle.dom_arena.specs.Writes.{changed};

use crate::contents::check_length;
use crate::fault::DocFault;
use crate::names::is_name;
use crate::reading::size_at;
use crate::slot::{Content, Slot};
use crate::spots::{count_with, length_at, spot_of};
use crate::store::Store;
use page_model::MAX_ATTRIBUTES;
use port_core::{NoMemory, NodeId};
use std::alloc::Global;

/// Returns `size` without the `part`.
fn less(size: u32, part: usize) -> u32
    ensures { result ≡ size - part }
{
    (size as usize).saturating_sub(part) as u32
}

/// Refuses the attribute for the node in `at`, where all texts have `total` code points; returns how
/// many the node has by itself with the attribute.
fn check_attr(at: Option<&Slot>, total: u32, name: &str, value: &str) -> Result<u32, DocFault>
    ensures causes { ChecksBy (attr_causes (option_copied at.entry) total (chars name.now)
        (chars value.now)) result }
    ensures size { IfOk result (λ size. size
        ≡ size_with (option_copied at.entry) (chars name.now) (chars value.now)) }
    ensures few { IfOk result (λ size. total_with total (option_copied at.entry) size ≤ MAX_TEXTS) }
{
    let Some(slot) = at else {
        return Err(DocFault::NoNode);
    };
    let Content::Element(_, attributes) = &slot.content else {
        return Err(DocFault::NotElement);
    };
    if !is_name(name) {
        return Err(DocFault::BadName);
    }
    let attributes = attributes.as_slice();
    let spot = spot_of(attributes, name);
    let rest = less(slot.size, length_at(spot, attributes));
    let length = check_length(value, total.saturating_sub(slot.size) + rest)?;
    if count_with(spot, attributes) > MAX_ATTRIBUTES as usize {
        return Err(DocFault::AttrLimit);
    }
    Ok(rest + length)
}

/// Refuses a node that is no element; returns how many code points the element in `at` has by itself
/// without the attribute `name`.
fn check_drop(at: Option<&Slot>, name: &str) -> Result<u32, DocFault>
    ensures causes { ChecksBy (drop_causes (option_copied at.entry)) result }
    ensures size { IfOk result (λ size. size ≡ size_without (option_copied at.entry) (chars name.now)) }
    ensures smaller { IfOk result (λ size. size ≤ size_in (option_copied at.entry)) }
    ensures order { OnOk result (are_in_order (attributes_in_slot (option_copied at.entry)) ≡ true) }
{
    let Some(slot) = at else {
        return Err(DocFault::NoNode);
    };
    let Content::Element(_, attributes) = &slot.content else {
        return Err(DocFault::NotElement);
    };
    let attributes = attributes.as_slice();
    Ok(less(slot.size, length_at(spot_of(attributes, name), attributes)))
}

fn set_in(content: &mut Content, alloc: Global, name: &str, value: &str) -> Result<(), NoMemory>
    ensures set { OnOk result (content.new
        ≡ with_attributes (with_attribute (chars name.now) (chars value.now)) content.old) }
    ensures kept { OnErr result (content.new ≡ content.old) }
{
    match content {
        Content::Element(_, attributes) => attributes.set(alloc, name, value),
        Content::Chars(_) | Content::Free(_) => Ok(()),
    }
}

fn drop_in(content: &mut Content, name: &str)
    ensures { content.new ≡ with_attributes (without_attribute (chars name.now)) content.old }
{
    match content {
        Content::Element(_, attributes) => attributes.drop(name),
        Content::Chars(_) | Content::Free(_) => {}
    }
}

/// Gives the element in the slot `at` the attribute, with which it has `size` code points.
fn set_at(
    slots: &mut [Slot],
    at: u32,
    size: u32,
    alloc: Global,
    name: &str,
    value: &str,
) -> Result<(), NoMemory>
    ensures set { OnOk result (slots.new
        ≡ changed at (with_content (with_attributes
        (with_attribute (chars name.now) (chars value.now))) size) slots.old) }
    ensures kept { OnErr result (slots.new ≡ slots.old) }
{
    let at = at as usize;
    if at < slots.len() {
        let slot = &mut slots[at];
        set_in(&mut slot.content, alloc, name, value)?;
        slot.size = size;
    }
    Ok(())
}

/// Takes the attribute from the element in the slot `at`, which has `size` code points without it.
fn drop_at(slots: &mut [Slot], at: u32, size: u32, name: &str)
    ensures { slots.new
        ≡ changed at (with_content (with_attributes
        (without_attribute (chars name.now))) size) slots.old }
{
    let at = at as usize;
    if at < slots.len() {
        let slot = &mut slots[at];
        drop_in(&mut slot.content, name);
        slot.size = size;
    }
}

/// Sets the attribute of the node `id`, which then has `size` code points.
fn write_attr(
    store: &mut Store,
    alloc: Global,
    id: NodeId,
    size: u32,
    name: &str,
    value: &str,
) -> Result<(), NoMemory>
    requires few { total_with store.old.code_points (slot_by_id (kept store.old) id) size ≤ MAX_TEXTS }
    ensures set { OnOk result (kept store.new
        ≡ kept_after (kept store.old) (table_at store.old.table.items id)
        (with_attributes (with_attribute (chars name.now) (chars value.now))) size) }
    ensures kept { OnErr result (kept store.new ≡ kept store.old) }
{
    let Some(at) = store.at(id) else {
        return Ok(());
    };
    let old = size_at(store.slots.as_slice(), at);
    set_at(store.slots.as_mut_slice(), at, size, alloc, name, value)?;
    store.code_points = store.code_points.saturating_sub(old) + size;
    Ok(())
}

/// Takes the attribute from the node `id`, which then has `size` code points.
fn erase_attr(store: &mut Store, id: NodeId, size: u32, name: &str)
    requires smaller { size ≤ size_in (slot_by_id (kept store.old) id) }
    ensures { kept store.new ≡ kept_after (kept store.old) (table_at store.old.table.items id)
        (with_attributes (without_attribute (chars name.now))) size }
{
    let Some(at) = store.at(id) else {
        return;
    };
    let old = size_at(store.slots.as_slice(), at);
    store.code_points = store.code_points.saturating_sub(old) + size;
    drop_at(store.slots.as_mut_slice(), at, size, name);
}

/// Gives the element `id` the attribute `name` with this value.
pub fn set_attr(
    store: &mut Store,
    alloc: Global,
    id: NodeId,
    name: &str,
    value: &str,
) -> Result<(), DocFault>
    ensures set { OnOk result (kept store.new
        ≡ kept_after (kept store.old) (table_at store.old.table.items id)
        (with_attributes (with_attribute (chars name.now) (chars value.now)))
        (size_with (slot_by_id (kept store.old) id) (chars name.now) (chars value.now))) }
    ensures causes { AnswersBy (attr_causes (slot_by_id (kept store.old) id) store.old.code_points
        (chars name.now) (chars value.now)) result }
    ensures kept { OnErr result (kept store.new ≡ kept store.old) }
{
    let size = check_attr(store.slot(id), store.code_points, name, value)?;
    write_attr(store, alloc, id, size, name, value)?;
    Ok(())
}

/// Takes the attribute `name` from the element `id`.
pub fn drop_attr(store: &mut Store, id: NodeId, name: &str) -> Result<(), DocFault>
    ensures dropped { OnOk result (kept store.new
        ≡ kept_after (kept store.old) (table_at store.old.table.items id)
        (with_attributes (without_attribute (chars name.now)))
        (size_without (slot_by_id (kept store.old) id) (chars name.now))) }
    ensures order { OnOk result
        (are_in_order (attributes_in_slot (slot_by_id (kept store.old) id)) ≡ true) }
    ensures causes { AnswersBy (drop_causes (slot_by_id (kept store.old) id)) result }
    ensures without_memory { IfErr result (λ e. e ≢ DocFault.NoMemory) }
    ensures kept { OnErr result (kept store.new ≡ kept store.old) }
{
    let size = check_drop(store.slot(id), name)?;
    erase_attr(store, id, size, name);
    Ok(())
}
