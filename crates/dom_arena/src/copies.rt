//! Copying what is kept of a document.
ghost use Rattle.std.specs.Prelude.{◌≡◌, IfOk};
ghost use Rattle.dom_arena.specs.Views.{kept};

use crate::slot::{Content, Slot};
use crate::store::Store;
use port_core::NoMemory;
use std::alloc::Global;

fn copy_content(content: &Content, alloc: Global) -> Result<Content, NoMemory>
    ensures { IfOk result (λ copy. copy ≡ content.now) }
{
    match content {
        Content::Element(name, attributes) => {
            let name = name.copy(alloc)?;
            let attributes = attributes.copy(alloc)?;
            Ok(Content::Element(name, attributes))
        }
        Content::Chars(text) => Ok(Content::Chars(text.copy(alloc)?)),
        Content::Free(next) => Ok(Content::Free(*next)),
    }
}

fn copy_slot(slot: &Slot, alloc: Global) -> Result<Slot, NoMemory>
    ensures { IfOk result (λ copy. copy ≡ slot.now) }
{
    let content = copy_content(&slot.content, alloc)?;
    Ok(Slot {
        id: slot.id,
        parent: slot.parent,
        prev: slot.prev,
        next: slot.next,
        first: slot.first,
        last: slot.last,
        children: slot.children,
        size: slot.size,
        content,
    })
}

fn copy_slots(slots: &[Slot], alloc: Global) -> Result<Vec<Slot>, NoMemory>
    ensures { IfOk result (λ copy. copy.items ≡ slots.now) }
{
    let mut copy = Vec::with_capacity(alloc, slots.len())?;
    for slot in slots {
        copy.push(copy_slot(slot, alloc)?)?;
    }
    Ok(copy)
}

/// Returns a copy of the slots, the table and the list of free slots.
pub fn copy_store(store: &Store, alloc: Global) -> Result<Store, NoMemory>
    ensures { IfOk result (λ copy. kept copy ≡ kept store.now) }
{
    let slots = copy_slots(store.slots.as_slice(), alloc)?;
    let table = Vec::from_slice(alloc, store.table.as_slice())?;
    Ok(Store {
        slots,
        table,
        free: store.free,
        live: store.live,
        code_points: store.code_points,
    })
}
