//! Slots, the table that leads from ids to them, and the list of free slots.
ghost use Rattle.std.specs.Prelude.{◌≡◌, ◌≤◌, ◌<◌, ◌+◌, [], Some, ℕ, length, IfOk, OnOk, OnErr, slice_get, slice_set, option_map};
ghost use Rattle.std.specs.Option.{option_copied};
ghost use Rattle.dom_arena.specs.Slots.{target, content_at, id_at, table_at};
ghost use Rattle.dom_arena.specs.Stores.{spot, slots_with, free_behind, leaf, no_link, next_free, kept_with, kept_without, size_in, slots_without, slot_by_id};
ghost use Rattle.dom_arena.specs.Views.{kept};

use crate::link::Link;
use crate::slot::{Content, Slot};
use port_core::{NoMemory, NodeId};
use std::alloc::Global;

/// Slots, the table that leads from ids to them, and the list of free slots.
#[derive(Debug, Drop)]
pub struct Store {
    /// The slots, live and free.
    pub slots: Vec<Slot>,
    /// The slot of each id that was given.
    pub table: Vec<Link>,
    /// The first free slot.
    pub free: Link,
    /// The number of live nodes.
    pub live: u32,
    /// The number of code points of all texts and values of attributes.
    pub code_points: u32,
}

/// Returns a node that has neither parent nor children.
fn new_leaf(id: u32, content: Content, size: u32) -> Slot
    ensures { result ≡ leaf id content size }
{
    Slot {
        id,
        parent: Link::none(),
        prev: Link::none(),
        next: Link::none(),
        first: Link::none(),
        last: Link::none(),
        children: 0,
        size,
        content,
    }
}

/// Returns the free slot after `slot`.
fn free_after(slot: &Slot) -> Link
    ensures { result ≡ next_free (Some slot.now.content) }
{
    match &slot.content {
        Content::Free(next) => *next,
        Content::Element(_, _) | Content::Chars(_) => Link::none(),
    }
}

/// Returns where the next node will stand.
fn next_spot(slots: &[Slot], free: Link) -> u32
    requires { length slots.now < 4294967295 }
    ensures { result ≡ spot slots.now (target free) }
{
    match free.get() {
        Some(at) => at,
        None => slots.len() as u32,
    }
}

/// Puts `slot` into the first free slot, or behind all slots where none is free; returns its place.
fn put(slots: &mut Vec<Slot>, free: &mut Link, slot: Slot) -> Result<u32, NoMemory>
    requires inside { (x : ℕ) → target free.old ≡ Some x → x < length slots.old.items }
    requires small { length slots.old.items < 4294967295 }
    ensures place { IfOk result (λ at. at ≡ spot slots.old.items (target free.old)) }
    ensures slots { OnOk result (slots.new.items ≡ slots_with slots.old.items (target free.old) slot) }
    ensures free { OnOk result (free.new ≡ free_behind slots.old.items free.old (target free.old)) }
    ensures kept { OnErr result (slots.new.items ≡ slots.old.items) }
    ensures kept_free { OnErr result (free.new ≡ free.old) }
{
    match free.get() {
        Some(at) => {
            let next = free_after(&slots[at as usize]);
            slots[at as usize] = slot;
            *free = next;
            Ok(at)
        }
        None => {
            let at = slots.len() as u32;
            slots.push(slot)?;
            Ok(at)
        }
    }
}

/// Empties the slot `at`, after which the slot of `next` is free; returns the id and the size of its node.
fn empty(slots: &mut [Slot], at: u32, next: Link) -> (u32, u32)
    requires { at < length slots.old }
    ensures id { result.0 ≡ id_at slots.old at }
    ensures size { result.1 ≡ size_in (slice_get slots.old at) }
    ensures slots { slots.new ≡ slots_without slots.old at next (slice_get slots.old at) }
{
    let slot = &mut slots[at as usize];
    slot.content = Content::Free(next);
    (slot.id, slot.size)
}

/// Lets an id lead to no slot.
fn forget(table: &mut [Link], id: u32)
    ensures { table.new ≡ slice_set table.old id no_link }
{
    let id = id as usize;
    if id < table.len() {
        table[id] = Link::none();
    }
}

impl Store {
    /// Returns a store without nodes.
    pub fn new(alloc: Global) -> Store
        ensures { kept result ≡ record { slots = []; table = []; free = no_link; live = 0; code_points = 0 } }
    {
        Store {
            slots: Vec::new(alloc),
            table: Vec::new(alloc),
            free: Link::none(),
            live: 0,
            code_points: 0,
        }
    }

    /// Returns the number of the slot of the node `id`.
    pub fn at(&self, id: NodeId) -> Option<u32>
        ensures { result ≡ table_at self.now.table.items id }
    {
        self.table.get(id as usize)?.get()
    }

    /// Returns the slot of the node `id`.
    pub fn slot(&self, id: NodeId) -> Option<&Slot>
        ensures { option_copied result ≡ slot_by_id (kept self.now) id }
    {
        let at = self.table.get(id as usize)?.get()?;
        self.slots.get(at as usize)
    }

    /// Returns the id of the node in the slot `at`, or 0 where there is no such slot.
    pub fn id_in(&self, at: u32) -> NodeId
        ensures { result ≡ id_at self.now.slots.items at }
    {
        match self.slots.get(at as usize) {
            Some(slot) => slot.id,
            None => 0,
        }
    }

    /// Returns the id of the node that `link` leads to.
    pub fn id_behind(&self, link: Link) -> Option<NodeId>
        ensures { result ≡ option_map (id_at self.now.slots.items) (target link) }
    {
        let at = link.get()?;
        Some(self.id_in(at))
    }

    /// Puts a node that has neither parent nor children into a slot, with the next id; returns its slot.
    pub fn fresh(&mut self, content: Content, size: u32) -> Result<u32, NoMemory>
        requires inside { (x : ℕ) → target self.old.free ≡ Some x → x < length self.old.slots.items }
        requires small { length self.old.slots.items < 4294967295 }
        requires ids { length self.old.table.items < 4294967295 }
        requires nodes { self.old.live < 4294967295 }
        requires code_points { self.old.code_points + size ≤ 4294967295 }
        ensures place { IfOk result (λ at. at ≡ spot self.old.slots.items (target self.old.free)) }
        ensures fresh { OnOk result (kept self.new ≡ kept_with (kept self.old) content size) }
        ensures kept { OnErr result (kept self.new ≡ kept self.old) }
    {
        let id = self.table.len() as u32;
        let at = next_spot(self.slots.as_slice(), self.free);
        self.table.push(Link::to(at))?;
        match put(&mut self.slots, &mut self.free, new_leaf(id, content, size)) {
            Ok(at) => {
                self.live += 1;
                self.code_points += size;
                Ok(at)
            }
            Err(fault) => {
                let _last = self.table.pop();
                Err(fault)
            }
        }
    }

    /// Frees the slot `at`, whose node loses its id.
    pub fn release(&mut self, at: u32)
        requires { at < length self.old.slots.items }
        ensures { kept self.new ≡ kept_without (kept self.old) at }
    {
        let (id, size) = empty(self.slots.as_mut_slice(), at, self.free);
        self.free = Link::to(at);
        self.live = self.live.saturating_sub(1);
        self.code_points = self.code_points.saturating_sub(size);
        forget(self.table.as_mut_slice(), id);
    }
}
