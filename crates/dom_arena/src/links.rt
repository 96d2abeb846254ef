//! Hanging a node below another, and taking it from there: each writes a fixed number of links.
ghost use Rattle.std.specs.Prelude.{◌≡◌};
ghost use Rattle.dom_arena.specs.Slots.{target};
ghost use Rattle.dom_arena.specs.Stores.{link_to};
ghost use Rattle.dom_arena.specs.Writes.{changed, with_place, with_prev, with_next, with_first, with_last, one_more, one_fewer, forward, back, attached, detached};

use crate::link::Link;
use crate::slot::Slot;

fn set_place(slots: &mut [Slot], at: u32, parent: Link, prev: Link, next: Link)
    ensures { slots.new ≡ changed at (with_place parent prev next) slots.old }
{
    let at = at as usize;
    if at < slots.len() {
        let slot = &mut slots[at];
        slot.parent = parent;
        slot.prev = prev;
        slot.next = next;
    }
}

fn set_prev(slots: &mut [Slot], at: u32, to: Link)
    ensures { slots.new ≡ changed at (with_prev to) slots.old }
{
    let at = at as usize;
    if at < slots.len() {
        slots[at].prev = to;
    }
}

fn set_next(slots: &mut [Slot], at: u32, to: Link)
    ensures { slots.new ≡ changed at (with_next to) slots.old }
{
    let at = at as usize;
    if at < slots.len() {
        slots[at].next = to;
    }
}

fn set_first(slots: &mut [Slot], at: u32, to: Link)
    ensures { slots.new ≡ changed at (with_first to) slots.old }
{
    let at = at as usize;
    if at < slots.len() {
        slots[at].first = to;
    }
}

fn set_last(slots: &mut [Slot], at: u32, to: Link)
    ensures { slots.new ≡ changed at (with_last to) slots.old }
{
    let at = at as usize;
    if at < slots.len() {
        slots[at].last = to;
    }
}

fn count_up(slots: &mut [Slot], at: u32)
    ensures { slots.new ≡ changed at one_more slots.old }
{
    let at = at as usize;
    if at < slots.len() {
        slots[at].children = slots[at].children.saturating_add(1);
    }
}

fn count_down(slots: &mut [Slot], at: u32)
    ensures { slots.new ≡ changed at one_fewer slots.old }
{
    let at = at as usize;
    if at < slots.len() {
        slots[at].children = slots[at].children.saturating_sub(1);
    }
}

/// Lets `to` come after `prev` among the children of `parent`; without `prev` it is the first.
fn lead_forward(slots: &mut [Slot], parent: u32, prev: Link, to: Link)
    ensures { slots.new ≡ forward parent (target prev) to slots.old }
{
    match prev.get() {
        Some(at) => set_next(slots, at, to),
        None => set_first(slots, parent, to),
    }
}

/// Lets `to` come before `next` among the children of `parent`; without `next` it is the last.
fn lead_back(slots: &mut [Slot], parent: u32, next: Link, to: Link)
    ensures { slots.new ≡ back parent (target next) to slots.old }
{
    match next.get() {
        Some(at) => set_prev(slots, at, to),
        None => set_last(slots, parent, to),
    }
}

/// Hangs `child` below `parent`, between the children `prev` and `next`.
pub fn attach(slots: &mut [Slot], parent: u32, child: u32, prev: Link, next: Link)
    ensures { slots.new ≡ attached parent child prev next slots.old }
{
    set_place(slots, child, Link::to(parent), prev, next);
    lead_forward(slots, parent, prev, Link::to(child));
    lead_back(slots, parent, next, Link::to(child));
    count_up(slots, parent);
}

/// Takes the child of `parent` out that stands between `prev` and `next`.
pub fn detach(slots: &mut [Slot], parent: u32, prev: Link, next: Link)
    ensures { slots.new ≡ detached parent prev next slots.old }
{
    lead_forward(slots, parent, prev, next);
    lead_back(slots, parent, next, prev);
    count_down(slots, parent);
}
