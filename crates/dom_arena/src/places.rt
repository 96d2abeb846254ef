//! Where a new child stands among the children of an element.
ghost use Rattle.std.specs.Prelude.{◌≡◌, ◌≤◌, ◌-◌, List, None, length, ℕ};
ghost use Rattle.page_model.specs.Document.{Node, children_of, id_of, ids_of};
ghost use Rattle.dom_arena.specs.Cells.{AreChained, IsLinked, final, front};
ghost use Rattle.dom_arena.specs.Between.{IsBetween};
ghost use Rattle.dom_arena.specs.Slots.{cells_of, place_at, target};

use crate::link::Link;
use crate::reading::{children_of, last_of, next_of, prev_of};
use crate::slot::Slot;

/// Returns the siblings before and behind `index`, walked from the first child.
fn from_front(slots: &[Slot], first: Link, index: usize) -> (Link, Link)
    ensures { (up : ℕ) (xs : List ℕ) → AreChained (place_at slots.now) up None xs None
        → target first ≡ front xs None → index ≤ length xs → IsBetween result.0 result.1 index xs }
{
    let mut prev = Link::none();
    let mut next = first;
    for passed in 0..index {
        let _ = passed;
        let Some(at) = next.get() else {
            return (prev, next);
        };
        prev = next;
        next = next_of(slots, at);
    }
    (prev, next)
}

/// Returns the siblings before and behind the last `behind` children, walked from the last child.
fn from_back(slots: &[Slot], last: Link, behind: usize) -> (Link, Link)
    ensures { (up : ℕ) (xs : List ℕ) → AreChained (place_at slots.now) up None xs None
        → target last ≡ final None xs → behind ≤ length xs
        → IsBetween result.0 result.1 (length xs - behind) xs }
{
    let mut prev = last;
    let mut next = Link::none();
    for passed in 0..behind {
        let _ = passed;
        let Some(at) = prev.get() else {
            return (prev, next);
        };
        next = prev;
        prev = prev_of(slots, at);
    }
    (prev, next)
}

/// Returns the siblings between which a child at `index` of the node in the slot `parent` stands, walked
/// from the nearer end.
pub fn place(slots: &[Slot], parent: u32, index: usize) -> (Link, Link)
    ensures { (x : Node) → id_of x ≡ parent → IsLinked (cells_of slots.now) x
        → index ≤ length (ids_of (children_of x))
        → IsBetween result.0 result.1 index (ids_of (children_of x)) }
{
    let (first, count) = children_of(slots, parent);
    let behind = (count as usize).saturating_sub(index);
    if index <= behind {
        from_front(slots, first, index)
    } else {
        from_back(slots, last_of(slots, parent), behind)
    }
}
