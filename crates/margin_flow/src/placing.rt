//! Where the items of a box stand (CSS 2.1, sections 8.3.1, 9.4.1 and 10.6.3).
ghost use Rattle.flow_model.specs.Collapsing.{item_height};
ghost use Rattle.flow_model.specs.Offsets.{offsets_below, placement};
ghost use Rattle.margin_flow.specs.inner.Running.{LeavesRoom, contents_of};
ghost use Rattle.margin_flow.specs.PlacedView.{placed_view};
ghost use Rattle.margin_flow.specs.Room.{most_room, room};
ghost use Rattle.std.specs.List.{All};
ghost use Rattle.std.specs.Prelude.{◌≡◌, ◌≤ℤ◌, ◌++◌, ◌∷◌, [], IfOk, pos, reverse};
ghost use Rattle.stream_model.specs.Ledger.{pair};
ghost use Rattle.stream_model.specs.declared.kind.Kind.TheVariants as logged;

use crate::contents::{Contents, contents_after, next_offset};
use crate::ends::ends_of;
use crate::margins::empty;
use crate::placed::Placed;
use flow_model::{FlowItem, Used};
use port_core::{Kind, NoMemory, NodeId, Seq, Steps};
use std::alloc::Global;

/// The items of a box, in order.
pub type FlowItems = Seq<FlowItem>;

/// Returns where the items of the box of the element `id` stand, and what the box hands up, and logs
/// that.
///
/// # Errors
///
/// `NoMemory`; it is logged all the same.
pub fn place_box<L: Drop>(
    alloc: Global,
    id: NodeId,
    u: &Used,
    items: &FlowItems,
    steps: &mut Steps<L>,
) -> Result<Placed<L>, NoMemory>
    requires heights { All (λ item. pos 0 ≤ℤ item_height item) items.now }
    requires room { room items.now ≤ℤ most_room }
    ensures placed { IfOk result (λ p. placed_view p ≡ placement u.now items.now) }
    ensures logged { steps.new ≡ steps.old ++ pair logged.Place id ∷ [] }
{
    steps.tick(Kind::Place, id);
    let (offsets, contents) = go_through(alloc, u, items.as_slice())?;
    let ends = ends_of(u, &contents);
    Ok(Placed {
        offsets,
        auto_height: ends.auto_height,
        top: ends.top,
        bottom: ends.bottom,
        through: ends.through,
        baseline: ends.baseline,
        key: None,
    })
}

/// The offsets, and what is kept of all items.
fn go_through(alloc: Global, u: &Used, items: &[FlowItem]) -> Result<(Seq<i64>, Contents), NoMemory>
    requires heights { All (λ item. pos 0 ≤ℤ item_height item) items.now }
    requires room { room items.now ≤ℤ most_room }
    ensures offsets { IfOk result (λ r. r.0 ≡ offsets_below u.now [] items.now) }
    ensures contents { IfOk result (λ r. r.1 ≡ contents_of u.now (reverse items.now)) }
    ensures edge { IfOk result (λ r. LeavesRoom r.1.edge (pos 0)) }
{
    let mut offsets = Seq::new(alloc);
    let mut contents = Contents {
        edge: None,
        meeting: empty(),
        lead: empty(),
        baseline: None,
    };
    for i in 0..items.len() {
        let item = &items[i];
        let offset = next_offset(u, &contents, item);
        offsets.push(offset)?;
        contents = contents_after(u, &contents, item, offset);
    }
    Ok((offsets, contents))
}
