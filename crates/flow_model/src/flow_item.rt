//! What stands in a box, one below another.
use crate::margins::Margins;
use port_core::NodeId;
use units64::Units;

/// An item of a block container, as far as the items after it and the box itself ask of it.
///
/// A last baseline is counted from the item's top edge.
#[derive(Clone, Copy, Debug, PartialEq, Eq)]
pub enum FlowItem {
    /// Lines: their height together, and the last baseline.
    Run(i64, Option<Units>),
    /// A block child: its id; the height of its border box; the sets of margins that adjoin its top
    /// and its bottom edge; whether they are one set, which its top and bottom margin adjoin; its
    /// last baseline.
    Child(NodeId, i64, Margins, Margins, bool, Option<Units>),
}
