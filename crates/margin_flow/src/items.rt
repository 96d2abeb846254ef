//! The items of a box.
ghost use Rattle.flow_model.specs.Collapsing as model;
ghost use Rattle.std.specs.Prelude.{◌≡◌};

use crate::margins::{empty, same_set};
use flow_model::{FlowItem, Margins};
use units64::Units;

/// Whether margins pass through the item.
pub(crate) fn is_through(item: &FlowItem) -> bool
    ensures { result ≡ model.is_through item.now }
{
    match item {
        FlowItem::Run(..) => false,
        FlowItem::Child(_, _, _, _, through, _) => *through,
    }
}

/// The height of its border box.
pub(crate) fn height(item: &FlowItem) -> i64
    ensures { result ≡ model.item_height item.now }
{
    match item {
        FlowItem::Run(height, _) => *height,
        FlowItem::Child(_, height, _, _, _, _) => *height,
    }
}

/// The margins that adjoin its top edge.
pub(crate) fn top(item: &FlowItem) -> Margins
    ensures { result ≡ model.top_of item.now }
{
    match item {
        FlowItem::Run(..) => empty(),
        FlowItem::Child(_, _, top, _, _, _) => same_set(top),
    }
}

/// The margins that adjoin its bottom edge.
pub(crate) fn bottom(item: &FlowItem) -> Margins
    ensures { result ≡ model.bottom_of item.now }
{
    match item {
        FlowItem::Run(..) => empty(),
        FlowItem::Child(_, _, _, bottom, _, _) => same_set(bottom),
    }
}

/// Its last baseline.
pub(crate) fn baseline(item: &FlowItem) -> Option<Units>
    ensures { result ≡ model.baseline_of item.now }
{
    match item {
        FlowItem::Run(_, baseline) => *baseline,
        FlowItem::Child(_, _, _, _, _, baseline) => *baseline,
    }
}
