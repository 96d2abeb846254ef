//! The items so far.
ghost use Rattle.flow_model.specs.Offsets.{offset_at};
ghost use Rattle.margin_flow.specs.inner.Running as running;
ghost use Rattle.flow_model.specs.Collapsing.{item_height};
ghost use Rattle.std.specs.Prelude.{◌≡◌, ◌≤ℤ◌, ◌+ℤ◌, neg_ℤ, pos};
ghost use Rattle.units64.specs.Limits.{FitsUnits, clamped_units};

use crate::items::{baseline, bottom, height, is_through, top};
use crate::margins::{join, joined_alone, same_set, value};
use crate::openings::is_top_open;
use flow_model::{FlowItem, Margins, Used};
use units64::Units;

/// What is kept of the items so far.
#[derive(Clone, Copy, Debug, PartialEq, Eq)]
pub(crate) struct Contents {
    /// The bottom edge of the last solid item.
    pub edge: Option<i64>,
    /// The margins that meet after it.
    pub meeting: Margins,
    /// The margins up to the first solid item.
    pub lead: Margins,
    /// The last baseline.
    pub baseline: Option<Units>,
}

/// What follows from all items for the box.
#[derive(Clone, Copy, Debug, PartialEq, Eq)]
pub(crate) struct Ends {
    pub auto_height: Units,
    pub top: Margins,
    pub bottom: Margins,
    pub through: bool,
    pub baseline: Option<Units>,
}

/// The offset of the next item.
pub(crate) fn next_offset(u: &Used, c: &Contents, item: &FlowItem) -> i64
    requires { running.LeavesRoom c.now.edge (pos 0) }
    ensures { result ≡ running.next_offset u.now c.now item.now }
{
    let between = join(top(item), same_set(&c.meeting));
    offset_after(u, c.edge, value(between))
}

fn offset_after(u: &Used, edge: Option<i64>, margin: Units) -> i64
    requires { running.LeavesRoom edge (pos 0) }
    ensures { result ≡ offset_at u.now edge margin }
{
    match edge {
        Some(edge) => edge + margin.get() as i64,
        None => if is_top_open(u) {
            0
        } else {
            margin.get() as i64
        },
    }
}

/// After the item, which stands at this offset.
pub(crate) fn contents_after(u: &Used, c: &Contents, item: &FlowItem, offset: i64) -> Contents
    requires offset_low { neg_ℤ (pos 144115188075855872) ≤ℤ offset }
    requires offset_high { offset ≤ℤ pos 144115188075855872 }
    requires height_low { pos 0 ≤ℤ item_height item.now }
    requires height_high { item_height item.now ≤ℤ pos 72057594037927936 }
    ensures { result ≡ running.contents_after u.now c.now item.now offset }
{
    Contents {
        edge: next_edge(c, item, offset),
        meeting: next_meeting(c, item),
        lead: next_lead(c, item),
        baseline: next_baseline(u, c, item, offset),
    }
}

fn next_edge(c: &Contents, item: &FlowItem, offset: i64) -> Option<i64>
    requires offset_low { neg_ℤ (pos 144115188075855872) ≤ℤ offset }
    requires offset_high { offset ≤ℤ pos 144115188075855872 }
    requires height_low { pos 0 ≤ℤ item_height item.now }
    requires height_high { item_height item.now ≤ℤ pos 72057594037927936 }
    ensures { result ≡ running.next_edge c.now item.now offset }
{
    if is_through(item) {
        c.edge
    } else {
        Some(offset + height(item))
    }
}

fn next_meeting(c: &Contents, item: &FlowItem) -> Margins
    ensures { result ≡ running.next_meeting c.now item.now }
{
    if is_through(item) {
        join(bottom(item), same_set(&c.meeting))
    } else {
        joined_alone(&bottom(item))
    }
}

fn first_set(item: &FlowItem) -> Margins
    ensures { result ≡ running.first_set item.now }
{
    if is_through(item) {
        bottom(item)
    } else {
        top(item)
    }
}

fn next_lead(c: &Contents, item: &FlowItem) -> Margins
    ensures { result ≡ running.next_lead c.now item.now }
{
    if c.edge.is_some() {
        same_set(&c.lead)
    } else {
        join(same_set(&c.lead), first_set(item))
    }
}

fn next_baseline(u: &Used, c: &Contents, item: &FlowItem, offset: i64) -> Option<Units>
    requires offset_low { neg_ℤ (pos 144115188075855872) ≤ℤ offset }
    requires offset_high { offset ≤ℤ pos 144115188075855872 }
    ensures { result ≡ running.next_baseline u.now c.now item.now offset }
{
    match baseline(item) {
        Some(below) => Some(baseline_at(u, offset, below)),
        None => c.baseline,
    }
}

/// A baseline so far below an offset, below the top border edge of the box.
fn baseline_at(u: &Used, offset: i64, below: Units) -> Units
    requires offset_low { neg_ℤ (pos 144115188075855872) ≤ℤ offset }
    requires offset_high { offset ≤ℤ pos 144115188075855872 }
    ensures { result ≡ clamped_units (u.now.bt +ℤ u.now.pt +ℤ offset +ℤ below) }
{
    Units::new(exact_baseline_at(u, offset, below))
}

/// The same, not clamped.
fn exact_baseline_at(u: &Used, offset: i64, below: Units) -> i64
    requires offset_low { neg_ℤ (pos 144115188075855872) ≤ℤ offset }
    requires offset_high { offset ≤ℤ pos 144115188075855872 }
    ensures { result ≡ u.now.bt +ℤ u.now.pt +ℤ offset +ℤ below }
{
    wide(u.bt) + wide(u.pt) + offset + wide(below)
}

/// The number of units, in which sums are exact.
fn wide(n: Units) -> i64
    ensures number { result ≡ n }
    ensures fits { FitsUnits result }
{
    n.get() as i64
}
