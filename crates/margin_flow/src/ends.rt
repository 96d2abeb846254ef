//! What the items make of the box.
ghost use Rattle.flow_model.specs.Offsets.{contents_end};
ghost use Rattle.margin_flow.specs.inner.Running as running;
ghost use Rattle.std.specs.Prelude.{◌≡◌, pos};

use crate::contents::{Contents, Ends};
use crate::margins::{alone, empty, join, same_set, value};
use crate::openings::{
    is_auto_or_zero, is_bottom_open, is_top_open, is_zero, no_bottom_edge, no_top_edge,
};
use flow_model::{Margins, Used};
use units64::Units;

/// What follows from all items for the box.
pub(crate) fn ends_of(u: &Used, c: &Contents) -> Ends
    requires { running.LeavesRoom c.now.edge (pos 0) }
    ensures { result ≡ running.ends_of u.now c.now }
{
    Ends {
        auto_height: height(u, c),
        top: top(u, c),
        bottom: bottom(u, c),
        through: is_through(u, c),
        baseline: baseline(u, c),
    }
}

fn trail(u: &Used, c: &Contents) -> Margins
    ensures { result ≡ running.trail_of u.now c.now }
{
    if c.edge.is_none() && is_top_open(u) {
        empty()
    } else {
        same_set(&c.meeting)
    }
}

fn top(u: &Used, c: &Contents) -> Margins
    ensures { result ≡ running.top_with u.now c.now }
{
    if is_top_open(u) {
        join(alone(u.mt), same_set(&c.lead))
    } else {
        alone(u.mt)
    }
}

fn is_through(u: &Used, c: &Contents) -> bool
    ensures { result ≡ running.is_through_with u.now c.now }
{
    !u.independent
        && (no_top_edge(u)
            && (no_bottom_edge(u)
                && (is_zero(u.min_h) && (is_auto_or_zero(u.h) && c.edge.is_none()))))
}

fn bottom(u: &Used, c: &Contents) -> Margins
    ensures { result ≡ running.bottom_with u.now c.now }
{
    if is_through(u, c) {
        join(top(u, c), alone(u.mb))
    } else if is_bottom_open(u) {
        join(alone(u.mb), trail(u, c))
    } else {
        alone(u.mb)
    }
}

fn height(u: &Used, c: &Contents) -> Units
    requires { running.LeavesRoom c.now.edge (pos 0) }
    ensures { result ≡ running.height_with u.now c.now }
{
    let end = contents_end(u, c.edge, value(trail(u, c)));
    Units::new(0_i64.max(end))
}

fn contents_end(u: &Used, edge: Option<i64>, margin: Units) -> i64
    requires { running.LeavesRoom edge (pos 0) }
    ensures { result ≡ contents_end u.now edge margin }
{
    match edge {
        Some(edge) => if is_bottom_open(u) {
            edge
        } else {
            edge + margin.get() as i64
        },
        None => if is_top_open(u) || is_bottom_open(u) {
            0
        } else {
            margin.get() as i64
        },
    }
}

fn baseline(u: &Used, c: &Contents) -> Option<Units>
    ensures { result ≡ (running.ends_of u.now c.now).baseline }
{
    if u.layout_contained { None } else { c.baseline }
}
