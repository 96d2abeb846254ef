//! The seven values side by side (CSS 2.1, sections 10.3.3, 10.3.9 and 10.4).
ghost use Rattle.flow_model.specs.Rows as rows;
ghost use Rattle.flow_model.specs.Widths as widths;
ghost use Rattle.std.specs.Prelude.{◌≡◌, ◌≤ℤ◌, ◌-ℤ◌, neg_ℤ, pos, unwrap_or};

use crate::lengths::{at_least_zero, or_zero, wide};
use crate::sums::{four, less_both, less_edges, less_left, with_edges};
use flow_model::{Beside, Containing, Row};
use units64::Units;

/// Borders and paddings together.
pub(crate) fn edges(b: &Beside) -> i64
    ensures sum { result ≡ rows.edges b.now }
    ensures low { neg_ℤ (pos 4294967296) ≤ℤ result }
    ensures high { result ≤ℤ pos 4294967296 }
{
    four(
        b.border_left,
        b.padding_left,
        b.padding_right,
        b.border_right,
    )
}

/// The used values, each clamped.
fn row_with(b: &Beside, left: i64, width: i64, right: i64) -> Row
    ensures { result ≡ rows.clamped_row (rows.row_with b.now left width right) }
{
    Row {
        margin_left: Units::new(left),
        border_left: b.border_left,
        padding_left: b.padding_left,
        width: Units::new(width),
        padding_right: b.padding_right,
        border_right: b.border_right,
        margin_right: Units::new(right),
    }
}

// ---- block boxes

fn is_too_wide(around: Units, b: &Beside, width: Units) -> bool
    ensures { result ≡ rows.is_too_wide around b.now width }
{
    let left = or_zero(b.margin_left);
    let right = or_zero(b.margin_right);
    let parts = with_edges(left, edges(b), width, right);
    wide(around) < parts
}

/// Half of a number, rounded down.
fn half(n: i64) -> i64
    ensures { result ≡ rows.half n }
{
    n.div_euclid(2)
}

/// The left and the right margin, which are `rest` together.
fn margins_in(rest: i64, left: Option<Units>, right: Option<Units>) -> (i64, i64)
    requires low { neg_ℤ (pos 8589934592) ≤ℤ rest }
    requires high { rest ≤ℤ pos 8589934592 }
    ensures { result ≡ rows.margins_in rest left right }
{
    match left {
        Some(left) => (wide(left), rest - wide(left)),
        None => match right {
            Some(right) => (rest - wide(right), wide(right)),
            None => halves(rest),
        },
    }
}

fn halves(rest: i64) -> (i64, i64)
    requires low { neg_ℤ (pos 8589934592) ≤ℤ rest }
    requires high { rest ≤ℤ pos 8589934592 }
    ensures { result ≡ (rows.half rest, rest -ℤ rows.half rest) }
{
    let left = half(rest);
    (left, rest - left)
}

/// The margins beside a width that is not `auto`.
fn margins_of_width(around: Units, b: &Beside, width: Units) -> (i64, i64)
    ensures { result ≡ rows.margins_of_width around b.now width }
{
    let rest = less_edges(around, edges(b), width);
    if is_too_wide(around, b, width) {
        margins_in(
            rest,
            Some(or_zero(b.margin_left)),
            Some(or_zero(b.margin_right)),
        )
    } else {
        margins_in(rest, b.margin_left, b.margin_right)
    }
}

fn row_of_width(around: Units, b: &Beside, width: Units) -> Row
    ensures { result ≡ rows.clamped_row (rows.row_of_width around b.now width) }
{
    let margins = margins_of_width(around, b, width);
    row_with(b, margins.0, wide(width), margins.1)
}

/// What is left for a width that is `auto`.
fn rest_for_width(around: Units, b: &Beside) -> i64
    ensures { result ≡ rows.rest_for_width around b.now }
{
    less_both(
        around,
        or_zero(b.margin_left),
        edges(b),
        or_zero(b.margin_right),
    )
}

/// The right margin beside a width that is `auto`.
fn right_of_auto_width(around: Units, b: &Beside) -> i64
    ensures { result ≡ rows.right_of_auto_width around b.now }
{
    if rest_for_width(around, b) < 0 {
        less_left(around, or_zero(b.margin_left), edges(b))
    } else {
        wide(or_zero(b.margin_right))
    }
}

fn row_of_auto_width(around: Units, b: &Beside) -> Row
    ensures { result ≡ rows.clamped_row (rows.row_of_auto_width around b.now) }
{
    let width = at_least_zero(rest_for_width(around, b));
    row_with(
        b,
        wide(or_zero(b.margin_left)),
        width,
        right_of_auto_width(around, b),
    )
}

fn block_row(around: Units, b: &Beside, width: Option<Units>) -> Row
    ensures { result ≡ rows.clamped_row (rows.block_row around b.now width) }
{
    match width {
        Some(width) => row_of_width(around, b, width),
        None => row_of_auto_width(around, b),
    }
}

// ---- inline-blocks

fn shrink_to_fit(available: i64, pair: &(Units, Units)) -> i64
    ensures { result ≡ rows.shrink_to_fit available pair.now }
{
    wide(pair.0).max(available).min(wide(pair.1))
}

fn inline_block_width(around: Units, pair: &(Units, Units), b: &Beside, width: Option<Units>) -> i64
    ensures { result ≡ unwrap_or width (rows.shrink_to_fit (rows.rest_for_width around b.now) pair.now) }
{
    match width {
        Some(width) => wide(width),
        None => shrink_to_fit(rest_for_width(around, b), pair),
    }
}

fn inline_block_row(around: Units, pair: &(Units, Units), b: &Beside, width: Option<Units>) -> Row
    ensures { result ≡ rows.clamped_row (rows.inline_block_row around pair.now b.now width) }
{
    row_with(
        b,
        wide(or_zero(b.margin_left)),
        inline_block_width(around, pair, b, width),
        wide(or_zero(b.margin_right)),
    )
}

// ---- limits

/// The used values for a width.
fn row_for(c: &Containing, pair: &(Units, Units), b: &Beside, width: Option<Units>) -> Row
    ensures { result ≡ widths.row_for c.now pair.now b.now width }
{
    if c.inline_block {
        inline_block_row(c.w, pair, b, width)
    } else {
        block_row(c.w, b, width)
    }
}

/// A copy.
fn same_row(row: &Row) -> Row
    ensures { result ≡ row.now }
{
    Row {
        margin_left: row.margin_left,
        border_left: row.border_left,
        padding_left: row.padding_left,
        width: row.width,
        padding_right: row.padding_right,
        border_right: row.border_right,
        margin_right: row.margin_right,
    }
}

/// Those for `most` instead, where they are wider.
fn row_up_to(
    c: &Containing,
    pair: &(Units, Units),
    b: &Beside,
    most: Option<Units>,
    row: &Row,
) -> Row
    ensures { result ≡ rows.row_up_to (widths.row_for c.now pair.now b.now) most row.now }
{
    match most {
        Some(most) => {
            if most.get() < row.width.get() {
                row_for(c, pair, b, Some(most))
            } else {
                same_row(row)
            }
        }
        None => same_row(row),
    }
}

/// Those for `least` instead, where they are less wide.
fn row_from(
    c: &Containing,
    pair: &(Units, Units),
    b: &Beside,
    least: Option<Units>,
    row: &Row,
) -> Row
    ensures { result ≡ rows.row_from (widths.row_for c.now pair.now b.now) least row.now }
{
    match least {
        Some(least) => {
            if row.width.get() < least.get() {
                row_for(c, pair, b, Some(least))
            } else {
                same_row(row)
            }
        }
        None => same_row(row),
    }
}

/// A width and its limits.
#[derive(Clone, Copy, Debug, PartialEq, Eq)]
pub(crate) struct Widths {
    pub width: Option<Units>,
    pub most: Option<Units>,
    pub least: Option<Units>,
}

/// The used values for a width with its limits.
pub(crate) fn row_within(c: &Containing, pair: &(Units, Units), b: &Beside, ws: &Widths) -> Row
    ensures { result ≡ rows.row_within (widths.row_for c.now pair.now b.now) ws.now.width ws.now.most ws.now.least }
{
    let tentative = row_for(c, pair, b, ws.width);
    let limited = row_up_to(c, pair, b, ws.most, &tentative);
    row_from(c, pair, b, ws.least, &limited)
}
