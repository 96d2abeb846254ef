//! Preferred widths (CSS 2.1, section 10.3.5; CSS Sizing 3, section 5.2).
ghost use Rattle.box_sizes.specs.StyleValues.{values_of};
ghost use Rattle.flow_model.specs.PreferredWidths as widths;
ghost use Rattle.std.specs.Prelude.{◌≡◌, ◌≤ℤ◌, neg_ℤ, pos};

use crate::lengths::{fixed, is_border_box, not_below_zero, or_zero, wide, zero};
use crate::sums::outer;
use crate::widths::content_size;
use flow_model::Effects;
use prop_table::Style;
use units64::Units;
use value_model::Prop;

/// The inner pair, where the contents have this pair.
pub(crate) fn inner_pair(fx: &Effects, contents: (Units, Units)) -> (Units, Units)
    ensures { result ≡ widths.inner_pair fx.now contents }
{
    if fx.inline_contained || fx.size_contained {
        (zero(), zero())
    } else {
        contents
    }
}

/// The outer pair.
pub(crate) fn outer_pair(s: &Style, inner: &(Units, Units)) -> (Units, Units)
    ensures { result ≡ widths.outer_pair (values_of s.now) inner.now }
{
    (outer_width(s, inner.0), outer_width(s, inner.1))
}

/// A width of the margin box, where contents make the content box so wide.
fn outer_width(s: &Style, inner: Units) -> Units
    ensures { result ≡ widths.outer_width (values_of s.now) inner }
{
    let content = limited_width(s, inner);
    Units::new(outer(
        content,
        fixed_margins(s),
        fixed_borders(s),
        fixed_paddings(s),
    ))
}

/// The width of the content box, where contents make it so wide.
fn limited_width(s: &Style, inner: Units) -> Units
    ensures { result ≡ widths.limited_width (values_of s.now) inner }
{
    let width = fixed_width(s, Prop::Width).unwrap_or(inner);
    let most = fixed_width(s, Prop::MaxWidth);
    let least = fixed_width(s, Prop::MinWidth);
    from(least, up_to(most, width))
}

fn fixed_or_zero(s: &Style, prop: Prop) -> Units
    ensures { result ≡ widths.fixed_or_zero (values_of s.now) prop }
{
    or_zero(fixed(s, prop))
}

fn fixed_paddings(s: &Style) -> i64
    ensures sum { result ≡ widths.fixed_paddings (values_of s.now) }
    ensures low { pos 0 ≤ℤ result }
    ensures high { result ≤ℤ pos 2147483648 }
{
    let left = not_below_zero(fixed_or_zero(s, Prop::PaddingLeft));
    let right = not_below_zero(fixed_or_zero(s, Prop::PaddingRight));
    wide(left) + wide(right)
}

fn fixed_borders(s: &Style) -> i64
    ensures sum { result ≡ widths.fixed_borders (values_of s.now) }
    ensures low { neg_ℤ (pos 2147483648) ≤ℤ result }
    ensures high { result ≤ℤ pos 2147483648 }
{
    let left = fixed_or_zero(s, Prop::BorderLeftWidth);
    let right = fixed_or_zero(s, Prop::BorderRightWidth);
    wide(left) + wide(right)
}

fn fixed_margins(s: &Style) -> i64
    ensures sum { result ≡ widths.fixed_margins (values_of s.now) }
    ensures low { neg_ℤ (pos 2147483648) ≤ℤ result }
    ensures high { result ≤ℤ pos 2147483648 }
{
    let left = fixed_or_zero(s, Prop::MarginLeft);
    let right = fixed_or_zero(s, Prop::MarginRight);
    wide(left) + wide(right)
}

/// How much wider than the content box the box is that widths refer to.
fn fixed_edges_in_width(s: &Style) -> i64
    ensures sum { result ≡ widths.fixed_edges_in_width (values_of s.now) }
    ensures low { neg_ℤ (pos 4294967296) ≤ℤ result }
    ensures high { result ≤ℤ pos 4294967296 }
{
    if is_border_box(s) {
        fixed_paddings(s) + fixed_borders(s)
    } else {
        0
    }
}

/// `width`, `max-width` or `min-width` of the content box, if it is a length without a percentage.
fn fixed_width(s: &Style, prop: Prop) -> Option<Units>
    ensures { result ≡ widths.fixed_width (values_of s.now) prop }
{
    content_size(fixed_edges_in_width(s), fixed(s, prop))
}

pub(crate) fn up_to(most: Option<Units>, n: Units) -> Units
    ensures { result ≡ widths.up_to most n }
{
    match most {
        Some(most) => if most.get() < n.get() { most } else { n },
        None => n,
    }
}

fn from(least: Option<Units>, n: Units) -> Units
    ensures { result ≡ widths.from least n }
{
    match least {
        Some(least) => if least.get() < n.get() { n } else { least },
        None => n,
    }
}
