//! Heights (CSS 2.1, sections 10.5 to 10.7).
ghost use Rattle.box_sizes.specs.StyleValues.{values_of};
ghost use Rattle.flow_model.specs.Heights as heights;
ghost use Rattle.flow_model.specs.UsedLengths as lengths;
ghost use Rattle.prop_table.specs.Views.{final_view};
ghost use Rattle.query_units.specs.Views.{computed_view};
ghost use Rattle.std.specs.Prelude.{◌≡◌, ◌&&◌, ◌≤ℤ◌, is_none, neg_ℤ, pos};

use crate::lengths::{fixed_length, is_border_box, or_zero, used, used_in, value, zero};
use crate::preferred_widths::up_to;
use crate::sums::four;
use crate::widths::{border, content_size, padding};
use flow_model::{Containing, Used};
use prop_table::{Final, Style};
use query_units::Computed;
use units64::Units;
use value_model::Prop;

/// Returns the height of the content box of a box with these used values, where the height that its
/// contents give it is `auto_height`.
pub fn height_of(u: &Used, auto_height: Units) -> Units
    ensures { result ≡ heights.height_of u.now auto_height }
{
    let height = match u.h {
        Some(height) => height,
        None => auto_height_of(u, auto_height),
    };
    let height = up_to(u.max_h, height);
    if u.min_h.get() < height.get() {
        height
    } else {
        u.min_h
    }
}

fn auto_height_of(u: &Used, contents: Units) -> Units
    ensures { result ≡ heights.auto_height_of u.now contents }
{
    if u.size_contained { zero() } else { contents }
}

// ---- heights of a style

/// Whether a percentage is in it.
fn has_percentage(l: &Computed) -> bool
    ensures { result ≡ lengths.has_percentage (computed_view l.now) }
{
    fixed_length(l).is_none()
}

/// Whether a length refers to a height that is not known.
fn is_undetermined(around: &Option<Units>, l: &Computed) -> bool
    ensures { result ≡ (lengths.has_percentage (computed_view l.now) && is_none around.now) }
{
    has_percentage(l) && around.is_none()
}

/// A length, where percentages refer to `around`; without that, one with a percentage is none.
fn used_length(around: Option<Units>, l: &Computed) -> Option<Units>
    ensures { result ≡ heights.used_height_of_length around (computed_view l.now) }
{
    if is_undetermined(&around, l) {
        None
    } else {
        Some(used_in(or_zero(around), l))
    }
}

fn used_height(around: Option<Units>, v: &Final) -> Option<Units>
    ensures { result ≡ heights.used_height around (final_view v.now) }
{
    match v {
        Final::Length(l) => used_length(around, l),
        _ => None,
    }
}

/// How much higher than the content box the box is that heights refer to, in a containing block of
/// this width.
pub(crate) fn edges_in_height(around: Units, s: &Style) -> i64
    ensures sum { result ≡ heights.edges_in_height around (values_of s.now) }
    ensures low { neg_ℤ (pos 4294967296) ≤ℤ result }
    ensures high { result ≤ℤ pos 4294967296 }
{
    if is_border_box(s) {
        vertical_edges(around, s)
    } else {
        0
    }
}

fn vertical_edges(around: Units, s: &Style) -> i64
    ensures sum { result ≡ heights.vertical_edges around (values_of s.now) }
    ensures low { neg_ℤ (pos 4294967296) ≤ℤ result }
    ensures high { result ≤ℤ pos 4294967296 }
{
    let border_top = border(around, s, Prop::BorderTopWidth);
    let padding_top = padding(around, s, Prop::PaddingTop);
    let padding_bottom = padding(around, s, Prop::PaddingBottom);
    let border_bottom = border(around, s, Prop::BorderBottomWidth);
    four(border_top, padding_top, padding_bottom, border_bottom)
}

/// `height`, `max-height` or `min-height` of the content box.
pub(crate) fn height(c: &Containing, s: &Style, edges: i64, prop: Prop) -> Option<Units>
    requires low { neg_ℤ (pos 4294967296) ≤ℤ edges }
    requires high { edges ≤ℤ pos 4294967296 }
    requires edges { edges ≡ heights.edges_in_height c.now.w (values_of s.now) }
    ensures { result ≡ heights.height_in c.now (values_of s.now) prop }
{
    content_size(edges, used_height(c.h, value(s, prop)))
}

/// A margin above or below, in a containing block of this width.
pub(crate) fn vertical_margin(around: Units, s: &Style, prop: Prop) -> Units
    ensures { result ≡ heights.vertical_margin_in around (values_of s.now) prop }
{
    or_zero(used(around, s, prop))
}
