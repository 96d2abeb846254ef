//! Margins, borders, paddings and widths of a style (CSS 2.1, sections 8.3, 8.4 and 10.2; CSS Sizing 3,
//! section 3.3).
ghost use Rattle.box_sizes.specs.StyleValues.{values_of};
ghost use Rattle.flow_model.specs.Rows as rows;
ghost use Rattle.flow_model.specs.UsedLengths as lengths;
ghost use Rattle.flow_model.specs.Widths as widths;
ghost use Rattle.std.specs.Prelude.{◌≡◌, ◌≤ℤ◌, neg_ℤ, option_map, pos};

use crate::lengths::{at_least_zero, is_border_box, not_below_zero, or_zero, used};
use crate::rows::edges;
use crate::sums::difference;
use flow_model::Beside;
use prop_table::Style;
use units64::Units;
use value_model::Prop;

/// A border, in a containing block of this width.
pub(crate) fn border(around: Units, s: &Style, prop: Prop) -> Units
    ensures { result ≡ widths.border_in around (values_of s.now) prop }
{
    or_zero(used(around, s, prop))
}

/// A padding, in a containing block of this width.
pub(crate) fn padding(around: Units, s: &Style, prop: Prop) -> Units
    ensures { result ≡ widths.padding_in around (values_of s.now) prop }
{
    not_below_zero(or_zero(used(around, s, prop)))
}

/// What stands beside the width, in a containing block of this width.
pub(crate) fn beside(around: Units, s: &Style) -> Beside
    ensures { result ≡ widths.beside around (values_of s.now) }
{
    Beside {
        margin_left: used(around, s, Prop::MarginLeft),
        border_left: border(around, s, Prop::BorderLeftWidth),
        padding_left: padding(around, s, Prop::PaddingLeft),
        padding_right: padding(around, s, Prop::PaddingRight),
        border_right: border(around, s, Prop::BorderRightWidth),
        margin_right: used(around, s, Prop::MarginRight),
    }
}

/// A size, less what the box that it refers to is larger than the content box.
fn less(size: Units, edges: i64) -> Units
    requires low { neg_ℤ (pos 4294967296) ≤ℤ edges }
    requires high { edges ≤ℤ pos 4294967296 }
    ensures { result ≡ lengths.content_size edges size }
{
    let rest = difference(not_below_zero(size), edges);
    Units::new(at_least_zero(rest))
}

/// A size of the content box, where the box that it refers to is larger by `edges`.
pub(crate) fn content_size(edges: i64, size: Option<Units>) -> Option<Units>
    requires low { neg_ℤ (pos 4294967296) ≤ℤ edges }
    requires high { edges ≤ℤ pos 4294967296 }
    ensures { result ≡ option_map (lengths.content_size edges) size }
{
    match size {
        Some(size) => Some(less(size, edges)),
        None => None,
    }
}

/// How much wider than the content box the box is that widths refer to. `b` is what stands beside
/// the width in a containing block of this width.
pub(crate) fn edges_in_width(around: Units, s: &Style, b: &Beside) -> i64
    requires { b.now ≡ widths.beside around (values_of s.now) }
    ensures low { neg_ℤ (pos 4294967296) ≤ℤ result }
    ensures high { result ≤ℤ pos 4294967296 }
    ensures sum { result ≡ widths.edges_in_width around (values_of s.now) }
{
    if is_border_box(s) { edges(b) } else { 0 }
}

/// `width`, `max-width` or `min-width` of the content box, in a containing block of this width.
pub(crate) fn width(around: Units, s: &Style, edges: i64, prop: Prop) -> Option<Units>
    requires low { neg_ℤ (pos 4294967296) ≤ℤ edges }
    requires high { edges ≤ℤ pos 4294967296 }
    requires edges { edges ≡ widths.edges_in_width around (values_of s.now) }
    ensures { result ≡ widths.width_in around (values_of s.now) prop }
{
    content_size(edges, used(around, s, prop))
}
