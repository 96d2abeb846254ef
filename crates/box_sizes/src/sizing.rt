//! The used values of a box (CSS 2.1, chapter 10).
ghost use Rattle.box_sizes.specs.StyleValues.{values_of};
ghost use Rattle.flow_model.specs.Heights as heights;
ghost use Rattle.flow_model.specs.Widths as widths;
ghost use Rattle.std.specs.Prelude.{◌≡◌, ◌++◌, ◌∷◌, []};
ghost use Rattle.stream_model.specs.Ledger.{pair};
ghost use Rattle.stream_model.specs.declared.kind.Kind.TheVariants as logged;

use crate::heights::{edges_in_height, height, vertical_margin};
use crate::kinds::is_overflow_visible;
use crate::lengths::or_zero;
use crate::measured::Measured;
use crate::rows::{Widths, row_within};
use crate::sized_box::{SizedBox, sized_box};
use crate::widths::{beside, border, edges_in_width, padding, width};
use flow_model::{Containing, Effects, Row, Used};
use port_core::{Kind, NodeId, Steps};
use prop_table::Style;
use units64::Units;
use value_model::Prop;

/// Returns the used values of the box of the element `id` in the containing block `cb`, and logs that.
/// `m` is what was measured of the box.
pub fn size_box<L: Drop>(
    id: NodeId,
    s: &Style,
    fx: &Effects,
    m: &Measured<L>,
    cb: &Containing,
    steps: &mut Steps<L>,
) -> SizedBox<L>
    ensures used { result ≡ heights.used_values cb.now fx.now m.now.inner (values_of s.now) }
    ensures logged { steps.new ≡ steps.old ++ pair logged.Size id ∷ [] }
{
    steps.tick(Kind::Size, id);
    let row = row(cb, &m.inner, s);
    sized_box(used_with_row(cb, fx, s, &row))
}

/// The used values from the left margin to the right one.
fn row(c: &Containing, pair: &(Units, Units), s: &Style) -> Row
    ensures { result ≡ widths.row_of c.now pair.now (values_of s.now) }
{
    let b = beside(c.w, s);
    let edges = edges_in_width(c.w, s, &b);
    let ws = Widths {
        width: width(c.w, s, edges, Prop::Width),
        most: width(c.w, s, edges, Prop::MaxWidth),
        least: width(c.w, s, edges, Prop::MinWidth),
    };
    row_within(c, pair, &b, &ws)
}

/// All used values.
fn used_with_row(c: &Containing, fx: &Effects, s: &Style, row: &Row) -> Used
    ensures { result ≡ heights.used_with_row c.now fx.now (values_of s.now) row.now }
{
    let edges = edges_in_height(c.w, s);
    let least = height(c, s, edges, Prop::MinHeight);
    Used {
        ml: row.margin_left,
        bl: row.border_left,
        pl: row.padding_left,
        w: row.width,
        pr: row.padding_right,
        br: row.border_right,
        mr: row.margin_right,
        mt: vertical_margin(c.w, s, Prop::MarginTop),
        bt: border(c.w, s, Prop::BorderTopWidth),
        pt: padding(c.w, s, Prop::PaddingTop),
        pb: padding(c.w, s, Prop::PaddingBottom),
        bb: border(c.w, s, Prop::BorderBottomWidth),
        mb: vertical_margin(c.w, s, Prop::MarginBottom),
        min_h: or_zero(least),
        h: height(c, s, edges, Prop::Height),
        max_h: height(c, s, edges, Prop::MaxHeight),
        independent: fx.independent,
        size_contained: fx.size_contained,
        layout_contained: fx.layout_contained,
        overflow_visible: is_overflow_visible(s),
    }
}
