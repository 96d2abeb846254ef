//! How narrow and how wide a box may be.
ghost use Rattle.box_sizes.specs.StyleValues.{values_of};
ghost use Rattle.flow_model.specs.PreferredWidths as widths;
ghost use Rattle.std.specs.Prelude.{◌≡◌, ◌++◌, ◌∷◌, []};
ghost use Rattle.stream_model.specs.Ledger.{pair};
ghost use Rattle.stream_model.specs.declared.kind.Kind.TheVariants as logged;

use crate::measured::Measured;
use crate::preferred_widths::{inner_pair, outer_pair};
use flow_model::Effects;
use port_core::{Kind, NodeId, Steps};
use prop_table::Style;
use units64::Units;

/// Returns the preferred widths of the box of the element `id`, whose contents have the pair
/// `content`, and logs that.
pub fn measure_box<L: Drop>(
    id: NodeId,
    s: &Style,
    fx: &Effects,
    content: (Units, Units),
    steps: &mut Steps<L>,
) -> Measured<L>
    ensures inner { result.inner ≡ widths.inner_pair fx.now content }
    ensures outer { result.outer ≡ widths.outer_pair (values_of s.now) result.inner }
    ensures logged { steps.new ≡ steps.old ++ pair logged.Measure id ∷ [] }
{
    steps.tick(Kind::Measure, id);
    let inner = inner_pair(fx, content);
    let outer = outer_pair(s, &inner);
    Measured {
        inner,
        outer,
        key: None,
    }
}
