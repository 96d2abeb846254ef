//! The longhands of shorthands (CSS Cascade 4, section 3; the modules of each).
ghost use Rattle.prop_table.specs.inner.ShorthandViews.{borders_view, shorthand_view};
ghost use Rattle.std.specs.Prelude.{◌≡◌, IfOk, option_map};
ghost use Rattle.value_model.specs.Shorthands as shorthands;

use crate::prop_order::all_props;
use crate::shorthand::{Border, Shorthand, shorthand_of_name};
use port_core::{NoMemory, Seq, Text};
use std::alloc::Global;
use value_model::Prop;

/// Returns the longhands of the shorthand of this name, in any case; `None` where no shorthand has this
/// name.
pub fn longhands_of_name(alloc: Global, name: &Text) -> Result<Option<Seq<Prop>>, NoMemory>
    ensures { IfOk result (λ props. props
        ≡ option_map shorthands.longhands (shorthands.shorthand_of_name name.now)) }
{
    match shorthand_of_name(name) {
        Some(shorthand) => Ok(Some(longhands(alloc, shorthand)?)),
        None => Ok(None),
    }
}

/// The longhands of a shorthand.
pub(crate) fn longhands(alloc: Global, shorthand: Shorthand) -> Result<Seq<Prop>, NoMemory>
    ensures { IfOk result (λ props. props ≡ shorthands.longhands (shorthand_view shorthand)) }
{
    match shorthand {
        Shorthand::FourSides(sides) => Seq::from_slice(
            alloc,
            &[sides.top, sides.right, sides.bottom, sides.left],
        ),
        Shorthand::TwoSides(start, end) => Seq::from_slice(alloc, &[start, end]),
        Shorthand::Borders(sides) => border_longhands(alloc, sides),
        Shorthand::Background => Seq::from_slice(alloc, &[Prop::BackgroundColor]),
        Shorthand::Container => {
            Seq::from_slice(alloc, &[Prop::ContainerName, Prop::ContainerType])
        }
        Shorthand::All => Seq::from_slice(alloc, all_props()),
    }
}

/// The properties of the borders of these sides.
fn border_longhands(alloc: Global, sides: &[Border]) -> Result<Seq<Prop>, NoMemory>
    ensures { IfOk result (λ props. props ≡ shorthands.border_longhands (borders_view sides.now)) }
{
    let mut props = Seq::new(alloc);
    for side in sides {
        props.push(side.width)?;
        props.push(side.style)?;
        props.push(side.color)?;
    }
    Ok(props)
}
