//! Borders without a width (CSS Backgrounds 3, section 3.3).
ghost use Rattle.cascade_model.specs.Defaulting as model;
ghost use Rattle.prop_table.specs.Views.{final_view};
ghost use Rattle.std.specs.Prelude.{◌≡◌};
ghost use Rattle.value_model.specs.Properties.{pixels};

use prop_table::{Computed, Final, Keyword, Prop};
use units64::Units;

/// The style of the border whose width `prop` is.
pub(crate) fn style_of_border(prop: Prop) -> Option<Prop>
    ensures { result ≡ model.style_of_border prop }
{
    match prop {
        Prop::BorderTopWidth => Some(Prop::BorderTopStyle),
        Prop::BorderRightWidth => Some(Prop::BorderRightStyle),
        Prop::BorderBottomWidth => Some(Prop::BorderBottomStyle),
        Prop::BorderLeftWidth => Some(Prop::BorderLeftStyle),
        _ => None,
    }
}

/// Whether a border of this style has no width.
pub(crate) fn is_no_border(style: &Final) -> bool
    ensures { result ≡ model.is_no_border (final_view style.now) }
{
    match style {
        Final::Keyword(Keyword::None | Keyword::Hidden) => true,
        _ => false,
    }
}

/// No width.
pub(crate) fn no_width() -> Final
    ensures { final_view result ≡ pixels 0 }
{
    Final::Length(Computed::Units(Units::new(0)))
}
