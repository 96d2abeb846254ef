//! `background` (CSS Backgrounds 3, section 2.10): a colour, or `none`.
ghost use Rattle.css_tokens.specs.Nested.{components_view};
ghost use Rattle.prop_table.specs.Views.{pairs_view, value_view};
ghost use Rattle.std.specs.Prelude.{◌≡◌, if◌then◌else◌, IfOk, Some, option_map};
ghost use Rattle.value_model.specs.Forms as forms;
ghost use Rattle.value_model.specs.Grammar as grammar;
ghost use Rattle.value_model.specs.Shorthands as shorthands;
ghost use Rattle.value_model.specs.Colors.{rgba};
ghost use Rattle.value_model.specs.Values.{color_value};
ghost use Rattle.value_model.specs.Words.{words_of};
ghost use Rattle.value_model.specs.declared.color.Color.TheVariants as color;
ghost use Rattle.value_model.specs.declared.prop.Prop.TheVariants as prop;

use crate::container::with_prop;
use crate::container_names::is_none_alone;
use crate::longhand::{Pairs, with_longhand};
use crate::reading::own_value_of;
use crate::value::Value;
use css_tokens::Component;
use port_core::{NoMemory, Seq};
use std::alloc::Global;
use value_model::{Color, Prop, Rgba};

/// The values of `background`.
pub(crate) fn background_values_of(
    alloc: Global,
    components: &[Component],
) -> Result<Option<Pairs>, NoMemory>
    ensures { IfOk result (λ ps. option_map pairs_view ps
        ≡ shorthands.background_values_of (words_of (components_view components.now))) }
{
    let color = background_color_of(alloc, components)?;
    let none = Some(Seq::new(alloc));
    with_longhand(none, with_prop(Prop::BackgroundColor, color))
}

/// The colour, which is transparent for `none`.
fn background_color_of(alloc: Global, components: &[Component]) -> Result<Option<Value>, NoMemory>
    ensures { IfOk result (λ v. option_map value_view v
        ≡ (if forms.is_none_alone (words_of (components_view components.now))
        then Some (color_value (color.Rgba (rgba 0 0 0 0)))
        else grammar.own_value_of prop.BackgroundColor
        (words_of (components_view components.now)))) }
{
    if is_none_alone(components) {
        let transparent = Rgba {
            red: 0,
            green: 0,
            blue: 0,
            alpha: 0,
        };
        return Ok(Some(Value::Color(Color::Rgba(transparent))));
    }
    own_value_of(alloc, Prop::BackgroundColor, components)
}
