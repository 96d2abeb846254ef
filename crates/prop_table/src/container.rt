//! `container` (CSS Conditional 5, section 4.3).
ghost use Rattle.css_tokens.specs.Nested.{components_view};
ghost use Rattle.prop_table.specs.Views.{longhand_view, pairs_view, value_view};
ghost use Rattle.prop_table.specs.inner.Slashes.{both};
ghost use Rattle.std.specs.Option.{option_copied};
ghost use Rattle.std.specs.Prelude.{◌≡◌, IfOk, option_map};
ghost use Rattle.value_model.specs.Shorthands as shorthands;
ghost use Rattle.value_model.specs.Words.{words_of};

use crate::longhand::{Longhand, Pairs, with_longhand};
use crate::reading::own_value_of;
use crate::slash::split_at_slash;
use crate::value::Value;
use css_tokens::Component;
use port_core::{NoMemory, Seq};
use std::alloc::Global;
use value_model::{Keyword, Prop};

/// The values of `container`: names or `none`, and perhaps a `/` and a type.
pub(crate) fn container_values_of(
    alloc: Global,
    components: &[Component],
) -> Result<Option<Pairs>, NoMemory>
    ensures { IfOk result (λ ps. option_map pairs_view ps
        ≡ shorthands.container_values_of (words_of (components_view components.now))) }
{
    let parts = split_at_slash(components);
    let names = own_value_of(alloc, Prop::ContainerName, parts.before)?;
    let container_type = container_type_of(alloc, parts.after)?;
    pairs_of(alloc, names, container_type)
}

/// The names and the type, if both are there.
fn pairs_of(
    alloc: Global,
    names: Option<Value>,
    container_type: Option<Value>,
) -> Result<Option<Pairs>, NoMemory>
    ensures { IfOk result (λ ps. option_map pairs_view ps
        ≡ both (option_map value_view names) (option_map value_view container_type)) }
{
    let none = Some(Seq::new(alloc));
    let one = with_longhand(none, with_prop(Prop::ContainerName, names))?;
    with_longhand(one, with_prop(Prop::ContainerType, container_type))
}

/// The type after the `/`, or else the initial one.
fn container_type_of(alloc: Global, after: Option<&[Component]>) -> Result<Option<Value>, NoMemory>
    ensures { IfOk result (λ v. option_map value_view v
        ≡ shorthands.container_type_of
        (option_map (λ cs. words_of (components_view cs)) (option_copied after.entry))) }
{
    match after {
        Some(components) => own_value_of(alloc, Prop::ContainerType, components),
        None => Ok(Some(Value::Keyword(Keyword::Normal))),
    }
}

/// A property with its value, if it has one.
pub(crate) fn with_prop(prop: Prop, value: Option<Value>) -> Option<Longhand>
    ensures { option_map longhand_view result
        ≡ option_map (λ v. (prop, v)) (option_map value_view value) }
{
    match value {
        Some(value) => Some(Longhand { prop, value }),
        None => None,
    }
}
