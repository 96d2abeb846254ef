//! Properties with the values that a shorthand gives them (CSS Cascade 4, section 3).
ghost use Rattle.css_tokens.specs.Nested.{component_view};
ghost use Rattle.prop_table.specs.Views.{longhand_view, pairs_view, value_view};
ghost use Rattle.prop_table.specs.inner.WordSteps.{behind};
ghost use Rattle.rules_model.specs.ComponentLists as lists;
ghost use Rattle.std.specs.Prelude.{◌≡◌, ◌∷◌, [], IfOk, false, option_map};
ghost use Rattle.value_model.specs.Grammar as grammar;
ghost use Rattle.value_model.specs.Shorthands as shorthands;

use crate::reading::own_value_of;
use crate::value::Value;
use css_tokens::Component;
use port_core::{NoMemory, Seq};
use std::alloc::Global;
use std::slice;
use value_model::Prop;

/// A property and the value that a shorthand gives it.
#[derive(Debug, Drop)]
pub struct Longhand {
    /// The property.
    pub prop: Prop,
    /// Its value.
    pub value: Value,
}

/// Properties with their values, in the order in which the shorthand sets them.
pub type Pairs = Seq<Longhand>;

/// A property, and its value that is one component value.
pub(crate) fn read_longhand(
    alloc: Global,
    prop: Prop,
    c: &Component,
) -> Result<Option<Longhand>, NoMemory>
    requires { lists.is_whitespace (component_view c.now) ≡ false }
    ensures { IfOk result (λ l. option_map longhand_view l
        ≡ shorthands.longhand prop (component_view c.now)) }
{
    match value_of_alone(alloc, prop, c)? {
        Some(value) => Ok(Some(Longhand { prop, value })),
        None => Ok(None),
    }
}

/// The value of `prop` that one component value is.
pub(crate) fn value_of_alone(
    alloc: Global,
    prop: Prop,
    c: &Component,
) -> Result<Option<Value>, NoMemory>
    requires { lists.is_whitespace (component_view c.now) ≡ false }
    ensures { IfOk result (λ v. option_map value_view v
        ≡ grammar.own_value_of prop (component_view c.now ∷ [])) }
{
    own_value_of(alloc, prop, slice::from_ref(c))
}

/// With one more, if it is there.
pub(crate) fn with_longhand(
    pairs: Option<Pairs>,
    more: Option<Longhand>,
) -> Result<Option<Pairs>, NoMemory>
    ensures { IfOk result (λ ps. option_map pairs_view ps
        ≡ behind (option_map pairs_view pairs) (option_map longhand_view more)) }
{
    match (pairs, more) {
        (Some(mut pairs), Some(more)) => {
            pairs.push(more)?;
            Ok(Some(pairs))
        }
        _ => Ok(None),
    }
}
