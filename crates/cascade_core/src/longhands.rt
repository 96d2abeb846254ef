//! The properties that a declaration is of, and the values that it gives them (CSS Cascade 4, section 3).
ghost use Rattle.cascade_model.specs.Kept as model;
ghost use Rattle.css_tokens.specs.Nested.{components_view};
ghost use Rattle.prop_table.specs.Views.{pairs_view};
ghost use Rattle.std.specs.Prelude.{◌≡◌, ◌∷◌, [], IfOk};
ghost use Rattle.std.specs.Prelude.{option_and_then, option_map};
ghost use Rattle.value_model.specs.Grammar as grammar;

use css_tokens::Components;
use port_core::{NoMemory, Seq, Text};
use prop_table::{
    Longhand, Pairs, Prop, Value, expand_shorthand, longhands_of_name, property_of_name, read_value,
};
use std::alloc::Global;

/// The values that component values under a name give to properties, if both are right.
pub(crate) fn longhands_of(
    alloc: Global,
    name: &Text,
    value: &Components,
) -> Result<Option<Pairs>, NoMemory>
    ensures { IfOk result (λ ls. option_map pairs_view ls
        ≡ model.longhands_of name.now (components_view value.now)) }
{
    match own_longhand(alloc, name, value)? {
        Some(longhands) => Ok(Some(longhands)),
        None => expand_shorthand(alloc, name.as_str(), value),
    }
}

/// The value that they give to the property of this name.
fn own_longhand(alloc: Global, name: &Text, value: &Components) -> Result<Option<Pairs>, NoMemory>
    ensures { IfOk result (λ ls. option_map pairs_view ls
        ≡ option_and_then
        (λ p. option_map (λ v. (p, v) ∷ []) (grammar.value_of p (components_view value.now)))
        (grammar.property_of_name name.now)) }
{
    let prop = match property_of_name(name) {
        Some(prop) => prop,
        None => return Ok(None),
    };
    match read_value(alloc, prop, value)? {
        Some(value) => Ok(Some(only(alloc, prop, value)?)),
        None => Ok(None),
    }
}

fn only(alloc: Global, prop: Prop, value: Value) -> Result<Pairs, NoMemory>
    ensures { IfOk result (λ ls. ls ≡ record { prop = prop; value = value } ∷ []) }
{
    let mut pairs = Seq::new(alloc);
    pairs.push(Longhand { prop, value })?;
    Ok(pairs)
}

/// The properties that a name stands for: the one of this name, or the longhands of a shorthand.
pub(crate) fn props_of_name(alloc: Global, name: &Text) -> Result<Seq<Prop>, NoMemory>
    ensures { IfOk result (λ props. props ≡ model.properties_of_name name.now) }
{
    if let Some(prop) = property_of_name(name) {
        return Seq::from_slice(alloc, &[prop]);
    }
    match longhands_of_name(alloc, name)? {
        Some(props) => Ok(props),
        None => Ok(Seq::new(alloc)),
    }
}
