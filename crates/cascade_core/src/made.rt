//! Values that are kept whole, after substitution (CSS Custom Properties 1, section 3).
ghost use Rattle.cascade_core.specs.Tables.{entry};
ghost use Rattle.cascade_core.specs.inner.Mades.{AreMade, is_whole, is_whole_value, made_kept, made_value, whole_after, winner_after};
ghost use Rattle.cascade_model.specs.Substituting as model;
ghost use Rattle.css_tokens.specs.Nested.{components_view};
ghost use Rattle.custom_model.specs.NamedValues.{value_named};
ghost use Rattle.custom_model.specs.Substitution.{substituted};
ghost use Rattle.custom_props.specs.EnvView.{env_view};
ghost use Rattle.prop_table.specs.Views.{pairs_view, value_view};
ghost use Rattle.std.specs.List.{list_any};
ghost use Rattle.std.specs.Map.{lookup};
ghost use Rattle.std.specs.Option.{option_copied};
ghost use Rattle.std.specs.Prelude.{◌≡◌, IfOk, None, get_or, option_and_then, option_map};
ghost use Rattle.value_model.specs.Properties.{is_same_prop};
ghost use Rattle.value_model.specs.Properties as properties;

use crate::applied::Applied;
use crate::kept::KeptValue;
use crate::longhands::longhands_of;
use crate::table::Table;
use css_tokens::Components;
use custom_props::{Env, Substituted, substitute};
use port_core::{NoMemory, Seq, Text};
use prop_table::{Longhand, Prop, Value, all_props, prop_place};
use std::alloc::Global;

/// What the values of a table that are kept whole are after substitution, each in the place of its
/// property; where none is kept whole there are no places.
pub(crate) fn made_of(
    alloc: Global,
    table: &Table,
    env: &Env,
) -> Result<Seq<Option<Value>>, NoMemory>
    ensures { IfOk result (AreMade (value_named (env_view env.now)) table.now) }
{
    let mut made = Seq::new(alloc);
    if !has_whole(table.as_slice()) {
        return Ok(made);
    }
    for prop in all_props() {
        made.push(made_for(alloc, table, *prop, env)?)?;
    }
    Ok(made)
}

/// Whether a value is kept whole.
fn has_whole(entries: &[Option<Applied>]) -> bool
    ensures { result ≡ list_any is_whole entries.now }
{
    for entry in entries {
        if is_whole(entry) {
            return true;
        }
    }
    false
}

fn is_whole(entry: &Option<Applied>) -> bool
    ensures { result ≡ is_whole entry.now }
{
    match entry {
        Some(best) => is_whole_value(&best.value),
        None => false,
    }
}

fn is_whole_value(value: &KeptValue) -> bool
    ensures { result ≡ is_whole_value value.now }
{
    match value {
        KeptValue::Read(_) => false,
        KeptValue::Whole(_, _) => true,
    }
}

/// What the value that wins for `prop` is after substitution, if it is kept whole.
fn made_for(alloc: Global, table: &Table, prop: Prop, env: &Env) -> Result<Option<Value>, NoMemory>
    ensures { IfOk result (λ v. option_map value_view v
        ≡ winner_after (value_named (env_view env.now)) prop (entry table.now prop)) }
{
    match table.get(prop) {
        Some(best) => made_of_value(alloc, &best.value, prop, env),
        None => Ok(None),
    }
}

fn made_of_value(
    alloc: Global,
    value: &KeptValue,
    prop: Prop,
    env: &Env,
) -> Result<Option<Value>, NoMemory>
    ensures { IfOk result (λ v. option_map value_view v
        ≡ whole_after (value_named (env_view env.now)) prop value.now) }
{
    match value {
        KeptValue::Read(_) => Ok(None),
        KeptValue::Whole(name, components) => made_of_whole(alloc, name, components, prop, env),
    }
}

/// The value of `prop` that component values give under a name after substitution.
fn made_of_whole(
    alloc: Global,
    name: &Text,
    components: &Components,
    prop: Prop,
    env: &Env,
) -> Result<Option<Value>, NoMemory>
    ensures { IfOk result (λ v. option_map value_view v
        ≡ option_and_then (λ cs. model.value_under name.now cs prop)
        (substituted (value_named (env_view env.now)) (components_view components.now))) }
{
    match substitute(alloc, components, env)? {
        Substituted::Value(value) => value_under(alloc, name, &value, prop),
        Substituted::Invalid => Ok(None),
    }
}

/// The value of `prop` that component values give under a name.
fn value_under(
    alloc: Global,
    name: &Text,
    value: &Components,
    prop: Prop,
) -> Result<Option<Value>, NoMemory>
    ensures { IfOk result (λ v. option_map value_view v
        ≡ model.value_under name.now (components_view value.now) prop) }
{
    match longhands_of(alloc, name, value)? {
        Some(longhands) => value_among(alloc, longhands.as_slice(), prop),
        None => Ok(None),
    }
}

fn value_among(alloc: Global, longhands: &[Longhand], prop: Prop) -> Result<Option<Value>, NoMemory>
    ensures { IfOk result (λ v. option_map value_view v
        ≡ lookup (is_same_prop prop) (pairs_view longhands.now)) }
{
    for longhand in longhands {
        if prop_place(prop) == prop_place(longhand.prop) {
            return Ok(Some(longhand.value.copy(alloc)?));
        }
    }
    Ok(None)
}

/// The value that wins for `prop`, where these were made of those that are kept whole.
pub(crate) fn value_that_wins<'a>(
    table: &'a Table,
    made: &'a [Option<Value>],
    prop: Prop,
) -> Option<&'a Value>
    ensures { option_map value_view (option_copied result)
        ≡ made_value made.now prop (entry table.now prop) }
{
    match table.get(prop) {
        Some(best) => value_of(&best.value, made, prop),
        None => None,
    }
}

fn value_of<'a>(value: &'a KeptValue, made: &'a [Option<Value>], prop: Prop) -> Option<&'a Value>
    ensures { option_map value_view (option_copied result) ≡ made_kept made.now prop value.now }
{
    match value {
        KeptValue::Read(value) => Some(value),
        KeptValue::Whole(_, _) => made_at(made, prop),
    }
}

fn made_at(made: &[Option<Value>], prop: Prop) -> Option<&Value>
    ensures { option_map value_view (option_copied result)
        ≡ option_map value_view (get_or made.now (properties.prop_place prop) None) }
{
    made.get(prop_place(prop))?.as_ref()
}
