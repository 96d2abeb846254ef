//! Entries of names.
ghost use Rattle.css_tokens.specs.Nested.{components_view};
ghost use Rattle.custom_model.specs.NamedValues.{are_in_order, names_of, value_named};
ghost use Rattle.custom_props.specs.Views.{value_view, values_view};
ghost use Rattle.custom_model.specs.Substitution.{entry_of_reference};
ghost use Rattle.custom_props.specs.inner.Entries.{entries_of};
ghost use Rattle.custom_props.specs.inner.EntryViews.{entry_in, entry_view};
ghost use Rattle.std.specs.Option.{option_copied};
ghost use Rattle.std.specs.Prelude.{◌≡◌, IfOk, Some, option_map, true};

use crate::entry::Entry;
use crate::known::Known;
use crate::named_value::NamedValue;
use crate::places::place_of;
use crate::references::name_in;
use css_tokens::{Component, Components};
use port_core::{NoMemory, Text};

/// The value of `name`, if it has one.
pub(crate) fn value_named<'a>(values: &'a [NamedValue], name: &Text) -> Option<&'a Components>
    requires { are_in_order (names_of (values_view values.now)) ≡ true }
    ensures { option_map components_view (option_copied result)
        ≡ value_named (values_view values.entry.now) name.now }
{
    match place_of(values, name.as_str()) {
        Some(place) => Some(&*values[place].value),
        None => None,
    }
}

/// The entry of `name` that is inherited.
pub(crate) fn inherited_entry(values: &[NamedValue], name: &Text) -> Result<Entry, NoMemory>
    requires { are_in_order (names_of (values_view values.now)) ≡ true }
    ensures { IfOk result (λ e. entry_view e ≡ value_named (values_view values.now) name.now) }
{
    match place_of(values, name.as_str()) {
        Some(place) => entry_with(&values[place]),
        None => Ok(Entry { value: None }),
    }
}

/// The entry that a value is.
fn entry_with(value: &NamedValue) -> Result<Entry, NoMemory>
    ensures { IfOk result (λ e. entry_view e ≡ Some (value_view value.now).1) }
{
    Ok(Entry {
        value: Some(value.value.clone()?),
    })
}

/// The value of an entry, if it has one.
fn value_of(entry: &Entry) -> Option<&Components>
    ensures { option_map components_view (option_copied result) ≡ entry_view entry.now }
{
    match &entry.value {
        Some(value) => Some(&**value),
        None => None,
    }
}

/// The entry of the declared name in this place.
fn entry_in_table<'a>(known: &Known<'a>, place: usize) -> Option<&'a Components>
    ensures { option_map components_view (option_copied result)
        ≡ entry_in known.entry.now.table.now place }
{
    value_of(known.table.get(place)?)
}

/// The entry of `name`, if it has one.
pub(crate) fn entry_of<'a>(known: &Known<'a>, name: &Text) -> Option<&'a Components>
    ensures { option_map components_view (option_copied result)
        ≡ entries_of known.entry.now name.now }
{
    match place_of(known.declared, name.as_str()) {
        Some(place) => entry_in_table(known, place),
        None => value_named(known.inherited, name),
    }
}

/// The entry to whose name a `var()` with these contents refers.
pub(crate) fn entry_in<'a>(contents: &[Component], known: &Known<'a>) -> Option<&'a Components>
    ensures { option_map components_view (option_copied result)
        ≡ entry_of_reference (entries_of known.entry.now) (components_view contents.now) }
{
    entry_of(known, name_in(contents)?)
}
