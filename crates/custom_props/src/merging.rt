//! Entries of the declared names and those that are inherited, in order of name.
ghost use Rattle.custom_model.specs.inner.Finding.{with_entry};
ghost use Rattle.custom_props.specs.EnvView.{env_view};
ghost use Rattle.custom_props.specs.Views.{value_view, values_view};
ghost use Rattle.custom_props.specs.inner.EntryViews.{entry_view};
ghost use Rattle.custom_props.specs.inner.Merging.{after, before, merged, named_entries};
ghost use Rattle.std.specs.Prelude.{◌≡◌, ◌++◌, [], ◌∷◌, IfOk, OnOk, length};
ghost use Rattle.std.specs.Str.{chars};

use crate::entry::Entry;
use crate::env::Env;
use crate::named_value::NamedValue;
use crate::names::compare;
use port_core::{NoMemory, Seq, Text};
use std::alloc::Global;
use std::cmp::Ordering;

/// The environment of these entries of the declared names, and of those inherited of other names.
pub(crate) fn env_of(
    alloc: Global,
    declared: &Env,
    entries: &[Entry],
    inherited: &Env,
) -> Result<Env, NoMemory>
    requires { length entries.now ≡ length (env_view declared.now) }
    ensures { IfOk result (λ env. env_view env
        ≡ merged (named_entries (env_view declared.now) entries.now) (env_view inherited.now)) }
{
    let values = merged(
        alloc,
        declared.values.as_slice(),
        entries,
        inherited.values.as_slice(),
    )?;
    Ok(Env { values })
}

fn merged(
    alloc: Global,
    declared: &[NamedValue],
    entries: &[Entry],
    inherited: &[NamedValue],
) -> Result<Seq<NamedValue>, NoMemory>
    requires { length entries.now ≡ length declared.now }
    ensures { IfOk result (λ new. values_view new
        ≡ merged (named_entries (values_view declared.now) entries.now)
        (values_view inherited.now)) }
{
    let mut new = Seq::new(alloc);
    let mut rest = inherited;
    for place in 0..declared.len() {
        let name = &declared[place].name;
        rest = append_before(alloc, rest, name.as_str(), &mut new)?;
        append_entry(alloc, name, &entries[place], &mut new)?;
    }
    append_all(alloc, rest, &mut new)?;
    Ok(new)
}

/// Appends the values whose names are less than `name`, and returns those whose names are more.
fn append_before<'a>(
    alloc: Global,
    values: &'a [NamedValue],
    name: &str,
    new: &mut Seq<NamedValue>,
) -> Result<&'a [NamedValue], NoMemory>
    ensures appended { OnOk result (values_view new.new
        ≡ values_view new.old ++ before (chars name.now) (values_view values.entry.now)) }
    ensures rest { IfOk result (λ rest. values_view rest.now
        ≡ after (chars name.now) (values_view values.entry.now)) }
{
    for place in 0..values.len() {
        match compare(values[place].name.as_str(), name) {
            Ordering::Less => append_value(alloc, &values[place], new)?,
            Ordering::Equal => return Ok(&values[place + 1..]),
            Ordering::Greater => return Ok(&values[place..]),
        }
    }
    Ok(&[])
}

/// Appends all values.
fn append_all(
    alloc: Global,
    values: &[NamedValue],
    new: &mut Seq<NamedValue>,
) -> Result<(), NoMemory>
    ensures { OnOk result (values_view new.new ≡ values_view new.old ++ values_view values.now) }
{
    for value in values {
        append_value(alloc, value, new)?;
    }
    Ok(())
}

fn append_value(
    alloc: Global,
    value: &NamedValue,
    new: &mut Seq<NamedValue>,
) -> Result<(), NoMemory>
    ensures { OnOk result (values_view new.new ≡ values_view new.old ++ value_view value.now ∷ []) }
{
    new.push(NamedValue {
        name: value.name.copy(alloc)?,
        value: value.value.clone()?,
    })
}

/// Appends a name with its entry, if it has one.
fn append_entry(
    alloc: Global,
    name: &Text,
    entry: &Entry,
    new: &mut Seq<NamedValue>,
) -> Result<(), NoMemory>
    ensures { OnOk result (values_view new.new
        ≡ values_view new.old ++ with_entry name.now (entry_view entry.now) []) }
{
    match &entry.value {
        Some(value) => new.push(NamedValue {
            name: name.copy(alloc)?,
            value: value.clone()?,
        }),
        None => Ok(()),
    }
}
