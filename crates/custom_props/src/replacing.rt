//! What stands in place of component values (CSS Custom Properties 1, section 3).
ghost use Rattle.css_model.specs.inner.Nesting.{followed};
ghost use Rattle.css_tokens.specs.Nested.{component_view, components_view};
ghost use Rattle.custom_model.specs.Substitution.{one_component, replacement_of, replacement_of_all};
ghost use Rattle.css_model.specs.Components.{function_block, simple_block};
ghost use Rattle.custom_props.specs.inner.Entries.{entries_of, var_replacement};
ghost use Rattle.custom_props.specs.inner.Reading.{appended};
ghost use Rattle.std.specs.Prelude.{◌≡◌, ◌≤◌, IfOk, Some, drop, length, option_map};

use crate::copies::{append_copy, copy_close};
use crate::entries::entry_in;
use crate::known::Known;
use crate::references::{is_var_type, place_after_comma};
use css_tokens::{Component, Components, Token};
use port_core::{NoMemory, Seq};
use std::alloc::Global;

/// What stands in place of component values, if anything does.
#[cycle(replacing)]
pub(crate) fn replaced(
    alloc: Global,
    components: &[Component],
    known: &Known<'_>,
) -> Result<Option<Components>, NoMemory>
    ensures { IfOk result (λ cs. option_map components_view cs
        ≡ replacement_of_all (entries_of known.now) (components_view components.now)) }
{
    let mut new = Seq::new(alloc);
    match append_from(alloc, components, 0, known, &mut new)? {
        true => Ok(Some(new)),
        false => Ok(None),
    }
}

/// Appends what stands in place of the component values from a place on, and returns whether anything
/// does.
#[cycle(replacing)]
fn append_from(
    alloc: Global,
    components: &[Component],
    start: usize,
    known: &Known<'_>,
    new: &mut Components,
) -> Result<bool, NoMemory>
    requires { start ≤ length components.now }
    ensures { IfOk result (λ found. appended found (components_view new.new)
        ≡ option_map (followed (components_view new.old))
        (replacement_of_all (entries_of known.now) (components_view (drop start components.now)))) }
{
    for place in start..components.len() {
        if !append_one(alloc, &components[place], known, new)? {
            return Ok(false);
        }
    }
    Ok(true)
}

#[cycle(replacing)]
fn append_one(
    alloc: Global,
    c: &Component,
    known: &Known<'_>,
    new: &mut Components,
) -> Result<bool, NoMemory>
    ensures { IfOk result (λ found. appended found (components_view new.new)
        ≡ option_map (followed (components_view new.old))
        (replacement_of (entries_of known.now) (component_view c.now))) }
{
    match c {
        Component::One(token) => push(new, Component::One(token.copy(alloc)?)),
        Component::Block(head, contents, close) => {
            match replaced(alloc, contents.as_slice(), known)? {
                Some(inside) => push(new, block_of(alloc, head, inside, close)?),
                None => Ok(false),
            }
        }
        Component::Function(head, contents, close) => {
            if is_var_type(&head.token_type) {
                return append_var(alloc, contents.as_slice(), known, new);
            }
            match replaced(alloc, contents.as_slice(), known)? {
                Some(inside) => push(new, function_of(alloc, head, inside, close)?),
                None => Ok(false),
            }
        }
    }
}

/// The same for a `var()` with these contents.
#[cycle(replacing)]
fn append_var(
    alloc: Global,
    contents: &[Component],
    known: &Known<'_>,
    new: &mut Components,
) -> Result<bool, NoMemory>
    ensures { IfOk result (λ found. appended found (components_view new.new)
        ≡ option_map (followed (components_view new.old))
        (var_replacement (entries_of known.now) (components_view contents.now))) }
{
    match entry_in(contents, known) {
        Some(value) => append_value(alloc, value.as_slice(), new),
        None => match place_after_comma(contents) {
            Some(place) => append_from(alloc, contents, place, known, new),
            None => Ok(false),
        },
    }
}

/// Appends copies of component values.
fn append_value(alloc: Global, value: &[Component], new: &mut Components) -> Result<bool, NoMemory>
    ensures { IfOk result (λ found. appended found (components_view new.new)
        ≡ Some (followed (components_view new.old) (components_view value.now))) }
{
    append_copy(alloc, value, new)?;
    Ok(true)
}

/// Appends a component value.
fn push(new: &mut Components, c: Component) -> Result<bool, NoMemory>
    ensures { IfOk result (λ found. appended found (components_view new.new)
        ≡ Some (followed (components_view new.old) (one_component (component_view c)))) }
{
    new.push(c)?;
    Ok(true)
}

/// A simple block with these contents, between copies of its brackets.
fn block_of(
    alloc: Global,
    head: &Token,
    contents: Components,
    close: &Option<Token>,
) -> Result<Component, NoMemory>
    ensures { IfOk result (λ c. component_view c
        ≡ simple_block head.now (components_view contents) close.now) }
{
    let head = head.copy(alloc)?;
    let close = copy_close(alloc, close)?;
    Ok(Component::Block(head, contents, close))
}

/// A function with these contents, between copies of its brackets.
fn function_of(
    alloc: Global,
    head: &Token,
    contents: Components,
    close: &Option<Token>,
) -> Result<Component, NoMemory>
    ensures { IfOk result (λ c. component_view c
        ≡ function_block head.now (components_view contents) close.now) }
{
    let head = head.copy(alloc)?;
    let close = copy_close(alloc, close)?;
    Ok(Component::Function(head, contents, close))
}
