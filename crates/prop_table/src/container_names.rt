//! `container-name` (CSS Conditional 5, section 4.2).
ghost use Rattle.css_tokens.specs.Nested.{component_view, components_view};
ghost use Rattle.std.specs.List.{list_any};
ghost use Rattle.std.specs.Option.{option_copied};
ghost use Rattle.std.specs.Prelude.{◌≡◌, IfOk, codes};
ghost use Rattle.std.specs.Str.{str_eq_ignore_ascii_case};
ghost use Rattle.value_model.specs.Forms as forms;
ghost use Rattle.value_model.specs.Words.{words_of};

use css_tokens::{Component, is_word};
use port_core::{NoMemory, Seq, Text};
use std::alloc::Global;
use value_parts::{first_word, ident_of, is_whitespace, only_word};

/// `none`, or at least one name.
pub(crate) fn container_names_of(
    alloc: Global,
    components: &[Component],
) -> Result<Option<Seq<Text>>, NoMemory>
    ensures { IfOk result (λ names. names
        ≡ forms.container_names_of (words_of (components_view components.now))) }
{
    if first_word(components).is_none() {
        return Ok(None);
    }
    if is_none_alone(components) {
        return Ok(Some(Seq::new(alloc)));
    }
    names_of(alloc, components)
}

/// Whether this is `none` and no more.
pub(crate) fn is_none_alone(components: &[Component]) -> bool
    ensures { result ≡ forms.is_none_alone (words_of (components_view components.now)) }
{
    match only_word(components) {
        Some(c) => is_none(c),
        None => false,
    }
}

fn is_none(c: &Component) -> bool
    ensures { result ≡ forms.is_word (codes "none") (component_view c.now) }
{
    match ident_of(c) {
        Some(name) => is_word(name, "none"),
        None => false,
    }
}

/// Names alone.
fn names_of(alloc: Global, components: &[Component]) -> Result<Option<Seq<Text>>, NoMemory>
    ensures { IfOk result (λ names. names
        ≡ forms.names_of (words_of (components_view components.now))) }
{
    let mut names = Seq::new(alloc);
    for c in components {
        if is_whitespace(c) {
            continue;
        }
        match container_name_of(c) {
            Some(name) => names.push(name.copy(alloc)?)?,
            None => return Ok(None),
        }
    }
    Ok(Some(names))
}

/// The name of a container that `c` is, if it is one.
fn container_name_of(c: &Component) -> Option<&Text>
    ensures { option_copied result ≡ forms.container_name_of (component_view c.now) }
{
    let name = ident_of(c)?;
    if is_no_container_name(name) {
        None
    } else {
        Some(name)
    }
}

fn is_no_container_name(name: &Text) -> bool
    ensures { result ≡ list_any (str_eq_ignore_ascii_case name.now) forms.no_container_names }
{
    is_word(name, "none")
        || is_word(name, "and")
        || is_word(name, "or")
        || is_word(name, "not")
        || is_word(name, "default")
        || is_word(name, "inherit")
        || is_word(name, "initial")
        || is_word(name, "unset")
        || is_word(name, "revert")
        || is_word(name, "revert-layer")
}
