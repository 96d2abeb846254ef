//! Values of properties, read from component values (CSS Syntax 3, section 5.4.6; the modules of
//! each property).
ghost use Rattle.css_tokens.specs.Nested.{component_view, components_view};
ghost use Rattle.prop_table.specs.Views.{value_view};
ghost use Rattle.prop_table.specs.inner.FormViews.{form_view, forms_view};
ghost use Rattle.prop_table.specs.inner.WordSteps.{alone};
ghost use Rattle.std.specs.Prelude.{◌≡◌, IfOk, option_map};
ghost use Rattle.value_model.specs.Grammar as grammar;
ghost use Rattle.value_model.specs.Forms as model;
ghost use Rattle.value_model.specs.Words.{words_of};

use crate::container_names::container_names_of;
use crate::containment::containment_of;
use crate::form::Form;
use crate::forms::forms;
use crate::value::Value;
use crate::value_of_word::value_of_word;
use css_tokens::{Component, Components};
use port_core::NoMemory;
use std::alloc::Global;
use value_model::Prop;
use value_parts::{only_word, wide_keyword_of};

/// Returns the value of `prop` that `c` is, if it is one.
pub fn read_value(alloc: Global, prop: Prop, c: &Components) -> Result<Option<Value>, NoMemory>
    ensures { IfOk result (λ v. option_map value_view v
        ≡ grammar.value_of prop (components_view c.now)) }
{
    match wide_keyword_of(c.as_slice()) {
        Some(wide) => Ok(Some(Value::Wide(wide))),
        None => own_value_of(alloc, prop, c.as_slice()),
    }
}

/// The value of `prop` that component values are, other than a CSS-wide keyword.
pub(crate) fn own_value_of(
    alloc: Global,
    prop: Prop,
    components: &[Component],
) -> Result<Option<Value>, NoMemory>
    ensures { IfOk result (λ v. option_map value_view v
        ≡ grammar.own_value_of prop (words_of (components_view components.now))) }
{
    value_of_forms(alloc, forms(prop), components)
}

/// The value of the first of `forms` that component values are of.
fn value_of_forms(
    alloc: Global,
    forms: &[Form],
    components: &[Component],
) -> Result<Option<Value>, NoMemory>
    ensures { IfOk result (λ v. option_map value_view v
        ≡ grammar.value_of_forms (forms_view forms.now)
        (words_of (components_view components.now))) }
{
    for form in forms {
        match value_of_form(alloc, *form, components)? {
            Some(value) => return Ok(Some(value)),
            None => {}
        }
    }
    Ok(None)
}

/// The value of a form that component values are.
fn value_of_form(
    alloc: Global,
    form: Form,
    components: &[Component],
) -> Result<Option<Value>, NoMemory>
    ensures { IfOk result (λ v. option_map value_view v
        ≡ model.value_of_form (form_view form) (words_of (components_view components.now))) }
{
    match form {
        Form::Containment => Ok(containment_value(components)),
        Form::ContainerNames => names_value(alloc, components),
        _ => only_value(alloc, form, components),
    }
}

fn containment_value(components: &[Component]) -> Option<Value>
    ensures { option_map value_view result
        ≡ model.value_of_form model.a_containment (words_of (components_view components.now)) }
{
    Some(Value::Containment(containment_of(components)?))
}

fn names_value(alloc: Global, components: &[Component]) -> Result<Option<Value>, NoMemory>
    ensures { IfOk result (λ v. option_map value_view v
        ≡ model.value_of_form model.container_names (words_of (components_view components.now))) }
{
    match container_names_of(alloc, components)? {
        Some(names) => Ok(Some(Value::Names(names))),
        None => Ok(None),
    }
}

/// The value of a form that is one component value.
fn only_value(
    alloc: Global,
    form: Form,
    components: &[Component],
) -> Result<Option<Value>, NoMemory>
    ensures { IfOk result (λ v. option_map value_view v
        ≡ alone (model.value_of_one (form_view form)) (words_of (components_view components.now))) }
{
    match only_word(components) {
        Some(word) => value_of_word(alloc, form, word),
        None => Ok(None),
    }
}
