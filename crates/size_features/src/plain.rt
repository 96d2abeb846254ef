//! The boolean and the plain form of a feature (Media Queries 4, sections 2.4, 2.4.2 and 2.4.4).
ghost use Rattle.conditions_model.specs.SizeFeatures as model;
ghost use Rattle.css_tokens.specs.Nested.{component_view, components_view};
ghost use Rattle.rules_model.specs.ComponentLists as lists;
ghost use Rattle.rules_model.specs.Declarations as declarations;
ghost use Rattle.size_features.specs.Views.{form_view, names_of};
ghost use Rattle.std.specs.Option.{option_copied};
ghost use Rattle.std.specs.Prelude.{◌≡◌, if◌then◌else◌, IfOk, Some, None, option_map};

use crate::bound::Bound;
use crate::feature::Form;
use crate::names::{FeatureNames, feature_name, plain_name_of};
use crate::values::{orientation_of, value_of};
use crate::white_space::only_component;
use conditions_model::{Comparison, FeatureName};
use css_tokens::{Component, TokenType};
use port_core::NoMemory;
use std::alloc::Global;
use value_parts::is_whitespace;

/// The boolean form, `(f)`.
pub(crate) fn boolean_form(names: FeatureNames, components: &[Component]) -> Option<Form>
    ensures { option_map form_view result
        ≡ model.boolean_form (names_of names) (components_view components.now) }
{
    let only = only_component(components)?;
    let f = feature_name(names, only)?;
    Some(Form::Boolean(f))
}

/// The plain form, `(f: v)`.
pub(crate) fn plain_form(
    alloc: Global,
    names: FeatureNames,
    components: &[Component],
) -> Result<Option<Form>, NoMemory>
    ensures { IfOk result (λ form. option_map form_view form
        ≡ model.plain_form (names_of names) (components_view components.now)) }
{
    match components {
        [first, rest @ ..] => plain_form_of(alloc, plain_name_of(names, first), after_colon(rest)),
        [] => Ok(None),
    }
}

/// The plain form of a name and a value.
fn plain_form_of(
    alloc: Global,
    name: Option<(Comparison, FeatureName)>,
    value: Option<&[Component]>,
) -> Result<Option<Form>, NoMemory>
    ensures { IfOk result (λ form. option_map form_view form
        ≡ model.plain_from name (option_map components_view (option_copied value.entry))) }
{
    match (name, value) {
        (Some((comparison, f)), Some(value)) => plain_feature(alloc, comparison, f, value),
        _ => Ok(None),
    }
}

fn plain_feature(
    alloc: Global,
    comparison: Comparison,
    f: FeatureName,
    value: &[Component],
) -> Result<Option<Form>, NoMemory>
    ensures { IfOk result (λ form. option_map form_view form
        ≡ model.plain_feature (comparison, f) (components_view value.now)) }
{
    match (comparison, f) {
        (Comparison::EqualTo, FeatureName::Orientation) => Ok(orientation_form(value)),
        _ => one_bound(alloc, f, comparison, value),
    }
}

fn orientation_form(value: &[Component]) -> Option<Form>
    ensures { option_map form_view result
        ≡ option_map model.orientation_is (model.orientation_of (components_view value.now)) }
{
    let orientation = orientation_of(value)?;
    Some(Form::Orientation(orientation))
}

/// A feature and what it is compared with.
pub(crate) fn one_bound(
    alloc: Global,
    f: FeatureName,
    comparison: Comparison,
    value: &[Component],
) -> Result<Option<Form>, NoMemory>
    ensures { IfOk result (λ form. option_map form_view form
        ≡ model.one_bound f comparison (components_view value.now)) }
{
    match value_of(alloc, f, value)? {
        Some(value) => Ok(Some(Form::OneBound(f, Bound { comparison, value }))),
        None => Ok(None),
    }
}

/// What is after perhaps white space and a `:`.
fn after_colon(components: &[Component]) -> Option<&[Component]>
    ensures { option_map components_view (option_copied result)
        ≡ declarations.after_colon (components_view components.now) }
{
    for place in 0..components.len() {
        let c = &components[place];
        if !is_whitespace(c) {
            return after_if(is_colon(c), &components[place + 1..]);
        }
    }
    None
}

fn after_if(is_colon: bool, after: &[Component]) -> Option<&[Component]>
    ensures { option_copied result ≡ (if is_colon then Some after.now else None) }
{
    if is_colon { Some(after) } else { None }
}

fn is_colon(c: &Component) -> bool
    ensures { result ≡ lists.is_colon (component_view c.now) }
{
    match c {
        Component::One(token) => matches!(&token.token_type, TokenType::Colon),
        _ => false,
    }
}
