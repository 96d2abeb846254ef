//! The range forms of a feature (Media Queries 4, section 2.4.3).
ghost use Rattle.conditions_model.specs.SizeFeatures as model;
ghost use Rattle.css_tokens.specs.Nested.{components_view};
ghost use Rattle.size_features.specs.Views.{bound_view, form_view, names_of};
ghost use Rattle.std.specs.Prelude.{◌≡◌, [], ◌∷◌, IfOk, option_and_then, option_map};

use crate::bound::Bound;
use crate::feature::Form;
use crate::names::{FeatureNames, feature_name};
use crate::plain::one_bound;
use crate::signs::{Sided, Sign, split_at_sign};
use crate::values::value_of;
use crate::white_space::only_trimmed;
use conditions_model::{Comparison, FeatureName};
use css_tokens::Component;
use port_core::NoMemory;
use std::alloc::Global;

/// The range forms, `(f < v)`, `(v < f)` and `(v < f < v)`.
pub(crate) fn range_form(
    alloc: Global,
    names: FeatureNames,
    components: &[Component],
) -> Result<Option<Form>, NoMemory>
    ensures { IfOk result (λ form. option_map form_view form
        ≡ model.range_form (names_of names) (components_view components.now)) }
{
    let Some(first) = split_at_sign(components) else {
        return Ok(None);
    };
    let Some(second) = split_at_sign(first.sign.after) else {
        let sign = first.sign.comparison;
        return one_sided(alloc, names, first.before, sign, first.sign.after);
    };
    if split_at_sign(second.sign.after).is_some() {
        return Ok(None);
    }
    two_sided(alloc, names, first, second)
}

/// `(f < v)` or `(v < f)`.
fn one_sided(
    alloc: Global,
    names: FeatureNames,
    a: &[Component],
    sign: Comparison,
    b: &[Component],
) -> Result<Option<Form>, NoMemory>
    ensures { IfOk result (λ form. option_map form_view form
        ≡ model.range_feature (names_of names)
        (model.side (components_view a.now) sign (model.last_side (components_view b.now)))) }
{
    match bound_of_name(alloc, names, a, sign, b)? {
        Some(form) => Ok(Some(form)),
        None => bound_of_name(alloc, names, b, mirrored(sign), a),
    }
}

/// A feature that `name` names, and what it is compared with.
fn bound_of_name(
    alloc: Global,
    names: FeatureNames,
    name: &[Component],
    comparison: Comparison,
    value: &[Component],
) -> Result<Option<Form>, NoMemory>
    ensures { IfOk result (λ form. option_map form_view form
        ≡ option_and_then (λ f. model.one_bound f comparison (components_view value.now))
        (model.side_name (names_of names) (components_view name.now))) }
{
    match side_name(names, name) {
        Some(f) => one_bound(alloc, f, comparison, value),
        None => Ok(None),
    }
}

/// `(v < f < v)`.
fn two_sided(
    alloc: Global,
    names: FeatureNames,
    first: Sided<'_>,
    second: Sided<'_>,
) -> Result<Option<Form>, NoMemory>
    ensures { IfOk result (λ form. option_map form_view form
        ≡ model.range_feature (names_of names)
        (model.side (components_view first.entry.before.now) first.entry.sign.comparison
        (model.side (components_view second.entry.before.now) second.entry.sign.comparison
        (model.last_side (components_view second.entry.sign.after.now))))) }
{
    if !is_one_direction(first.sign.comparison, second.sign.comparison) {
        return Ok(None);
    }
    match side_name(names, second.before) {
        Some(f) => two_bounds(alloc, f, first, second.sign),
        None => Ok(None),
    }
}

/// A feature, and what it is compared with from both sides.
fn two_bounds(
    alloc: Global,
    f: FeatureName,
    first: Sided<'_>,
    second: Sign<'_>,
) -> Result<Option<Form>, NoMemory>
    ensures { IfOk result (λ form. option_map form_view form
        ≡ model.two_bounds f
        (model.mirrored first.entry.sign.comparison, components_view first.entry.before.now)
        (second.entry.comparison, components_view second.entry.after.now)) }
{
    let low = bound(alloc, f, mirrored(first.sign.comparison), first.before)?;
    let high = bound(alloc, f, second.comparison, second.after)?;
    Ok(both_bounds(f, low, high))
}

fn both_bounds(f: FeatureName, low: Option<Bound>, high: Option<Bound>) -> Option<Form>
    ensures { option_map form_view result
        ≡ option_map (model.bounded f) (model.both_bounds
        (option_map (λ b. bound_view b ∷ []) low) (option_map (λ b. bound_view b ∷ []) high)) }
{
    let low = low?;
    let high = high?;
    Some(Form::TwoBounds(f, low, high))
}

fn bound(
    alloc: Global,
    f: FeatureName,
    comparison: Comparison,
    value: &[Component],
) -> Result<Option<Bound>, NoMemory>
    ensures { IfOk result (λ bound. option_map (λ b. bound_view b ∷ []) bound
        ≡ model.bounded_by f comparison (components_view value.now)) }
{
    match value_of(alloc, f, value)? {
        Some(value) => Ok(Some(Bound { comparison, value })),
        None => Ok(None),
    }
}

/// The feature that a side names.
fn side_name(names: FeatureNames, components: &[Component]) -> Option<FeatureName>
    ensures { result ≡ model.side_name (names_of names) (components_view components.now) }
{
    let only = only_trimmed(components)?;
    feature_name(names, only)
}

/// The comparison from the other side.
fn mirrored(comparison: Comparison) -> Comparison
    ensures { result ≡ model.mirrored comparison }
{
    match comparison {
        Comparison::LessThan => Comparison::MoreThan,
        Comparison::AtMost => Comparison::AtLeast,
        Comparison::EqualTo => Comparison::EqualTo,
        Comparison::AtLeast => Comparison::AtMost,
        Comparison::MoreThan => Comparison::LessThan,
    }
}

/// Whether both go up, or both down.
fn is_one_direction(a: Comparison, b: Comparison) -> bool
    ensures { result ≡ model.is_one_direction a b }
{
    match (a, b) {
        (Comparison::LessThan | Comparison::AtMost, Comparison::LessThan | Comparison::AtMost) => {
            true
        }
        (Comparison::MoreThan | Comparison::AtLeast, Comparison::MoreThan | Comparison::AtLeast) =>
            true,
        _ => false,
    }
}
