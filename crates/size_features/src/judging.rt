//! Values of features (Media Queries 4, sections 2.4 and 4.1 to 4.4).
ghost use Rattle.conditions_model.specs.FeatureValues as model;
ghost use Rattle.size_features.specs.Views.{bound_view, form_view, measured_view, value_view};
ghost use Rattle.std.specs.Prelude.{◌≡◌};

use crate::bound::{Bound, FeatureValue};
use crate::feature::{Form, SizeFeature};
use crate::measured::Measured;
use conditions_model::{Comparison, FeatureName, Orientation};
use std::cmp::Ordering;
use units64::{Units, cmp_length, cmp_ratio};

/// Returns whether the feature `f` holds of `m`.
///
/// Lengths are compared in millionths of a pixel, ratios by products, so nothing is lost. It takes no
/// memory.
pub fn feature_holds(m: &Measured, f: &SizeFeature) -> bool
    ensures { result ≡ model.feature_holds (measured_view m.now) f.now }
{
    form_holds(m, &f.form)
}

fn form_holds(m: &Measured, form: &Form) -> bool
    ensures { result ≡ model.feature_holds (measured_view m.now) (form_view form.now) }
{
    match form {
        Form::Boolean(f) => is_not_zero(m, *f),
        Form::Orientation(o) => is_orientation(m, *o),
        Form::OneBound(f, bound) => meets(m, *f, bound),
        Form::TwoBounds(f, low, high) => meets(m, *f, low) && meets(m, *f, high),
    }
}

/// The boolean form: what it would be compared with is not 0.
fn is_not_zero(m: &Measured, f: FeatureName) -> bool
    ensures { result ≡ model.is_not_zero (measured_view m.now) f }
{
    match f {
        FeatureName::Orientation => true,
        _ => measured_side(m, f).get() != 0,
    }
}

/// The side that a feature is judged on.
fn measured_side(m: &Measured, f: FeatureName) -> Units
    ensures { result ≡ model.measured_side (measured_view m.now) f }
{
    match f {
        FeatureName::Height => m.height,
        _ => m.width,
    }
}

/// `portrait` where the height is at least the width, else `landscape`.
fn is_orientation(m: &Measured, o: Orientation) -> bool
    ensures { result ≡ model.is_orientation (measured_view m.now) o }
{
    let is_landscape = m.height.get() < m.width.get();
    match o {
        Orientation::Portrait => !is_landscape,
        Orientation::Landscape => is_landscape,
    }
}

fn meets(m: &Measured, f: FeatureName, bound: &Bound) -> bool
    ensures { result ≡ model.meets (measured_view m.now) f (bound_view bound.now) }
{
    holds(bound.comparison, order_of(m, f, &bound.value))
}

/// How a feature stands to a value.
fn order_of(m: &Measured, f: FeatureName, value: &FeatureValue) -> Ordering
    ensures { result ≡ model.order_of (measured_view m.now) f (value_view value.now) }
{
    match value {
        FeatureValue::Length(length) => cmp_length(measured_side(m, f), length.value(&m.bases)),
        FeatureValue::Ratio(ratio) => cmp_ratio(m.width, m.height, ratio.across, ratio.down),
    }
}

/// Whether a comparison holds of things in this order.
fn holds(comparison: Comparison, order: Ordering) -> bool
    ensures { result ≡ model.holds comparison order }
{
    match comparison {
        Comparison::LessThan => order.is_lt(),
        Comparison::AtMost => order.is_le(),
        Comparison::EqualTo => order.is_eq(),
        Comparison::AtLeast => order.is_ge(),
        Comparison::MoreThan => order.is_gt(),
    }
}
