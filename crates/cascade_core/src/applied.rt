//! Declarations that apply to an element, and which of two is stronger (CSS Cascade 4, section
//! 6.1).
ghost use Rattle.cascade_core.specs.AppliedViews.{applied_view, placed};
ghost use Rattle.cascade_core.specs.Views.{kept_view, target_view};
ghost use Rattle.cascade_core.specs.inner.Strength.{is_more_specific, is_stronger};
ghost use Rattle.cascade_model.specs.Order as order;
ghost use Rattle.selectors_model.specs.Specificity as specificity;
ghost use Rattle.std.specs.Prelude.{◌≡◌, IfOk};

use crate::kept::{Kept, KeptValue};
use cascade_model::Origin;
use port_core::NoMemory;
use selectors_model::Spec;
use std::rc::Rc;

/// A declaration that applies to an element; what it is of is known where it is kept.
#[derive(Debug, Drop)]
pub(crate) struct Applied {
    pub(crate) origin: Origin,
    pub(crate) important: bool,
    /// Whether it stands in the element's `style` attribute.
    pub(crate) in_attribute: bool,
    /// Of the rule that it stands in.
    pub(crate) specificity: Spec,
    pub(crate) value: Rc<KeptValue>,
}

/// Where declarations stand.
#[derive(Clone, Copy, Debug)]
pub(crate) struct Place {
    /// Of their rule, or of the `style` attribute.
    pub(crate) origin: Origin,
    /// Whether it is the element's `style` attribute.
    pub(crate) in_attribute: bool,
    /// Of their rule.
    pub(crate) specificity: Spec,
}

impl Place {
    /// The declaration that applies, where `kept` stands here. It shares the value.
    pub(crate) fn applied(&self, kept: &Kept) -> Result<Applied, NoMemory>
        ensures { IfOk result (λ a. applied_view (target_view kept.now.target) a
            ≡ placed self.now (kept_view kept.now)) }
    {
        Ok(Applied {
            origin: self.origin,
            important: kept.important,
            in_attribute: self.in_attribute,
            specificity: self.specificity,
            value: kept.value.clone()?,
        })
    }
}

/// Whether `a` is stronger than `b`, wherever each of them stands.
pub(crate) fn is_stronger(a: &Applied, b: &Applied) -> bool
    ensures { result ≡ is_stronger a.now b.now }
{
    let here = level_of(a);
    let there = level_of(b);
    if here == there {
        is_more_specific(a, b)
    } else {
        there < here
    }
}

fn level_of(a: &Applied) -> u8
    ensures { result ≡ order.level a.now.origin a.now.important }
{
    level(a.origin, a.important)
}

/// Origin and importance, from the weakest.
fn level(origin: Origin, important: bool) -> u8
    ensures { result ≡ order.level origin important }
{
    match (origin, important) {
        (Origin::UserAgent, false) => 0,
        (Origin::Author, false) => 1,
        (Origin::Author, true) => 2,
        (Origin::UserAgent, true) => 3,
    }
}

/// A `style` attribute before rules, and then the specificity.
fn is_more_specific(a: &Applied, b: &Applied) -> bool
    ensures { result ≡ is_more_specific a.now b.now }
{
    if a.in_attribute == b.in_attribute {
        is_less_spec(b.specificity, a.specificity)
    } else {
        a.in_attribute
    }
}

/// Ids are compared first, then classes, then types (Selectors 4, section 17).
fn is_less_spec(a: Spec, b: Spec) -> bool
    ensures { result ≡ specificity.is_less_spec a b }
{
    if a.ids != b.ids {
        return a.ids < b.ids;
    }
    if a.classes != b.classes {
        return a.classes < b.classes;
    }
    a.types < b.types
}
