//! Lengths and percentages, as they are declared: literals and calculations (CSS Values 4, sections 5
//! to 10).
ghost use Rattle.query_units.specs.Views.{computed_view, length_view, lengths_view};
ghost use Rattle.std.specs.Int.{int_max, int_min};
ghost use Rattle.std.specs.List.{fold, list_any};
ghost use Rattle.std.specs.Prelude.{◌≡◌, IfOk, map, pos};
ghost use Rattle.value_model.specs.Calculations as model;
ghost use Rattle.value_model.specs.Lengths as lengths;

use crate::absolute::with_values;
use crate::bases::{no_bases, union_of_bases};
use crate::computed::Computed;
use crate::copies::copy_calculation;
use crate::literals::{is_percentage, literal_value};
use crate::numbers::{number_product, number_quotient, number_sum};
use port_core::{Boxed, NoMemory, Seq};
use std::alloc::Global;
use units64::{Fixed6, Units, to_units};
use value_model::{Bases, UnitSet};
use value_parts::Literal;

/// A literal length or percentage, or a calculation of these. Numbers are in millionths.
#[derive(Debug, Drop)]
pub enum Length {
    /// A literal.
    Literal(Literal),
    /// A sum.
    Sum(Boxed<Length>, Boxed<Length>),
    /// A product with a number.
    Scaled(Boxed<Length>, Fixed6),
    /// A quotient by a number.
    Divided(Boxed<Length>, Fixed6),
    /// The smallest of a first one and the others.
    Smallest(Boxed<Length>, Seq<Length>),
    /// The largest of a first one and the others.
    Largest(Boxed<Length>, Seq<Length>),
}

impl Length {
    /// Returns the computed length, where `b` is what it refers to: in units where there is no
    /// percentage in it, else with each length in pixels. Fails only if memory runs out.
    pub fn absolute(&self, alloc: Global, b: &Bases) -> Result<Computed, NoMemory>
        ensures { IfOk result (λ c. computed_view c
            ≡ model.computed_length b.now (length_view self.now)) }
    {
        if self.has_percentage() {
            with_values(alloc, self, b)
        } else {
            Ok(Computed::Units(to_units(self.value(b))))
        }
    }

    /// Returns a copy. Fails only if memory runs out.
    pub fn copy(&self, alloc: Global) -> Result<Length, NoMemory>
        ensures { IfOk result (λ c. c ≡ self.now) }
    {
        copy_calculation(alloc, self)
    }

    /// Returns the value of a length in millionths of a pixel, where `b` is what it refers to and
    /// percentages are of nothing.
    pub fn value(&self, b: &Bases) -> Fixed6
        ensures { result ≡ model.calculation_value b.now (pos 0) (length_view self.now) }
    {
        self.value_with(b, Units::new(0))
    }

    /// Returns the value in millionths of a pixel, where `b` is what lengths refer to and `base` what
    /// percentages do.
    #[cycle(values)]
    pub fn value_with(&self, b: &Bases, base: Units) -> Fixed6
        ensures { result ≡ model.calculation_value b.now base (length_view self.now) }
    {
        match self {
            Length::Literal(literal) => literal_value(*literal, b, base),
            Length::Sum(x, y) => number_sum(
                x.get().value_with(b, base),
                y.get().value_with(b, base),
            ),
            Length::Scaled(x, number) => number_product(x.get().value_with(b, base), *number),
            Length::Divided(x, number) => number_quotient(x.get().value_with(b, base), *number),
            Length::Smallest(first, others) => {
                least(first.get().value_with(b, base), others, b, base)
            }
            Length::Largest(first, others) => {
                greatest(first.get().value_with(b, base), others, b, base)
            }
        }
    }

    /// Returns the value in units, and not below 0, where `b` is what lengths refer to and `base` what
    /// percentages do.
    pub fn units_from_zero(&self, b: &Bases, base: Units) -> Units
        ensures { result ≡ model.units_from_zero b.now base (length_view self.now) }
    {
        Units::new(0).max(to_units(self.value_with(b, base)))
    }

    /// Returns the bases on which the length depends.
    pub fn mentions(&self) -> UnitSet
        ensures { result ≡ model.mentioned_in (length_view self.now) }
    {
        self.mentions_beside(no_bases())
    }

    /// The bases on which it depends, and others.
    #[cycle(mentions)]
    #[tactic(auto, using(crate::proofs::Mentions::mentioned_append))]
    fn mentions_beside(&self, found: UnitSet) -> UnitSet
        ensures { result ≡ fold model.union_of_bases found
            (map lengths.mentioned (model.leaves (length_view self.now))) }
    {
        match self {
            Length::Literal(literal) => union_of_bases(found, literal.mentions()),
            Length::Sum(x, y) => y.get().mentions_beside(x.get().mentions_beside(found)),
            Length::Scaled(x, _) | Length::Divided(x, _) => x.get().mentions_beside(found),
            Length::Smallest(first, others) | Length::Largest(first, others) => {
                all_mentioned(first.get().mentions_beside(found), others)
            }
        }
    }

    /// Returns whether a percentage is in it.
    #[cycle(percentages)]
    pub fn has_percentage(&self) -> bool
        ensures { result ≡ model.has_percentage (length_view self.now) }
    {
        match self {
            Length::Literal(literal) => is_percentage(*literal),
            Length::Sum(x, y) => x.get().has_percentage() || y.get().has_percentage(),
            Length::Scaled(x, _) | Length::Divided(x, _) => x.get().has_percentage(),
            Length::Smallest(first, others) | Length::Largest(first, others) => {
                first.get().has_percentage() || any_percentage(others)
            }
        }
    }
}

/// The smallest of a value and those of lengths.
#[cycle(values)]
fn least(first: Fixed6, others: &Seq<Length>, b: &Bases, base: Units) -> Fixed6
    ensures { result ≡ fold int_min first
        (model.values_by (model.literal_value b.now base) (lengths_view others.now)) }
{
    let mut value = first;
    for other in others.as_slice() {
        value = value.min(other.value_with(b, base));
    }
    value
}

/// The largest of a value and those of lengths.
#[cycle(values)]
fn greatest(first: Fixed6, others: &Seq<Length>, b: &Bases, base: Units) -> Fixed6
    ensures { result ≡ fold int_max first
        (model.values_by (model.literal_value b.now base) (lengths_view others.now)) }
{
    let mut value = first;
    for other in others.as_slice() {
        value = value.max(other.value_with(b, base));
    }
    value
}

/// The bases on which lengths depend, and others.
#[cycle(mentions)]
#[tactic(auto, using(crate::proofs::Mentions::mentioned_append))]
fn all_mentioned(found: UnitSet, others: &Seq<Length>) -> UnitSet
    ensures { result ≡ fold model.union_of_bases found
        (map lengths.mentioned (model.all_leaves (lengths_view others.now))) }
{
    let mut all = found;
    for other in others.as_slice() {
        all = other.mentions_beside(all);
    }
    all
}

/// Whether a percentage is in one of them.
#[cycle(percentages)]
fn any_percentage(others: &Seq<Length>) -> bool
    ensures { result ≡ list_any model.is_percentage (model.all_leaves (lengths_view others.now)) }
{
    for other in others.as_slice() {
        if other.has_percentage() {
            return true;
        }
    }
    false
}
