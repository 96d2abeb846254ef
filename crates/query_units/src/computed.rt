//! Lengths and percentages, as they are computed (CSS Values 4, sections 5 and 10.11).
ghost use Rattle.query_units.specs.inner.Sameness as sameness;
ghost use Rattle.query_units.specs.Views.{all_computed_view, computed_view};
ghost use Rattle.std.specs.Int.{int_max, int_min};
ghost use Rattle.std.specs.List.{fold};
ghost use Rattle.std.specs.Prelude.{◌≡◌, ◌↔◌, IfOk, IsTrue};
ghost use Rattle.value_model.specs.Calculations as model;
ghost use Rattle.value_model.specs.Calculations.{no_calculations};

use crate::copies::copy_computed;
use crate::numbers::{number_product, number_quotient, number_sum};
use port_core::{Boxed, NoMemory, Seq};
use std::alloc::Global;
use units64::{Fixed6, Units as LengthInUnits};
use value_parts::{in_millionths, percentage_value};

/// A length as it is computed: units alone, or a calculation with percentages. Numbers are in
/// millionths.
#[derive(Debug, Drop)]
pub enum Computed {
    /// A length in units.
    Units(LengthInUnits),
    /// So many pixels.
    Px(Fixed6),
    /// So many percent.
    Pct(Fixed6),
    /// A sum.
    Add(Boxed<Computed>, Boxed<Computed>),
    /// A product with a number.
    Scale(Boxed<Computed>, Fixed6),
    /// A quotient by a number.
    Over(Boxed<Computed>, Fixed6),
    /// The smallest of a first one and the others.
    Min(Boxed<Computed>, Seq<Computed>),
    /// The largest of a first one and the others.
    Max(Boxed<Computed>, Seq<Computed>),
}

impl Computed {
    /// Returns a copy. Fails only if memory runs out.
    pub fn copy(&self, alloc: Global) -> Result<Computed, NoMemory>
        ensures { IfOk result (λ c. c ≡ self.now) }
    {
        copy_computed(alloc, self)
    }

    /// Returns whether the two are one.
    #[tactic(auto, using(crate::proofs::Same::same_decides))]
    pub fn same(&self, other: &Computed) -> bool
        ensures { IsTrue result ↔ (computed_view self.now ≡ computed_view other.now) }
    {
        is_same(self, other)
    }

    /// Returns the length in millionths of a pixel, where `base` is what percentages refer to.
    #[cycle(used)]
    pub fn used(&self, base: LengthInUnits) -> Fixed6
        ensures { result ≡ model.used_length (computed_view self.now) base }
    {
        match self {
            Computed::Units(length) => in_millionths(*length),
            Computed::Px(number) => *number,
            Computed::Pct(number) => percentage_value(*number, base),
            Computed::Add(a, b) => number_sum(a.get().used(base), b.get().used(base)),
            Computed::Scale(a, number) => number_product(a.get().used(base), *number),
            Computed::Over(a, number) => number_quotient(a.get().used(base), *number),
            Computed::Min(first, others) => least_used(first.get().used(base), others, base),
            Computed::Max(first, others) => greatest_used(first.get().used(base), others, base),
        }
    }
}

/// The smallest of a value and those of lengths.
#[cycle(used)]
fn least_used(first: Fixed6, others: &Seq<Computed>, base: LengthInUnits) -> Fixed6
    ensures { result ≡ fold int_min first
        (model.values_by (model.leaf_value base) (all_computed_view others.now)) }
{
    let mut value = first;
    for other in others.as_slice() {
        value = value.min(other.used(base));
    }
    value
}

/// The largest of a value and those of lengths.
#[cycle(used)]
fn greatest_used(first: Fixed6, others: &Seq<Computed>, base: LengthInUnits) -> Fixed6
    ensures { result ≡ fold int_max first
        (model.values_by (model.leaf_value base) (all_computed_view others.now)) }
{
    let mut value = first;
    for other in others.as_slice() {
        value = value.max(other.used(base));
    }
    value
}

/// Whether two lengths are one.
#[cycle(same)]
fn is_same(x: &Computed, y: &Computed) -> bool
    ensures { result ≡ sameness.is_same (computed_view x.now) (computed_view y.now) }
{
    match x {
        Computed::Units(m) => match y {
            Computed::Units(n) => *m == *n,
            _ => false,
        },
        Computed::Px(m) => match y {
            Computed::Px(n) => *m == *n,
            _ => false,
        },
        Computed::Pct(m) => match y {
            Computed::Pct(n) => *m == *n,
            _ => false,
        },
        Computed::Add(a, b) => match y {
            Computed::Add(c, d) => is_same(a.get(), c.get()) && is_same(b.get(), d.get()),
            _ => false,
        },
        Computed::Scale(a, m) => match y {
            Computed::Scale(b, n) => *m == *n && is_same(a.get(), b.get()),
            _ => false,
        },
        Computed::Over(a, m) => match y {
            Computed::Over(b, n) => *m == *n && is_same(a.get(), b.get()),
            _ => false,
        },
        Computed::Min(a, others) => match y {
            Computed::Min(b, more) => is_same(a.get(), b.get()) && are_same(others, more),
            _ => false,
        },
        Computed::Max(a, others) => match y {
            Computed::Max(b, more) => is_same(a.get(), b.get()) && are_same(others, more),
            _ => false,
        },
    }
}

#[cycle(same)]
fn are_same(xs: &Seq<Computed>, ys: &Seq<Computed>) -> bool
    ensures { result ≡ sameness.are_same (all_computed_view xs.now) (all_computed_view ys.now) }
{
    let mut rest = ys.as_slice();
    for x in xs.as_slice() {
        match rest {
            [y, after @ ..] => {
                if !is_same(x, y) {
                    return false;
                }
                rest = after;
            }
            [] => return false,
        }
    }
    is_none_left(rest)
}

/// Whether there are no more lengths.
fn is_none_left(rest: &[Computed]) -> bool
    ensures { result ≡ sameness.are_same no_calculations (all_computed_view rest.now) }
{
    match rest {
        [] => true,
        [_first, _more @ ..] => false,
    }
}
