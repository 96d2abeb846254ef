//! Computed lengths with percentages in them (CSS Values 4, section 10.11).
ghost use Rattle.query_units.specs.Views.{all_computed_view, computed_view, length_view, lengths_view};
ghost use Rattle.std.specs.Prelude.{◌≡◌, IfOk};
ghost use Rattle.value_model.specs.Calculations as model;

use crate::computed::Computed;
use crate::length::Length;
use crate::literals::computed_literal;
use port_core::{Boxed, NoMemory, Seq};
use std::alloc::Global;
use units64::Fixed6;
use value_model::Bases;

/// The same calculation with each length in pixels.
#[cycle(absolute)]
pub(crate) fn with_values(alloc: Global, l: &Length, b: &Bases) -> Result<Computed, NoMemory>
    ensures { IfOk result (λ c. computed_view c
        ≡ model.with_leaves (model.computed_leaf b.now) (length_view l.now)) }
{
    match l {
        Length::Literal(literal) => Ok(computed_literal(*literal, b)),
        Length::Sum(x, y) => {
            let x = with_values(alloc, x.get(), b)?;
            let y = with_values(alloc, y.get(), b)?;
            let sum = sum_of(alloc, x, y)?;
            Ok(sum)
        }
        Length::Scaled(x, number) => {
            let x = with_values(alloc, x.get(), b)?;
            scaled_by(alloc, x, *number)
        }
        Length::Divided(x, number) => {
            let x = with_values(alloc, x.get(), b)?;
            divided_by(alloc, x, *number)
        }
        Length::Smallest(first, others) => {
            let first = with_values(alloc, first.get(), b)?;
            let others = all_with_values(alloc, others, b)?;
            let smallest = smallest_of(alloc, first, others)?;
            Ok(smallest)
        }
        Length::Largest(first, others) => {
            let first = with_values(alloc, first.get(), b)?;
            let others = all_with_values(alloc, others, b)?;
            let largest = largest_of(alloc, first, others)?;
            Ok(largest)
        }
    }
}

/// Calculations with each length in pixels.
#[cycle(absolute)]
fn all_with_values(alloc: Global, ls: &Seq<Length>, b: &Bases) -> Result<Seq<Computed>, NoMemory>
    ensures { IfOk result (λ cs. all_computed_view cs
        ≡ model.all_with_leaves (model.computed_leaf b.now) (lengths_view ls.now)) }
{
    let mut all = Seq::new(alloc);
    for l in ls.as_slice() {
        let computed = with_values(alloc, l, b)?;
        all.push(computed)?;
    }
    Ok(all)
}

fn sum_of(alloc: Global, x: Computed, y: Computed) -> Result<Computed, NoMemory>
    ensures { IfOk result (λ c. computed_view c
        ≡ model.sum (computed_view x) (computed_view y)) }
{
    let x = Boxed::new(alloc, x)?;
    let y = Boxed::new(alloc, y)?;
    Ok(Computed::Add(x, y))
}

fn scaled_by(alloc: Global, x: Computed, number: Fixed6) -> Result<Computed, NoMemory>
    ensures { IfOk result (λ c. computed_view c ≡ model.scaled (computed_view x) number) }
{
    let x = Boxed::new(alloc, x)?;
    Ok(Computed::Scale(x, number))
}

fn divided_by(alloc: Global, x: Computed, number: Fixed6) -> Result<Computed, NoMemory>
    ensures { IfOk result (λ c. computed_view c ≡ model.divided (computed_view x) number) }
{
    let x = Boxed::new(alloc, x)?;
    Ok(Computed::Over(x, number))
}

fn smallest_of(alloc: Global, first: Computed, others: Seq<Computed>) -> Result<Computed, NoMemory>
    ensures { IfOk result (λ c. computed_view c
        ≡ model.smallest (computed_view first) (all_computed_view others)) }
{
    let first = Boxed::new(alloc, first)?;
    Ok(Computed::Min(first, others))
}

fn largest_of(alloc: Global, first: Computed, others: Seq<Computed>) -> Result<Computed, NoMemory>
    ensures { IfOk result (λ c. computed_view c
        ≡ model.largest (computed_view first) (all_computed_view others)) }
{
    let first = Boxed::new(alloc, first)?;
    Ok(Computed::Max(first, others))
}
