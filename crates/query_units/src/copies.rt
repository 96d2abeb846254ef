//! Copies of calculations.
ghost use Rattle.std.specs.Prelude.{◌≡◌, IfOk};

use crate::computed::Computed;
use crate::length::Length;
use port_core::{Boxed, NoMemory, Seq};
use std::alloc::Global;

/// A copy of a declared length.
#[cycle(calculations)]
pub(crate) fn copy_calculation(alloc: Global, l: &Length) -> Result<Length, NoMemory>
    ensures { IfOk result (λ c. c ≡ l.now) }
{
    match l {
        Length::Literal(literal) => Ok(Length::Literal(*literal)),
        Length::Sum(x, y) => {
            let x = Boxed::new(alloc, copy_calculation(alloc, x.get())?)?;
            let y = Boxed::new(alloc, copy_calculation(alloc, y.get())?)?;
            Ok(Length::Sum(x, y))
        }
        Length::Scaled(x, number) => {
            let x = Boxed::new(alloc, copy_calculation(alloc, x.get())?)?;
            Ok(Length::Scaled(x, *number))
        }
        Length::Divided(x, number) => {
            let x = Boxed::new(alloc, copy_calculation(alloc, x.get())?)?;
            Ok(Length::Divided(x, *number))
        }
        Length::Smallest(first, others) => {
            let first = Boxed::new(alloc, copy_calculation(alloc, first.get())?)?;
            let others = copy_calculations(alloc, others)?;
            Ok(Length::Smallest(first, others))
        }
        Length::Largest(first, others) => {
            let first = Boxed::new(alloc, copy_calculation(alloc, first.get())?)?;
            let others = copy_calculations(alloc, others)?;
            Ok(Length::Largest(first, others))
        }
    }
}

#[cycle(calculations)]
fn copy_calculations(alloc: Global, ls: &Seq<Length>) -> Result<Seq<Length>, NoMemory>
    ensures { IfOk result (λ cs. cs ≡ ls.now) }
{
    let mut copies = Seq::new(alloc);
    for l in ls.as_slice() {
        let copy = copy_calculation(alloc, l)?;
        copies.push(copy)?;
    }
    Ok(copies)
}

/// A copy of a computed length.
#[cycle(computed)]
pub(crate) fn copy_computed(alloc: Global, c: &Computed) -> Result<Computed, NoMemory>
    ensures { IfOk result (λ d. d ≡ c.now) }
{
    match c {
        Computed::Units(length) => Ok(Computed::Units(*length)),
        Computed::Px(number) => Ok(Computed::Px(*number)),
        Computed::Pct(number) => Ok(Computed::Pct(*number)),
        Computed::Add(x, y) => {
            let x = Boxed::new(alloc, copy_computed(alloc, x.get())?)?;
            let y = Boxed::new(alloc, copy_computed(alloc, y.get())?)?;
            Ok(Computed::Add(x, y))
        }
        Computed::Scale(x, number) => {
            let x = Boxed::new(alloc, copy_computed(alloc, x.get())?)?;
            Ok(Computed::Scale(x, *number))
        }
        Computed::Over(x, number) => {
            let x = Boxed::new(alloc, copy_computed(alloc, x.get())?)?;
            Ok(Computed::Over(x, *number))
        }
        Computed::Min(first, others) => {
            let first = Boxed::new(alloc, copy_computed(alloc, first.get())?)?;
            let others = copy_all_computed(alloc, others)?;
            Ok(Computed::Min(first, others))
        }
        Computed::Max(first, others) => {
            let first = Boxed::new(alloc, copy_computed(alloc, first.get())?)?;
            let others = copy_all_computed(alloc, others)?;
            Ok(Computed::Max(first, others))
        }
    }
}

#[cycle(computed)]
fn copy_all_computed(alloc: Global, cs: &Seq<Computed>) -> Result<Seq<Computed>, NoMemory>
    ensures { IfOk result (λ ds. ds ≡ cs.now) }
{
    let mut copies = Seq::new(alloc);
    for c in cs.as_slice() {
        let copy = copy_computed(alloc, c)?;
        copies.push(copy)?;
    }
    Ok(copies)
}
