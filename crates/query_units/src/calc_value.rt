//! Values in a calculation, and operators between them (CSS Values 4, sections 10.1, 10.8 and 10.9).
ghost use Rattle.query_units.specs.inner.CalcValues.{calc_value_view, operator_view};
ghost use Rattle.query_units.specs.Views.{length_view};
ghost use Rattle.std.specs.Prelude.{◌≡◌, IfOk, Some, option_map};
ghost use Rattle.value_model.specs.CalculationGrammar as grammar;

use crate::length::Length;
use crate::numbers::{negated, number_product, number_quotient, number_sum};
use port_core::{Boxed, NoMemory};
use std::alloc::Global;
use units64::{Fixed6, MILLIONTHS_PER_PIXEL};

/// A number in millionths, or a length; a percentage is a length.
#[derive(Debug, Drop)]
pub(crate) enum CalcValue {
    /// A number.
    Number(Fixed6),
    /// A length.
    Length(Length),
}

/// An operator, or the comma between arguments.
#[derive(Clone, Copy, Debug, PartialEq, Eq)]
pub(crate) enum Operator {
    /// `+`.
    Add,
    /// `-`.
    Subtract,
    /// `*`.
    Multiply,
    /// `/`.
    Divide,
    /// `,`.
    Separate,
}

impl Operator {
    /// The value of two that are joined by the operator.
    pub(crate) fn value(
        self,
        alloc: Global,
        v: CalcValue,
        w: CalcValue,
    ) -> Result<Option<CalcValue>, NoMemory>
        ensures { IfOk result (λ u. option_map calc_value_view u
            ≡ grammar.value_of_operator (operator_view self) (calc_value_view v)
            (calc_value_view w)) }
    {
        match self {
            Operator::Add => sum(alloc, v, w),
            Operator::Subtract => {
                let negative = negative(alloc, w)?;
                sum(alloc, v, negative)
            }
            Operator::Multiply => product(alloc, v, w),
            Operator::Divide => quotient(alloc, v, w),
            Operator::Separate => Ok(None),
        }
    }
}

/// The sum of values of one type.
fn sum(alloc: Global, v: CalcValue, w: CalcValue) -> Result<Option<CalcValue>, NoMemory>
    ensures { IfOk result (λ u. option_map calc_value_view u
        ≡ grammar.value_sum (calc_value_view v) (calc_value_view w)) }
{
    match v {
        CalcValue::Number(n) => Ok(plus_number(n, w)),
        CalcValue::Length(a) => plus_length(alloc, a, w),
    }
}

/// The sum of a number and another.
fn plus_number(n: Fixed6, w: CalcValue) -> Option<CalcValue>
    ensures { option_map calc_value_view result
        ≡ grammar.value_sum (grammar.number n) (calc_value_view w) }
{
    match w {
        CalcValue::Number(m) => Some(CalcValue::Number(number_sum(n, m))),
        CalcValue::Length(_) => None,
    }
}

/// The sum of a length and another.
fn plus_length(alloc: Global, a: Length, w: CalcValue) -> Result<Option<CalcValue>, NoMemory>
    ensures { IfOk result (λ u. option_map calc_value_view u
        ≡ grammar.value_sum (grammar.length (length_view a)) (calc_value_view w)) }
{
    match w {
        CalcValue::Number(_) => Ok(None),
        CalcValue::Length(b) => {
            let a = Boxed::new(alloc, a)?;
            let b = Boxed::new(alloc, b)?;
            Ok(Some(CalcValue::Length(Length::Sum(a, b))))
        }
    }
}

/// The value with the other sign.
fn negative(alloc: Global, v: CalcValue) -> Result<CalcValue, NoMemory>
    ensures { IfOk result (λ u. calc_value_view u ≡ grammar.negative_value (calc_value_view v)) }
{
    match v {
        CalcValue::Number(n) => Ok(CalcValue::Number(negated(n))),
        CalcValue::Length(a) => {
            let minus_one = Fixed6::new(-(MILLIONTHS_PER_PIXEL as i128));
            let a = Boxed::new(alloc, a)?;
            Ok(CalcValue::Length(Length::Scaled(a, minus_one)))
        }
    }
}

/// The product of values, of which at least one is a number.
fn product(alloc: Global, v: CalcValue, w: CalcValue) -> Result<Option<CalcValue>, NoMemory>
    ensures { IfOk result (λ u. option_map calc_value_view u
        ≡ grammar.value_product (calc_value_view v) (calc_value_view w)) }
{
    match v {
        CalcValue::Number(n) => times(alloc, n, w),
        CalcValue::Length(a) => scaled(alloc, a, w),
    }
}

/// The product of a number and a value.
fn times(alloc: Global, n: Fixed6, w: CalcValue) -> Result<Option<CalcValue>, NoMemory>
    ensures { IfOk result (λ u. option_map calc_value_view u
        ≡ grammar.value_product (grammar.number n) (calc_value_view w)) }
{
    match w {
        CalcValue::Number(m) => Ok(Some(CalcValue::Number(number_product(n, m)))),
        CalcValue::Length(a) => {
            let a = Boxed::new(alloc, a)?;
            Ok(Some(CalcValue::Length(Length::Scaled(a, n))))
        }
    }
}

/// The product of a length and a number.
fn scaled(alloc: Global, a: Length, w: CalcValue) -> Result<Option<CalcValue>, NoMemory>
    ensures { IfOk result (λ u. option_map calc_value_view u
        ≡ grammar.value_product (grammar.length (length_view a)) (calc_value_view w)) }
{
    match w {
        CalcValue::Number(n) => {
            let a = Boxed::new(alloc, a)?;
            Ok(Some(CalcValue::Length(Length::Scaled(a, n))))
        }
        CalcValue::Length(_other) => Ok(None),
    }
}

/// The quotient of a value by a number that is not 0.
fn quotient(alloc: Global, v: CalcValue, w: CalcValue) -> Result<Option<CalcValue>, NoMemory>
    ensures { IfOk result (λ u. option_map calc_value_view u
        ≡ grammar.value_quotient (calc_value_view v) (calc_value_view w)) }
{
    match w {
        CalcValue::Number(n) => quotient_by(alloc, v, n),
        CalcValue::Length(_) => Ok(None),
    }
}

fn quotient_by(alloc: Global, v: CalcValue, n: Fixed6) -> Result<Option<CalcValue>, NoMemory>
    ensures { IfOk result (λ u. option_map calc_value_view u
        ≡ grammar.value_quotient (calc_value_view v) (grammar.number n)) }
{
    if n.get() == 0 {
        return Ok(None);
    }
    match v {
        CalcValue::Number(m) => Ok(Some(CalcValue::Number(number_quotient(m, n)))),
        CalcValue::Length(a) => {
            let a = Boxed::new(alloc, a)?;
            Ok(Some(CalcValue::Length(Length::Divided(a, n))))
        }
    }
}
