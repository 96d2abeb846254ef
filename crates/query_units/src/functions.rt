//! The functions of calculations (CSS Values 4, section 10.2).
ghost use Rattle.query_units.specs.inner.CalcValues.{calc_value_view};
ghost use Rattle.query_units.specs.inner.Calls.{AreTwo, call_with, function_view};
ghost use Rattle.query_units.specs.Views.{length_view, lengths_view};
ghost use Rattle.css_tokens.specs.Words.{is_ascii_word};
ghost use Rattle.std.specs.Int.{int_max, int_min};
ghost use Rattle.std.specs.List.{fold, list_all};
ghost use Rattle.std.specs.Map.{lookup};
ghost use Rattle.std.specs.Prelude.{◌≡◌, [], ◌∷◌, ℤ, IfOk, IsTrue, List, map, option_map};
ghost use Rattle.std.specs.Str.{str_eq_ignore_ascii_case};
ghost use Rattle.value_model.specs.CalculationGrammar as grammar;
ghost use Rattle.value_model.specs.Calculations as model;
ghost use Rattle.value_model.specs.Calculations.{largest, smallest};
ghost use Rattle.value_model.specs.Lengths as lengths;

use crate::calc_value::CalcValue;
use crate::length::Length;
use port_core::{Boxed, NoMemory, Seq, Text};
use std::alloc::Global;
use units64::Fixed6;
use value_parts::find_word;

/// A function.
#[derive(Clone, Copy, Debug, PartialEq, Eq)]
pub(crate) enum MathFunction {
    /// `calc()`.
    Calc,
    /// `min()`.
    Min,
    /// `max()`.
    Max,
    /// `clamp()`.
    Clamp,
}

/// The functions, by their names.
const FUNCTIONS: [(&str, MathFunction); 4] = [
    ("calc", MathFunction::Calc),
    ("min", MathFunction::Min),
    ("max", MathFunction::Max),
    ("clamp", MathFunction::Clamp),
];

/// The function of this name, in any case.
pub(crate) fn function_of(name: &Text) -> Option<MathFunction>
    ensures { option_map function_view result
        ≡ lookup (str_eq_ignore_ascii_case name.now) grammar.math_functions }
{
    find_function(name, &FUNCTIONS)
}

fn find_function(name: &Text, table: &[(&str, MathFunction)]) -> Option<MathFunction>
    requires { IsTrue (list_all (λ row. is_ascii_word row.0.now) table.now) }
    ensures { option_map function_view result ≡ lookup (str_eq_ignore_ascii_case name.now)
        (map (λ row. (row.0.now, function_view row.1)) table.now) }
{
    find_word(name, table)
}

/// The arguments that were read of a call.
#[derive(Debug, Drop)]
pub(crate) enum Arguments {
    /// None.
    Empty,
    /// Numbers: a first one, and the others.
    Numbers(Fixed6, Seq<Fixed6>),
    /// Lengths: a first one, and the others.
    Lengths(Length, Seq<Length>),
    /// What no function takes.
    Invalid,
}

impl Arguments {
    /// Takes an argument.
    pub(crate) fn push(self, alloc: Global, v: CalcValue) -> Result<Arguments, NoMemory>
        ensures { IfOk result (λ a. (f : MathFunction) (values : List grammar.CalcValue)
            → call_with a f values ≡ call_with self f (calc_value_view v ∷ values)) }
    {
        match v {
            CalcValue::Number(n) => self.push_number(alloc, n),
            CalcValue::Length(l) => self.push_length(alloc, l),
        }
    }

    /// Takes a number.
    #[tactic(auto, using(crate::proofs::CallSteps::push_number))]
    fn push_number(self, alloc: Global, n: Fixed6) -> Result<Arguments, NoMemory>
        ensures { IfOk result (λ a. (f : MathFunction) (values : List grammar.CalcValue)
            → call_with a f values ≡ call_with self f (grammar.number n ∷ values)) }
    {
        match self {
            Arguments::Empty => Ok(Arguments::Numbers(n, Seq::new(alloc))),
            Arguments::Numbers(first, others) => {
                let mut others = others;
                others.push(n)?;
                Ok(Arguments::Numbers(first, others))
            }
            Arguments::Lengths(first, others) => Ok(lengths_and_number(first, others)),
            Arguments::Invalid => Ok(Arguments::Invalid),
        }
    }

    /// Takes a length.
    #[tactic(auto, using(crate::proofs::CallSteps::push_length))]
    fn push_length(self, alloc: Global, l: Length) -> Result<Arguments, NoMemory>
        ensures { IfOk result (λ a. (f : MathFunction) (values : List grammar.CalcValue)
            → call_with a f values ≡ call_with self f (grammar.length (length_view l) ∷ values)) }
    {
        match self {
            Arguments::Empty => Ok(Arguments::Lengths(l, Seq::new(alloc))),
            Arguments::Lengths(first, others) => {
                let mut others = others;
                others.push(l)?;
                Ok(Arguments::Lengths(first, others))
            }
            Arguments::Numbers(first, others) => Ok(numbers_and_length(first, others)),
            Arguments::Invalid => Ok(Arguments::Invalid),
        }
    }

    /// The value of the call of a function.
    #[tactic(auto, using(crate::proofs::CallSteps::value_of_empty, crate::proofs::CallSteps::value_of_numbers_alone, crate::proofs::CallSteps::value_of_lengths_alone))]
    pub(crate) fn value(self, alloc: Global, f: MathFunction) -> Result<Option<CalcValue>, NoMemory>
        ensures { IfOk result (λ v. option_map calc_value_view v ≡ call_with self f []) }
    {
        match self {
            Arguments::Numbers(first, others) => Ok(value_of_numbers(f, first, others.as_slice())),
            Arguments::Lengths(first, others) => value_of_lengths(alloc, f, first, others),
            Arguments::Empty | Arguments::Invalid => Ok(None),
        }
    }
}

/// What numbers and a length are.
fn numbers_and_length(first: Fixed6, others: Seq<Fixed6>) -> Arguments
    ensures { (a : model.Calculation lengths.Length) (f : MathFunction) (values : List grammar.CalcValue)
        → call_with result f values
        ≡ call_with (Arguments.Numbers first others) f (grammar.length a ∷ values) }
{
    Arguments::Invalid
}

/// What lengths and a number are.
fn lengths_and_number(first: Length, others: Seq<Length>) -> Arguments
    ensures { (n : ℤ) (f : MathFunction) (values : List grammar.CalcValue)
        → call_with result f values
        ≡ call_with (Arguments.Lengths first others) f (grammar.number n ∷ values) }
{
    Arguments::Invalid
}

/// The value of a function of numbers.
#[tactic(auto, using(crate::proofs::CallSteps::all_numbers))]
fn value_of_numbers(f: MathFunction, first: Fixed6, others: &[Fixed6]) -> Option<CalcValue>
    ensures { option_map calc_value_view result
        ≡ function_view f (grammar.number first ∷ map grammar.number others.now) }
{
    match f {
        MathFunction::Calc => only_number(first, others),
        MathFunction::Min => Some(CalcValue::Number(least(first, others))),
        MathFunction::Max => Some(CalcValue::Number(greatest(first, others))),
        MathFunction::Clamp => clamped_number(first, others),
    }
}

fn only_number(first: Fixed6, others: &[Fixed6]) -> Option<CalcValue>
    ensures { option_map calc_value_view result
        ≡ function_view MathFunction.Calc (grammar.number first ∷ map grammar.number others.now) }
{
    match others {
        [] => Some(CalcValue::Number(first)),
        [_second, _rest @ ..] => None,
    }
}

fn clamped_number(low: Fixed6, others: &[Fixed6]) -> Option<CalcValue>
    ensures { option_map calc_value_view result
        ≡ function_view MathFunction.Clamp (grammar.number low ∷ map grammar.number others.now) }
{
    match others {
        [v, high] => {
            let highest: Fixed6 = (*v).min(*high);
            Some(CalcValue::Number(low.max(highest)))
        }
        [] => None,
        [_v] => None,
        [_v, _high, _more, _rest @ ..] => None,
    }
}

/// The smallest of numbers.
fn least(first: Fixed6, others: &[Fixed6]) -> Fixed6
    ensures { result ≡ fold int_min first others.now }
{
    let mut value = first;
    for other in others {
        value = value.min(*other);
    }
    value
}

/// The largest of numbers.
fn greatest(first: Fixed6, others: &[Fixed6]) -> Fixed6
    ensures { result ≡ fold int_max first others.now }
{
    let mut value = first;
    for other in others {
        value = value.max(*other);
    }
    value
}

/// The value of a function of lengths.
fn value_of_lengths(
    alloc: Global,
    f: MathFunction,
    first: Length,
    others: Seq<Length>,
) -> Result<Option<CalcValue>, NoMemory>
    ensures { IfOk result (λ v. option_map calc_value_view v
        ≡ function_view f (grammar.length (length_view first)
        ∷ map (λ a. grammar.length (length_view a)) others)) }
{
    match f {
        MathFunction::Calc => {
            if others.is_empty() {
                Ok(Some(CalcValue::Length(first)))
            } else {
                Ok(None)
            }
        }
        MathFunction::Min => {
            let smallest = smallest_of(alloc, first, others)?;
            Ok(Some(CalcValue::Length(smallest)))
        }
        MathFunction::Max => {
            let largest = largest_of(alloc, first, others)?;
            Ok(Some(CalcValue::Length(largest)))
        }
        MathFunction::Clamp => clamped_length(alloc, first, others),
    }
}

/// The smallest of lengths.
fn smallest_of(alloc: Global, first: Length, others: Seq<Length>) -> Result<Length, NoMemory>
    ensures { IfOk result (λ l. length_view l
        ≡ smallest (length_view first) (lengths_view others)) }
{
    let first = Boxed::new(alloc, first)?;
    Ok(Length::Smallest(first, others))
}

/// The largest of lengths.
fn largest_of(alloc: Global, first: Length, others: Seq<Length>) -> Result<Length, NoMemory>
    ensures { IfOk result (λ l. length_view l
        ≡ largest (length_view first) (lengths_view others)) }
{
    let first = Boxed::new(alloc, first)?;
    Ok(Length::Largest(first, others))
}

/// `max(low, min(v, high))`, where two are the others.
fn clamped_length(
    alloc: Global,
    low: Length,
    others: Seq<Length>,
) -> Result<Option<CalcValue>, NoMemory>
    ensures { IfOk result (λ v. option_map calc_value_view v
        ≡ function_view MathFunction.Clamp (grammar.length (length_view low)
        ∷ map (λ a. grammar.length (length_view a)) others)) }
{
    match two_of(others) {
        Some((v, high)) => {
            let smallest = smallest_of(alloc, v, only(alloc, high)?)?;
            let largest = largest_of(alloc, low, only(alloc, smallest)?)?;
            Ok(Some(CalcValue::Length(largest)))
        }
        None => Ok(None),
    }
}

/// A list of one.
fn only(alloc: Global, l: Length) -> Result<Seq<Length>, NoMemory>
    ensures { IfOk result (λ ls. ls ≡ l ∷ []) }
{
    let mut ls = Seq::new(alloc);
    ls.push(l)?;
    Ok(ls)
}

/// The two of a list of two.
fn two_of(others: Seq<Length>) -> Option<(Length, Length)>
    ensures { AreTwo others result }
{
    let mut others = others;
    let last = others.pop()?;
    let first = others.pop()?;
    if others.is_empty() {
        Some((first, last))
    } else {
        None
    }
}
