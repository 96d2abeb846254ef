//! Lengths and percentages, literal or calculated, read from component values (CSS Values 4, sections
//! 5, 6 and 10).
ghost use Rattle.css_tokens.specs.Nested.{component_view, components_view};
ghost use Rattle.query_units.specs.inner.CalcItems.{item_view};
ghost use Rattle.query_units.specs.inner.CalcValues.{calc_value_view};
ghost use Rattle.query_units.specs.inner.Calls.{called_function, function_view, is_round_type};
ghost use Rattle.query_units.specs.Views.{length_view};
ghost use Rattle.std.specs.Prelude.{◌≡◌, IfOk, option_and_then, option_map};
ghost use Rattle.value_model.specs.CalculationGrammar as grammar;

use crate::calc_value::CalcValue;
use crate::calls::Call;
use crate::functions::{MathFunction, function_of};
use crate::item::{Item, item_of_token};
use crate::length::Length;
use crate::literals::{literal_from_zero, literal_of};
use crate::sums::Sum;
use css_tokens::{Bracket, Component, Components, TokenType};
use port_core::NoMemory;
use std::alloc::Global;
use value_parts::only_word;

/// Returns the length that `c` is, if it is one and no more; where `percent`, the length or
/// percentage. It is a literal or a calculation. Fails only if memory runs out.
pub fn read_length(alloc: Global, c: &Components, percent: bool) -> Result<Option<Length>, NoMemory>
    ensures { IfOk result (λ l. option_map length_view l
        ≡ grammar.length_in percent (components_view c.now)) }
{
    match only_word(c.as_slice()) {
        Some(word) => any_length_of(alloc, word, percent),
        None => Ok(None),
    }
}

/// Returns the length that `c` is, if it is one; where `percent`, the length or percentage. It is a
/// literal or a calculation. Fails only if memory runs out.
///
/// Time grows with the number of component values; the calls are as deep as brackets nest.
pub fn any_length_of(
    alloc: Global,
    c: &Component,
    percent: bool,
) -> Result<Option<Length>, NoMemory>
    ensures { IfOk result (λ l. option_map length_view l
        ≡ grammar.any_length_of percent (component_view c.now)) }
{
    match literal_of(percent, c) {
        Some(literal) => Ok(Some(Length::Literal(literal))),
        None => calculation_of(alloc, c, percent),
    }
}

/// Returns the same, but no literal below 0. A calculation is no literal.
pub fn length_from_zero_of(
    alloc: Global,
    c: &Component,
    percent: bool,
) -> Result<Option<Length>, NoMemory>
    ensures { IfOk result (λ l. option_map length_view l
        ≡ grammar.length_from_zero_of percent (component_view c.now)) }
{
    match literal_from_zero(percent, c) {
        Some(literal) => Ok(Some(Length::Literal(literal))),
        None => calculation_of(alloc, c, percent),
    }
}

/// Returns the calculation that `c` is, if it is one and gives a length. Fails only if memory runs
/// out.
pub fn calculation_of(
    alloc: Global,
    c: &Component,
    percent: bool,
) -> Result<Option<Length>, NoMemory>
    ensures { IfOk result (λ l. option_map length_view l
        ≡ grammar.calculation_of percent (component_view c.now)) }
{
    match c {
        Component::Function(head, contents, _) => {
            let value = value_of_call(alloc, &head.token_type, contents.as_slice(), percent)?;
            Ok(length_of_value(value))
        }
        _ => Ok(None),
    }
}

fn length_of_value(value: Option<CalcValue>) -> Option<Length>
    ensures { option_map length_view result
        ≡ option_and_then grammar.length_of_value (option_map calc_value_view value) }
{
    match value {
        Some(CalcValue::Length(a)) => Some(a),
        Some(CalcValue::Number(_)) | None => None,
    }
}

/// The value of the call of a function.
#[cycle(calculations)]
fn value_of_call(
    alloc: Global,
    head: &TokenType,
    contents: &[Component],
    percent: bool,
) -> Result<Option<CalcValue>, NoMemory>
    ensures { IfOk result (λ v. option_map calc_value_view v
        ≡ grammar.value_of_call head.now (grammar.items_of percent (components_view contents.now))) }
{
    match function_of_type(head) {
        Some(f) => read_call(alloc, f, contents, percent),
        None => Ok(None),
    }
}

/// The value of the arguments of a function.
#[cycle(calculations)]
fn read_call(
    alloc: Global,
    f: MathFunction,
    contents: &[Component],
    percent: bool,
) -> Result<Option<CalcValue>, NoMemory>
    ensures { IfOk result (λ v. option_map calc_value_view v
        ≡ option_and_then (function_view f)
        (grammar.arguments_of (grammar.items_of percent (components_view contents.now)))) }
{
    let mut call = Call::new();
    for component in contents {
        let item = item_of(alloc, component, percent)?;
        call = call.take(alloc, item)?;
    }
    call.finish(alloc, f)
}

/// The value of the sum in a pair of brackets.
#[cycle(calculations)]
fn value_of_block(
    alloc: Global,
    head: &TokenType,
    contents: &[Component],
    percent: bool,
) -> Result<Option<CalcValue>, NoMemory>
    ensures { IfOk result (λ v. option_map calc_value_view v
        ≡ grammar.value_of_block head.now (grammar.items_of percent (components_view contents.now))) }
{
    if is_round(head) {
        read_sum(alloc, contents, percent)
    } else {
        Ok(None)
    }
}

/// The value of a sum.
#[cycle(calculations)]
fn read_sum(
    alloc: Global,
    contents: &[Component],
    percent: bool,
) -> Result<Option<CalcValue>, NoMemory>
    ensures { IfOk result (λ v. option_map calc_value_view v
        ≡ grammar.sum_of (grammar.items_of percent (components_view contents.now))) }
{
    let mut sum = Sum::new();
    for component in contents {
        let item = item_of(alloc, component, percent)?;
        sum = sum.take(alloc, item)?;
    }
    sum.finish(alloc)
}

/// What a component value is in a calculation.
#[cycle(calculations)]
fn item_of(alloc: Global, c: &Component, percent: bool) -> Result<Item, NoMemory>
    ensures { IfOk result (λ i. item_view i ≡ grammar.item_of percent (component_view c.now)) }
{
    match c {
        Component::One(token) => Ok(item_of_token(percent, c, token)),
        Component::Block(head, contents, _) => {
            let value = value_of_block(alloc, &head.token_type, contents.as_slice(), percent)?;
            Ok(Item::Value(value))
        }
        Component::Function(head, contents, _) => {
            let value = value_of_call(alloc, &head.token_type, contents.as_slice(), percent)?;
            Ok(Item::Value(value))
        }
    }
}

/// The function that a token begins, if it is one.
fn function_of_type(token_type: &TokenType) -> Option<MathFunction>
    ensures { option_map function_view result ≡ called_function token_type.now }
{
    match token_type {
        TokenType::Function(name) => function_of(name),
        _ => None,
    }
}

/// Whether this is `(`.
fn is_round(token_type: &TokenType) -> bool
    ensures { result ≡ is_round_type token_type.now }
{
    match token_type {
        TokenType::Opening(bracket) => *bracket == Bracket::Round,
        _ => false,
    }
}
