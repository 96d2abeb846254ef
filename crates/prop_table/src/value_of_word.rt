//! Values that are one component value (CSS Values 4, sections 2, 4 and 5).
ghost use Rattle.css_tokens.specs.Nested.{component_view};
ghost use Rattle.prop_table.specs.Views.{value_view};
ghost use Rattle.prop_table.specs.inner.FormViews.{form_view};
ghost use Rattle.query_units.specs.Views.{length_view};
ghost use Rattle.std.specs.Prelude.{◌≡◌, IfOk, int_div, option_map, pos};
ghost use Rattle.value_model.specs.Forms as model;
ghost use Rattle.value_model.specs.Values as values;

use crate::colors::color_of;
use crate::form::Form;
use crate::keywords::keyword_among;
use crate::tokens::number_of;
use crate::value::Value;
use css_tokens::Component;
use port_core::NoMemory;
use query_units::{Length, any_length_of, length_from_zero_of};
use std::alloc::Global;
use units64::Fixed6;
use value_model::Keyword;

/// The value of `form` that `c` is, where the form is one component value.
pub(crate) fn value_of_word(
    alloc: Global,
    form: Form,
    c: &Component,
) -> Result<Option<Value>, NoMemory>
    ensures { IfOk result (λ v. option_map value_view v
        ≡ model.value_of_one (form_view form) (component_view c.now)) }
{
    match form {
        Form::OneOf(keywords) => Ok(keyword_value(keywords, c)),
        Form::Length => Ok(length_value(length_from_zero_of(alloc, c, false)?)),
        Form::LengthOrPercentage => Ok(length_value(length_from_zero_of(alloc, c, true)?)),
        Form::AnyLengthOrPercentage => Ok(length_value(any_length_of(alloc, c, true)?)),
        Form::Number => Ok(number_value(c)),
        Form::AnyNumber => Ok(any_number_value(c)),
        Form::IntegerBetween(least, greatest) => Ok(integer_value(least, greatest, c)),
        Form::AnyInteger => Ok(any_integer_value(c)),
        Form::Color => Ok(color_value(c)),
        Form::Containment | Form::ContainerNames => Ok(None),
    }
}

fn keyword_value(keywords: &[Keyword], c: &Component) -> Option<Value>
    ensures { option_map value_view result
        ≡ model.value_of_one (model.one_of keywords.now) (component_view c.now) }
{
    Some(Value::Keyword(keyword_among(keywords, c)?))
}

fn length_value(length: Option<Length>) -> Option<Value>
    ensures { option_map value_view result
        ≡ option_map (λ l. values.length_value l) (option_map length_view length) }
{
    Some(Value::Length(length?))
}

fn number_value(c: &Component) -> Option<Value>
    ensures { option_map value_view result
        ≡ model.value_of_one model.a_number (component_view c.now) }
{
    let number = number_of(c)?;
    if number.millionths.get() < 0 {
        None
    } else {
        Some(Value::Number(number.millionths))
    }
}

fn any_number_value(c: &Component) -> Option<Value>
    ensures { option_map value_view result
        ≡ model.value_of_one model.any_number (component_view c.now) }
{
    Some(Value::Number(number_of(c)?.millionths))
}

fn integer_value(least: u16, greatest: u16, c: &Component) -> Option<Value>
    ensures { option_map value_view result
        ≡ model.value_of_one (model.an_integer_between least greatest) (component_view c.now) }
{
    let integer = integer_of(c)?;
    if least as i32 <= integer && integer <= greatest as i32 {
        Some(Value::Integer(integer))
    } else {
        None
    }
}

fn any_integer_value(c: &Component) -> Option<Value>
    ensures { option_map value_view result
        ≡ model.value_of_one model.any_integer (component_view c.now) }
{
    Some(Value::Integer(integer_of(c)?))
}

/// The integer that `c` is, if it was written as one.
fn integer_of(c: &Component) -> Option<i32>
    ensures { result ≡ model.integer_of (component_view c.now) }
{
    let number = number_of(c)?;
    if number.is_integer {
        Some(whole(number.millionths))
    } else {
        None
    }
}

/// The ones of a number of millionths.
fn whole(number: Fixed6) -> i32
    ensures { result ≡ int_div number (pos 1000000) }
{
    (number.get() / 1_000_000) as i32
}

fn color_value(c: &Component) -> Option<Value>
    ensures { option_map value_view result
        ≡ model.value_of_one model.a_color (component_view c.now) }
{
    Some(Value::Color(color_of(c)?))
}
