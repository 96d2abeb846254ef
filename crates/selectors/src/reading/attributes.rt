//! Attribute selectors, read from what is in their brackets (Selectors 4, section 6).
ghost use Rattle.css_model.specs.declared.token.TokenType.TheVariants.{Delim};
ghost use Rattle.selectors.specs.inner.Fronts.{types};
ghost use Rattle.selectors.specs.Views.{simple_view};
ghost use Rattle.selectors_model.specs.AttributeSelectors as model;
ghost use Rattle.selectors_model.specs.TokenTypes.{without_front_whitespace};
ghost use Rattle.std.specs.Map.{lookup};
ghost use Rattle.std.specs.Option.{option_copied};
ghost use Rattle.std.specs.Prelude.{◌≡◌, ◌==◌, ◌∷◌, IfOk, option_map};

use super::fronts::{front_of, type_of};
use crate::selector::Simple;
use css_model::TokenType;
use css_tokens::Component;
use port_core::{NoMemory, Text};
use selectors_model::AttributeMatcher;
use std::alloc::Global;

/// The attribute selector with these contents in its brackets.
pub(crate) fn attribute_selector(
    alloc: Global,
    contents: &[Component],
) -> Result<Option<Simple>, NoMemory>
    ensures { IfOk result (λ s.
        option_map simple_view s ≡ model.attribute_of (types contents.now)) }
{
    let Some(front) = front_of(contents) else {
        return Ok(None);
    };
    match front.token_type {
        TokenType::Ident(name) => attribute_named(alloc, name, front.rest),
        _ => Ok(None),
    }
}

/// The attribute selector with what is after its name.
fn attribute_named(
    alloc: Global,
    name: &Text,
    rest: &[Component],
) -> Result<Option<Simple>, NoMemory>
    ensures { IfOk result (λ s. option_map simple_view s
        ≡ model.attribute_from name.now (without_front_whitespace (types rest.now))) }
{
    let Some(front) = front_of(rest) else {
        return Ok(Some(Simple::AttributePresent(name.copy(alloc)?)));
    };
    match front.token_type {
        TokenType::Delim(c) => attribute_after(alloc, name, *c, front.rest),
        _ => Ok(None),
    }
}

/// The attribute selector with what is after the first delim of its matcher.
fn attribute_after(
    alloc: Global,
    name: &Text,
    delim: char,
    rest: &[Component],
) -> Result<Option<Simple>, NoMemory>
    ensures { IfOk result (λ s. option_map simple_view s
        ≡ model.attribute_from name.now (Delim delim ∷ types rest.now)) }
{
    if delim == '=' {
        return attribute_with(alloc, name, AttributeMatcher::Equals, rest);
    }
    match (matcher_of(delim), rest) {
        (Some(matcher), [equals, rest @ ..]) if is_equals(type_of(equals)) => {
            attribute_with(alloc, name, matcher, rest)
        }
        _ => Ok(None),
    }
}

/// The matcher that begins with a delim and goes on with `=`.
fn matcher_of(delim: char) -> Option<AttributeMatcher>
    ensures { result ≡ lookup (λ d. delim == d) model.matchers }
{
    match delim {
        '~' => Some(AttributeMatcher::Includes),
        '|' => Some(AttributeMatcher::DashMatch),
        '^' => Some(AttributeMatcher::Prefix),
        '$' => Some(AttributeMatcher::Suffix),
        '*' => Some(AttributeMatcher::Substring),
        _ => None,
    }
}

fn is_equals(token_type: &TokenType) -> bool
    ensures { result ≡ model.is_equals token_type.now }
{
    match token_type {
        TokenType::Delim(c) => *c == '=',
        _ => false,
    }
}

/// The attribute selector with what is after its matcher.
fn attribute_with(
    alloc: Global,
    name: &Text,
    matcher: AttributeMatcher,
    rest: &[Component],
) -> Result<Option<Simple>, NoMemory>
    ensures { IfOk result (λ s.
        option_map simple_view s ≡ model.attribute_with name.now matcher (types rest.now)) }
{
    match value_of(rest) {
        Some(value) => Ok(Some(Simple::AttributeValue(
            name.copy(alloc)?,
            matcher,
            value.copy(alloc)?,
        ))),
        None => Ok(None),
    }
}

/// An identifier or a string, with nothing but white space around it.
fn value_of(components: &[Component]) -> Option<&Text>
    ensures { option_copied result
        ≡ model.value_of (without_front_whitespace (types components.now)) }
{
    let front = front_of(components)?;
    let value = match front.token_type {
        TokenType::Ident(value) | TokenType::String(value) => value,
        _ => return None,
    };
    match front_of(front.rest) {
        Some(_) => None,
        None => Some(value),
    }
}
