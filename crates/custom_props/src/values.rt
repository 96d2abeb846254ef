//! What values hold, at any depth (CSS Custom Properties 1, sections 2 and 3; CSS Syntax 3, section
//! 8.2).
ghost use Rattle.css_tokens.specs.Nested.{component_view, components_view};
ghost use Rattle.custom_model.specs.References as model;
ghost use Rattle.custom_props.specs.inner.Reading as reading;
ghost use Rattle.rules_model.specs.Declarations.{is_exclamation_type};
ghost use Rattle.rules_model.specs.ComponentLists.{is_token};
ghost use Rattle.std.specs.Prelude.{◌≡◌};

use crate::references::{is_var_type, name_in};
use css_tokens::{Component, Components, TokenType};

/// Returns whether `value` has a `var()`.
///
/// Time grows with the number of component values; the calls are as deep as brackets nest.
pub fn has_var(value: &Components) -> bool
    ensures { result ≡ model.has_var (components_view value.now) }
{
    has_var_in(value.as_slice())
}

/// Returns whether each `var()` of `value` is of the right form.
///
/// A fallback is read once for each `var()` around it; the calls are as deep as brackets nest.
pub fn has_right_vars(value: &Components) -> bool
    ensures { result ≡ model.has_right_vars (components_view value.now) }
{
    has_right_vars_in(value.as_slice())
}

/// Returns whether `value` is a value of a custom property: a `<declaration-value>`, or nothing, in
/// which each `var()` is of the right form.
pub fn is_custom_value(value: &Components) -> bool
    ensures { result ≡ model.is_custom_value (components_view value.now) }
{
    is_declaration_value(value.as_slice()) && has_right_vars_in(value.as_slice())
}

/// Whether there is a `var()`.
#[tactic(auto, using(crate::proofs::ValueParts::has_var_cons))]
#[cycle(vars)]
pub(crate) fn has_var_in(components: &[Component]) -> bool
    ensures { result ≡ model.has_var (components_view components.now) }
{
    for c in components {
        if is_or_has_var(c) {
            return true;
        }
    }
    false
}

/// Whether `c` is a `var()` or has one.
#[tactic(auto, using(crate::proofs::ValueParts::has_var_function))]
#[cycle(vars)]
fn is_or_has_var(c: &Component) -> bool
    ensures { result ≡ reading.is_or_has_var (component_view c.now) }
{
    match c {
        Component::One(_) => false,
        Component::Block(_, contents, _) => has_var_in(contents.as_slice()),
        Component::Function(head, contents, _) => {
            is_var_type(&head.token_type) || has_var_in(contents.as_slice())
        }
    }
}

/// Whether each `var()` is of the right form.
#[tactic(auto, using(crate::proofs::ValueParts::right_cons))]
#[cycle(right_vars)]
fn has_right_vars_in(components: &[Component]) -> bool
    ensures { result ≡ model.has_right_vars (components_view components.now) }
{
    for c in components {
        if !is_right(c) {
            return false;
        }
    }
    true
}

/// Whether `c`, if it is a `var()`, and each one in it is of the right form.
#[tactic(auto, using(crate::proofs::ValueParts::right_function))]
#[cycle(right_vars)]
fn is_right(c: &Component) -> bool
    ensures { result ≡ reading.is_right (component_view c.now) }
{
    match c {
        Component::One(_) => true,
        Component::Block(_, contents, _) => has_right_vars_in(contents.as_slice()),
        Component::Function(head, contents, _) => {
            has_right_form(&head.token_type, contents.as_slice())
                && has_right_vars_in(contents.as_slice())
        }
    }
}

/// Whether a function of this type with these contents, if it is a `var()`, is of the right form.
fn has_right_form(token_type: &TokenType, contents: &[Component]) -> bool
    ensures { result ≡ reading.has_right_form token_type.now (components_view contents.now) }
{
    !is_var_type(token_type) || name_in(contents).is_some()
}

/// Whether this is a `<declaration-value>`, or nothing.
pub(crate) fn is_declaration_value(components: &[Component]) -> bool
    ensures { result ≡ model.is_declaration_value (components_view components.now) }
{
    have_no_bad_token(components) && have_no_semicolon_or_exclamation(components)
}

fn have_no_semicolon_or_exclamation(components: &[Component]) -> bool
    ensures { result ≡ model.have_no_semicolon_or_exclamation (components_view components.now) }
{
    for c in components {
        if is_semicolon_or_exclamation(c) {
            return false;
        }
    }
    true
}

fn is_semicolon_or_exclamation(c: &Component) -> bool
    ensures { result ≡ model.is_semicolon_or_exclamation (component_view c.now) }
{
    match c {
        Component::One(token) => is_semicolon_or_exclamation_type(&token.token_type),
        _ => false,
    }
}

fn is_semicolon_or_exclamation_type(token_type: &TokenType) -> bool
    ensures { result ≡ reading.is_semicolon_or_exclamation_type token_type.now }
{
    match token_type {
        TokenType::Semicolon => true,
        TokenType::Delim(c) => *c == '!',
        _ => false,
    }
}

/// Whether no preserved token is bad, at any depth.
#[cycle(bad_tokens)]
fn have_no_bad_token(components: &[Component]) -> bool
    ensures { result ≡ model.have_no_bad_token (components_view components.now) }
{
    for c in components {
        if !has_no_bad_token(c) {
            return false;
        }
    }
    true
}

#[cycle(bad_tokens)]
fn has_no_bad_token(c: &Component) -> bool
    ensures { result ≡ model.has_no_bad_token (component_view c.now) }
{
    match c {
        Component::One(token) => !is_bad_type(&token.token_type),
        Component::Block(_, contents, _) | Component::Function(_, contents, _) => {
            have_no_bad_token(contents.as_slice())
        }
    }
}

fn is_bad_type(token_type: &TokenType) -> bool
    ensures { result ≡ model.is_bad_type token_type.now }
{
    matches!(
        token_type,
        TokenType::BadString | TokenType::BadUrl | TokenType::Closing(_)
    )
}
