//! What values ask of single component values (CSS Syntax 3, section 4).
ghost use Rattle.css_tokens.specs.Nested.{component_view};
ghost use Rattle.rules_model.specs.ComponentLists as lists;
ghost use Rattle.std.specs.Option.{option_copied};
ghost use Rattle.std.specs.Prelude.{◌≡◌, option_and_then};
ghost use Rattle.value_model.specs.Forms as forms;
ghost use Rattle.value_model.specs.Shorthands as shorthands;

use css_tokens::{Component, Number, TokenType};
use port_core::Text;

/// The number that `c` is, if it is one.
pub(crate) fn number_of(c: &Component) -> Option<Number>
    ensures { result ≡ forms.number_of (component_view c.now) }
{
    match c {
        Component::One(token) => number_of_type(&token.token_type),
        _ => None,
    }
}

fn number_of_type(token_type: &TokenType) -> Option<Number>
    ensures { result ≡ forms.number_of_type token_type.now }
{
    match token_type {
        TokenType::Number(n) => Some(*n),
        _ => None,
    }
}

/// Whether `c` is `/`.
pub(crate) fn is_slash(c: &Component) -> bool
    ensures { result ≡ shorthands.is_slash (component_view c.now) }
{
    match c {
        Component::One(token) => is_slash_type(&token.token_type),
        _ => false,
    }
}

fn is_slash_type(token_type: &TokenType) -> bool
    ensures { result ≡ shorthands.is_slash_type token_type.now }
{
    match token_type {
        TokenType::Delim(c) => *c == '/',
        _ => false,
    }
}
