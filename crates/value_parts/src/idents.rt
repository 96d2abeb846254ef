//! Identifiers (CSS Syntax 3, section 4).
ghost use Rattle.css_tokens.specs.Nested.{component_view};
ghost use Rattle.rules_model.specs.ComponentLists as lists;
ghost use Rattle.std.specs.Option.{option_copied};
ghost use Rattle.std.specs.Prelude.{◌≡◌};

use css_tokens::{Component, TokenType};
use port_core::Text;

/// Returns the name of the identifier that `c` is, if it is one.
pub fn ident_of(c: &Component) -> Option<&Text>
    ensures { option_copied result ≡ lists.ident_of (component_view c.now) }
{
    match c {
        Component::One(token) => ident_of_type(&token.token_type),
        _ => None,
    }
}

fn ident_of_type(token_type: &TokenType) -> Option<&Text>
    ensures { option_copied result ≡ lists.ident_of_type token_type.now }
{
    match token_type {
        TokenType::Ident(name) => Some(name),
        _ => None,
    }
}
