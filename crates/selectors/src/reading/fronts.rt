//! The types of tokens in brackets, as `An+B` and attribute selectors read them.
ghost use Rattle.css_tokens.specs.Nested.{component_view};
ghost use Rattle.selectors.specs.inner.Fronts.{IsFront};
ghost use Rattle.selectors_model.specs.TokenTypes as model;
ghost use Rattle.std.specs.Prelude.{◌≡◌};

use css_model::TokenType;
use css_tokens::Component;

/// The first type that is not white space, and the component values after it.
#[derive(Clone, Copy)]
pub(crate) struct Front<'a> {
    /// The type.
    pub(crate) token_type: &'a TokenType,
    /// What is after it.
    pub(crate) rest: &'a [Component],
}

/// The type of a component value: that of its token, or of the token that opens it.
pub(crate) fn type_of(c: &Component) -> &TokenType
    ensures { result.now ≡ model.type_of (component_view c.now) }
{
    match c {
        Component::One(token) => &token.token_type,
        Component::Block(head, _, _) => &head.token_type,
        Component::Function(head, _, _) => &head.token_type,
    }
}

fn is_whitespace(c: &Component) -> bool
    ensures { result ≡ model.is_whitespace_type (model.type_of (component_view c.now)) }
{
    matches!(type_of(c), TokenType::Whitespace)
}

/// What is in front of component values, white space left out.
pub(crate) fn front_of(components: &[Component]) -> Option<Front<'_>>
    ensures { IsFront result components.now }
{
    for place in 0..components.len() {
        if !is_whitespace(&components[place]) {
            return Some(Front {
                token_type: type_of(&components[place]),
                rest: &components[place + 1..],
            });
        }
    }
    None
}
