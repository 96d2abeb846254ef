//! Words of media queries (Media Queries 4, section 3).
ghost use Rattle.conditions_model.specs.Conditions.{token_words};
ghost use Rattle.css_tokens.specs.Nested.{component_view, components_view};
ghost use Rattle.media_conditions.specs.inner.Words.{first_of, front_view, is_or, IsKind, media_words, media_words_of};
ghost use Rattle.std.specs.List.{list_any};
ghost use Rattle.std.specs.Prelude.{◌≡◌};

use css_tokens::{Component, TokenType, is_word};
use port_core::Text;

/// What a component value is in a media query.
#[derive(Clone, Copy, Debug)]
enum Kind<'a> {
    /// White space, which takes no part.
    Space,
    /// An identifier.
    Ident(&'a Text),
    /// A part of a condition, or what is in no query.
    Other,
}

/// What component values begin with, but for white space.
#[derive(Clone, Copy, Debug)]
pub(crate) enum Front<'a> {
    /// Nothing.
    Nothing,
    /// An identifier, and what is after it.
    Name(&'a Text, &'a [Component]),
    /// A part of a condition, or what is in no query.
    Another,
}

/// What component values begin with.
pub(crate) fn front_of(components: &[Component]) -> Front<'_>
    ensures { front_view result ≡ first_of (media_words (components_view components.now)) }
{
    for place in 0..components.len() {
        match kind_of(&components[place]) {
            Kind::Space => {}
            Kind::Ident(name) => return Front::Name(name, &components[place + 1..]),
            Kind::Other => return Front::Another,
        }
    }
    Front::Nothing
}

/// Whether one of them is `or`, in any case.
pub(crate) fn has_or(components: &[Component]) -> bool
    ensures { result ≡ list_any is_or (media_words (components_view components.now)) }
{
    for component in components {
        if is_or_word(component) {
            return true;
        }
    }
    false
}

fn is_or_word(c: &Component) -> bool
    ensures { result ≡ list_any is_or (media_words_of (component_view c.now)) }
{
    match kind_of(c) {
        Kind::Ident(name) => is_word(name, "or"),
        _ => false,
    }
}

fn kind_of(c: &Component) -> Kind<'_>
    ensures { IsKind result (media_words_of (component_view c.now)) }
{
    match c {
        Component::One(token) => kind_of_type(&token.token_type),
        _ => Kind::Other,
    }
}

fn kind_of_type(token_type: &TokenType) -> Kind<'_>
    ensures { IsKind result (token_words token_type.now) }
{
    match token_type {
        TokenType::Ident(name) => Kind::Ident(name),
        TokenType::Whitespace => Kind::Space,
        _ => Kind::Other,
    }
}
