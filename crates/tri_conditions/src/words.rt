//! What component values are in a condition (Media Queries 4, section 3).
ghost use Rattle.conditions_model.specs.Conditions.{is_round_type, token_words};
ghost use Rattle.std.specs.Prelude.{◌≡◌};
ghost use Rattle.tri_conditions.specs.inner.Words.{words_seen};

use crate::condition::Condition;
use css_model::{Bracket, TokenType};
use port_core::Text;

/// What a component value is in a condition.
#[derive(Drop)]
pub(crate) enum Word<'a, Q> {
    /// White space, which takes no part.
    Space,
    /// A pair of round brackets or a function, with its condition.
    Part(Condition<Q>),
    /// An identifier.
    Ident(&'a Text),
    /// What is in no condition.
    Other,
}

/// What a preserved token is.
pub(crate) fn token_word<'a, Q>(token_type: &'a TokenType) -> Word<'a, Q>
    ensures { words_seen result ≡ token_words token_type.entry.now }
{
    match token_type {
        TokenType::Ident(name) => Word::Ident(name),
        TokenType::Whitespace => Word::Space,
        _ => Word::Other,
    }
}

/// Whether this is `(`.
pub(crate) fn is_round(token_type: &TokenType) -> bool
    ensures { result ≡ is_round_type token_type.now }
{
    match token_type {
        TokenType::Opening(bracket) => *bracket == Bracket::Round,
        _ => false,
    }
}
