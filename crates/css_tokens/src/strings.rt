//! Strings (CSS Syntax 3, section 4.3.5).
ghost use Rattle.std.specs.Prelude.{◌<◌, ◌∷◌, IfOk};
ghost use Rattle.std.specs.Str.{chars};
ghost use Rattle.css_model.specs.inner.Pieces as model;
ghost use Rattle.css_tokens.specs.inner.Found.{IsFound};

use crate::parts::{after_parts, meaning_of_parts};
use crate::piece::Piece;
use crate::runs::first;
use css_model::{Place, TokenType};
use port_core::NoMemory;
use std::alloc::Global;

/// Consumes a string or bad string; `cs` starts just after its opening `quote`.
pub fn consume_string<'a>(alloc: Global, quote: char, cs: &'a str) -> Result<Piece<'a>, NoMemory>
    requires { quote < 128 }
    ensures { IfOk result (λ p. IsFound p (model.consume_string quote (chars cs.now)) (quote ∷ chars cs.now)) }
{
    let place = Place::InString(quote);
    let rest = after_parts(place, cs);
    match first(rest) {
        None => {
            let value = meaning_of_parts(alloc, place, cs)?;
            Ok(Piece::token(TokenType::String(value), rest))
        }
        Some((c, after)) => {
            if c == quote {
                let value = meaning_of_parts(alloc, place, cs)?;
                Ok(Piece::token(TokenType::String(value), after))
            } else {
                Ok(Piece::token(TokenType::BadString, rest))
            }
        }
    }
}
