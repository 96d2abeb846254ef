//! Urls without quotes (CSS Syntax 3, sections 4.3.6 and 4.3.14).
ghost use Rattle.std.specs.Prelude.{◌≡◌, ◌||◌, ◌++◌, IfOk};
ghost use Rattle.std.specs.Str.{chars};
ghost use Rattle.css_model.specs.Classes as classes;
ghost use Rattle.css_model.specs.Classes.{Text, is_close_round, is_empty};
ghost use Rattle.css_model.specs.inner.Pieces as model;
ghost use Rattle.css_tokens.specs.inner.Found.{IsFound};

use crate::classes::Class;
use crate::parts::{after_parts, meaning_of_parts};
use crate::piece::Piece;
use crate::runs::{after_white, first, one};
use css_model::{Place, TokenType};
use port_core::NoMemory;
use std::alloc::Global;

/// Consumes a url or bad url; `inside` starts just after its name and `(`.
pub fn consume_url<'a>(alloc: Global, inside: &'a str) -> Result<Piece<'a>, NoMemory>
    ensures { (h : Text) → IfOk result (λ p.
        IsFound p (model.consume_url h (chars inside.now)) (h ++ chars inside.now)) }
{
    let value = after_white(inside);
    let rest = after_white(after_parts(Place::InUrl, value));
    if ends(rest) {
        let value = meaning_of_parts(alloc, Place::InUrl, value)?;
        let (_, rest) = one(Class::CloseRound, rest);
        Ok(Piece::token(TokenType::Url(value), rest))
    } else {
        Ok(consume_bad_url_remnants(inside))
    }
}

/// Whether a url ends before `cs`: at its `)`, or with the text.
fn ends(cs: &str) -> bool
    ensures { result ≡ (is_empty (chars cs.now) || classes.begins is_close_round (chars cs.now)) }
{
    match first(cs) {
        Some((c, _)) => c == ')',
        None => true,
    }
}

/// Consumes the remnants of a bad url; `inside` starts just after its name and `(`.
fn consume_bad_url_remnants<'a>(inside: &'a str) -> Piece<'a>
    ensures { (h : Text) → IsFound result (model.consume_bad_url_remnants h (chars inside.now)) (h ++ chars inside.now) }
{
    let (_, rest) = one(Class::CloseRound, after_parts(Place::InBadUrl, inside));
    Piece::token(TokenType::BadUrl, rest)
}
