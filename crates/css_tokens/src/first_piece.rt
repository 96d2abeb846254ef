//! The first piece of a text (CSS Syntax 3, section 4.3.1).
ghost use Rattle.std.specs.Prelude.{◌≡◌, ◌∷◌, IfOk};
ghost use Rattle.std.specs.Str.{chars};
ghost use Rattle.css_model.specs.declared.place.Place.TheVariants.{InName};
ghost use Rattle.css_model.specs.Classes.{number_sign};
ghost use Rattle.css_model.specs.Spellings.{single_of};
ghost use Rattle.css_model.specs.inner.Fronts.{parts_in};
ghost use Rattle.css_model.specs.inner.Pieces as model;
ghost use Rattle.css_tokens.specs.inner.Found.{IsFound};

use crate::classes::{is_quote, is_whitespace};
use crate::comments::consume_comment;
use crate::names::consume_ident_like;
use crate::numbers::consume_numeric;
use crate::numerals::would_start_number;
use crate::parts::{after_parts, begins_part, meaning_of_parts, would_start_ident};
use crate::piece::Piece;
use crate::runs::{after_front, after_white};
use crate::strings::consume_string;
use css_model::{Bracket, Place, TokenType};
use port_core::NoMemory;
use std::alloc::Global;

/// Consumes the first piece of `text`, which is `c` and then `rest`.
pub fn first_piece<'a>(
    alloc: Global,
    text: &'a str,
    c: char,
    rest: &'a str,
) -> Result<Piece<'a>, NoMemory>
    requires { chars text.now ≡ c ∷ chars rest.now }
    ensures { IfOk result (λ p. IsFound p (model.first_piece c (chars rest.now)) (c ∷ chars rest.now)) }
{
    if is_whitespace(c) {
        Ok(Piece::token(TokenType::Whitespace, after_white(text)))
    } else if let Some(token_type) = punctuation(c) {
        Ok(Piece::token(token_type, rest))
    } else if is_quote(c) {
        consume_string(alloc, c, rest)
    } else if let Some(inside) = after_front(b"/*", text) {
        Ok(consume_comment(inside))
    } else if would_start_number(text) {
        consume_numeric(alloc, text)
    } else {
        other_piece(alloc, text, c, rest)
    }
}

/// Consumes the first piece of `text`, which is `c` and then `rest`, and does not begin with
/// whitespace, a quote, a comment or a number.
fn other_piece<'a>(
    alloc: Global,
    text: &'a str,
    c: char,
    rest: &'a str,
) -> Result<Piece<'a>, NoMemory>
    requires { chars text.now ≡ c ∷ chars rest.now }
    ensures { IfOk result (λ p. IsFound p
        (model.other_piece (parts_in InName (c ∷ chars rest.now)) c (chars rest.now)) (c ∷ chars rest.now)) }
{
    if let Some(after) = after_front(b"-->", text) {
        Ok(Piece::token(TokenType::Cdc, after))
    } else if would_start_ident(text) {
        consume_ident_like(alloc, text)
    } else if let Some(after) = after_front(b"<!--", text) {
        Ok(Piece::token(TokenType::Cdo, after))
    } else {
        marked_piece(alloc, c, rest)
    }
}

/// Consumes a hash, an at-keyword or a single code point: `c`, before `rest`.
fn marked_piece<'a>(alloc: Global, c: char, rest: &'a str) -> Result<Piece<'a>, NoMemory>
    ensures { IfOk result (λ p. IsFound p
        (model.marked_piece c (parts_in InName (chars rest.now))) (c ∷ chars rest.now)) }
{
    if c == '#' {
        hash_piece(alloc, rest)
    } else if c == '@' && would_start_ident(rest) {
        let name = meaning_of_parts(alloc, Place::InName, rest)?;
        Ok(Piece::token(TokenType::AtKeyword(name), after_parts(Place::InName, rest)))
    } else {
        Ok(Piece::token(single_type(c), rest))
    }
}

/// Consumes a hash or a single `#`; `rest` starts just after its `#`.
fn hash_piece<'a>(alloc: Global, rest: &'a str) -> Result<Piece<'a>, NoMemory>
    ensures { IfOk result (λ p. IsFound p
        (model.marked_piece number_sign (parts_in InName (chars rest.now))) (number_sign ∷ chars rest.now)) }
{
    if !begins_part(Place::InName, rest) {
        return Ok(Piece::token(single_type('#'), rest));
    }
    let token_type = TokenType::Hash {
        name: meaning_of_parts(alloc, Place::InName, rest)?,
        is_id: would_start_ident(rest),
    };
    Ok(Piece::token(token_type, after_parts(Place::InName, rest)))
}

/// The type of a single code point.
fn single_type(c: char) -> TokenType
    ensures { result ≡ model.single_type c }
{
    match punctuation(c) {
        Some(token_type) => token_type,
        None => TokenType::Delim(c),
    }
}

/// The type of `c` alone, if it is a token of its own type wherever it stands.
fn punctuation(c: char) -> Option<TokenType>
    ensures { result ≡ single_of c }
{
    match c {
        ':' => Some(TokenType::Colon),
        ';' => Some(TokenType::Semicolon),
        ',' => Some(TokenType::Comma),
        '(' => Some(TokenType::Opening(Bracket::Round)),
        ')' => Some(TokenType::Closing(Bracket::Round)),
        '[' => Some(TokenType::Opening(Bracket::Square)),
        ']' => Some(TokenType::Closing(Bracket::Square)),
        '{' => Some(TokenType::Opening(Bracket::Curly)),
        '}' => Some(TokenType::Closing(Bracket::Curly)),
        _ => None,
    }
}
