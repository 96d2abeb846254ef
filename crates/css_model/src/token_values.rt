//! What tokens tell of their values, and copies of tokens.
ghost use Rattle.css_model.specs.TokenValues.{number_of_type, is_id_type};
ghost use Rattle.std.specs.Prelude.{◌≡◌, IfOk};

use crate::token::{Number, Token, TokenType};
use port_core::{NoMemory, Text};
use std::alloc::Global;

impl TokenType {
    /// Copies the type and its value.
    pub fn copy(&self, alloc: Global) -> Result<TokenType, NoMemory>
        ensures { IfOk result (λ copy. copy ≡ self.now) }
    {
        Ok(match self {
            TokenType::Ident(name) => TokenType::Ident(name.copy(alloc)?),
            TokenType::Function(name) => TokenType::Function(name.copy(alloc)?),
            TokenType::AtKeyword(name) => TokenType::AtKeyword(name.copy(alloc)?),
            TokenType::Hash { name, is_id } => TokenType::Hash {
                name: name.copy(alloc)?,
                is_id: *is_id,
            },
            TokenType::String(value) => TokenType::String(value.copy(alloc)?),
            TokenType::BadString => TokenType::BadString,
            TokenType::Url(value) => TokenType::Url(value.copy(alloc)?),
            TokenType::BadUrl => TokenType::BadUrl,
            TokenType::Delim(c) => TokenType::Delim(*c),
            TokenType::Number(n) => TokenType::Number(*n),
            TokenType::Percentage(n) => TokenType::Percentage(*n),
            TokenType::Dimension(n, unit) => TokenType::Dimension(*n, unit.copy(alloc)?),
            TokenType::Whitespace => TokenType::Whitespace,
            TokenType::Cdo => TokenType::Cdo,
            TokenType::Cdc => TokenType::Cdc,
            TokenType::Colon => TokenType::Colon,
            TokenType::Semicolon => TokenType::Semicolon,
            TokenType::Comma => TokenType::Comma,
            TokenType::Opening(bracket) => TokenType::Opening(*bracket),
            TokenType::Closing(bracket) => TokenType::Closing(*bracket),
        })
    }
}

impl Token {
    /// Returns the number of a number, percentage or dimension: it tells its type flag and whether
    /// it has a sign.
    pub fn number(&self) -> Option<Number>
        ensures { result ≡ number_of_type self.now.token_type }
    {
        match &self.token_type {
            TokenType::Number(n) | TokenType::Percentage(n) | TokenType::Dimension(n, _) => Some(
                *n,
            ),
            _ => None,
        }
    }

    /// Whether the token is a hash that is an id.
    pub fn is_id(&self) -> bool
        ensures { result ≡ is_id_type self.now.token_type }
    {
        match &self.token_type {
            TokenType::Hash { is_id, .. } => *is_id,
            _ => false,
        }
    }

    /// Copies the token.
    pub fn copy(&self, alloc: Global) -> Result<Token, NoMemory>
        ensures { IfOk result (λ copy. copy ≡ self.now) }
    {
        Ok(Token {
            token_type: self.token_type.copy(alloc)?,
            start: self.start,
            end: self.end,
            spelling: self.spelling.copy(alloc)?,
        })
    }
}
