//! What tells the types of tokens from one another (CSS Syntax 3, section 4).
ghost use Rattle.custom_props.specs.inner.TokenParts as parts;
ghost use Rattle.std.specs.Option.{option_copied};
ghost use Rattle.std.specs.Prelude.{◌≡◌, ◌↔◌, IsTrue};

use css_model::{Bracket, Number};
use css_tokens::TokenType;
use port_core::Text;

/// The type of a token without its text and its number.
#[derive(Clone, Copy, PartialEq, Eq)]
pub(crate) enum TokenKind {
    /// An identifier.
    Ident,
    /// A name and `(`.
    Function,
    /// `@` and a name.
    AtKeyword,
    /// `#` and a name, and whether the name is an identifier.
    Hash(bool),
    /// A string in quotes.
    String,
    /// A string that a newline ends.
    BadString,
    /// A url without quotes.
    Url,
    /// The remnants of a bad url.
    BadUrl,
    /// Any other code point.
    Delim(char),
    /// A number.
    Number,
    /// A number and `%`.
    Percentage,
    /// A number and a unit.
    Dimension,
    /// White space.
    Whitespace,
    /// `<!--`.
    Cdo,
    /// `-->`.
    Cdc,
    /// `:`.
    Colon,
    /// `;`.
    Semicolon,
    /// `,`.
    Comma,
    /// A bracket that opens.
    Opening(Bracket),
    /// A bracket that closes.
    Closing(Bracket),
}

/// Whether both are the same type with the same value.
pub(crate) fn is_same_type(a: &TokenType, b: &TokenType) -> bool
    ensures { IsTrue result ↔ (a.now ≡ b.now) }
{
    have_same_kind(a, b) && have_same_value(a, b)
}

fn have_same_kind(a: &TokenType, b: &TokenType) -> bool
    ensures { IsTrue result ↔ (parts.kind_of a.now ≡ parts.kind_of b.now) }
{
    kind_of(a) == kind_of(b)
}

fn have_same_value(a: &TokenType, b: &TokenType) -> bool
    ensures { IsTrue result ↔ ((parts.text_of a.now ≡ parts.text_of b.now)
        × (parts.number_of a.now ≡ parts.number_of b.now)) }
{
    have_same_text(a, b) && is_same_number(number_of(a), number_of(b))
}

fn have_same_text(a: &TokenType, b: &TokenType) -> bool
    ensures { IsTrue result ↔ (parts.text_of a.now ≡ parts.text_of b.now) }
{
    is_same_text(text_of(a), text_of(b))
}

fn kind_of(token_type: &TokenType) -> TokenKind
    ensures { result ≡ parts.kind_of token_type.now }
{
    match token_type {
        TokenType::Ident(_) => TokenKind::Ident,
        TokenType::Function(_) => TokenKind::Function,
        TokenType::AtKeyword(_) => TokenKind::AtKeyword,
        TokenType::Hash { is_id, .. } => TokenKind::Hash(*is_id),
        TokenType::String(_) => TokenKind::String,
        TokenType::BadString => TokenKind::BadString,
        TokenType::Url(_) => TokenKind::Url,
        TokenType::BadUrl => TokenKind::BadUrl,
        TokenType::Delim(c) => TokenKind::Delim(*c),
        TokenType::Number(_) => TokenKind::Number,
        TokenType::Percentage(_) => TokenKind::Percentage,
        TokenType::Dimension(_, _) => TokenKind::Dimension,
        TokenType::Whitespace => TokenKind::Whitespace,
        TokenType::Cdo => TokenKind::Cdo,
        TokenType::Cdc => TokenKind::Cdc,
        TokenType::Colon => TokenKind::Colon,
        TokenType::Semicolon => TokenKind::Semicolon,
        TokenType::Comma => TokenKind::Comma,
        TokenType::Opening(bracket) => TokenKind::Opening(*bracket),
        TokenType::Closing(bracket) => TokenKind::Closing(*bracket),
    }
}

/// The text of a token type, if it has one.
fn text_of(token_type: &TokenType) -> Option<&Text>
    ensures { option_copied result ≡ parts.text_of token_type.now }
{
    match token_type {
        TokenType::Ident(text)
        | TokenType::Function(text)
        | TokenType::AtKeyword(text)
        | TokenType::Hash { name: text, .. }
        | TokenType::String(text)
        | TokenType::Url(text)
        | TokenType::Dimension(_, text) => Some(text),
        _ => None,
    }
}

/// The number of a token type, if it has one.
fn number_of(token_type: &TokenType) -> Option<Number>
    ensures { result ≡ parts.number_of token_type.now }
{
    match token_type {
        TokenType::Number(number)
        | TokenType::Percentage(number)
        | TokenType::Dimension(number, _) => Some(*number),
        _ => None,
    }
}

fn is_same_text(a: Option<&Text>, b: Option<&Text>) -> bool
    ensures { IsTrue result ↔ (option_copied a.entry ≡ option_copied b.entry) }
{
    match (a, b) {
        (Some(a), Some(b)) => a.same(b),
        (None, None) => true,
        _ => false,
    }
}

fn is_same_number(a: Option<Number>, b: Option<Number>) -> bool
    ensures { IsTrue result ↔ (a ≡ b) }
{
    match (a, b) {
        (Some(a), Some(b)) => a == b,
        (None, None) => true,
        _ => false,
    }
}
