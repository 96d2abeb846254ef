//! Tokens (CSS Syntax 3, section 4).
use port_core::{Seq, Text};
use units64::Fixed6;

/// How deep simple blocks and functions may nest.
pub const MAX_NESTING: usize = 64;

/// The kinds of brackets.
#[derive(Clone, Copy, Debug, PartialEq, Eq)]
pub enum Bracket {
    /// `(` and `)`.
    Round,
    /// `[` and `]`.
    Square,
    /// `{` and `}`.
    Curly,
}

/// The value of a number in millionths, and how it was written (CSS Syntax 3, section 4.3.12).
#[derive(Clone, Copy, Debug, PartialEq, Eq)]
pub struct Number {
    /// The value in millionths, truncated towards zero and clamped.
    pub millionths: Fixed6,
    /// Whether it was written without a point and an exponent: its type flag is then "integer", and
    /// else "number".
    pub is_integer: bool,
    /// Whether it was written with a sign.
    pub is_signed: bool,
}

/// The type of a token, with its value (CSS Syntax 3, section 4).
///
/// Names, strings and urls have their escapes replaced, and stand without quotes, `(`, `@` and `#`.
#[derive(Debug, Drop)]
pub enum TokenType {
    /// `<ident-token>`: an identifier.
    Ident(Text),
    /// `<function-token>`: a name and `(`.
    Function(Text),
    /// `<at-keyword-token>`: `@` and a name.
    AtKeyword(Text),
    /// `<hash-token>`: `#` and a name.
    Hash {
        /// The name.
        name: Text,
        /// Whether the name is an identifier: the type flag is then "id", and else "unrestricted".
        is_id: bool,
    },
    /// `<string-token>`: a string in quotes.
    String(Text),
    /// `<bad-string-token>`: a string that a newline ends.
    BadString,
    /// `<url-token>`: `url(`, a url without quotes, and `)`.
    Url(Text),
    /// `<bad-url-token>`: the remnants of a bad url.
    BadUrl,
    /// `<delim-token>`: any other code point.
    Delim(char),
    /// `<number-token>`: a number.
    Number(Number),
    /// `<percentage-token>`: a number and `%`.
    Percentage(Number),
    /// `<dimension-token>`: a number and a unit, which is an identifier.
    Dimension(Number, Text),
    /// `<whitespace-token>`: a run of whitespace.
    Whitespace,
    /// `<CDO-token>`: `<!--`.
    Cdo,
    /// `<CDC-token>`: `-->`.
    Cdc,
    /// `<colon-token>`: `:`.
    Colon,
    /// `<semicolon-token>`: `;`.
    Semicolon,
    /// `<comma-token>`: `,`.
    Comma,
    /// `<(-token>`, `<[-token>` or `<{-token>`: a bracket that opens.
    Opening(Bracket),
    /// `<)-token>`, `<]-token>` or `<}-token>`: a bracket that closes.
    Closing(Bracket),
}

/// A token: its type, its place in the preprocessed text in code points, and its spelling there.
#[derive(Debug, Drop)]
pub struct Token {
    /// Its type and value.
    pub token_type: TokenType,
    /// How many code points of the text are before it.
    pub start: usize,
    /// How many code points of the text are before what follows it.
    pub end: usize,
    /// Its code points.
    pub spelling: Text,
}

/// A list of tokens, in their order.
pub type Tokens = Seq<Token>;
