//! Classes of code points (CSS Syntax 3, section 4.2).
ghost use Rattle.std.specs.Prelude.{◌≡◌};
ghost use Rattle.css_model.specs.Classes as model;
ghost use Rattle.css_tokens.specs.inner.Classes.{test_of};

/// A class of code points.
#[derive(Clone, Copy, Debug, PartialEq, Eq)]
pub enum Class {
    /// A digit: 0 to 9.
    Digit,
    /// A hex digit: a digit, A to F or a to f.
    HexDigit,
    /// Whitespace: a newline, a tab or a space.
    Whitespace,
    /// `+` or `-`.
    Sign,
    /// `-`.
    Hyphen,
    /// `e` or `E`, before an exponent.
    Mark,
    /// `"` or `'`.
    Quote,
    /// `(`.
    OpenRound,
    /// `)`.
    CloseRound,
}

impl Class {
    /// Whether `c` is of this class.
    pub fn has(self, c: char) -> bool
        ensures { result ≡ test_of self c }
    {
        match self {
            Class::Digit => c.is_ascii_digit(),
            Class::HexDigit => c.is_ascii_hexdigit(),
            Class::Whitespace => is_whitespace(c),
            Class::Sign => is_sign(c),
            Class::Hyphen => c == '-',
            Class::Mark => is_e(c),
            Class::Quote => is_quote(c),
            Class::OpenRound => c == '(',
            Class::CloseRound => c == ')',
        }
    }
}

/// An ident-start code point: a letter, what is not ASCII, or `_`.
pub fn is_ident_start(c: char) -> bool
    ensures { result ≡ model.is_ident_start c }
{
    c.is_ascii_alphabetic() || '\u{80}' <= c || c == '_'
}

/// An ident code point: an ident-start code point, a digit or `-`.
pub fn is_ident_char(c: char) -> bool
    ensures { result ≡ model.is_ident_char c }
{
    is_ident_start(c) || c.is_ascii_digit() || c == '-'
}

/// A non-printable code point.
pub fn is_non_printable(c: char) -> bool
    ensures { result ≡ model.is_non_printable c }
{
    c <= '\u{8}' || c == '\u{b}' || ('\u{e}' <= c && c <= '\u{1f}') || c == '\u{7f}'
}

/// Whitespace: a newline, a tab or a space.
pub fn is_whitespace(c: char) -> bool
    ensures { result ≡ model.is_whitespace c }
{
    c == '\n' || c == '\t' || c == ' '
}

/// A double or single quote.
pub fn is_quote(c: char) -> bool
    ensures { result ≡ model.is_quote c }
{
    c == '"' || c == '\''
}

/// `+` or `-`.
pub fn is_sign(c: char) -> bool
    ensures { result ≡ model.is_sign c }
{
    c == '+' || c == '-'
}

/// `e` or `E`, before an exponent.
pub fn is_e(c: char) -> bool
    ensures { result ≡ model.is_e c }
{
    c == 'E' || c == 'e'
}
