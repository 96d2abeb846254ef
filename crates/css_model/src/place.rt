//! Places where escapes are read (CSS Syntax 3, sections 4.3.5, 4.3.6, 4.3.11 and 4.3.14).

/// A place where code points stand for themselves or are escaped.
#[derive(Clone, Copy, Debug, PartialEq, Eq)]
pub enum Place {
    /// In a name.
    InName,
    /// In a string that began with this quote.
    InString(char),
    /// In a url without quotes.
    InUrl,
    /// In the remnants of a bad url.
    InBadUrl,
}
