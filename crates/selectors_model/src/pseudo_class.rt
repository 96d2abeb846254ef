//! Pseudo-classes without arguments, and what `:nth-child()` and its like count (Selectors 4,
//! section 14).

/// A pseudo-class without arguments.
#[derive(Clone, Copy, Debug, PartialEq, Eq)]
pub enum PseudoClass {
    /// `:root`.
    Root,
    /// `:first-child`.
    FirstChild,
    /// `:last-child`.
    LastChild,
    /// `:only-child`.
    OnlyChild,
    /// `:first-of-type`.
    FirstOfType,
    /// `:last-of-type`.
    LastOfType,
    /// `:only-of-type`.
    OnlyOfType,
    /// One that is known and matches no element here, such as `:hover` or `:link`.
    Unmatched,
}

/// A functional pseudo-class that counts siblings.
#[derive(Clone, Copy, Debug, PartialEq, Eq)]
pub enum Nth {
    /// `:nth-child()`.
    Child,
    /// `:nth-last-child()`.
    LastChild,
    /// `:nth-of-type()`.
    OfType,
    /// `:nth-last-of-type()`.
    LastOfType,
}
