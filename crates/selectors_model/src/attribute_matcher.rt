//! How the value of an attribute is compared (Selectors 4, sections 6.1 and 6.2).

/// How the value of an attribute is compared (Selectors 4, sections 6.1 and 6.2).
#[derive(Clone, Copy, Debug, PartialEq, Eq)]
pub enum AttributeMatcher {
    /// `=`: it is the value.
    Equals,
    /// `~=`: one of its words is the value.
    Includes,
    /// `|=`: it is the value, or begins with the value and `-`.
    DashMatch,
    /// `^=`: it begins with the value.
    Prefix,
    /// `$=`: it ends with the value.
    Suffix,
    /// `*=`: it has the value in it.
    Substring,
}
