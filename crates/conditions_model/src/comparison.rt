//! Comparisons of a feature with a value (Media Queries 4, section 2.4.3).

/// How a feature stands to a value.
#[derive(Clone, Copy, Debug, PartialEq, Eq)]
pub enum Comparison {
    /// `<`.
    LessThan,
    /// `<=`, and the prefix `max-`.
    AtMost,
    /// `=`, and `:`.
    EqualTo,
    /// `>=`, and the prefix `min-`.
    AtLeast,
    /// `>`.
    MoreThan,
}
