//! Three values (Media Queries 4, section 3.1).

/// The value of a condition, in Kleene's logic of three values.
#[derive(Clone, Copy, Debug, PartialEq, Eq)]
pub enum Tri {
    /// True.
    Yes,
    /// False.
    No,
    /// Neither is known.
    Unknown,
}
