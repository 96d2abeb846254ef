//! Which limit a style sheet is above.

/// Which limit a style sheet is above, in the order in which they are asked.
#[derive(Clone, Copy, Debug, PartialEq, Eq)]
pub enum SheetLimit {
    /// It has more than 1,048,576 bytes.
    TooLarge,
    /// Its brackets nest deeper than 64.
    TooDeep,
    /// It has more than 2,000 style rules.
    TooManyRules,
}
