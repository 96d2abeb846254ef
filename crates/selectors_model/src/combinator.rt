//! Combinators (Selectors 4, section 15).

/// What stands between two compound selectors (Selectors 4, section 15).
#[derive(Clone, Copy, Debug, PartialEq, Eq)]
pub enum Combinator {
    /// White space: the left element is an ancestor.
    Descendant,
    /// `>`: the left element is the parent.
    Child,
    /// `+`: the left element is the sibling right before.
    NextSibling,
    /// `~`: the left element is a sibling before.
    SubsequentSibling,
}
