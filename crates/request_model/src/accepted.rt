//! What an accepted edit gives.

/// What an accepted edit gives: the ids of its new nodes.
#[derive(Clone, Copy, Debug, PartialEq, Eq)]
pub struct Accepted {
    /// The first new id, or 0 where the edit brings no tree.
    pub first: u32,
    /// The number of new nodes, or 0 where the edit brings no tree.
    pub count: u32,
}
