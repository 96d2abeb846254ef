//! Conditions, for features of any kind (Media Queries 4, section 3).
use port_core::{Boxed, Seq};

/// A condition whose features are `Q`.
#[derive(Debug, Drop)]
pub enum Condition<Q> {
    /// A feature.
    Feature(Q),
    /// What is in the grammar for the sake of later features alone: `<general-enclosed>`.
    Enclosed,
    /// `not`, and the condition after it.
    Not(Boxed<Condition<Q>>),
    /// Conditions with `and` between them, in the order written.
    All(Seq<Condition<Q>>),
    /// Conditions with `or` between them, in the order written.
    Any(Seq<Condition<Q>>),
}
