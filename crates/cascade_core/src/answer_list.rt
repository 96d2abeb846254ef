//! Answers to the conditions of rules (CSS Conditional 3, section 2).
use conditions_model::Tri;
use port_core::Seq;

/// For each rule that matched, in their order, the answer to its conditions.
pub type Answers = Seq<Tri>;
