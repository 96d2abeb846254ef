//! Laws of the definitions of `rules_model`: each is the contract of a function that does nothing.
//!
//! Nothing builds on this crate.
#![tactic(auto)]

pub mod conditions;
pub mod declarations;
pub mod parts;
pub mod rules;
pub mod sheets;
