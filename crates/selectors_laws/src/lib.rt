//! Laws of the definitions of `selectors_model`: each is the contract of a function that does
//! nothing.
//!
//! Nothing builds on this crate.
#![tactic(auto)]

pub mod an_plus_b;
pub mod combinators;
pub mod grammar;
pub mod matching;
pub mod specificity;
