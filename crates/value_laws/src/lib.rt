//! Laws of values: each is the contract of a function that does nothing.
//!
//! Above it only `cascade_laws` and the code of the cascade build on this crate.
#![tactic(auto)]

pub mod computing;
pub mod examples;
pub mod properties;
pub mod shorthands;
