//! Laws of the cascade: each is the contract of a function that does nothing.
//!
//! Above it only the code of the cascade builds on this crate.
#![tactic(auto)]

pub mod styles;
pub mod winners;
