//! Laws of conditions and media queries: each is the contract of a function that does nothing.
#![tactic(auto)]

pub mod features;
pub mod grammar;
pub mod known;
pub mod trees;
pub mod tri;
