//! Laws of sizes and places of boxes: each is the contract of a function that does nothing.
#![tactic(auto)]

pub mod collapsing;
pub mod margins;
pub mod offsets;
pub mod rows;
pub mod running;
