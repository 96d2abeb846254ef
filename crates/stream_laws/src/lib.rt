//! Laws of streams: each is the contract of a function that does nothing. Nothing builds on this crate.
#![tactic(auto)]

pub mod ledger;
pub mod lines;
pub mod lists;
pub mod streams;
