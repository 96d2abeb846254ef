//! Laws of replies: each is the contract of a function that does nothing. Nothing builds on this crate.
#![tactic(auto)]

pub mod courses;
pub mod edits;
pub mod scripts;
pub mod turns;
pub mod value_texts;
