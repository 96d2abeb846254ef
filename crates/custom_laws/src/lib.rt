//! Laws of the definitions of `custom_model`: each is the contract of a function that does nothing.
//!
//! Only `custom_props`, the code of the same subject, builds on this crate, for its lemmas.
#![tactic(auto)]

pub mod cycles;
pub mod environments;
pub mod references;
pub mod substitution;
