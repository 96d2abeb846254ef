//! Laws of the definitions of `css_model`: each is the contract of a function that does nothing.
//!
//! Above it only `css_rules` builds on this crate, by two lemmas.
#![tactic(auto)]

pub mod components;
pub mod tokens;
