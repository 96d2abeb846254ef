//! Custom properties: references by `var()`, names on a cycle, substitution, and the environment of an
//! element.
//!
//! Definitions stand in `specs/`, beside CSS Custom Properties 1; the limit that they share with code in
//! `src/`.
#![tactic(auto)]

pub mod examples;
mod limits;

pub use limits::MAX_SUBSTITUTED_TOKENS;
