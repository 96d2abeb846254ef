//! Selectors: how they are written, which elements match, and how specific they are.
//!
//! Definitions stand in `specs/`, beside Selectors Level 4 and CSS Syntax 3 (section 6); the types and
//! limits that they share with code in `src/`.
#![tactic(auto)]

mod an_plus_b;
mod attribute_matcher;
mod combinator;
pub mod examples;
mod pseudo_class;
mod spec;

pub use an_plus_b::{AnPlusB, MAX_AN_PLUS_B};
pub use attribute_matcher::AttributeMatcher;
pub use combinator::Combinator;
pub use pseudo_class::{Nth, PseudoClass};
pub use spec::{MAX_COUNT, Spec};
