//! What the elements of a page are given, and where their boxes stand: what a consistent assignment of
//! styles and boxes to a page is. Definitions are in `specs/`.
#![tactic(auto)]

pub mod entry_examples;
mod examples;
pub mod page_examples;

pub use examples::{examples_of_assignments, examples_of_blocks, examples_of_settings};
