//! Laws of assignments: each is the contract of a function that does nothing.
#![tactic(auto)]

pub mod assignments;
pub mod page_assignments;
pub mod shown_pages;
