//! Trees of elements and texts, read from JSON values.
//! JsonML in its array form (<http://www.jsonml.org/syntax/>) writes a text as a string, and an element as an array: its name, then its attributes in an object if there is one, then its children.
//! Where JsonML lets an attribute's value also be a number, a truth value or null, here it is a string.
#![tactic(auto)]

mod attributes;
mod fault;
mod trees;

pub use fault::TreeFault;
pub use trees::read_tree;
