//! The styles of the elements of a page, computed anew; and which of them are not built yet.
#![tactic(auto)]

mod bases;
mod chains;
mod paths;
mod unbuilt;

pub use chains::style_of_element;
pub use unbuilt::{any_unbuilt_rule, is_unbuilt_attribute};
