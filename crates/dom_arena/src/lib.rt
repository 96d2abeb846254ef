//! The document: a tree of elements and texts in linked slots (DOM section 1.1, 4.2.3).
#![tactic(auto)]

mod attrs;
mod build;
mod children;
mod contents;
mod copies;
mod counts;
mod doc;
mod elements;
mod fault;
mod heights;
mod insert;
mod levels;
mod limits;
mod link;
mod links;
mod move_to;
mod names;
mod places;
mod reading;
mod release;
mod remove;
mod sizes;
mod slot;
mod spots;
mod store;
mod tree;

pub use attrs::{Attribute, Attrs};
pub use children::Children;
pub use doc::Doc;
pub use fault::DocFault;
pub use tree::Tree;
