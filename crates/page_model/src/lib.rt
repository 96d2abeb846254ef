//! What a page is: the document as a tree of nodes with ids, the JSON that stands for it, its
//! edits and why they are refused, the style sheets and the viewport.
//! Definitions are in `specs/`; the types and constants here are shared by them and the code.
#![tactic(auto)]

mod cause;
mod examples;
mod examples_of_documents;
mod examples_of_edits;
mod limits;
mod refusal;
mod viewport;

pub use cause::Cause;
pub use examples::{examples_of_causes, examples_of_jsonml};
pub use examples_of_documents::{
    examples_of_attributes, examples_of_limits, examples_of_names, examples_of_readers,
};
pub use examples_of_edits::{
    examples_of_edit_causes, examples_of_tree_causes, examples_of_trees_after_edits,
};
pub use limits::{
    MAX_ATTRIBUTES, MAX_DEPTH, MAX_IDS, MAX_NAME, MAX_NODES, MAX_SIDE, MAX_TEXT, MAX_TEXTS,
};
pub use refusal::Refusal;
pub use viewport::Viewport;
