//! Requests as they are read from a line.
use dom_arena::Tree;
use page_model::Cause;
use port_core::{Seq, Text};
use request_model::Query;

/// A request that may change what is loaded.
#[derive(Debug, Drop)]
pub enum Edit {
    /// Replaces all that is loaded.
    Load {
        /// The viewport's width, in pixels.
        width: u64,
        /// The viewport's height, in pixels.
        height: u64,
        /// The document, an element.
        doc: Tree,
        /// The texts of the style sheets, if the request has any.
        sheets: Option<Seq<Text>>,
    },
    /// Inserts a tree among the children of an element.
    Insert {
        /// The id of the element.
        parent: u64,
        /// The number of its children that stand before the tree.
        index: u64,
        /// The tree.
        tree: Tree,
    },
    /// Removes a node with all below it.
    Remove {
        /// The id of the node.
        id: u64,
    },
    /// Puts a style sheet in place of another or behind all, or takes one out.
    Sheet {
        /// The number of sheets before it.
        at: u64,
        /// The text of the sheet; without one the sheet is taken out.
        css: Option<Text>,
    },
}

/// A request in the grammar.
#[derive(Debug, Drop)]
pub enum Request {
    /// A request that may change what is loaded.
    Edit(Edit),
    /// A request that changes nothing.
    Query(Query),
}

/// What a line asks for.
#[derive(Debug, Drop)]
pub enum Asked {
    /// Nothing: the line is blank.
    Nothing,
    /// The line is not a request, and is refused whatever is loaded.
    Broken(Cause),
    /// A request.
    Request(Request),
}
