//! The requests that change nothing.

use port_core::Text;

/// A request that changes nothing: it reads what is loaded.
#[derive(Debug, Drop)]
pub enum Query {
    /// A dump: the box of each element.
    Dump,
    /// The style rules of all sheets.
    Rules,
    /// The elements that a selector list matches (Selectors 4, section 4.1): its text.
    Match(Text),
    /// The style of the element with this id (CSS Cascade 4, section 4.4).
    Style(u64),
}
