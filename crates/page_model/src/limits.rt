//! How large what is loaded may be.

/// The most pixels of a viewport's side.
pub const MAX_SIDE: u64 = 10_000;

/// The most live nodes of a document.
pub const MAX_NODES: u32 = 20_000;

/// The level of a document's deepest node, where the root stands at level 1.
pub const MAX_DEPTH: u32 = 96;

/// The most ids that are given from one load to the next.
pub const MAX_IDS: u32 = 100_000;

/// The most code points of a name of an element or attribute.
pub const MAX_NAME: u32 = 64;

/// The most attributes of an element.
pub const MAX_ATTRIBUTES: u32 = 64;

/// The most code points of a text or of the value of an attribute.
pub const MAX_TEXT: u32 = 65_536;

/// The most code points of all texts and values of attributes of a document together.
pub const MAX_TEXTS: u32 = 16_777_216;
