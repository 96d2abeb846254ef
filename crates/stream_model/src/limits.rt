//! The limits on what is read.

/// The most bytes that a line may have, its newline not counted. A longer line is too long.
pub const MAX_LINE: usize = 4_194_304;

/// The most bytes that a line reader takes of its source, in its whole life.
pub const MAX_TAKEN: u64 = 4_294_967_296;
