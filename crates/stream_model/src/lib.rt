//! The outside of the program: streams of bytes, the lines in them, and the ledger of counted work.
//! Definitions, in `specs/`, with the types and limits that code and definitions share.
#![tactic(auto)]

mod examples;
mod kind;
mod limits;

pub use examples::{
    examples_of_blank_lines, examples_of_bytes, examples_of_counted_work, examples_of_counts,
    examples_of_distinct_pairs, examples_of_events, examples_of_lines, examples_of_telling,
    examples_of_whole_lines, lengths_of_lines,
};
pub use kind::Kind;
pub use limits::{MAX_LINE, MAX_TAKEN};
