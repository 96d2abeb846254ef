//! Laws of documents and their edits, in the words of the DOM standard: each is the contract of a
//! function that does nothing. `dom_arena` stands on the lemmas behind them.
#![tactic(auto)]

pub mod attributes;
pub mod documents;
pub mod insert;
pub mod level;
pub mod limits;
pub mod move_to;
pub mod remove;
pub mod texts;
