//! What a text of CSS is: its code points after preprocessing, its list of tokens, and its component
//! values.
//!
//! Definitions stand in `specs/`, beside CSS Syntax 3 (sections 3.3, 4.2, 4.3, 5.4.7 to 5.4.9) page by
//! page; the types that they share with code in `src/`.
#![tactic(auto)]

pub mod examples;
mod place;
mod token;
mod token_values;

pub use place::Place;
pub use token::{Bracket, MAX_NESTING, Number, Token, TokenType, Tokens};
