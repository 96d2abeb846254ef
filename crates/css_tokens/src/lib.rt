//! What is read of a text of CSS: its tokens, and their component values.
#![tactic(auto)]

mod classes;
mod comments;
mod component;
mod decimals;
mod escapes;
mod fault;
mod first_piece;
mod magnitudes;
mod names;
mod nesting;
mod numbers;
mod numerals;
mod parts;
mod piece;
mod preprocessing;
mod runs;
mod strings;
mod tokenizer;
mod urls;
mod words;

pub use component::{Component, Components};
pub use css_model::{Bracket, Number, Token, TokenType, Tokens};
pub use fault::TokenFault;
pub use nesting::components;
pub use tokenizer::tokenize;
pub use words::{begins_with, begins_with_word, is_word};
