//! The texts of replies: fields, quoted strings, and the styles of elements.
#![tactic(auto)]

mod custom_values;
mod customs;
mod fields;
mod lengths;
mod quotes;
mod styles;
mod values;
mod words;

pub use fields::{push_field, push_text};
pub use quotes::{push_in_quotes, push_quoted};
pub use styles::push_style;
