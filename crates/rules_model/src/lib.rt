//! What CSS Syntax finds in a style sheet and in a `style` attribute: rules and declarations.
//!
//! Definitions stand in `specs/`, beside CSS Syntax 3 (sections 5.4.1 to 5.4.6); the types and limits
//! that they share with code in `src/`.
#![tactic(auto)]

mod conditional_rule;
pub mod examples;
mod limits;
mod sheet_limit;

pub use conditional_rule::ConditionalRule;
pub use limits::{MAX_SHEET_BYTES, MAX_SHEETS, MAX_STYLE_RULES};
pub use sheet_limit::SheetLimit;
