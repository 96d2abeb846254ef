//! The cascade: which declarations apply to an element, which of them wins, and the style that an
//! element has.
//!
//! Definitions stand in `specs/`, beside CSS Cascade 4; the types that they share with code in `src/`.
#![tactic(auto)]

pub mod examples;
mod origin;
mod user_agent;

pub use origin::Origin;
pub use user_agent::USER_AGENT_SHEET;
