//! Sizes and places of boxes: preferred widths, widths, heights, collapsing margins, offsets and
//! baselines.
//!
//! Definitions stand in `specs/`, beside CSS 2.1; the types that they share with code in `src/`.
#![tactic(auto)]

mod box_kind;
mod containing;
mod effects;
pub mod examples;
mod flow_item;
mod margins;
mod row;
mod used;

pub use box_kind::BoxKind;
pub use containing::Containing;
pub use effects::Effects;
pub use flow_item::FlowItem;
pub use margins::Margins;
pub use row::{Beside, Row};
pub use used::Used;
