//! Collapsing margins, offsets and baselines (CSS 2.1, sections 8.3.1, 9.4.1, 10.6.3 and 10.8.1).
//!
//! `place_box` says where the items of a box stand, how high they are together, and which margins the
//! box hands up. `join` and `value` are what sets of adjoining margins need.
#![tactic(auto)]

mod contents;
mod ends;
mod items;
mod margins;
mod openings;
mod placed;
mod placing;

pub use flow_model::{FlowItem, Margins, Used};
pub use margins::{join, value};
pub use placed::Placed;
pub use placing::{FlowItems, place_box};
