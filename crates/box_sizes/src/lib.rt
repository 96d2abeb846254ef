//! Containment, widths and heights of boxes (CSS 2.1, chapter 10; CSS Containment 2).
//!
//! `effects` says what kind of box an element has, `measure_box` how narrow and how wide its contents
//! make it, `size_box` gives its used values in a containing block, and `height_of` its height once
//! that of its contents is known. No call takes memory, and none can fail.
#![tactic(auto)]

mod heights;
mod kinds;
mod lengths;
mod measured;
mod measuring;
mod preferred_widths;
mod rows;
mod sized_box;
mod sizing;
mod sums;
mod widths;

pub use flow_model::{BoxKind, Containing, Effects, Used};
pub use heights::height_of;
pub use kinds::effects;
pub use measured::Measured;
pub use measuring::measure_box;
pub use sized_box::SizedBox;
pub use sizing::size_box;
