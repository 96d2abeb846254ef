//! Lengths and percentages, literal or calculated by `calc()`, `min()`, `max()` and `clamp()`: read from
//! component values, and valued where the lengths that they refer to are known (CSS Values 4, sections 5,
//! 6 and 10; CSS Conditional 5, section 7).
#![tactic(auto)]

mod absolute;
mod bases;
mod calc_value;
mod calls;
mod computed;
mod copies;
mod functions;
mod item;
mod length;
mod literals;
mod numbers;
mod reading;
mod sums;

pub use computed::Computed;
pub use length::Length;
pub use page_model::Viewport;
pub use reading::{any_length_of, calculation_of, length_from_zero_of, read_length};
pub use value_model::{Bases, UnitSet};
pub use value_parts::Literal;
