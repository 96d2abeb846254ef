//! The numbers of the engine: lengths in units of 1/64 pixel, and numbers in millionths.
//!
//! Each result is computed exactly, in integers without limits, and then clamped to what its type
//! holds: `Units` to plus or minus 2^30, `Fixed6` to plus or minus 10^15 millionths. Each quotient
//! is truncated towards zero. A pixel is 64 units, so a unit is 15,625 millionths of a pixel, and
//! comparisons lose nothing. No call takes memory, and none can fail.
#![tactic(auto)]

mod arithmetic;
mod comparisons;
mod constants;
mod fixed6;
mod laws;
mod units;

pub use arithmetic::{add, mul_ratio, sub, to_units};
pub use comparisons::{cmp_length, cmp_ratio};
pub use constants::{
    MAX_MILLIONTHS, MAX_UNITS, MILLIONTHS_PER_PIXEL, MILLIONTHS_PER_UNIT, UNITS_PER_PIXEL,
};
pub use fixed6::Fixed6;
pub use laws::{
    limits_are_idempotent, limits_keep_order, limits_keep_what_fits,
    pixels_are_truncated_towards_zero, units_come_back,
};
pub use units::Units;
