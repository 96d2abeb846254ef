//! Limits and ratios.

/// The greatest length, in units; the least one is its negative.
pub const MAX_UNITS: i64 = 1_073_741_824;

/// The greatest number, in millionths; the least one is its negative.
pub const MAX_MILLIONTHS: i128 = 1_000_000_000_000_000;

/// The units of a pixel.
pub const UNITS_PER_PIXEL: i64 = 64;

/// The millionths of a pixel.
pub const MILLIONTHS_PER_PIXEL: i64 = 1_000_000;

/// The millionths of a pixel that are one unit.
pub const MILLIONTHS_PER_UNIT: i64 = 15_625;
