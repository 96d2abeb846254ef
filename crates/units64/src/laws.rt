//! Laws of limits and conversions.
ghost use Rattle.std.specs.Prelude.{◌≡◌, ℤ, pos, neg_ℤ, ◌+ℤ◌, ◌≤ℤ◌, ◌<ℤ◌};
ghost use Rattle.units64.specs.Conversions.{units_of, millionths_of};
ghost use Rattle.units64.specs.Limits.{FitsUnits, FitsFixed6, clamped_units, clamped_millionths};

/// Clamping changes nothing that fits.
pub fn limits_keep_what_fits()
    ensures units { (n : ℤ) → FitsUnits n → clamped_units n ≡ n }
    ensures millionths { (n : ℤ) → FitsFixed6 n → clamped_millionths n ≡ n }
{}

/// Clamping twice is clamping once.
pub fn limits_are_idempotent()
    ensures units { (n : ℤ) → clamped_units (clamped_units n) ≡ clamped_units n }
    ensures millionths { (n : ℤ) → clamped_millionths (clamped_millionths n) ≡ clamped_millionths n }
{}

/// Clamping keeps the order of numbers.
pub fn limits_keep_order()
    ensures units { (m n : ℤ) → m ≤ℤ n → clamped_units m ≤ℤ clamped_units n }
    ensures millionths { (m n : ℤ) → m ≤ℤ n → clamped_millionths m ≤ℤ clamped_millionths n }
{}

/// The millionths of a number of units give it back.
pub fn units_come_back()
    ensures { (n : ℤ) → units_of (millionths_of n) ≡ n }
{}

/// Pixels are truncated to units towards zero: one unit more would be too many, and a negative
/// number is truncated like a positive one.
pub fn pixels_are_truncated_towards_zero()
    ensures not_too_many { (n : ℤ) → pos 0 ≤ℤ n → millionths_of (units_of n) ≤ℤ n }
    ensures not_too_few { (n : ℤ) → pos 0 ≤ℤ n → n <ℤ millionths_of (units_of n +ℤ pos 1) }
    ensures signs { (n : ℤ) → units_of (neg_ℤ n) ≡ neg_ℤ (units_of n) }
{}
