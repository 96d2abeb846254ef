//! Lengths of boxes.
ghost use Rattle.flow_model.specs.inner.Examples.{kw, minus, most, percent, units};
ghost use Rattle.flow_model.specs.UsedLengths.{content_size, fixed, has_percentage, is_border_box, or_zero, used};
ghost use Rattle.std.specs.Prelude.{◌≡◌, None, Some, false, pos, true};
ghost use Rattle.value_model.specs.declared.keyword.Keyword.TheVariants as keywords;
ghost use Rattle.value_model.specs.Calculations.{in_percent, in_units, leaf};
ghost use Rattle.value_model.specs.Values.{integer};

/// A percentage refers to its base, and is truncated towards zero; a keyword is no length.
pub fn used_lengths()
    ensures length { used (pos 1000) (units (minus 3)) ≡ Some (minus 3) }
    ensures percentage { used (pos 1000) (percent (pos 50)) ≡ Some (pos 500) }
    ensures percentage_truncated { used (pos 101) (percent (pos 50)) ≡ Some (pos 50) }
    ensures negative_percentage { used (pos 101) (percent (minus 50)) ≡ Some (minus 50) }
    ensures percentage_clamped { used most (percent (pos 300)) ≡ Some most }
    ensures keyword { used (pos 1000) (kw keywords.Auto) ≡ None }
    ensures number { used (pos 1000) (integer (pos 5)) ≡ None }
{}

/// A length without a percentage is one by itself.
pub fn fixed_lengths()
    ensures length { fixed (units (minus 3)) ≡ Some (minus 3) }
    ensures percentage { fixed (percent (pos 50)) ≡ None }
    ensures no_percent { fixed (percent (pos 0)) ≡ None }
    ensures keyword { fixed (kw keywords.Auto) ≡ None }
    ensures has { has_percentage (leaf (in_percent (pos 0))) ≡ true }
    ensures has_not { has_percentage (leaf (in_units (pos 0))) ≡ false }
    ensures or_zero { or_zero (Some (minus 3)) ≡ minus 3 }
    ensures zero { or_zero None ≡ pos 0 }
{}

/// A size of the border box loses borders and paddings, and is never below 0.
pub fn content_sizes()
    ensures loses { content_size (pos 30) (pos 100) ≡ pos 70 }
    ensures not_below_zero { content_size (pos 30) (pos 29) ≡ pos 0 }
    ensures just_zero { content_size (pos 30) (pos 30) ≡ pos 0 }
    ensures negative { content_size (pos 0) (minus 5) ≡ pos 0 }
    ensures negative_before_it_loses { content_size (minus 30) (minus 5) ≡ pos 30 }
    ensures clamped { content_size (minus 1) most ≡ most }
    ensures border_box { is_border_box (kw keywords.BorderBox) ≡ true }
    ensures content_box { is_border_box (kw keywords.ContentBox) ≡ false }
{}
