//! Preferred widths.
ghost use Rattle.flow_model.specs.inner.Examples.{but, kw, minus, most, no_effects, percent, plain, units};
ghost use Rattle.flow_model.specs.PreferredWidths.{inner_pair, outer_pair, outer_width, pair_of_contents};
ghost use Rattle.std.specs.Prelude.{◌≡◌, ◌∷◌, [], pos, true};
ghost use Rattle.value_model.specs.declared.keyword.Keyword.TheVariants as keywords;
ghost use Rattle.value_model.specs.declared.prop.Prop.TheVariants.{BorderLeftWidth, BorderRightWidth, BoxSizing, MarginLeft, MarginRight, MaxWidth, MinWidth, PaddingLeft, PaddingRight, Width};

/// The inner pair is that of the contents, or 0 under containment.
pub fn inner_pairs()
    ensures contents { inner_pair no_effects (pos 3, pos 5) ≡ (pos 3, pos 5) }
    ensures inline_contained { inner_pair (record no_effects { inline_contained = true }) (pos 3, pos 5)
        ≡ (pos 0, pos 0) }
    ensures size_contained { inner_pair (record no_effects { size_contained = true }) (pos 3, pos 5)
        ≡ (pos 0, pos 0) }
    ensures layout_contained { inner_pair (record no_effects { layout_contained = true; independent = true }) (pos 3, pos 5)
        ≡ (pos 3, pos 5) }
    ensures no_contents { pair_of_contents [] ≡ (pos 0, pos 0) }
    ensures greatest_of_each { pair_of_contents ((pos 3, pos 5) ∷ (pos 4, pos 4) ∷ []) ≡ (pos 4, pos 5) }
    ensures not_below_zero { pair_of_contents ((minus 3, minus 2) ∷ []) ≡ (pos 0, pos 0) }
{}

/// A width counts for both, then the limits.
pub fn outer_pairs()
    ensures contents { outer_pair plain (pos 3, pos 5) ≡ (pos 3, pos 5) }
    ensures width { outer_pair (but Width (units (pos 9)) plain) (pos 3, pos 5) ≡ (pos 9, pos 9) }
    ensures negative_width { outer_pair (but Width (units (minus 9)) plain) (pos 3, pos 5)
        ≡ (pos 0, pos 0) }
    ensures percentage_is_auto { outer_pair (but Width (percent (pos 9)) plain) (pos 3, pos 5)
        ≡ (pos 3, pos 5) }
    ensures most { outer_pair (but MaxWidth (units (pos 4)) plain) (pos 3, pos 5) ≡ (pos 3, pos 4) }
    ensures most_of_width { outer_pair (but MaxWidth (units (pos 4)) (but Width (units (pos 9)) plain)) (pos 3, pos 5)
        ≡ (pos 4, pos 4) }
    ensures percentage_is_no_most { outer_pair (but MaxWidth (percent (pos 0)) plain) (pos 3, pos 5)
        ≡ (pos 3, pos 5) }
    ensures least { outer_pair (but MinWidth (units (pos 4)) plain) (pos 3, pos 5) ≡ (pos 4, pos 5) }
    ensures least_wins { outer_pair (but MaxWidth (units (pos 4)) (but MinWidth (units (pos 6)) plain)) (pos 3, pos 5)
        ≡ (pos 6, pos 6) }
    ensures percentage_is_no_least { outer_pair (but MinWidth (percent (pos 100)) plain) (pos 3, pos 5)
        ≡ (pos 3, pos 5) }
{}

/// Margins, borders and paddings are added.
pub fn what_is_around()
    ensures edges { outer_width (but BorderLeftWidth (units (pos 1)) (but BorderRightWidth (units (pos 20))
        (but PaddingLeft (units (pos 300)) (but PaddingRight (units (pos 4000)) plain)))) (pos 50000)
        ≡ pos 54321 }
    ensures margins { outer_width (but MarginLeft (units (pos 10)) (but MarginRight (units (pos 200)) plain)) (pos 3)
        ≡ pos 213 }
    ensures negative_margins { outer_width (but MarginLeft (units (minus 10)) plain) (pos 3) ≡ minus 7 }
    ensures auto_margins { outer_width (but MarginLeft (kw keywords.Auto) plain) (pos 3) ≡ pos 3 }
    ensures percentages { outer_width (but MarginRight (percent (pos 9)) (but PaddingLeft (percent (pos 9)) plain)) (pos 3)
        ≡ pos 3 }
    ensures negative_padding { outer_width (but PaddingLeft (units (minus 9)) (but PaddingRight (units (minus 9)) plain)) (pos 3)
        ≡ pos 3 }
    ensures after_limits { outer_width (but MaxWidth (units (pos 4)) (but PaddingLeft (units (pos 10)) plain)) (pos 5)
        ≡ pos 14 }
    ensures clamped { outer_width (but PaddingLeft (units most) (but PaddingRight (units (pos 1)) plain)) (pos 5)
        ≡ most }
    ensures exact_within { outer_width (but MarginLeft (units (minus 1073741824)) (but PaddingLeft (units most) (but PaddingRight (units (pos 1)) plain))) (pos 5)
        ≡ pos 6 }
{}

/// Widths of the border box lose borders and paddings that have no percentage.
pub fn border_boxes()
    ensures width { outer_width (but BoxSizing (kw keywords.BorderBox) (but BorderLeftWidth (units (pos 1)) (but PaddingRight (units (pos 2))
        (but Width (units (pos 9)) plain)))) (pos 3)
        ≡ pos 9 }
    ensures width_is_not_below_zero { outer_width (but BoxSizing (kw keywords.BorderBox) (but BorderLeftWidth (units (pos 1)) (but PaddingRight (units (pos 9))
        (but Width (units (pos 9)) plain)))) (pos 3)
        ≡ pos 10 }
    ensures contents { outer_width (but BoxSizing (kw keywords.BorderBox) (but PaddingRight (units (pos 2)) plain)) (pos 3)
        ≡ pos 5 }
    ensures most { outer_width (but BoxSizing (kw keywords.BorderBox) (but PaddingRight (units (pos 2)) (but MaxWidth (units (pos 4)) plain))) (pos 3)
        ≡ pos 4 }
    ensures least { outer_width (but BoxSizing (kw keywords.BorderBox) (but PaddingRight (units (pos 2)) (but MinWidth (units (pos 6)) plain))) (pos 3)
        ≡ pos 6 }
    ensures percentage { outer_width (but BoxSizing (kw keywords.BorderBox) (but PaddingRight (percent (pos 2)) (but Width (units (pos 9)) plain))) (pos 3)
        ≡ pos 9 }
{}
