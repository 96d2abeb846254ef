//! Used values and heights. The containing block is 1,000 wide and, where it has a height, 500 high.
ghost use Rattle.flow_model.specs.Heights.{border_box_height, border_box_width, definite_height, height_in, height_of, used_height, used_values};
ghost use Rattle.flow_model.specs.inner.Examples.{block_in, block_in_both, but, flat, kw, minus, no_effects, percent, plain, units};
ghost use Rattle.std.specs.Prelude.{◌≡◌, None, Some, false, pos, true};
ghost use Rattle.value_model.specs.declared.keyword.Keyword.TheVariants as keywords;
ghost use Rattle.value_model.specs.declared.prop.Prop.TheVariants.{BorderBottomWidth, BorderLeftWidth, BorderTopWidth, BoxSizing, Height, MarginBottom, MarginTop, MaxHeight, MinHeight, Overflow, PaddingBottom, PaddingTop};

/// Percentages refer to the height of the containing block where that is definite.
pub fn used_heights()
    ensures length { used_height None (units (pos 64)) ≡ Some (pos 64) }
    ensures auto { used_height (Some (pos 500)) (kw keywords.Auto) ≡ None }
    ensures percentage { used_height (Some (pos 500)) (percent (pos 30)) ≡ Some (pos 150) }
    ensures of_nothing { used_height None (percent (pos 30)) ≡ None }
    ensures of_zero { used_height (Some (pos 0)) (percent (pos 30)) ≡ Some (pos 0) }
{}

/// `height`, `max-height` and `min-height` of the content box.
pub fn heights_of_the_content_box()
    ensures auto { height_in (block_in_both (pos 1000) (pos 500)) plain Height ≡ None }
    ensures none { height_in (block_in_both (pos 1000) (pos 500)) plain MaxHeight ≡ None }
    ensures least { height_in (block_in (pos 1000)) plain MinHeight ≡ Some (pos 0) }
    ensures negative { height_in (block_in (pos 1000)) (but Height (units (minus 5)) plain) Height
        ≡ Some (pos 0) }
    ensures content_box { height_in (block_in (pos 1000)) (but PaddingTop (percent (pos 5)) (but Height (units (pos 80)) plain)) Height
        ≡ Some (pos 80) }
    ensures border_box { height_in (block_in (pos 1000)) (but BoxSizing (kw keywords.BorderBox) (but BorderTopWidth (units (pos 1)) (but PaddingTop (percent (pos 1))
        (but PaddingBottom (units (pos 20)) (but BorderBottomWidth (units (pos 4)) (but Height (units (pos 80)) plain)))))) Height
        ≡ Some (pos 45) }
    ensures not_below_zero { height_in (block_in (pos 1000)) (but BoxSizing (kw keywords.BorderBox) (but PaddingTop (percent (pos 5)) (but MinHeight (units (pos 40)) plain))) MinHeight
        ≡ Some (pos 0) }
    ensures percentage_of_border_box { height_in (block_in_both (pos 1000) (pos 500)) (but BoxSizing (kw keywords.BorderBox) (but PaddingTop (percent (pos 5)) (but MaxHeight (percent (pos 20)) plain))) MaxHeight
        ≡ Some (pos 50) }
{}

/// The used values above and below.
pub fn vertical_values()
    ensures plain { used_values (block_in (pos 1000)) no_effects (pos 0, pos 0) plain
        ≡ record flat { w = pos 1000 } }
    ensures above { used_values (block_in (pos 1000)) no_effects (pos 0, pos 0) (but MarginTop (percent (minus 5)) (but BorderTopWidth (units (pos 2)) (but PaddingTop (percent (pos 3)) plain)))
        ≡ record flat { w = pos 1000; mt = minus 50; bt = pos 2; pt = pos 30 } }
    ensures below { used_values (block_in_both (pos 1000) (pos 500)) no_effects (pos 0, pos 0) (but MarginBottom (percent (pos 5)) (but BorderBottomWidth (units (pos 2)) (but PaddingBottom (percent (pos 3)) plain)))
        ≡ record flat { w = pos 1000; mb = pos 50; bb = pos 2; pb = pos 30 } }
    ensures auto_margins { used_values (block_in (pos 1000)) no_effects (pos 0, pos 0) (but MarginTop (kw keywords.Auto) (but MarginBottom (kw keywords.Auto) plain))
        ≡ record flat { w = pos 1000 } }
    ensures negative_paddings { used_values (block_in (pos 1000)) no_effects (pos 0, pos 0) (but PaddingTop (units (minus 5)) (but PaddingBottom (percent (minus 5)) plain))
        ≡ record flat { w = pos 1000 } }
    ensures heights { used_values (block_in_both (pos 1000) (pos 500)) no_effects (pos 0, pos 0) (but Height (percent (pos 10)) (but MaxHeight (percent (pos 20)) (but MinHeight (percent (pos 30)) plain)))
        ≡ record flat { w = pos 1000; h = Some (pos 50); max_h = Some (pos 100); min_h = pos 150 } }
    ensures heights_of_nothing { used_values (block_in (pos 1000)) no_effects (pos 0, pos 0) (but Height (percent (pos 10)) (but MaxHeight (percent (pos 20)) (but MinHeight (percent (pos 30)) plain)))
        ≡ record flat { w = pos 1000 } }
    ensures facts { used_values (block_in (pos 1000)) (record no_effects { independent = true; size_contained = true; layout_contained = true }) (pos 0, pos 0) (but Overflow (kw keywords.Scroll) plain)
        ≡ record flat { w = pos 1000; independent = true; size_contained = true; layout_contained = true; overflow_visible = false } }
    ensures layout_contained { used_values (block_in (pos 1000)) (record no_effects { layout_contained = true }) (pos 0, pos 0) plain
        ≡ record flat { w = pos 1000; layout_contained = true } }
    ensures independent { used_values (block_in (pos 1000)) (record no_effects { independent = true }) (pos 0, pos 0) (but BorderLeftWidth (units (pos 7)) plain)
        ≡ record flat { w = pos 993; bl = pos 7; independent = true } }
{}

/// The height of a box whose contents are 40 high: `max-height`, then `min-height`.
pub fn limited_heights()
    ensures auto { height_of flat (pos 40) ≡ pos 40 }
    ensures height { height_of (record flat { h = Some (pos 7) }) (pos 40) ≡ pos 7 }
    ensures size_contained { height_of (record flat { size_contained = true }) (pos 40) ≡ pos 0 }
    ensures size_contained_height { height_of (record flat { size_contained = true; h = Some (pos 7) }) (pos 40)
        ≡ pos 7 }
    ensures least_of_size_contained { height_of (record flat { size_contained = true; min_h = pos 9 }) (pos 40)
        ≡ pos 9 }
    ensures most { height_of (record flat { max_h = Some (pos 39) }) (pos 40) ≡ pos 39 }
    ensures most_is_more { height_of (record flat { max_h = Some (pos 41) }) (pos 40) ≡ pos 40 }
    ensures least { height_of (record flat { min_h = pos 41 }) (pos 40) ≡ pos 41 }
    ensures least_wins { height_of (record flat { max_h = Some (pos 20); min_h = pos 30 }) (pos 40) ≡ pos 30 }
    ensures limits_of_height { height_of (record flat { h = Some (pos 90); max_h = Some (pos 80) }) (pos 40) ≡ pos 80 }
    ensures definite { definite_height (record flat { h = Some (pos 90); max_h = Some (pos 80) }) ≡ Some (pos 80) }
    ensures not_definite { definite_height (record flat { max_h = Some (pos 80); size_contained = true }) ≡ None }
{}

/// The border box.
pub fn border_boxes()
    ensures height { border_box_height (record flat { mt = pos 9; bt = pos 1; pt = pos 20; pb = pos 300; bb = pos 4000; mb = pos 9 }) (pos 50000)
        ≡ pos 54321 }
    ensures width { border_box_width (record flat { ml = pos 9; bl = pos 1; pl = pos 20; w = pos 300; pr = pos 4000; br = pos 50000; mr = pos 9 })
        ≡ pos 54321 }
{}
