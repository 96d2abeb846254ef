//! Used widths from a style. The containing block is 1,000 wide where nothing else is said.
ghost use Rattle.flow_model.specs.inner.Examples.{block_in, but, inline_block_in, kw, minus, most, percent, plain, plain_row, units};
ghost use Rattle.flow_model.specs.Widths.{beside, edges_in_width, row_of, width_in};
ghost use Rattle.std.specs.Prelude.{◌≡◌, None, Some, pos};
ghost use Rattle.value_model.specs.declared.keyword.Keyword.TheVariants as keywords;
ghost use Rattle.value_model.specs.declared.prop.Prop.TheVariants.{BorderLeftWidth, BorderRightWidth, BoxSizing, MarginLeft, MarginRight, MaxWidth, MinWidth, PaddingLeft, PaddingRight, Width};

/// What stands beside a width; percentages refer to the width of the containing block.
pub fn what_is_beside()
    ensures nothing { beside (pos 1000) plain ≡ record {
      margin_left = Some (pos 0);
      border_left = pos 0;
      padding_left = pos 0;
      padding_right = pos 0;
      border_right = pos 0;
      margin_right = Some (pos 0);
    } }
    ensures left { beside (pos 1000) (but MarginLeft (kw keywords.Auto) (but BorderLeftWidth (units (pos 64)) (but PaddingLeft (percent (pos 5)) plain)))
        ≡ record {
          margin_left = None;
          border_left = pos 64;
          padding_left = pos 50;
          padding_right = pos 0;
          border_right = pos 0;
          margin_right = Some (pos 0);
        } }
    ensures right { beside (pos 1000) (but MarginRight (percent (minus 5)) (but BorderRightWidth (units (pos 64)) (but PaddingRight (units (pos 7)) plain)))
        ≡ record {
          margin_left = Some (pos 0);
          border_left = pos 0;
          padding_left = pos 0;
          padding_right = pos 7;
          border_right = pos 64;
          margin_right = Some (minus 50);
        } }
    ensures negative_paddings { beside (pos 1000) (but PaddingLeft (units (minus 1)) (but PaddingRight (percent (minus 1)) plain))
        ≡ beside (pos 1000) plain }
{}

/// Widths of the content box and of the border box.
pub fn widths_of_the_content_box()
    ensures auto { width_in (pos 1000) plain Width ≡ None }
    ensures none { width_in (pos 1000) plain MaxWidth ≡ None }
    ensures least { width_in (pos 1000) plain MinWidth ≡ Some (pos 0) }
    ensures length { width_in (pos 1000) (but Width (units (pos 64)) plain) Width ≡ Some (pos 64) }
    ensures percentage { width_in (pos 1000) (but MaxWidth (percent (pos 30)) plain) MaxWidth
        ≡ Some (pos 300) }
    ensures negative { width_in (pos 1000) (but Width (units (minus 64)) plain) Width ≡ Some (pos 0) }
    ensures edges { edges_in_width (pos 1000) (but BoxSizing (kw keywords.BorderBox) (but BorderLeftWidth (units (pos 1))
        (but PaddingLeft (percent (pos 5)) (but PaddingRight (units (pos 20)) (but BorderRightWidth (units (pos 4)) plain)))))
        ≡ pos 75 }
    ensures no_edges { edges_in_width (pos 1000) (but PaddingLeft (percent (pos 5)) plain) ≡ pos 0 }
    ensures border_box { width_in (pos 1000) (but BoxSizing (kw keywords.BorderBox) (but PaddingLeft (percent (pos 5)) (but Width (units (pos 80)) plain))) Width
        ≡ Some (pos 30) }
    ensures border_box_is_not_below_zero { width_in (pos 1000) (but BoxSizing (kw keywords.BorderBox) (but PaddingLeft (percent (pos 5)) (but Width (units (pos 40)) plain))) Width
        ≡ Some (pos 0) }
    ensures least_border_box { width_in (pos 1000) (but BoxSizing (kw keywords.BorderBox) (but PaddingLeft (percent (pos 5)) (but MinWidth (units (pos 80)) plain))) MinWidth
        ≡ Some (pos 30) }
    ensures greatest_border_box { width_in (pos 1000) (but BoxSizing (kw keywords.BorderBox) (but PaddingLeft (percent (pos 5)) (but MaxWidth (units (pos 80)) plain))) MaxWidth
        ≡ Some (pos 30) }
{}

/// The used values.
pub fn rows_of_styles()
    ensures auto { row_of (block_in (pos 1000)) (pos 0, pos 0) plain
        ≡ plain_row (pos 0) (pos 1000) (pos 0) }
    ensures centred { row_of (block_in (pos 19200)) (pos 0, pos 0) (but Width (units (pos 65)) (but MarginLeft (kw keywords.Auto) (but MarginRight (kw keywords.Auto) plain)))
        ≡ plain_row (pos 9567) (pos 65) (pos 9568) }
    ensures greatest { row_of (block_in (pos 1000)) (pos 0, pos 0) (but MaxWidth (percent (pos 30)) plain)
        ≡ plain_row (pos 0) (pos 300) (pos 700) }
    ensures least { row_of (block_in (pos 1000)) (pos 0, pos 0) (but MinWidth (units (pos 1200)) plain)
        ≡ plain_row (pos 0) (pos 1200) (minus 200) }
    ensures width { row_of (block_in (pos 1000)) (pos 0, pos 0) (but Width (percent (pos 60)) (but MaxWidth (units (pos 500)) (but MinWidth (units (pos 550)) plain)))
        ≡ plain_row (pos 0) (pos 550) (pos 450) }
    ensures inline_block { row_of (inline_block_in (pos 1000)) (pos 30, pos 60) plain
        ≡ plain_row (pos 0) (pos 60) (pos 0) }
    ensures block_asks_no_pair { row_of (block_in (pos 1000)) (pos 30, pos 60) plain
        ≡ plain_row (pos 0) (pos 1000) (pos 0) }
    ensures clamped_before_it_is_limited { row_of (block_in most) (pos 0, pos 0) (but MaxWidth (units most) (but MarginLeft (units (minus 64)) plain))
        ≡ plain_row (minus 64) most (pos 0) }
    ensures clamped { row_of (block_in most) (pos 0, pos 0) (but MarginLeft (units (minus 64)) plain)
        ≡ plain_row (minus 64) most (pos 0) }
{}
