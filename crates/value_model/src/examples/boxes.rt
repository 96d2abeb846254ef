//! Values of properties of boxes. The font sizes are 10 and 20 pixels, and 30 for the parent.
ghost use Rattle.std.specs.Prelude.{◌≡◌, Some, codes, neg_ℤ, pos, false};
ghost use Rattle.value_model.specs.Colors.{rgba};
ghost use Rattle.value_model.specs.Calculations.{in_percent, in_pixels, in_units, leaf, sum};
ghost use Rattle.value_model.specs.Values.{alpha, color, integer, keyword, length};
ghost use Rattle.value_model.specs.declared.color.Color.TheVariants.{CurrentColor, Rgba};
ghost use Rattle.value_model.specs.declared.keyword.Keyword.TheVariants.{Auto, Block, BorderBox, Collapse, ContentBox, Dashed, Dotted, Double, FlowRoot, Groove, Hidden, Inline, InlineBlock, Inset, None as NoneKeyword, Outset, Ridge, Scroll, Solid, Visible};
ghost use Rattle.value_model.specs.declared.prop.Prop.TheVariants.{BackgroundColor, BorderBottomColor, BorderBottomStyle, BorderBottomWidth, BorderLeftColor, BorderLeftStyle, BorderLeftWidth, BorderRightColor, BorderRightStyle, BorderRightWidth, BorderTopColor, BorderTopStyle, BorderTopWidth, BoxSizing, Display, Height, MarginBottom, MarginLeft, MarginRight, MarginTop, MaxHeight, MaxWidth, MinHeight, MinWidth, Opacity, Overflow, PaddingBottom, PaddingLeft, PaddingRight, PaddingTop, PointerEvents, Visibility, Width, ZIndex};
ghost use Rattle.value_model.specs.inner.Examples.{final, is_right, units};

/// `display` (CSS Display 3, section 2).
#[tactic(auto, unfolding(css_model::specs::inner::Nesting::levels_of, css_model::specs::inner::Pieces::pieces_after, css_model::specs::inner::Fronts::parts_after))]
pub fn display()
    ensures display_block { final Display (codes "block") ≡ Some (keyword Block) }
    ensures display_inline { final Display (codes "inline") ≡ Some (keyword Inline) }
    ensures display_inline_block { final Display (codes "inline-block") ≡ Some (keyword InlineBlock) }
    ensures display_flow_root { final Display (codes "flow-root") ≡ Some (keyword FlowRoot) }
    ensures display_none { final Display (codes "none") ≡ Some (keyword NoneKeyword) }
    ensures display_block_2 { final Display (codes "BLOCK") ≡ Some (keyword Block) }
    ensures display_not_grid { is_right Display (codes "grid") ≡ false }
    ensures display_not_block_block { is_right Display (codes "block block") ≡ false }
    ensures display_not_block { is_right Display (codes "\"block\"") ≡ false }
    ensures display_not { is_right Display (codes "") ≡ false }
    ensures display_not_0 { is_right Display (codes "0") ≡ false }
{}

/// `width` and `height` (CSS 2.1, sections 10.2 and 10.5).
#[tactic(auto, unfolding(css_model::specs::inner::Nesting::levels_of, css_model::specs::inner::Pieces::pieces_after, css_model::specs::inner::Fronts::parts_after))]
pub fn sizes()
    ensures width_auto { final Width (codes "auto") ≡ Some (keyword Auto) }
    ensures width_1_5em { final Width (codes "1.5em") ≡ Some (units 960) }
    ensures width_10_percent { final Width (codes "10%") ≡ Some (length (leaf (in_percent (pos 10000000)))) }
    ensures width_0 { final Width (codes "0") ≡ Some (units 0) }
    ensures width_0_2 { final Width (codes "-0") ≡ Some (units 0) }
    ensures width_0_0000001px { final Width (codes "-0.0000001px") ≡ Some (units 0) }
    ensures width_not_minus_1px { is_right Width (codes "-1px") ≡ false }
    ensures width_not_minus_1_percent { is_right Width (codes "-1%") ≡ false }
    ensures width_not_0_000001px { is_right Width (codes "-0.000001px") ≡ false }
    ensures width_not_1 { is_right Width (codes "1") ≡ false }
    ensures width_not_none { is_right Width (codes "none") ≡ false }
    ensures width_not_1px_1px { is_right Width (codes "1px 1px") ≡ false }
    ensures width_calculated { final Width (codes "calc(1px + 1em)") ≡ Some (units 704) }
    ensures width_calculated_below_0 { final Width (codes "calc(-5px)")
        ≡ Some (length (leaf (in_units (neg_ℤ (pos 320))))) }
    ensures width_with_percentage { final Width (codes "calc(2px + 10%)")
        ≡ Some (length (sum (leaf (in_pixels (pos 2000000))) (leaf (in_percent (pos 10000000))))) }
    ensures width_not_a_number_calculated { is_right Width (codes "calc(1)") ≡ false }
    ensures height_auto { final Height (codes "auto") ≡ Some (keyword Auto) }
    ensures height_1_5em { final Height (codes "1.5em") ≡ Some (units 960) }
    ensures height_10_percent { final Height (codes "10%")
        ≡ Some (length (leaf (in_percent (pos 10000000)))) }
    ensures height_0 { final Height (codes "0") ≡ Some (units 0) }
    ensures height_0_2 { final Height (codes "-0") ≡ Some (units 0) }
    ensures height_0_0000001px { final Height (codes "-0.0000001px") ≡ Some (units 0) }
    ensures height_not_minus_1px { is_right Height (codes "-1px") ≡ false }
    ensures height_not_minus_1_percent { is_right Height (codes "-1%") ≡ false }
    ensures height_not_0_000001px { is_right Height (codes "-0.000001px") ≡ false }
    ensures height_not_1 { is_right Height (codes "1") ≡ false }
    ensures height_not_none { is_right Height (codes "none") ≡ false }
    ensures height_not_1px_1px { is_right Height (codes "1px 1px") ≡ false }
{}

/// Limits of sizes (CSS 2.1, sections 10.4 and 10.7).
#[tactic(auto, unfolding(css_model::specs::inner::Nesting::levels_of, css_model::specs::inner::Pieces::pieces_after, css_model::specs::inner::Fronts::parts_after))]
pub fn limits()
    ensures min_width_auto { final MinWidth (codes "auto") ≡ Some (units 0) }
    ensures min_width_2px { final MinWidth (codes "2px") ≡ Some (units 128) }
    ensures min_width_50_percent { final MinWidth (codes "50%")
        ≡ Some (length (leaf (in_percent (pos 50000000)))) }
    ensures min_width_not_minus_1px { is_right MinWidth (codes "-1px") ≡ false }
    ensures min_width_not_none { is_right MinWidth (codes "none") ≡ false }
    ensures min_height_auto { final MinHeight (codes "auto") ≡ Some (units 0) }
    ensures min_height_2px { final MinHeight (codes "2px") ≡ Some (units 128) }
    ensures min_height_50_percent { final MinHeight (codes "50%")
        ≡ Some (length (leaf (in_percent (pos 50000000)))) }
    ensures min_height_not_minus_1px { is_right MinHeight (codes "-1px") ≡ false }
    ensures min_height_not_none { is_right MinHeight (codes "none") ≡ false }
    ensures max_width_none { final MaxWidth (codes "none") ≡ Some (keyword NoneKeyword) }
    ensures max_width_2px { final MaxWidth (codes "2px") ≡ Some (units 128) }
    ensures max_width_50_percent { final MaxWidth (codes "50%")
        ≡ Some (length (leaf (in_percent (pos 50000000)))) }
    ensures max_width_not_minus_1px { is_right MaxWidth (codes "-1px") ≡ false }
    ensures max_width_not_auto { is_right MaxWidth (codes "auto") ≡ false }
    ensures max_height_none { final MaxHeight (codes "none") ≡ Some (keyword NoneKeyword) }
    ensures max_height_2px { final MaxHeight (codes "2px") ≡ Some (units 128) }
    ensures max_height_50_percent { final MaxHeight (codes "50%")
        ≡ Some (length (leaf (in_percent (pos 50000000)))) }
    ensures max_height_not_minus_1px { is_right MaxHeight (codes "-1px") ≡ false }
    ensures max_height_not_auto { is_right MaxHeight (codes "auto") ≡ false }
{}

/// Margins and paddings (CSS 2.1, sections 8.3 and 8.4).
#[tactic(auto, unfolding(css_model::specs::inner::Nesting::levels_of, css_model::specs::inner::Pieces::pieces_after, css_model::specs::inner::Fronts::parts_after))]
pub fn margins_and_paddings()
    ensures margin_top_auto { final MarginTop (codes "auto") ≡ Some (keyword Auto) }
    ensures margin_top_minus_1px { final MarginTop (codes "-1px")
        ≡ Some (length (leaf (in_units (neg_ℤ (pos 64))))) }
    ensures margin_top_5_percent { final MarginTop (codes "-5%")
        ≡ Some (length (leaf (in_percent (neg_ℤ (pos 5000000))))) }
    ensures margin_top_1ex { final MarginTop (codes "1ex") ≡ Some (units 320) }
    ensures margin_top_not_none { is_right MarginTop (codes "none") ≡ false }
    ensures margin_right_auto { final MarginRight (codes "auto") ≡ Some (keyword Auto) }
    ensures margin_right_minus_1px { final MarginRight (codes "-1px")
        ≡ Some (length (leaf (in_units (neg_ℤ (pos 64))))) }
    ensures margin_right_5_percent { final MarginRight (codes "-5%")
        ≡ Some (length (leaf (in_percent (neg_ℤ (pos 5000000))))) }
    ensures margin_right_1ex { final MarginRight (codes "1ex") ≡ Some (units 320) }
    ensures margin_right_not_none { is_right MarginRight (codes "none") ≡ false }
    ensures margin_bottom_auto { final MarginBottom (codes "auto") ≡ Some (keyword Auto) }
    ensures margin_bottom_minus_1px { final MarginBottom (codes "-1px")
        ≡ Some (length (leaf (in_units (neg_ℤ (pos 64))))) }
    ensures margin_bottom_5_percent { final MarginBottom (codes "-5%")
        ≡ Some (length (leaf (in_percent (neg_ℤ (pos 5000000))))) }
    ensures margin_bottom_1ex { final MarginBottom (codes "1ex") ≡ Some (units 320) }
    ensures margin_bottom_not_none { is_right MarginBottom (codes "none") ≡ false }
    ensures margin_left_auto { final MarginLeft (codes "auto") ≡ Some (keyword Auto) }
    ensures margin_left_minus_1px { final MarginLeft (codes "-1px")
        ≡ Some (length (leaf (in_units (neg_ℤ (pos 64))))) }
    ensures margin_left_5_percent { final MarginLeft (codes "-5%")
        ≡ Some (length (leaf (in_percent (neg_ℤ (pos 5000000))))) }
    ensures margin_left_1ex { final MarginLeft (codes "1ex") ≡ Some (units 320) }
    ensures margin_left_not_none { is_right MarginLeft (codes "none") ≡ false }
    ensures padding_top_3pt { final PaddingTop (codes "3pt") ≡ Some (units 256) }
    ensures padding_top_5_percent { final PaddingTop (codes "5%")
        ≡ Some (length (leaf (in_percent (pos 5000000)))) }
    ensures padding_top_not_minus_1px { is_right PaddingTop (codes "-1px") ≡ false }
    ensures padding_top_not_auto { is_right PaddingTop (codes "auto") ≡ false }
    ensures padding_right_3pt { final PaddingRight (codes "3pt") ≡ Some (units 256) }
    ensures padding_right_5_percent { final PaddingRight (codes "5%")
        ≡ Some (length (leaf (in_percent (pos 5000000)))) }
    ensures padding_right_not_minus_1px { is_right PaddingRight (codes "-1px") ≡ false }
    ensures padding_right_not_auto { is_right PaddingRight (codes "auto") ≡ false }
    ensures padding_bottom_3pt { final PaddingBottom (codes "3pt") ≡ Some (units 256) }
    ensures padding_bottom_5_percent { final PaddingBottom (codes "5%")
        ≡ Some (length (leaf (in_percent (pos 5000000)))) }
    ensures padding_bottom_not_minus_1px { is_right PaddingBottom (codes "-1px") ≡ false }
    ensures padding_bottom_not_auto { is_right PaddingBottom (codes "auto") ≡ false }
    ensures padding_left_3pt { final PaddingLeft (codes "3pt") ≡ Some (units 256) }
    ensures padding_left_5_percent { final PaddingLeft (codes "5%")
        ≡ Some (length (leaf (in_percent (pos 5000000)))) }
    ensures padding_left_not_minus_1px { is_right PaddingLeft (codes "-1px") ≡ false }
    ensures padding_left_not_auto { is_right PaddingLeft (codes "auto") ≡ false }
{}

/// Borders (CSS Backgrounds 3, section 3).
#[tactic(auto, unfolding(css_model::specs::inner::Nesting::levels_of, css_model::specs::inner::Pieces::pieces_after, css_model::specs::inner::Fronts::parts_after))]
pub fn borders()
    ensures border_top_width_thin { final BorderTopWidth (codes "thin") ≡ Some (units 64) }
    ensures border_top_width_medium { final BorderTopWidth (codes "medium") ≡ Some (units 192) }
    ensures border_top_width_thick { final BorderTopWidth (codes "thick") ≡ Some (units 320) }
    ensures border_top_width_1px { final BorderTopWidth (codes "1px") ≡ Some (units 64) }
    ensures border_top_width_0 { final BorderTopWidth (codes "0") ≡ Some (units 0) }
    ensures border_top_width_not_minus_1px { is_right BorderTopWidth (codes "-1px") ≡ false }
    ensures border_top_width_calculated { final BorderTopWidth (codes "calc(1px + 1em)") ≡ Some (units 704) }
    ensures border_top_width_calculated_below_0 { final BorderTopWidth (codes "calc(-5px)") ≡ Some (units 0) }
    ensures border_top_width_not_with_percentage { is_right BorderTopWidth (codes "calc(1px + 1%)") ≡ false }
    ensures border_top_width_not_1_percent { is_right BorderTopWidth (codes "1%") ≡ false }
    ensures border_top_width_not_auto { is_right BorderTopWidth (codes "auto") ≡ false }
    ensures border_top_style_none { final BorderTopStyle (codes "none") ≡ Some (keyword NoneKeyword) }
    ensures border_top_style_solid { final BorderTopStyle (codes "solid") ≡ Some (keyword Solid) }
    ensures border_top_style_not_wavy { is_right BorderTopStyle (codes "wavy") ≡ false }
    ensures border_top_color_red { final BorderTopColor (codes "red")
        ≡ Some (color (Rgba (rgba 255 0 0 255))) }
    ensures border_top_color_currentcolor { final BorderTopColor (codes "currentcolor")
        ≡ Some (color CurrentColor) }
    ensures border_top_color_not_none { is_right BorderTopColor (codes "none") ≡ false }
    ensures border_right_width_thin { final BorderRightWidth (codes "thin") ≡ Some (units 64) }
    ensures border_right_width_medium { final BorderRightWidth (codes "medium") ≡ Some (units 192) }
    ensures border_right_width_thick { final BorderRightWidth (codes "thick") ≡ Some (units 320) }
    ensures border_right_width_1px { final BorderRightWidth (codes "1px") ≡ Some (units 64) }
    ensures border_right_width_0 { final BorderRightWidth (codes "0") ≡ Some (units 0) }
    ensures border_right_width_not_minus_1px { is_right BorderRightWidth (codes "-1px") ≡ false }
    ensures border_right_width_calculated { final BorderRightWidth (codes "calc(1px + 1em)") ≡ Some (units 704) }
    ensures border_right_width_calculated_below_0 { final BorderRightWidth (codes "calc(-5px)") ≡ Some (units 0) }
    ensures border_right_width_not_with_percentage { is_right BorderRightWidth (codes "calc(1px + 1%)") ≡ false }
    ensures border_right_width_not_1_percent { is_right BorderRightWidth (codes "1%") ≡ false }
    ensures border_right_width_not_auto { is_right BorderRightWidth (codes "auto") ≡ false }
    ensures border_right_style_none { final BorderRightStyle (codes "none")
        ≡ Some (keyword NoneKeyword) }
    ensures border_right_style_solid { final BorderRightStyle (codes "solid") ≡ Some (keyword Solid) }
    ensures border_right_style_not_wavy { is_right BorderRightStyle (codes "wavy") ≡ false }
    ensures border_right_color_red { final BorderRightColor (codes "red")
        ≡ Some (color (Rgba (rgba 255 0 0 255))) }
    ensures border_right_color_currentcolor { final BorderRightColor (codes "currentcolor")
        ≡ Some (color CurrentColor) }
    ensures border_right_color_not_none { is_right BorderRightColor (codes "none") ≡ false }
    ensures border_bottom_width_thin { final BorderBottomWidth (codes "thin") ≡ Some (units 64) }
    ensures border_bottom_width_medium { final BorderBottomWidth (codes "medium") ≡ Some (units 192) }
    ensures border_bottom_width_thick { final BorderBottomWidth (codes "thick") ≡ Some (units 320) }
    ensures border_bottom_width_1px { final BorderBottomWidth (codes "1px") ≡ Some (units 64) }
    ensures border_bottom_width_0 { final BorderBottomWidth (codes "0") ≡ Some (units 0) }
    ensures border_bottom_width_not_minus_1px { is_right BorderBottomWidth (codes "-1px") ≡ false }
    ensures border_bottom_width_calculated { final BorderBottomWidth (codes "calc(1px + 1em)") ≡ Some (units 704) }
    ensures border_bottom_width_calculated_below_0 { final BorderBottomWidth (codes "calc(-5px)") ≡ Some (units 0) }
    ensures border_bottom_width_not_with_percentage { is_right BorderBottomWidth (codes "calc(1px + 1%)") ≡ false }
    ensures border_bottom_width_not_1_percent { is_right BorderBottomWidth (codes "1%") ≡ false }
    ensures border_bottom_width_not_auto { is_right BorderBottomWidth (codes "auto") ≡ false }
    ensures border_bottom_style_none { final BorderBottomStyle (codes "none")
        ≡ Some (keyword NoneKeyword) }
    ensures border_bottom_style_solid { final BorderBottomStyle (codes "solid")
        ≡ Some (keyword Solid) }
    ensures border_bottom_style_not_wavy { is_right BorderBottomStyle (codes "wavy") ≡ false }
    ensures border_bottom_color_red { final BorderBottomColor (codes "red")
        ≡ Some (color (Rgba (rgba 255 0 0 255))) }
    ensures border_bottom_color_currentcolor { final BorderBottomColor (codes "currentcolor")
        ≡ Some (color CurrentColor) }
    ensures border_bottom_color_not_none { is_right BorderBottomColor (codes "none") ≡ false }
    ensures border_left_width_thin { final BorderLeftWidth (codes "thin") ≡ Some (units 64) }
    ensures border_left_width_medium { final BorderLeftWidth (codes "medium") ≡ Some (units 192) }
    ensures border_left_width_thick { final BorderLeftWidth (codes "thick") ≡ Some (units 320) }
    ensures border_left_width_1px { final BorderLeftWidth (codes "1px") ≡ Some (units 64) }
    ensures border_left_width_0 { final BorderLeftWidth (codes "0") ≡ Some (units 0) }
    ensures border_left_width_not_minus_1px { is_right BorderLeftWidth (codes "-1px") ≡ false }
    ensures border_left_width_calculated { final BorderLeftWidth (codes "calc(1px + 1em)") ≡ Some (units 704) }
    ensures border_left_width_calculated_below_0 { final BorderLeftWidth (codes "calc(-5px)") ≡ Some (units 0) }
    ensures border_left_width_not_with_percentage { is_right BorderLeftWidth (codes "calc(1px + 1%)") ≡ false }
    ensures border_left_width_not_1_percent { is_right BorderLeftWidth (codes "1%") ≡ false }
    ensures border_left_width_not_auto { is_right BorderLeftWidth (codes "auto") ≡ false }
    ensures border_left_style_none { final BorderLeftStyle (codes "none")
        ≡ Some (keyword NoneKeyword) }
    ensures border_left_style_solid { final BorderLeftStyle (codes "solid") ≡ Some (keyword Solid) }
    ensures border_left_style_not_wavy { is_right BorderLeftStyle (codes "wavy") ≡ false }
    ensures border_left_color_red { final BorderLeftColor (codes "red")
        ≡ Some (color (Rgba (rgba 255 0 0 255))) }
    ensures border_left_color_currentcolor { final BorderLeftColor (codes "currentcolor")
        ≡ Some (color CurrentColor) }
    ensures border_left_color_not_none { is_right BorderLeftColor (codes "none") ≡ false }
    ensures border_top_style_hidden { final BorderTopStyle (codes "hidden") ≡ Some (keyword Hidden) }
    ensures border_top_style_dotted { final BorderTopStyle (codes "dotted") ≡ Some (keyword Dotted) }
    ensures border_top_style_dashed { final BorderTopStyle (codes "dashed") ≡ Some (keyword Dashed) }
    ensures border_top_style_double { final BorderTopStyle (codes "double") ≡ Some (keyword Double) }
    ensures border_top_style_groove { final BorderTopStyle (codes "groove") ≡ Some (keyword Groove) }
    ensures border_top_style_ridge { final BorderTopStyle (codes "ridge") ≡ Some (keyword Ridge) }
    ensures border_top_style_inset { final BorderTopStyle (codes "inset") ≡ Some (keyword Inset) }
    ensures border_top_style_outset { final BorderTopStyle (codes "outset") ≡ Some (keyword Outset) }
    ensures border_right_style_hidden { final BorderRightStyle (codes "hidden")
        ≡ Some (keyword Hidden) }
    ensures border_right_style_dotted { final BorderRightStyle (codes "dotted")
        ≡ Some (keyword Dotted) }
    ensures border_right_style_dashed { final BorderRightStyle (codes "dashed")
        ≡ Some (keyword Dashed) }
    ensures border_right_style_double { final BorderRightStyle (codes "double")
        ≡ Some (keyword Double) }
    ensures border_right_style_groove { final BorderRightStyle (codes "groove")
        ≡ Some (keyword Groove) }
    ensures border_right_style_ridge { final BorderRightStyle (codes "ridge") ≡ Some (keyword Ridge) }
    ensures border_right_style_inset { final BorderRightStyle (codes "inset") ≡ Some (keyword Inset) }
    ensures border_right_style_outset { final BorderRightStyle (codes "outset")
        ≡ Some (keyword Outset) }
    ensures border_bottom_style_hidden { final BorderBottomStyle (codes "hidden")
        ≡ Some (keyword Hidden) }
    ensures border_bottom_style_dotted { final BorderBottomStyle (codes "dotted")
        ≡ Some (keyword Dotted) }
    ensures border_bottom_style_dashed { final BorderBottomStyle (codes "dashed")
        ≡ Some (keyword Dashed) }
    ensures border_bottom_style_double { final BorderBottomStyle (codes "double")
        ≡ Some (keyword Double) }
    ensures border_bottom_style_groove { final BorderBottomStyle (codes "groove")
        ≡ Some (keyword Groove) }
    ensures border_bottom_style_ridge { final BorderBottomStyle (codes "ridge")
        ≡ Some (keyword Ridge) }
    ensures border_bottom_style_inset { final BorderBottomStyle (codes "inset")
        ≡ Some (keyword Inset) }
    ensures border_bottom_style_outset { final BorderBottomStyle (codes "outset")
        ≡ Some (keyword Outset) }
    ensures border_left_style_hidden { final BorderLeftStyle (codes "hidden") ≡ Some (keyword Hidden) }
    ensures border_left_style_dotted { final BorderLeftStyle (codes "dotted") ≡ Some (keyword Dotted) }
    ensures border_left_style_dashed { final BorderLeftStyle (codes "dashed") ≡ Some (keyword Dashed) }
    ensures border_left_style_double { final BorderLeftStyle (codes "double") ≡ Some (keyword Double) }
    ensures border_left_style_groove { final BorderLeftStyle (codes "groove") ≡ Some (keyword Groove) }
    ensures border_left_style_ridge { final BorderLeftStyle (codes "ridge") ≡ Some (keyword Ridge) }
    ensures border_left_style_inset { final BorderLeftStyle (codes "inset") ≡ Some (keyword Inset) }
    ensures border_left_style_outset { final BorderLeftStyle (codes "outset") ≡ Some (keyword Outset) }
{}

/// Other properties of boxes.
#[tactic(auto, unfolding(css_model::specs::inner::Nesting::levels_of, css_model::specs::inner::Pieces::pieces_after, css_model::specs::inner::Fronts::parts_after))]
pub fn others()
    ensures box_sizing_content_box { final BoxSizing (codes "content-box")
        ≡ Some (keyword ContentBox) }
    ensures box_sizing_border_box { final BoxSizing (codes "border-box") ≡ Some (keyword BorderBox) }
    ensures box_sizing_not_padding_box { is_right BoxSizing (codes "padding-box") ≡ false }
    ensures overflow_visible { final Overflow (codes "visible") ≡ Some (keyword Visible) }
    ensures overflow_hidden { final Overflow (codes "hidden") ≡ Some (keyword Hidden) }
    ensures overflow_scroll { final Overflow (codes "scroll") ≡ Some (keyword Scroll) }
    ensures overflow_auto { final Overflow (codes "auto") ≡ Some (keyword Auto) }
    ensures overflow_not_clip { is_right Overflow (codes "clip") ≡ false }
    ensures overflow_not_hidden_hidden { is_right Overflow (codes "hidden hidden") ≡ false }
    ensures visibility_visible { final Visibility (codes "visible") ≡ Some (keyword Visible) }
    ensures visibility_hidden { final Visibility (codes "hidden") ≡ Some (keyword Hidden) }
    ensures visibility_collapse { final Visibility (codes "collapse") ≡ Some (keyword Collapse) }
    ensures visibility_not_none { is_right Visibility (codes "none") ≡ false }
    ensures z_index_auto { final ZIndex (codes "auto") ≡ Some (keyword Auto) }
    ensures z_index_7 { final ZIndex (codes "7") ≡ Some (integer (pos 7)) }
    ensures z_index_7_2 { final ZIndex (codes "-7") ≡ Some (integer (neg_ℤ (pos 7))) }
    ensures z_index_plus_7 { final ZIndex (codes "+7") ≡ Some (integer (pos 7)) }
    ensures z_index_0 { final ZIndex (codes "0") ≡ Some (integer (pos 0)) }
    ensures z_index_2000000000 { final ZIndex (codes "2000000000") ≡ Some (integer (pos 1000000000)) }
    ensures z_index_not_1_0 { is_right ZIndex (codes "1.0") ≡ false }
    ensures z_index_not_1e1 { is_right ZIndex (codes "1e1") ≡ false }
    ensures z_index_not_1px { is_right ZIndex (codes "1px") ≡ false }
    ensures opacity_0_5 { final Opacity (codes "0.5") ≡ Some (alpha (pos 500000)) }
    ensures opacity_2 { final Opacity (codes "2") ≡ Some (alpha (pos 1000000)) }
    ensures opacity_minus_1 { final Opacity (codes "-1") ≡ Some (alpha (pos 0)) }
    ensures opacity_1 { final Opacity (codes "1") ≡ Some (alpha (pos 1000000)) }
    ensures opacity_0 { final Opacity (codes "0") ≡ Some (alpha (pos 0)) }
    ensures opacity_0_0000019 { final Opacity (codes "0.0000019") ≡ Some (alpha (pos 1)) }
    ensures opacity_not_50_percent { is_right Opacity (codes "50%") ≡ false }
    ensures opacity_not_none { is_right Opacity (codes "none") ≡ false }
    ensures pointer_events_auto { final PointerEvents (codes "auto") ≡ Some (keyword Auto) }
    ensures pointer_events_none { final PointerEvents (codes "none") ≡ Some (keyword NoneKeyword) }
    ensures pointer_events_not_all { is_right PointerEvents (codes "all") ≡ false }
    ensures background_color_transparent { final BackgroundColor (codes "transparent")
        ≡ Some (color (Rgba (rgba 0 0 0 0))) }
    ensures background_color_hash_0000 { final BackgroundColor (codes "#0000")
        ≡ Some (color (Rgba (rgba 0 0 0 0))) }
    ensures background_color_currentcolor { final BackgroundColor (codes "currentcolor")
        ≡ Some (color CurrentColor) }
    ensures background_color_not_none { is_right BackgroundColor (codes "none") ≡ false }
{}
