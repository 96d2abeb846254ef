//! Values of properties of text and fonts. The font sizes are 10 and 20 pixels, and 30 for the parent.
ghost use Rattle.std.specs.Prelude.{◌≡◌, Some, codes, pos, false};
ghost use Rattle.value_model.specs.Colors.{rgba};
ghost use Rattle.value_model.specs.Values.{color, integer, keyword, number};
ghost use Rattle.value_model.specs.declared.color.Color.TheVariants.{Rgba};
ghost use Rattle.value_model.specs.declared.keyword.Keyword.TheVariants.{Center, Italic, Left, LineThrough, None as NoneKeyword, Normal, Nowrap, Oblique, Overline, Right, Underline};
ghost use Rattle.value_model.specs.declared.prop.Prop.TheVariants.{Color, FontSize, FontStyle, FontWeight, LineHeight, TextAlign, TextDecorationLine, WhiteSpace};
ghost use Rattle.value_model.specs.inner.Examples.{final, is_right, units};

/// `font-size`: a percentage is one of the parent's font size (CSS Fonts 4, section 2.5).
#[tactic(auto, unfolding(css_model::specs::inner::Nesting::levels_of, css_model::specs::inner::Pieces::pieces_after, css_model::specs::inner::Fronts::parts_after))]
pub fn font_size()
    ensures font_size_medium { final FontSize (codes "medium") ≡ Some (units 1024) }
    ensures font_size_10px { final FontSize (codes "10px") ≡ Some (units 640) }
    ensures font_size_2em { final FontSize (codes "2em") ≡ Some (units 1280) }
    ensures font_size_1rem { final FontSize (codes "1rem") ≡ Some (units 1280) }
    ensures font_size_150_percent { final FontSize (codes "150%") ≡ Some (units 2880) }
    ensures font_size_33_333333_percent { final FontSize (codes "33.333333%") ≡ Some (units 639) }
    ensures font_size_0 { final FontSize (codes "0") ≡ Some (units 0) }
    ensures font_size_0_percent { final FontSize (codes "0%") ≡ Some (units 0) }
    ensures font_size_not_minus_1px { is_right FontSize (codes "-1px") ≡ false }
    ensures font_size_not_minus_1_percent { is_right FontSize (codes "-1%") ≡ false }
    ensures font_size_not_large { is_right FontSize (codes "large") ≡ false }
    ensures font_size_not_1 { is_right FontSize (codes "1") ≡ false }
    ensures font_size_calculated { final FontSize (codes "calc(1em + 50%)") ≡ Some (units 1600) }
    ensures font_size_calculated_below_0 { final FontSize (codes "calc(1px - 2px)") ≡ Some (units 0) }
    ensures font_size_percentage_below_0 { final FontSize (codes "calc(1px - 10%)") ≡ Some (units 0) }
{}

/// `line-height`: a percentage is one of the element's font size (CSS 2.1, section 10.8.1).
#[tactic(auto, unfolding(css_model::specs::inner::Nesting::levels_of, css_model::specs::inner::Pieces::pieces_after, css_model::specs::inner::Fronts::parts_after))]
pub fn line_height()
    ensures line_height_normal { final LineHeight (codes "normal") ≡ Some (keyword Normal) }
    ensures line_height_1_5 { final LineHeight (codes "1.5") ≡ Some (number (pos 1500000)) }
    ensures line_height_0 { final LineHeight (codes "0") ≡ Some (number (pos 0)) }
    ensures line_height_10px { final LineHeight (codes "10px") ≡ Some (units 640) }
    ensures line_height_2em { final LineHeight (codes "2em") ≡ Some (units 1280) }
    ensures line_height_150_percent { final LineHeight (codes "150%") ≡ Some (units 960) }
    ensures line_height_0px { final LineHeight (codes "0px") ≡ Some (units 0) }
    ensures line_height_not_minus_1 { is_right LineHeight (codes "-1") ≡ false }
    ensures line_height_not_minus_1px { is_right LineHeight (codes "-1px") ≡ false }
    ensures line_height_not_minus_1_percent { is_right LineHeight (codes "-1%") ≡ false }
    ensures line_height_not_none { is_right LineHeight (codes "none") ≡ false }
    ensures line_height_calculated { final LineHeight (codes "calc(1px + 100%)") ≡ Some (units 704) }
    ensures line_height_calculated_below_0 { final LineHeight (codes "calc(-5px)") ≡ Some (units 0) }
    ensures line_height_not_a_quotient_of_numbers { is_right LineHeight (codes "calc(4 / 3)") ≡ false }
{}

/// Other properties of fonts (CSS Fonts 4, sections 2.2 and 2.4).
#[tactic(auto, unfolding(css_model::specs::inner::Nesting::levels_of, css_model::specs::inner::Pieces::pieces_after, css_model::specs::inner::Fronts::parts_after))]
pub fn fonts()
    ensures font_weight_normal { final FontWeight (codes "normal") ≡ Some (integer (pos 400)) }
    ensures font_weight_bold { final FontWeight (codes "bold") ≡ Some (integer (pos 700)) }
    ensures font_weight_1 { final FontWeight (codes "1") ≡ Some (integer (pos 1)) }
    ensures font_weight_1000 { final FontWeight (codes "1000") ≡ Some (integer (pos 1000)) }
    ensures font_weight_plus_400 { final FontWeight (codes "+400") ≡ Some (integer (pos 400)) }
    ensures font_weight_not_0 { is_right FontWeight (codes "0") ≡ false }
    ensures font_weight_not_1001 { is_right FontWeight (codes "1001") ≡ false }
    ensures font_weight_not_400_0 { is_right FontWeight (codes "400.0") ≡ false }
    ensures font_weight_not_4e2 { is_right FontWeight (codes "4e2") ≡ false }
    ensures font_weight_not_400 { is_right FontWeight (codes "-400") ≡ false }
    ensures font_weight_not_bolder { is_right FontWeight (codes "bolder") ≡ false }
    ensures font_style_normal { final FontStyle (codes "normal") ≡ Some (keyword Normal) }
    ensures font_style_italic { final FontStyle (codes "italic") ≡ Some (keyword Italic) }
    ensures font_style_oblique { final FontStyle (codes "oblique") ≡ Some (keyword Oblique) }
    ensures font_style_not_bold { is_right FontStyle (codes "bold") ≡ false }
{}

/// Other properties of text.
#[tactic(auto, unfolding(css_model::specs::inner::Nesting::levels_of, css_model::specs::inner::Pieces::pieces_after, css_model::specs::inner::Fronts::parts_after))]
pub fn others()
    ensures text_align_left { final TextAlign (codes "left") ≡ Some (keyword Left) }
    ensures text_align_right { final TextAlign (codes "right") ≡ Some (keyword Right) }
    ensures text_align_center { final TextAlign (codes "center") ≡ Some (keyword Center) }
    ensures text_align_start { final TextAlign (codes "start") ≡ Some (keyword Left) }
    ensures text_align_end { final TextAlign (codes "end") ≡ Some (keyword Right) }
    ensures text_align_not_justify { is_right TextAlign (codes "justify") ≡ false }
    ensures white_space_normal { final WhiteSpace (codes "normal") ≡ Some (keyword Normal) }
    ensures white_space_nowrap { final WhiteSpace (codes "nowrap") ≡ Some (keyword Nowrap) }
    ensures white_space_not_pre { is_right WhiteSpace (codes "pre") ≡ false }
    ensures text_decoration_line_none { final TextDecorationLine (codes "none")
        ≡ Some (keyword NoneKeyword) }
    ensures text_decoration_line_underline { final TextDecorationLine (codes "underline")
        ≡ Some (keyword Underline) }
    ensures text_decoration_line_overline { final TextDecorationLine (codes "overline")
        ≡ Some (keyword Overline) }
    ensures text_decoration_line_line_through { final TextDecorationLine (codes "line-through")
        ≡ Some (keyword LineThrough) }
    ensures text_decoration_line_not_underline_overline { is_right TextDecorationLine (codes "underline overline")
        ≡ false }
    ensures text_decoration_line_not_blink { is_right TextDecorationLine (codes "blink") ≡ false }
    ensures color_red { final Color (codes "red") ≡ Some (color (Rgba (rgba 255 0 0 255))) }
    ensures color_hash_fffa { final Color (codes "#fffa")
        ≡ Some (color (Rgba (rgba 255 255 255 170))) }
    ensures color_not_auto { is_right Color (codes "auto") ≡ false }
    ensures color_not_red_red { is_right Color (codes "red red") ≡ false }
{}
