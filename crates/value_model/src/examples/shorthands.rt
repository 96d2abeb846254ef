//! Shorthands, and the declarations that each stands for.
ghost use Rattle.std.specs.Prelude.{map, ◌≡◌, None, Some, codes, neg_ℤ, pos, ◌∷◌, []};
ghost use Rattle.value_model.specs.Colors.{rgba};
ghost use Rattle.value_model.specs.Calculations.{in_units, leaf};
ghost use Rattle.value_model.specs.Properties.{properties};
ghost use Rattle.value_model.specs.Values.{color, keyword, length, names, wide_keyword};
ghost use Rattle.value_model.specs.declared.color.Color.TheVariants.{CurrentColor, Rgba};
ghost use Rattle.value_model.specs.declared.keyword.Keyword.TheVariants.{Auto, Dotted, Hidden, InlineSize, None as NoneKeyword, Normal, Size, Solid};
ghost use Rattle.value_model.specs.declared.prop.Prop.TheVariants.{BackgroundColor, BorderBottomColor, BorderBottomStyle, BorderBottomWidth, BorderLeftColor, BorderLeftStyle, BorderLeftWidth, BorderRightColor, BorderRightStyle, BorderRightWidth, BorderTopColor, BorderTopStyle, BorderTopWidth, ContainerName, ContainerType, MarginBottom, MarginLeft, MarginRight, MarginTop, PaddingBottom, PaddingLeft, PaddingRight, PaddingTop};
ghost use Rattle.value_model.specs.declared.wide_keyword.WideKeyword.TheVariants.{Inherit, Initial, Unset, Revert};
ghost use Rattle.value_model.specs.inner.Examples.{declarations, finals, units};

/// One to four values, for top, right, bottom and left (CSS 2.1, section 8.3).
#[tactic(auto, unfolding(css_model::specs::inner::Nesting::levels_of, css_model::specs::inner::Pieces::pieces_after, css_model::specs::inner::Fronts::parts_after))]
pub fn four_sides()
    ensures margin_1px { finals (codes "margin") (codes "1px")
        ≡ Some ((MarginTop, units 64) ∷ (MarginRight, units 64) ∷ (MarginBottom, units 64) ∷ (MarginLeft, units 64) ∷ []) }
    ensures margin_1px_2px { finals (codes "margin") (codes "1px 2px")
        ≡ Some ((MarginTop, units 64) ∷ (MarginRight, units 128) ∷ (MarginBottom, units 64) ∷ (MarginLeft, units 128) ∷ []) }
    ensures margin_1px_2px_3px { finals (codes "margin") (codes "1px 2px 3px")
        ≡ Some ((MarginTop, units 64) ∷ (MarginRight, units 128) ∷ (MarginBottom, units 192) ∷ (MarginLeft, units 128) ∷ []) }
    ensures margin_1px_2px_3px_4px { finals (codes "margin") (codes "1px 2px 3px 4px")
        ≡ Some ((MarginTop, units 64) ∷ (MarginRight, units 128) ∷ (MarginBottom, units 192) ∷ (MarginLeft, units 256) ∷ []) }
    ensures margin_1px_slash_slash_2px { finals (codes "margin") (codes "1px/**/2px")
        ≡ Some ((MarginTop, units 64) ∷ (MarginRight, units 128) ∷ (MarginBottom, units 64) ∷ (MarginLeft, units 128) ∷ []) }
    ensures margin_0_auto { finals (codes "Margin") (codes "0 auto")
        ≡ Some ((MarginTop, units 0) ∷ (MarginRight, keyword Auto) ∷ (MarginBottom, units 0) ∷ (MarginLeft, keyword Auto) ∷ []) }
    ensures margin_not_1px_2px_3px_4px_5px { finals (codes "margin") (codes "1px 2px 3px 4px 5px")
        ≡ None }
    ensures margin_not_1px_2px { finals (codes "margin") (codes "1px, 2px") ≡ None }
    ensures margin_not_1px_none { finals (codes "margin") (codes "1px none") ≡ None }
    ensures margin_not_1px_inherit { finals (codes "margin") (codes "1px inherit") ≡ None }
    ensures margin_not { finals (codes "margin") (codes "") ≡ None }
    ensures padding_1px_2px_3px { finals (codes "padding") (codes "1px 2px 3px")
        ≡ Some ((PaddingTop, units 64) ∷ (PaddingRight, units 128) ∷ (PaddingBottom, units 192) ∷ (PaddingLeft, units 128) ∷ []) }
    ensures padding_not_1px_2px { finals (codes "padding") (codes "1px -2px") ≡ None }
    ensures padding_not_auto { finals (codes "padding") (codes "auto") ≡ None }
    ensures border_width_thin_2px { finals (codes "border-width") (codes "thin 2px")
        ≡ Some ((BorderTopWidth, units 64) ∷ (BorderRightWidth, units 128) ∷ (BorderBottomWidth, units 64) ∷ (BorderLeftWidth, units 128) ∷ []) }
    ensures border_width_not_1px_1_percent { finals (codes "border-width") (codes "1px 1%") ≡ None }
    ensures border_style_none_solid_hidden { finals (codes "border-style") (codes "none solid hidden")
        ≡ Some ((BorderTopStyle, keyword NoneKeyword) ∷ (BorderRightStyle, keyword Solid) ∷ (BorderBottomStyle, keyword Hidden) ∷ (BorderLeftStyle, keyword Solid) ∷ []) }
    ensures border_style_not_none_1px { finals (codes "border-style") (codes "none 1px") ≡ None }
    ensures border_color_red_currentcolor { finals (codes "border-color") (codes "red currentcolor")
        ≡ Some ((BorderTopColor, color (Rgba (rgba 255 0 0 255))) ∷ (BorderRightColor, color CurrentColor) ∷ (BorderBottomColor, color (Rgba (rgba 255 0 0 255))) ∷ (BorderLeftColor, color CurrentColor) ∷ []) }
    ensures border_color_not_red_none { finals (codes "border-color") (codes "red none") ≡ None }
{}

/// One or two values, for the start and the end (CSS Logical 1, section 4).
#[tactic(auto, unfolding(css_model::specs::inner::Nesting::levels_of, css_model::specs::inner::Pieces::pieces_after, css_model::specs::inner::Fronts::parts_after))]
pub fn two_sides()
    ensures margin_inline_1px { finals (codes "margin-inline") (codes "1px")
        ≡ Some ((MarginLeft, units 64) ∷ (MarginRight, units 64) ∷ []) }
    ensures margin_inline_1px_2px { finals (codes "margin-inline") (codes "1px -2px")
        ≡ Some ((MarginLeft, units 64) ∷ (MarginRight, length (leaf (in_units (neg_ℤ (pos 128))))) ∷ []) }
    ensures margin_block_1px_2px { finals (codes "margin-block") (codes "1px 2px")
        ≡ Some ((MarginTop, units 64) ∷ (MarginBottom, units 128) ∷ []) }
    ensures padding_inline_1px_2px { finals (codes "padding-inline") (codes "1px 2px")
        ≡ Some ((PaddingLeft, units 64) ∷ (PaddingRight, units 128) ∷ []) }
    ensures padding_block_1px_2px { finals (codes "padding-block") (codes "1px 2px")
        ≡ Some ((PaddingTop, units 64) ∷ (PaddingBottom, units 128) ∷ []) }
    ensures margin_inline_not_1px_2px_3px { finals (codes "margin-inline") (codes "1px 2px 3px")
        ≡ None }
    ensures padding_block_not_minus_1px { finals (codes "padding-block") (codes "-1px") ≡ None }
    ensures padding_inline_not { finals (codes "padding-inline") (codes "") ≡ None }
{}

/// A width, a style and a colour in any order (CSS Backgrounds 3, section 3.4).
#[tactic(auto, unfolding(css_model::specs::inner::Nesting::levels_of, css_model::specs::inner::Pieces::pieces_after, css_model::specs::inner::Fronts::parts_after))]
pub fn borders()
    ensures border_1px_solid_red { finals (codes "border") (codes "1px solid red")
        ≡ Some ((BorderTopWidth, units 64) ∷ (BorderTopStyle, keyword Solid) ∷ (BorderTopColor, color (Rgba (rgba 255 0 0 255))) ∷ (BorderRightWidth, units 64) ∷ (BorderRightStyle, keyword Solid) ∷ (BorderRightColor, color (Rgba (rgba 255 0 0 255))) ∷ (BorderBottomWidth, units 64) ∷ (BorderBottomStyle, keyword Solid) ∷ (BorderBottomColor, color (Rgba (rgba 255 0 0 255))) ∷ (BorderLeftWidth, units 64) ∷ (BorderLeftStyle, keyword Solid) ∷ (BorderLeftColor, color (Rgba (rgba 255 0 0 255))) ∷ []) }
    ensures border_red_1px_solid { finals (codes "border") (codes "red 1px solid")
        ≡ Some ((BorderTopWidth, units 64) ∷ (BorderTopStyle, keyword Solid) ∷ (BorderTopColor, color (Rgba (rgba 255 0 0 255))) ∷ (BorderRightWidth, units 64) ∷ (BorderRightStyle, keyword Solid) ∷ (BorderRightColor, color (Rgba (rgba 255 0 0 255))) ∷ (BorderBottomWidth, units 64) ∷ (BorderBottomStyle, keyword Solid) ∷ (BorderBottomColor, color (Rgba (rgba 255 0 0 255))) ∷ (BorderLeftWidth, units 64) ∷ (BorderLeftStyle, keyword Solid) ∷ (BorderLeftColor, color (Rgba (rgba 255 0 0 255))) ∷ []) }
    ensures border_thin_solid { finals (codes "border") (codes "thin solid")
        ≡ Some ((BorderTopWidth, units 64) ∷ (BorderTopStyle, keyword Solid) ∷ (BorderTopColor, color CurrentColor) ∷ (BorderRightWidth, units 64) ∷ (BorderRightStyle, keyword Solid) ∷ (BorderRightColor, color CurrentColor) ∷ (BorderBottomWidth, units 64) ∷ (BorderBottomStyle, keyword Solid) ∷ (BorderBottomColor, color CurrentColor) ∷ (BorderLeftWidth, units 64) ∷ (BorderLeftStyle, keyword Solid) ∷ (BorderLeftColor, color CurrentColor) ∷ []) }
    ensures border_solid { finals (codes "border") (codes "solid")
        ≡ Some ((BorderTopWidth, units 192) ∷ (BorderTopStyle, keyword Solid) ∷ (BorderTopColor, color CurrentColor) ∷ (BorderRightWidth, units 192) ∷ (BorderRightStyle, keyword Solid) ∷ (BorderRightColor, color CurrentColor) ∷ (BorderBottomWidth, units 192) ∷ (BorderBottomStyle, keyword Solid) ∷ (BorderBottomColor, color CurrentColor) ∷ (BorderLeftWidth, units 192) ∷ (BorderLeftStyle, keyword Solid) ∷ (BorderLeftColor, color CurrentColor) ∷ []) }
    ensures border_0 { finals (codes "border") (codes "0")
        ≡ Some ((BorderTopWidth, units 0) ∷ (BorderTopStyle, keyword NoneKeyword) ∷ (BorderTopColor, color CurrentColor) ∷ (BorderRightWidth, units 0) ∷ (BorderRightStyle, keyword NoneKeyword) ∷ (BorderRightColor, color CurrentColor) ∷ (BorderBottomWidth, units 0) ∷ (BorderBottomStyle, keyword NoneKeyword) ∷ (BorderBottomColor, color CurrentColor) ∷ (BorderLeftWidth, units 0) ∷ (BorderLeftStyle, keyword NoneKeyword) ∷ (BorderLeftColor, color CurrentColor) ∷ []) }
    ensures border_none { finals (codes "border") (codes "none")
        ≡ Some ((BorderTopWidth, units 192) ∷ (BorderTopStyle, keyword NoneKeyword) ∷ (BorderTopColor, color CurrentColor) ∷ (BorderRightWidth, units 192) ∷ (BorderRightStyle, keyword NoneKeyword) ∷ (BorderRightColor, color CurrentColor) ∷ (BorderBottomWidth, units 192) ∷ (BorderBottomStyle, keyword NoneKeyword) ∷ (BorderBottomColor, color CurrentColor) ∷ (BorderLeftWidth, units 192) ∷ (BorderLeftStyle, keyword NoneKeyword) ∷ (BorderLeftColor, color CurrentColor) ∷ []) }
    ensures border_hash_f00 { finals (codes "border") (codes "#f00")
        ≡ Some ((BorderTopWidth, units 192) ∷ (BorderTopStyle, keyword NoneKeyword) ∷ (BorderTopColor, color (Rgba (rgba 255 0 0 255))) ∷ (BorderRightWidth, units 192) ∷ (BorderRightStyle, keyword NoneKeyword) ∷ (BorderRightColor, color (Rgba (rgba 255 0 0 255))) ∷ (BorderBottomWidth, units 192) ∷ (BorderBottomStyle, keyword NoneKeyword) ∷ (BorderBottomColor, color (Rgba (rgba 255 0 0 255))) ∷ (BorderLeftWidth, units 192) ∷ (BorderLeftStyle, keyword NoneKeyword) ∷ (BorderLeftColor, color (Rgba (rgba 255 0 0 255))) ∷ []) }
    ensures border_top_thick_dotted { finals (codes "border-top") (codes "thick dotted")
        ≡ Some ((BorderTopWidth, units 320) ∷ (BorderTopStyle, keyword Dotted) ∷ (BorderTopColor, color CurrentColor) ∷ []) }
    ensures border_right_1px_solid_red { finals (codes "border-right") (codes "1px solid red")
        ≡ Some ((BorderRightWidth, units 64) ∷ (BorderRightStyle, keyword Solid) ∷ (BorderRightColor, color (Rgba (rgba 255 0 0 255))) ∷ []) }
    ensures border_bottom_red { finals (codes "border-bottom") (codes "red")
        ≡ Some ((BorderBottomWidth, units 192) ∷ (BorderBottomStyle, keyword NoneKeyword) ∷ (BorderBottomColor, color (Rgba (rgba 255 0 0 255))) ∷ []) }
    ensures border_left_solid_2px { finals (codes "border-left") (codes "solid 2px")
        ≡ Some ((BorderLeftWidth, units 128) ∷ (BorderLeftStyle, keyword Solid) ∷ (BorderLeftColor, color CurrentColor) ∷ []) }
    ensures border_not_1px_2px { finals (codes "border") (codes "1px 2px") ≡ None }
    ensures border_not_solid_none { finals (codes "border") (codes "solid none") ≡ None }
    ensures border_not_red_blue { finals (codes "border") (codes "red blue") ≡ None }
    ensures border_not_1px_solid_red_1px { finals (codes "border") (codes "1px solid red 1px") ≡ None }
    ensures border_not_1px_solid_auto { finals (codes "border") (codes "1px solid auto") ≡ None }
    ensures border_not_1_percent { finals (codes "border") (codes "1%") ≡ None }
    ensures border_not_minus_1px_solid { finals (codes "border") (codes "-1px solid") ≡ None }
    ensures border_not_inherit_solid { finals (codes "border") (codes "inherit solid") ≡ None }
    ensures border_not { finals (codes "border") (codes "") ≡ None }
{}

/// `background`, and `container` (CSS Conditional 5, section 5.3).
#[tactic(auto, unfolding(css_model::specs::inner::Nesting::levels_of, css_model::specs::inner::Pieces::pieces_after, css_model::specs::inner::Fronts::parts_after))]
pub fn others()
    ensures background_red { finals (codes "background") (codes "red")
        ≡ Some ((BackgroundColor, color (Rgba (rgba 255 0 0 255))) ∷ []) }
    ensures background_none { finals (codes "background") (codes "none")
        ≡ Some ((BackgroundColor, color (Rgba (rgba 0 0 0 0))) ∷ []) }
    ensures background_none_2 { finals (codes "background") (codes "NONE")
        ≡ Some ((BackgroundColor, color (Rgba (rgba 0 0 0 0))) ∷ []) }
    ensures background_not_none_red { finals (codes "background") (codes "none red") ≡ None }
    ensures background_not_red_red { finals (codes "background") (codes "red red") ≡ None }
    ensures background_not_auto { finals (codes "background") (codes "auto") ≡ None }
    ensures background_not { finals (codes "background") (codes "") ≡ None }
    ensures container_a { finals (codes "container") (codes "a")
        ≡ Some ((ContainerName, names (codes "a" ∷ [])) ∷ (ContainerType, keyword Normal) ∷ []) }
    ensures container_a_b_slash_size { finals (codes "container") (codes "a b / size")
        ≡ Some ((ContainerName, names (codes "a" ∷ codes "b" ∷ [])) ∷ (ContainerType, keyword Size) ∷ []) }
    ensures container_none_slash_inline_size { finals (codes "container") (codes "none/inline-size")
        ≡ Some ((ContainerName, names []) ∷ (ContainerType, keyword InlineSize) ∷ []) }
    ensures container_none { finals (codes "container") (codes "none")
        ≡ Some ((ContainerName, names []) ∷ (ContainerType, keyword Normal) ∷ []) }
    ensures container_not_slash_size { finals (codes "container") (codes "/ size") ≡ None }
    ensures container_not_a_slash { finals (codes "container") (codes "a /") ≡ None }
    ensures container_not_a_slash_size_size { finals (codes "container") (codes "a / size size")
        ≡ None }
    ensures container_not_a_slash_size_slash_size { finals (codes "container") (codes "a / size / size")
        ≡ None }
    ensures container_not_a_slash_inherit { finals (codes "container") (codes "a / inherit") ≡ None }
    ensures container_not_a_inherit { finals (codes "container") (codes "a inherit") ≡ None }
    ensures container_not_a_none { finals (codes "container") (codes "a none") ≡ None }
    ensures container_not_none_a_slash_size { finals (codes "container") (codes "none a / size")
        ≡ None }
    ensures container_not { finals (codes "container") (codes "") ≡ None }
{}

/// The keywords of every shorthand (CSS Cascade 4, section 7.3).
#[tactic(auto, unfolding(css_model::specs::inner::Nesting::levels_of, css_model::specs::inner::Pieces::pieces_after, css_model::specs::inner::Fronts::parts_after))]
pub fn wide_keywords()
    ensures margin_inherit { declarations (codes "margin") (codes "inherit")
        ≡ Some ((MarginTop, wide_keyword Inherit) ∷ (MarginRight, wide_keyword Inherit) ∷ (MarginBottom, wide_keyword Inherit) ∷ (MarginLeft, wide_keyword Inherit) ∷ []) }
    ensures container_revert { declarations (codes "container") (codes "revert")
        ≡ Some ((ContainerName, wide_keyword Revert) ∷ (ContainerType, wide_keyword Revert) ∷ []) }
    ensures background_unset { declarations (codes "background") (codes "unset")
        ≡ Some ((BackgroundColor, wide_keyword Unset) ∷ []) }
    ensures border_left_initial { declarations (codes "border-left") (codes "initial")
        ≡ Some ((BorderLeftWidth, wide_keyword Initial) ∷ (BorderLeftStyle, wide_keyword Initial) ∷ (BorderLeftColor, wide_keyword Initial) ∷ []) }
    ensures padding_block_initial { declarations (codes "padding-block") (codes "INITIAL")
        ≡ Some ((PaddingTop, wide_keyword Initial) ∷ (PaddingBottom, wide_keyword Initial) ∷ []) }
    ensures border_unset { declarations (codes "border") (codes "unset")
        ≡ Some ((BorderTopWidth, wide_keyword Unset) ∷ (BorderTopStyle, wide_keyword Unset) ∷ (BorderTopColor, wide_keyword Unset) ∷ (BorderRightWidth, wide_keyword Unset) ∷ (BorderRightStyle, wide_keyword Unset) ∷ (BorderRightColor, wide_keyword Unset) ∷ (BorderBottomWidth, wide_keyword Unset) ∷ (BorderBottomStyle, wide_keyword Unset) ∷ (BorderBottomColor, wide_keyword Unset) ∷ (BorderLeftWidth, wide_keyword Unset) ∷ (BorderLeftStyle, wide_keyword Unset) ∷ (BorderLeftColor, wide_keyword Unset) ∷ []) }
    ensures border_width_inherit { declarations (codes "border-width") (codes "inherit")
        ≡ Some ((BorderTopWidth, wide_keyword Inherit) ∷ (BorderRightWidth, wide_keyword Inherit) ∷ (BorderBottomWidth, wide_keyword Inherit) ∷ (BorderLeftWidth, wide_keyword Inherit) ∷ []) }
    ensures border_style_inherit { declarations (codes "border-style") (codes "inherit")
        ≡ Some ((BorderTopStyle, wide_keyword Inherit) ∷ (BorderRightStyle, wide_keyword Inherit) ∷ (BorderBottomStyle, wide_keyword Inherit) ∷ (BorderLeftStyle, wide_keyword Inherit) ∷ []) }
    ensures border_color_inherit { declarations (codes "border-color") (codes "inherit")
        ≡ Some ((BorderTopColor, wide_keyword Inherit) ∷ (BorderRightColor, wide_keyword Inherit) ∷ (BorderBottomColor, wide_keyword Inherit) ∷ (BorderLeftColor, wide_keyword Inherit) ∷ []) }
    ensures padding_revert { declarations (codes "padding") (codes "revert")
        ≡ Some ((PaddingTop, wide_keyword Revert) ∷ (PaddingRight, wide_keyword Revert) ∷ (PaddingBottom, wide_keyword Revert) ∷ (PaddingLeft, wide_keyword Revert) ∷ []) }
    ensures margin_inline_unset { declarations (codes "margin-inline") (codes "unset")
        ≡ Some ((MarginLeft, wide_keyword Unset) ∷ (MarginRight, wide_keyword Unset) ∷ []) }
    ensures all_revert { declarations (codes "all") (codes "revert")
        ≡ Some (map (λ p. (p, wide_keyword Revert)) properties) }
    ensures margin_not_inherit_inherit { finals (codes "margin") (codes "inherit inherit") ≡ None }
    ensures all_not_red { finals (codes "all") (codes "red") ≡ None }
    ensures all_not_0 { finals (codes "all") (codes "0") ≡ None }
    ensures all_not { finals (codes "all") (codes "") ≡ None }
{}

/// Names of no shorthand.
#[tactic(auto, unfolding(css_model::specs::inner::Nesting::levels_of, css_model::specs::inner::Pieces::pieces_after, css_model::specs::inner::Fronts::parts_after))]
pub fn names()
    ensures font { declarations (codes "font") (codes "1px") ≡ None }
    ensures outline { declarations (codes "outline") (codes "1px") ≡ None }
    ensures border_block { declarations (codes "border-block") (codes "1px") ≡ None }
    ensures border_radius { declarations (codes "border-radius") (codes "1px") ≡ None }
    ensures width { declarations (codes "width") (codes "1px") ≡ None }
    ensures a { declarations (codes "--a") (codes "1px") ≡ None }
    ensures nothing { declarations (codes "") (codes "1px") ≡ None }
{}
