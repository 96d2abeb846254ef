//! The table of properties.
ghost use Rattle.std.specs.Prelude.{length, map, ◌≡◌, None, Some, codes, pos, ◌∷◌, []};
ghost use Rattle.value_model.specs.Colors.{rgba};
ghost use Rattle.value_model.specs.Forms.{nothing_contained};
ghost use Rattle.value_model.specs.Values.{alpha, color, containment, integer, keyword, names};
ghost use Rattle.value_model.specs.declared.color.Color.TheVariants.{CurrentColor, Rgba};
ghost use Rattle.value_model.specs.declared.keyword.Keyword.TheVariants.{Auto, ContentBox, Inline, Left, None as NoneKeyword, Normal, Visible};
ghost use Rattle.value_model.specs.declared.prop.Prop.TheVariants.{BackgroundColor, BorderBottomColor, BorderBottomStyle, BorderBottomWidth, BorderLeftColor, BorderLeftStyle, BorderLeftWidth, BorderRightColor, BorderRightStyle, BorderRightWidth, BorderTopColor, BorderTopStyle, BorderTopWidth, BoxSizing, Color, Contain, ContainerName, ContainerType, Display, FontSize, FontStyle, FontWeight, Height, LineHeight, MarginBottom, MarginLeft, MarginRight, MarginTop, MaxHeight, MaxWidth, MinHeight, MinWidth, Opacity, Overflow, PaddingBottom, PaddingLeft, PaddingRight, PaddingTop, PointerEvents, TextAlign, TextDecorationLine, Visibility, WhiteSpace, Width, ZIndex};
ghost use Rattle.value_model.specs.Grammar.{property_of_name};
ghost use Rattle.value_model.specs.Properties.{prop_place, properties, property};
ghost use Rattle.value_model.specs.inner.Examples.{inherited_properties, initial_value, units};

/// The names of properties, in any case.
pub fn names()
    ensures display { property_of_name (codes "display") ≡ Some Display }
    ensures width { property_of_name (codes "width") ≡ Some Width }
    ensures height { property_of_name (codes "height") ≡ Some Height }
    ensures min_width { property_of_name (codes "min-width") ≡ Some MinWidth }
    ensures min_height { property_of_name (codes "min-height") ≡ Some MinHeight }
    ensures max_width { property_of_name (codes "max-width") ≡ Some MaxWidth }
    ensures max_height { property_of_name (codes "max-height") ≡ Some MaxHeight }
    ensures margin_top { property_of_name (codes "margin-top") ≡ Some MarginTop }
    ensures margin_right { property_of_name (codes "margin-right") ≡ Some MarginRight }
    ensures margin_bottom { property_of_name (codes "margin-bottom") ≡ Some MarginBottom }
    ensures margin_left { property_of_name (codes "margin-left") ≡ Some MarginLeft }
    ensures padding_top { property_of_name (codes "padding-top") ≡ Some PaddingTop }
    ensures padding_right { property_of_name (codes "padding-right") ≡ Some PaddingRight }
    ensures padding_bottom { property_of_name (codes "padding-bottom") ≡ Some PaddingBottom }
    ensures padding_left { property_of_name (codes "padding-left") ≡ Some PaddingLeft }
    ensures border_top_width { property_of_name (codes "border-top-width") ≡ Some BorderTopWidth }
    ensures border_right_width { property_of_name (codes "border-right-width")
        ≡ Some BorderRightWidth }
    ensures border_bottom_width { property_of_name (codes "border-bottom-width")
        ≡ Some BorderBottomWidth }
    ensures border_left_width { property_of_name (codes "border-left-width") ≡ Some BorderLeftWidth }
    ensures border_top_style { property_of_name (codes "border-top-style") ≡ Some BorderTopStyle }
    ensures border_right_style { property_of_name (codes "border-right-style")
        ≡ Some BorderRightStyle }
    ensures border_bottom_style { property_of_name (codes "border-bottom-style")
        ≡ Some BorderBottomStyle }
    ensures border_left_style { property_of_name (codes "border-left-style") ≡ Some BorderLeftStyle }
    ensures border_top_color { property_of_name (codes "border-top-color") ≡ Some BorderTopColor }
    ensures border_right_color { property_of_name (codes "border-right-color")
        ≡ Some BorderRightColor }
    ensures border_bottom_color { property_of_name (codes "border-bottom-color")
        ≡ Some BorderBottomColor }
    ensures border_left_color { property_of_name (codes "border-left-color") ≡ Some BorderLeftColor }
    ensures box_sizing { property_of_name (codes "box-sizing") ≡ Some BoxSizing }
    ensures font_size { property_of_name (codes "font-size") ≡ Some FontSize }
    ensures line_height { property_of_name (codes "line-height") ≡ Some LineHeight }
    ensures color { property_of_name (codes "color") ≡ Some Color }
    ensures background_color { property_of_name (codes "background-color") ≡ Some BackgroundColor }
    ensures text_align { property_of_name (codes "text-align") ≡ Some TextAlign }
    ensures white_space { property_of_name (codes "white-space") ≡ Some WhiteSpace }
    ensures overflow { property_of_name (codes "overflow") ≡ Some Overflow }
    ensures contain { property_of_name (codes "contain") ≡ Some Contain }
    ensures container_type { property_of_name (codes "container-type") ≡ Some ContainerType }
    ensures container_name { property_of_name (codes "container-name") ≡ Some ContainerName }
    ensures visibility { property_of_name (codes "visibility") ≡ Some Visibility }
    ensures opacity { property_of_name (codes "opacity") ≡ Some Opacity }
    ensures font_style { property_of_name (codes "font-style") ≡ Some FontStyle }
    ensures font_weight { property_of_name (codes "font-weight") ≡ Some FontWeight }
    ensures z_index { property_of_name (codes "z-index") ≡ Some ZIndex }
    ensures text_decoration_line { property_of_name (codes "text-decoration-line")
        ≡ Some TextDecorationLine }
    ensures pointer_events { property_of_name (codes "pointer-events") ≡ Some PointerEvents }
    ensures in_capitals { property_of_name (codes "Z-INDEX") ≡ Some ZIndex }
{}

/// Other names of one property (CSS Logical 1, section 4).
pub fn logical_names()
    ensures inline_size { property_of_name (codes "inline-size") ≡ Some Width }
    ensures block_size { property_of_name (codes "block-size") ≡ Some Height }
    ensures min_inline_size { property_of_name (codes "min-inline-size") ≡ Some MinWidth }
    ensures min_block_size { property_of_name (codes "min-block-size") ≡ Some MinHeight }
    ensures max_inline_size { property_of_name (codes "max-inline-size") ≡ Some MaxWidth }
    ensures max_block_size { property_of_name (codes "max-block-size") ≡ Some MaxHeight }
    ensures margin_inline_start { property_of_name (codes "margin-inline-start") ≡ Some MarginLeft }
    ensures margin_inline_end { property_of_name (codes "margin-inline-end") ≡ Some MarginRight }
    ensures margin_block_start { property_of_name (codes "margin-block-start") ≡ Some MarginTop }
    ensures margin_block_end { property_of_name (codes "margin-block-end") ≡ Some MarginBottom }
    ensures padding_inline_start { property_of_name (codes "padding-inline-start") ≡ Some PaddingLeft }
    ensures padding_inline_end { property_of_name (codes "padding-inline-end") ≡ Some PaddingRight }
    ensures padding_block_start { property_of_name (codes "padding-block-start") ≡ Some PaddingTop }
    ensures padding_block_end { property_of_name (codes "padding-block-end") ≡ Some PaddingBottom }
    ensures no_margin { property_of_name (codes "margin") ≡ None }
    ensures no_border { property_of_name (codes "border") ≡ None }
    ensures no_font_family { property_of_name (codes "font-family") ≡ None }
    ensures no_top { property_of_name (codes "top") ≡ None }
    ensures no_width { property_of_name (codes "--width") ≡ None }
    ensures no_border_top { property_of_name (codes "border-top") ≡ None }
    ensures no { property_of_name (codes "") ≡ None }
{}

/// Initial values; the width of a border is that of medium.
pub fn initial_values()
    ensures display { initial_value Display ≡ keyword Inline }
    ensures width { initial_value Width ≡ keyword Auto }
    ensures height { initial_value Height ≡ keyword Auto }
    ensures min_width { initial_value MinWidth ≡ units 0 }
    ensures min_height { initial_value MinHeight ≡ units 0 }
    ensures max_width { initial_value MaxWidth ≡ keyword NoneKeyword }
    ensures max_height { initial_value MaxHeight ≡ keyword NoneKeyword }
    ensures margin_top { initial_value MarginTop ≡ units 0 }
    ensures margin_right { initial_value MarginRight ≡ units 0 }
    ensures margin_bottom { initial_value MarginBottom ≡ units 0 }
    ensures margin_left { initial_value MarginLeft ≡ units 0 }
    ensures padding_top { initial_value PaddingTop ≡ units 0 }
    ensures padding_right { initial_value PaddingRight ≡ units 0 }
    ensures padding_bottom { initial_value PaddingBottom ≡ units 0 }
    ensures padding_left { initial_value PaddingLeft ≡ units 0 }
    ensures border_top_width { initial_value BorderTopWidth ≡ units 192 }
    ensures border_right_width { initial_value BorderRightWidth ≡ units 192 }
    ensures border_bottom_width { initial_value BorderBottomWidth ≡ units 192 }
    ensures border_left_width { initial_value BorderLeftWidth ≡ units 192 }
    ensures border_top_style { initial_value BorderTopStyle ≡ keyword NoneKeyword }
    ensures border_right_style { initial_value BorderRightStyle ≡ keyword NoneKeyword }
    ensures border_bottom_style { initial_value BorderBottomStyle ≡ keyword NoneKeyword }
    ensures border_left_style { initial_value BorderLeftStyle ≡ keyword NoneKeyword }
    ensures border_top_color { initial_value BorderTopColor ≡ color CurrentColor }
    ensures border_right_color { initial_value BorderRightColor ≡ color CurrentColor }
    ensures border_bottom_color { initial_value BorderBottomColor ≡ color CurrentColor }
    ensures border_left_color { initial_value BorderLeftColor ≡ color CurrentColor }
    ensures box_sizing { initial_value BoxSizing ≡ keyword ContentBox }
    ensures font_size { initial_value FontSize ≡ units 1024 }
    ensures line_height { initial_value LineHeight ≡ keyword Normal }
    ensures color { initial_value Color ≡ color (Rgba (rgba 0 0 0 255)) }
    ensures background_color { initial_value BackgroundColor ≡ color (Rgba (rgba 0 0 0 0)) }
    ensures text_align { initial_value TextAlign ≡ keyword Left }
    ensures white_space { initial_value WhiteSpace ≡ keyword Normal }
    ensures overflow { initial_value Overflow ≡ keyword Visible }
    ensures contain { initial_value Contain ≡ containment nothing_contained }
    ensures container_type { initial_value ContainerType ≡ keyword Normal }
    ensures container_name { initial_value ContainerName ≡ names [] }
    ensures visibility { initial_value Visibility ≡ keyword Visible }
    ensures opacity { initial_value Opacity ≡ alpha (pos 1000000) }
    ensures font_style { initial_value FontStyle ≡ keyword Normal }
    ensures font_weight { initial_value FontWeight ≡ integer (pos 400) }
    ensures z_index { initial_value ZIndex ≡ keyword Auto }
    ensures text_decoration_line { initial_value TextDecorationLine ≡ keyword NoneKeyword }
    ensures pointer_events { initial_value PointerEvents ≡ keyword Auto }
{}

/// The properties that are inherited, and how many there are.
pub fn inheritance()
    ensures inherited { inherited_properties
        ≡ FontSize ∷ LineHeight ∷ Color ∷ TextAlign ∷ WhiteSpace ∷ Visibility ∷ FontStyle ∷ FontWeight ∷ PointerEvents ∷ [] }
    ensures all { length properties ≡ 45 }
{}

/// The properties in their order, and the place of each.
pub fn order()
    ensures names { map (λ p. (property p).name) properties
        ≡ codes "display" ∷ codes "width" ∷ codes "height" ∷ codes "min-width" ∷
        codes "min-height" ∷ codes "max-width" ∷ codes "max-height" ∷ codes "margin-top" ∷
        codes "margin-right" ∷ codes "margin-bottom" ∷ codes "margin-left" ∷
        codes "padding-top" ∷ codes "padding-right" ∷ codes "padding-bottom" ∷
        codes "padding-left" ∷ codes "border-top-width" ∷ codes "border-right-width" ∷
        codes "border-bottom-width" ∷ codes "border-left-width" ∷ codes "border-top-style" ∷
        codes "border-right-style" ∷ codes "border-bottom-style" ∷ codes "border-left-style" ∷
        codes "border-top-color" ∷ codes "border-right-color" ∷ codes "border-bottom-color" ∷
        codes "border-left-color" ∷ codes "box-sizing" ∷ codes "font-size" ∷
        codes "line-height" ∷ codes "color" ∷ codes "background-color" ∷ codes "text-align" ∷
        codes "white-space" ∷ codes "overflow" ∷ codes "contain" ∷ codes "container-type" ∷
        codes "container-name" ∷ codes "visibility" ∷ codes "opacity" ∷ codes "font-style" ∷
        codes "font-weight" ∷ codes "z-index" ∷ codes "text-decoration-line" ∷
        codes "pointer-events" ∷ [] }
    ensures places { map prop_place properties
        ≡ 0 ∷ 1 ∷ 2 ∷ 3 ∷ 4 ∷ 5 ∷ 6 ∷ 7 ∷ 8 ∷ 9 ∷ 10 ∷ 11 ∷ 12 ∷ 13 ∷ 14 ∷ 15 ∷ 16 ∷ 17 ∷ 18 ∷
        19 ∷ 20 ∷ 21 ∷ 22 ∷ 23 ∷ 24 ∷ 25 ∷ 26 ∷ 27 ∷ 28 ∷ 29 ∷ 30 ∷ 31 ∷ 32 ∷ 33 ∷ 34 ∷ 35 ∷
        36 ∷ 37 ∷ 38 ∷ 39 ∷ 40 ∷ 41 ∷ 42 ∷ 43 ∷ 44 ∷ [] }
{}
