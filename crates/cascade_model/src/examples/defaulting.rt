//! Defaulting (CSS Cascade 4, section 7), and what makes a style whole.
ghost use Rattle.cascade_model.specs.inner.Examples.{attribute, leaf, of_child, of_root, page_with, parent, units};
ghost use Rattle.std.specs.Prelude.{[], codes, pos, ◌∷◌, ◌≡◌};
ghost use Rattle.value_model.specs.Colors.{rgba};
ghost use Rattle.value_model.specs.Values.{alpha, color, integer, keyword};
ghost use Rattle.value_model.specs.declared.color.Color.TheVariants.{CurrentColor, Rgba};
ghost use Rattle.value_model.specs.declared.keyword.Keyword.TheVariants.{Auto, Block, FlowRoot, Hidden, Inline, InlineBlock, None as NoneKeyword, Right};
ghost use Rattle.value_model.specs.declared.prop.Prop.TheVariants.{BackgroundColor, BorderBottomWidth, BorderLeftWidth, BorderRightWidth, BorderTopWidth, Color, Display, FontSize, FontWeight, Height, MaxWidth, Opacity, TextAlign, Visibility, Width};

/// What is inherited and what is not.
#[tactic(auto, unfolding(css_model::specs::inner::Nesting::levels_of, css_model::specs::inner::Pieces::pieces_after, css_model::specs::inner::Fronts::parts_after))]
pub fn inheritance()
    ensures color_of_text { of_child (page_with (codes "") (codes "div{color:red;width:1px;font-weight:bold;text-align:end;opacity:0}") (parent 0 (codes "div") [] (leaf 1 (codes "p") []))) Color
        ≡ color (Rgba (rgba 255 0 0 255)) }
    ensures weight { of_child (page_with (codes "") (codes "div{color:red;width:1px;font-weight:bold;text-align:end;opacity:0}") (parent 0 (codes "div") [] (leaf 1 (codes "p") []))) FontWeight
        ≡ integer (pos 700) }
    ensures alignment { of_child (page_with (codes "") (codes "div{color:red;width:1px;font-weight:bold;text-align:end;opacity:0}") (parent 0 (codes "div") [] (leaf 1 (codes "p") []))) TextAlign
        ≡ keyword Right }
    ensures width { of_child (page_with (codes "") (codes "div{color:red;width:1px;font-weight:bold;text-align:end;opacity:0}") (parent 0 (codes "div") [] (leaf 1 (codes "p") []))) Width
        ≡ keyword Auto }
    ensures opacity { of_child (page_with (codes "") (codes "div{color:red;width:1px;font-weight:bold;text-align:end;opacity:0}") (parent 0 (codes "div") [] (leaf 1 (codes "p") []))) Opacity
        ≡ alpha (pos 1000000) }
{}

/// The keywords on inherited properties (section 7.3).
#[tactic(auto, unfolding(css_model::specs::inner::Nesting::levels_of, css_model::specs::inner::Pieces::pieces_after, css_model::specs::inner::Fronts::parts_after))]
pub fn inherited_properties()
    ensures initial { of_child (page_with (codes "") (codes "div{color:red;font-weight:bold;visibility:hidden}p{color:initial;font-weight:inherit;visibility:unset}") (parent 0 (codes "div") [] (leaf 1 (codes "p") []))) Color
        ≡ color (Rgba (rgba 0 0 0 255)) }
    ensures inherit { of_child (page_with (codes "") (codes "div{color:red;font-weight:bold;visibility:hidden}p{color:initial;font-weight:inherit;visibility:unset}") (parent 0 (codes "div") [] (leaf 1 (codes "p") []))) FontWeight
        ≡ integer (pos 700) }
    ensures unset { of_child (page_with (codes "") (codes "div{color:red;font-weight:bold;visibility:hidden}p{color:initial;font-weight:inherit;visibility:unset}") (parent 0 (codes "div") [] (leaf 1 (codes "p") []))) Visibility
        ≡ keyword Hidden }
{}

/// The keywords on other properties.
#[tactic(auto, unfolding(css_model::specs::inner::Nesting::levels_of, css_model::specs::inner::Pieces::pieces_after, css_model::specs::inner::Fronts::parts_after))]
pub fn other_properties()
    ensures inherit { of_child (page_with (codes "") (codes "div{width:1px;height:1px;max-width:1px}p{width:2px;height:2px}p{width:inherit;height:initial;max-width:unset}") (parent 0 (codes "div") [] (leaf 1 (codes "p") []))) Width
        ≡ units 64 }
    ensures initial { of_child (page_with (codes "") (codes "div{width:1px;height:1px;max-width:1px}p{width:2px;height:2px}p{width:inherit;height:initial;max-width:unset}") (parent 0 (codes "div") [] (leaf 1 (codes "p") []))) Height
        ≡ keyword Auto }
    ensures unset { of_child (page_with (codes "") (codes "div{width:1px;height:1px;max-width:1px}p{width:2px;height:2px}p{width:inherit;height:initial;max-width:unset}") (parent 0 (codes "div") [] (leaf 1 (codes "p") []))) MaxWidth
        ≡ keyword NoneKeyword }
{}

/// `revert` is what the user agent says, or `unset`.
#[tactic(auto, unfolding(css_model::specs::inner::Nesting::levels_of, css_model::specs::inner::Pieces::pieces_after, css_model::specs::inner::Fronts::parts_after))]
pub fn revert()
    ensures user_agent { of_child (page_with (codes "p{width:1px;color:lime}") (codes "div{color:red;font-weight:bold}p{width:2px;color:blue;height:1px;font-weight:300}p{width:revert;color:revert;height:revert;font-weight:revert}") (parent 0 (codes "div") [] (leaf 1 (codes "p") []))) Width
        ≡ units 64 }
    ensures inherited_by_user_agent { of_child (page_with (codes "p{width:1px;color:lime}") (codes "div{color:red;font-weight:bold}p{width:2px;color:blue;height:1px;font-weight:300}p{width:revert;color:revert;height:revert;font-weight:revert}") (parent 0 (codes "div") [] (leaf 1 (codes "p") []))) Color
        ≡ color (Rgba (rgba 0 255 0 255)) }
    ensures unset { of_child (page_with (codes "p{width:1px;color:lime}") (codes "div{color:red;font-weight:bold}p{width:2px;color:blue;height:1px;font-weight:300}p{width:revert;color:revert;height:revert;font-weight:revert}") (parent 0 (codes "div") [] (leaf 1 (codes "p") []))) Height
        ≡ keyword Auto }
    ensures unset_inherited { of_child (page_with (codes "p{width:1px;color:lime}") (codes "div{color:red;font-weight:bold}p{width:2px;color:blue;height:1px;font-weight:300}p{width:revert;color:revert;height:revert;font-weight:revert}") (parent 0 (codes "div") [] (leaf 1 (codes "p") []))) FontWeight
        ≡ integer (pos 700) }
{}

/// The keywords at the root.
#[tactic(auto, unfolding(css_model::specs::inner::Nesting::levels_of, css_model::specs::inner::Pieces::pieces_after, css_model::specs::inner::Fronts::parts_after))]
pub fn root()
    ensures color_of_text { of_root (page_with (codes "") (codes "div{color:inherit;width:inherit;font-size:inherit;border-top-width:inherit}") (leaf 0 (codes "div") [])) Color
        ≡ color (Rgba (rgba 0 0 0 255)) }
    ensures width { of_root (page_with (codes "") (codes "div{color:inherit;width:inherit;font-size:inherit;border-top-width:inherit}") (leaf 0 (codes "div") [])) Width
        ≡ keyword Auto }
    ensures font_size { of_root (page_with (codes "") (codes "div{color:inherit;width:inherit;font-size:inherit;border-top-width:inherit}") (leaf 0 (codes "div") [])) FontSize
        ≡ units 1024 }
    ensures border { of_root (page_with (codes "") (codes "div{color:inherit;width:inherit;font-size:inherit;border-top-width:inherit}") (leaf 0 (codes "div") [])) BorderTopWidth
        ≡ units 0 }
{}

/// `currentcolor` for `color` is inherited; for other properties it stays.
#[tactic(auto, unfolding(css_model::specs::inner::Nesting::levels_of, css_model::specs::inner::Pieces::pieces_after, css_model::specs::inner::Fronts::parts_after))]
pub fn current_color()
    ensures color_of_text { of_child (page_with (codes "") (codes "div{color:red}p{color:blue;color:currentcolor;background-color:currentcolor}") (parent 0 (codes "div") [] (leaf 1 (codes "p") []))) Color
        ≡ color (Rgba (rgba 255 0 0 255)) }
    ensures background { of_child (page_with (codes "") (codes "div{color:red}p{color:blue;color:currentcolor;background-color:currentcolor}") (parent 0 (codes "div") [] (leaf 1 (codes "p") []))) BackgroundColor
        ≡ color CurrentColor }
{}

/// `currentcolor` at the root.
#[tactic(auto, unfolding(css_model::specs::inner::Nesting::levels_of, css_model::specs::inner::Pieces::pieces_after, css_model::specs::inner::Fronts::parts_after))]
pub fn current_color_of_root()
    ensures color_of_text { of_root (page_with (codes "") (codes "div{color:currentcolor}") (leaf 0 (codes "div") [])) Color
        ≡ color (Rgba (rgba 0 0 0 255)) }
{}

/// A border without a style has no width.
#[tactic(auto, unfolding(css_model::specs::inner::Nesting::levels_of, css_model::specs::inner::Pieces::pieces_after, css_model::specs::inner::Fronts::parts_after))]
pub fn borders()
    ensures solid { of_root (page_with (codes "") (codes "div{border-width:1px 2px 3px thin;border-style:solid hidden none dotted}p{border-width:inherit;border-style:solid}") (parent 0 (codes "div") [] (leaf 1 (codes "p") []))) BorderTopWidth
        ≡ units 64 }
    ensures hidden { of_root (page_with (codes "") (codes "div{border-width:1px 2px 3px thin;border-style:solid hidden none dotted}p{border-width:inherit;border-style:solid}") (parent 0 (codes "div") [] (leaf 1 (codes "p") []))) BorderRightWidth
        ≡ units 0 }
    ensures none { of_root (page_with (codes "") (codes "div{border-width:1px 2px 3px thin;border-style:solid hidden none dotted}p{border-width:inherit;border-style:solid}") (parent 0 (codes "div") [] (leaf 1 (codes "p") []))) BorderBottomWidth
        ≡ units 0 }
    ensures dotted { of_root (page_with (codes "") (codes "div{border-width:1px 2px 3px thin;border-style:solid hidden none dotted}p{border-width:inherit;border-style:solid}") (parent 0 (codes "div") [] (leaf 1 (codes "p") []))) BorderLeftWidth
        ≡ units 64 }
    ensures inherited { of_child (page_with (codes "") (codes "div{border-width:1px 2px 3px thin;border-style:solid hidden none dotted}p{border-width:inherit;border-style:solid}") (parent 0 (codes "div") [] (leaf 1 (codes "p") []))) BorderTopWidth
        ≡ units 64 }
    ensures inherited_from_hidden { of_child (page_with (codes "") (codes "div{border-width:1px 2px 3px thin;border-style:solid hidden none dotted}p{border-width:inherit;border-style:solid}") (parent 0 (codes "div") [] (leaf 1 (codes "p") []))) BorderRightWidth
        ≡ units 0 }
{}

/// The root is a block.
#[tactic(auto, unfolding(css_model::specs::inner::Nesting::levels_of, css_model::specs::inner::Pieces::pieces_after, css_model::specs::inner::Fronts::parts_after))]
pub fn root_display()
    ensures root { of_root (page_with (codes "") (codes "div{display:inline-block}p{display:inline-block}") (parent 0 (codes "div") [] (leaf 1 (codes "p") []))) Display
        ≡ keyword Block }
    ensures child { of_child (page_with (codes "") (codes "div{display:inline-block}p{display:inline-block}") (parent 0 (codes "div") [] (leaf 1 (codes "p") []))) Display
        ≡ keyword InlineBlock }
{}

/// The root is a block also where it says nothing, or may be none.
#[tactic(auto, unfolding(css_model::specs::inner::Nesting::levels_of, css_model::specs::inner::Pieces::pieces_after, css_model::specs::inner::Fronts::parts_after))]
pub fn root_display_kept()
    ensures none { of_root (page_with (codes "") (codes "q{display:none}") (parent 0 (codes "q") [] (leaf 1 (codes "p") []))) Display
        ≡ keyword NoneKeyword }
    ensures child { of_child (page_with (codes "") (codes "q{display:none}") (parent 0 (codes "q") [] (leaf 1 (codes "p") []))) Display
        ≡ keyword Inline }
{}

/// The initial `display` of the root.
#[tactic(auto, unfolding(css_model::specs::inner::Nesting::levels_of, css_model::specs::inner::Pieces::pieces_after, css_model::specs::inner::Fronts::parts_after))]
pub fn initial_display()
    ensures block { of_root (page_with (codes "") (codes "") (leaf 0 (codes "q") [])) Display
        ≡ keyword Block }
{}

/// `revert` takes the winner of the user agent.
#[tactic(auto, unfolding(css_model::specs::inner::Nesting::levels_of, css_model::specs::inner::Pieces::pieces_after, css_model::specs::inner::Fronts::parts_after))]
pub fn revert_among_several()
    ensures width { of_root (page_with (codes "#b{width:1px}p{width:3px}") (codes "p{width:revert}") (leaf 0 (codes "p") (attribute (codes "id") (codes "b") ∷ []))) Width
        ≡ units 64 }
{}

/// A border style that is inherited.
#[tactic(auto, unfolding(css_model::specs::inner::Nesting::levels_of, css_model::specs::inner::Pieces::pieces_after, css_model::specs::inner::Fronts::parts_after))]
pub fn inherited_border_style()
    ensures solid { of_child (page_with (codes "") (codes "div{border-top:2px solid;border-left:2px hidden}p{border-width:1px;border-style:inherit}") (parent 0 (codes "div") [] (leaf 1 (codes "p") []))) BorderTopWidth
        ≡ units 64 }
    ensures hidden { of_child (page_with (codes "") (codes "div{border-top:2px solid;border-left:2px hidden}p{border-width:1px;border-style:inherit}") (parent 0 (codes "div") [] (leaf 1 (codes "p") []))) BorderLeftWidth
        ≡ units 0 }
{}

/// Another `display` of the root stays.
#[tactic(auto, unfolding(css_model::specs::inner::Nesting::levels_of, css_model::specs::inner::Pieces::pieces_after, css_model::specs::inner::Fronts::parts_after))]
pub fn flow_root()
    ensures root { of_root (page_with (codes "") (codes "div{display:flow-root}") (leaf 0 (codes "div") [])) Display
        ≡ keyword FlowRoot }
{}

/// What is inherited from the root is its computed `display`.
#[tactic(auto, unfolding(css_model::specs::inner::Nesting::levels_of, css_model::specs::inner::Pieces::pieces_after, css_model::specs::inner::Fronts::parts_after))]
pub fn display_of_root()
    ensures child { of_child (page_with (codes "") (codes "p{display:inherit}") (parent 0 (codes "div") [] (leaf 1 (codes "p") []))) Display
        ≡ keyword Block }
{}
