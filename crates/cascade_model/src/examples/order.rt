//! The order of declarations (CSS Cascade 4, section 6).
ghost use Rattle.cascade_model.specs.inner.Examples.{attribute, page_with_two, leaf, of_root, page_with, units};
ghost use Rattle.std.specs.Prelude.{[], codes, ◌∷◌, ◌≡◌};
ghost use Rattle.value_model.specs.Colors.{rgba};
ghost use Rattle.value_model.specs.Values.{color, keyword};
ghost use Rattle.value_model.specs.declared.color.Color.TheVariants.{Rgba};
ghost use Rattle.value_model.specs.declared.keyword.Keyword.TheVariants.{Auto};
ghost use Rattle.value_model.specs.declared.prop.Prop.TheVariants.{BorderTopWidth, Color, Height, MarginLeft, MarginTop, MaxWidth, MinWidth, Width};

/// Important declarations of the user agent, then of the author, then normal ones (section 6.1).
#[tactic(auto, unfolding(css_model::specs::inner::Nesting::levels_of, css_model::specs::inner::Pieces::pieces_after, css_model::specs::inner::Fronts::parts_after))]
pub fn levels()
    ensures important_user_agent { of_root (page_with (codes "div{color:red!important;width:1px;height:1px!important}") (codes "div{color:blue!important;width:2px;height:2px}") (leaf 0 (codes "div") (attribute (codes "style") (codes "color:lime!important") ∷ []))) Color
        ≡ color (Rgba (rgba 255 0 0 255)) }
    ensures normal_author { of_root (page_with (codes "div{color:red!important;width:1px;height:1px!important}") (codes "div{color:blue!important;width:2px;height:2px}") (leaf 0 (codes "div") (attribute (codes "style") (codes "color:lime!important") ∷ []))) Width
        ≡ units 128 }
    ensures important_user_agent_over_normal_author { of_root (page_with (codes "div{color:red!important;width:1px;height:1px!important}") (codes "div{color:blue!important;width:2px;height:2px}") (leaf 0 (codes "div") (attribute (codes "style") (codes "color:lime!important") ∷ []))) Height
        ≡ units 64 }
{}

/// Important declarations of the author over the `style` attribute, which is over each selector.
#[tactic(auto, unfolding(css_model::specs::inner::Nesting::levels_of, css_model::specs::inner::Pieces::pieces_after, css_model::specs::inner::Fronts::parts_after))]
pub fn attributes()
    ensures over_selectors { of_root (page_with (codes "") (codes "#a#a#a{width:1px;height:1px!important}") (leaf 0 (codes "div") (attribute (codes "id") (codes "a") ∷ attribute (codes "style") (codes "width:2px;height:2px") ∷ []))) Width
        ≡ units 128 }
    ensures under_important { of_root (page_with (codes "") (codes "#a#a#a{width:1px;height:1px!important}") (leaf 0 (codes "div") (attribute (codes "id") (codes "a") ∷ attribute (codes "style") (codes "width:2px;height:2px") ∷ []))) Height
        ≡ units 64 }
{}

/// An important declaration in a `style` attribute over one of a sheet.
#[tactic(auto, unfolding(css_model::specs::inner::Nesting::levels_of, css_model::specs::inner::Pieces::pieces_after, css_model::specs::inner::Fronts::parts_after))]
pub fn important_attribute()
    ensures wins { of_root (page_with (codes "") (codes "#a{width:1px!important}") (leaf 0 (codes "div") (attribute (codes "id") (codes "a") ∷ attribute (codes "style") (codes "width:2px!important") ∷ []))) Width
        ≡ units 128 }
{}

/// Specificity, and then order of appearance.
#[tactic(auto, unfolding(css_model::specs::inner::Nesting::levels_of, css_model::specs::inner::Pieces::pieces_after, css_model::specs::inner::Fronts::parts_after))]
pub fn specificity()
    ensures class_over_type { of_root (page_with (codes "") (codes "div{width:1px;height:1px;min-width:1px}.c{width:2px}div{width:3px;height:3px;min-width:3px;min-width:4px}#a,div{max-width:1px}.c{max-width:2px}") (leaf 0 (codes "div") (attribute (codes "id") (codes "a") ∷ attribute (codes "class") (codes "c") ∷ []))) Width
        ≡ units 128 }
    ensures later_rule { of_root (page_with (codes "") (codes "div{width:1px;height:1px;min-width:1px}.c{width:2px}div{width:3px;height:3px;min-width:3px;min-width:4px}#a,div{max-width:1px}.c{max-width:2px}") (leaf 0 (codes "div") (attribute (codes "id") (codes "a") ∷ attribute (codes "class") (codes "c") ∷ []))) Height
        ≡ units 192 }
    ensures later_declaration { of_root (page_with (codes "") (codes "div{width:1px;height:1px;min-width:1px}.c{width:2px}div{width:3px;height:3px;min-width:3px;min-width:4px}#a,div{max-width:1px}.c{max-width:2px}") (leaf 0 (codes "div") (attribute (codes "id") (codes "a") ∷ attribute (codes "class") (codes "c") ∷ []))) MinWidth
        ≡ units 256 }
    ensures most_specific_member { of_root (page_with (codes "") (codes "div{width:1px;height:1px;min-width:1px}.c{width:2px}div{width:3px;height:3px;min-width:3px;min-width:4px}#a,div{max-width:1px}.c{max-width:2px}") (leaf 0 (codes "div") (attribute (codes "id") (codes "a") ∷ attribute (codes "class") (codes "c") ∷ []))) MaxWidth
        ≡ units 64 }
{}

/// What is not kept: unknown names, wrong values, rules whose selectors are invalid.
#[tactic(auto, unfolding(css_model::specs::inner::Nesting::levels_of, css_model::specs::inner::Pieces::pieces_after, css_model::specs::inner::Fronts::parts_after))]
pub fn dropped()
    ensures width { of_root (page_with (codes "") (codes "div{width:1px;width:red;WIDTH:2px;wide:3px;height:1px 2px}div,:zz{width:9px}p{width:8px}div{min-width:1px}") (leaf 0 (codes "div") [])) Width
        ≡ units 128 }
    ensures height { of_root (page_with (codes "") (codes "div{width:1px;width:red;WIDTH:2px;wide:3px;height:1px 2px}div,:zz{width:9px}p{width:8px}div{min-width:1px}") (leaf 0 (codes "div") [])) Height
        ≡ keyword Auto }
    ensures after_an_invalid_rule { of_root (page_with (codes "") (codes "div{width:1px;width:red;WIDTH:2px;wide:3px;height:1px 2px}div,:zz{width:9px}p{width:8px}div{min-width:1px}") (leaf 0 (codes "div") [])) MinWidth
        ≡ units 64 }
{}

/// A shorthand is its longhands, in its place.
#[tactic(auto, unfolding(css_model::specs::inner::Nesting::levels_of, css_model::specs::inner::Pieces::pieces_after, css_model::specs::inner::Fronts::parts_after))]
pub fn shorthands()
    ensures top { of_root (page_with (codes "") (codes "div{margin-top:1px;margin:2px;margin-left:3px;border:solid;border-width:inherit}") (leaf 0 (codes "div") [])) MarginTop
        ≡ units 128 }
    ensures left { of_root (page_with (codes "") (codes "div{margin-top:1px;margin:2px;margin-left:3px;border:solid;border-width:inherit}") (leaf 0 (codes "div") [])) MarginLeft
        ≡ units 192 }
    ensures border { of_root (page_with (codes "") (codes "div{margin-top:1px;margin:2px;margin-left:3px;border:solid;border-width:inherit}") (leaf 0 (codes "div") [])) BorderTopWidth
        ≡ units 192 }
{}

/// Two sheets: specificity before the order of sheets, and the later sheet before the earlier one.
#[tactic(auto, unfolding(css_model::specs::inner::Nesting::levels_of, css_model::specs::inner::Pieces::pieces_after, css_model::specs::inner::Fronts::parts_after))]
pub fn sheets()
    ensures later_sheet { of_root (page_with_two (codes "") (codes "div{width:1px}.c{height:1px}") (codes "div{width:2px;height:2px}") (leaf 0 (codes "div") (attribute (codes "class") (codes "c") ∷ []))) Width
        ≡ units 128 }
    ensures specificity { of_root (page_with_two (codes "") (codes "div{width:1px}.c{height:1px}") (codes "div{width:2px;height:2px}") (leaf 0 (codes "div") (attribute (codes "class") (codes "c") ∷ []))) Height
        ≡ units 64 }
{}

/// Declarations of one attribute.
#[tactic(auto, unfolding(css_model::specs::inner::Nesting::levels_of, css_model::specs::inner::Pieces::pieces_after, css_model::specs::inner::Fronts::parts_after))]
pub fn one_attribute()
    ensures later { of_root (page_with (codes "") (codes "") (leaf 0 (codes "div") (attribute (codes "style") (codes "width:1px;width:2px;height:1px!important;height:2px") ∷ []))) Width
        ≡ units 128 }
    ensures important { of_root (page_with (codes "") (codes "") (leaf 0 (codes "div") (attribute (codes "style") (codes "width:1px;width:2px;height:1px!important;height:2px") ∷ []))) Height
        ≡ units 64 }
{}

/// An important shorthand over a later longhand.
#[tactic(auto, unfolding(css_model::specs::inner::Nesting::levels_of, css_model::specs::inner::Pieces::pieces_after, css_model::specs::inner::Fronts::parts_after))]
pub fn important_shorthand()
    ensures margin { of_root (page_with (codes "") (codes "div{margin:1px!important;margin-top:2px}") (leaf 0 (codes "div") [])) MarginTop
        ≡ units 64 }
{}

/// `all` before and after another declaration.
#[tactic(auto, unfolding(css_model::specs::inner::Nesting::levels_of, css_model::specs::inner::Pieces::pieces_after, css_model::specs::inner::Fronts::parts_after))]
pub fn all()
    ensures before { of_root (page_with (codes "") (codes "p{width:1px;all:initial;height:1px}") (leaf 0 (codes "p") [])) Width
        ≡ keyword Auto }
    ensures after { of_root (page_with (codes "") (codes "p{width:1px;all:initial;height:1px}") (leaf 0 (codes "p") [])) Height
        ≡ units 64 }
{}
