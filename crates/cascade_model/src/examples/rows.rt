//! Styles of whole pages.
ghost use Rattle.cascade_model.specs.inner.Examples.{attribute, leaf, of_child, of_root, page_with, parent, units};
ghost use Rattle.std.specs.Prelude.{[], codes, pos, ◌∷◌, ◌≡◌};
ghost use Rattle.value_model.specs.Colors.{rgba};
ghost use Rattle.value_model.specs.Calculations.{in_percent, leaf as literal};
ghost use Rattle.value_model.specs.Values.{color, integer, length};
ghost use Rattle.value_model.specs.declared.color.Color.TheVariants.{CurrentColor, Rgba};
ghost use Rattle.value_model.specs.declared.prop.Prop.TheVariants.{BorderLeftColor, BorderTopWidth, Color, FontSize, FontWeight, MarginLeft, MarginTop, Width};

/// A heading with a `style` attribute.
#[tactic(auto, unfolding(css_model::specs::inner::Nesting::levels_of, css_model::specs::inner::Pieces::pieces_after, css_model::specs::inner::Fronts::parts_after))]
pub fn heading()
    ensures width { of_root (page_with (codes "h1{display:block;font-size:2em;margin-top:.67em}h1,b{font-weight:bold}") (codes "") (leaf 0 (codes "h1") (attribute (codes "style") (codes "color:RED;border:thin solid;width:10%") ∷ []))) Width
        ≡ length (literal (in_percent (pos 10000000))) }
    ensures margin { of_root (page_with (codes "h1{display:block;font-size:2em;margin-top:.67em}h1,b{font-weight:bold}") (codes "") (leaf 0 (codes "h1") (attribute (codes "style") (codes "color:RED;border:thin solid;width:10%") ∷ []))) MarginTop
        ≡ units 1372 }
    ensures border_width { of_root (page_with (codes "h1{display:block;font-size:2em;margin-top:.67em}h1,b{font-weight:bold}") (codes "") (leaf 0 (codes "h1") (attribute (codes "style") (codes "color:RED;border:thin solid;width:10%") ∷ []))) BorderTopWidth
        ≡ units 64 }
    ensures border_color { of_root (page_with (codes "h1{display:block;font-size:2em;margin-top:.67em}h1,b{font-weight:bold}") (codes "") (leaf 0 (codes "h1") (attribute (codes "style") (codes "color:RED;border:thin solid;width:10%") ∷ []))) BorderLeftColor
        ≡ color CurrentColor }
    ensures font_size { of_root (page_with (codes "h1{display:block;font-size:2em;margin-top:.67em}h1,b{font-weight:bold}") (codes "") (leaf 0 (codes "h1") (attribute (codes "style") (codes "color:RED;border:thin solid;width:10%") ∷ []))) FontSize
        ≡ units 2048 }
    ensures color_of_text { of_root (page_with (codes "h1{display:block;font-size:2em;margin-top:.67em}h1,b{font-weight:bold}") (codes "") (leaf 0 (codes "h1") (attribute (codes "style") (codes "color:RED;border:thin solid;width:10%") ∷ []))) Color
        ≡ color (Rgba (rgba 255 0 0 255)) }
    ensures font_weight { of_root (page_with (codes "h1{display:block;font-size:2em;margin-top:.67em}h1,b{font-weight:bold}") (codes "") (leaf 0 (codes "h1") (attribute (codes "style") (codes "color:RED;border:thin solid;width:10%") ∷ []))) FontWeight
        ≡ integer (pos 700) }
{}

/// A paragraph below a `div`: what it inherits, and `revert`.
#[tactic(auto, unfolding(css_model::specs::inner::Nesting::levels_of, css_model::specs::inner::Pieces::pieces_after, css_model::specs::inner::Fronts::parts_after))]
pub fn paragraph()
    ensures margin_top { of_child (page_with (codes "p{margin-top:1em;margin-bottom:1em}") (codes "div{color:red!important;font-size:20px}p{margin:2em;margin-top:revert}#x{color:blue}") (parent 0 (codes "div") [] (leaf 1 (codes "p") []))) MarginTop
        ≡ units 1280 }
    ensures margin_left { of_child (page_with (codes "p{margin-top:1em;margin-bottom:1em}") (codes "div{color:red!important;font-size:20px}p{margin:2em;margin-top:revert}#x{color:blue}") (parent 0 (codes "div") [] (leaf 1 (codes "p") []))) MarginLeft
        ≡ units 2560 }
    ensures color_of_text { of_child (page_with (codes "p{margin-top:1em;margin-bottom:1em}") (codes "div{color:red!important;font-size:20px}p{margin:2em;margin-top:revert}#x{color:blue}") (parent 0 (codes "div") [] (leaf 1 (codes "p") []))) Color
        ≡ color (Rgba (rgba 255 0 0 255)) }
{}
