//! Styles of whole documents.
ghost use Rattle.cascade_model.specs.inner.Examples.{IsStyled, family, initial_but, leaf, page_with, parent, three_styles, units, without_custom};
ghost use Rattle.page_model.specs.Document.{element, no_nodes, node, text};
ghost use Rattle.std.specs.Prelude.{[], codes, if◌then◌else◌, None, Some, ◌==◌, ◌∷◌};
ghost use Rattle.value_model.specs.Values.{keyword};
ghost use Rattle.value_model.specs.declared.keyword.Keyword.TheVariants.{Block};
ghost use Rattle.value_model.specs.declared.prop.Prop.TheVariants.{Display, FontSize, Height, Width};

/// Each element has its own `em`, and all have the `rem` of the root (CSS Values 4, section 6.1).
#[tactic(auto, unfolding(css_model::specs::inner::Nesting::levels_of, css_model::specs::inner::Pieces::pieces_after, css_model::specs::inner::Fronts::parts_after))]
pub fn font_sizes()
    ensures own_em { IsStyled (page_with (codes "") (codes "") (family (codes "font-size:20px") (codes "font-size:10px;width:2em;height:2rem") (codes "width:3em;height:3rem"))) (three_styles (initial_but ((Display, keyword Block) ∷ (FontSize, units 1280) ∷ [])) (initial_but ((FontSize, units 640) ∷ (Width, units 1280) ∷ (Height, units 2560) ∷ [])) (initial_but ((FontSize, units 640) ∷ (Width, units 1920) ∷ (Height, units 3840) ∷ []))) }
    ensures em_of_the_root { IsStyled (page_with (codes "") (codes "") (family (codes "font-size:20px") (codes "font-size:10px;width:2em;height:2rem") (codes "width:3em;height:3rem"))) (three_styles (initial_but ((Display, keyword Block) ∷ (FontSize, units 1280) ∷ [])) (initial_but ((FontSize, units 640) ∷ (Width, units 2560) ∷ (Height, units 2560) ∷ [])) (initial_but ((FontSize, units 640) ∷ (Width, units 1920) ∷ (Height, units 3840) ∷ [])))
        → ⊥ }
    ensures rem_of_the_parent { IsStyled (page_with (codes "") (codes "") (family (codes "font-size:20px") (codes "font-size:10px;width:2em;height:2rem") (codes "width:3em;height:3rem"))) (three_styles (initial_but ((Display, keyword Block) ∷ (FontSize, units 1280) ∷ [])) (initial_but ((FontSize, units 640) ∷ (Width, units 1280) ∷ (Height, units 2560) ∷ [])) (initial_but ((FontSize, units 640) ∷ (Width, units 1920) ∷ (Height, units 1920) ∷ [])))
        → ⊥ }
{}

/// Each child has its style.
#[tactic(auto, unfolding(css_model::specs::inner::Nesting::levels_of, css_model::specs::inner::Pieces::pieces_after, css_model::specs::inner::Fronts::parts_after))]
pub fn siblings()
    ensures own { IsStyled (page_with (codes "") (codes "p{width:1px}q{width:2px}") (element 0 (codes "div") [] (node (leaf 1 (codes "p") []) (node (leaf 2 (codes "q") []) no_nodes)))) (three_styles (initial_but ((Display, keyword Block) ∷ [])) (initial_but ((Width, units 64) ∷ [])) (initial_but ((Width, units 128) ∷ []))) }
    ensures same { IsStyled (page_with (codes "") (codes "p{width:1px}q{width:2px}") (element 0 (codes "div") [] (node (leaf 1 (codes "p") []) (node (leaf 2 (codes "q") []) no_nodes)))) (three_styles (initial_but ((Display, keyword Block) ∷ [])) (initial_but ((Width, units 64) ∷ [])) (initial_but ((Width, units 64) ∷ [])))
        → ⊥ }
    ensures missing { IsStyled (page_with (codes "") (codes "p{width:1px}q{width:2px}") (element 0 (codes "div") [] (node (leaf 1 (codes "p") []) (node (leaf 2 (codes "q") []) no_nodes)))) (λ i. if i == 0 then Some (without_custom (initial_but ((Display, keyword Block) ∷ []))) else None)
        → ⊥ }
{}

/// A text has no style.
#[tactic(auto, unfolding(css_model::specs::inner::Nesting::levels_of, css_model::specs::inner::Pieces::pieces_after, css_model::specs::inner::Fronts::parts_after))]
pub fn texts()
    ensures without { IsStyled (page_with (codes "") (codes "") (parent 0 (codes "div") [] (text 1 (codes "x")))) (λ i. if i == 0 then Some (without_custom (initial_but ((Display, keyword Block) ∷ []))) else None) }
    ensures with { IsStyled (page_with (codes "") (codes "") (parent 0 (codes "div") [] (text 1 (codes "x")))) (λ i. Some (without_custom (initial_but ((Display, keyword Block) ∷ []))))
        → ⊥ }
{}
