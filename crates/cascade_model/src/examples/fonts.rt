//! Font sizes, and the lengths that refer to them (CSS Values 4, section 6.1).
ghost use Rattle.cascade_model.specs.inner.Examples.{leaf, of_child, of_grandchild, of_root, page_with, parent, units};
ghost use Rattle.std.specs.Prelude.{[], codes, pos, ◌≡◌};
ghost use Rattle.value_model.specs.Values.{number};
ghost use Rattle.value_model.specs.declared.prop.Prop.TheVariants.{FontSize, Height, LineHeight, MaxHeight, MaxWidth, MinHeight, MinWidth, Width};

/// Lengths at the root: `em` and `rem` of `font-size` are 16 pixels.
#[tactic(auto, unfolding(css_model::specs::inner::Nesting::levels_of, css_model::specs::inner::Pieces::pieces_after, css_model::specs::inner::Fronts::parts_after))]
pub fn root()
    ensures font_size { of_root (page_with (codes "") (codes "div{font-size:2em;width:1em;height:1rem;max-width:1vw;min-width:1vh;min-height:1cqw;max-height:1cqh}") (leaf 0 (codes "div") [])) FontSize
        ≡ units 2048 }
    ensures em { of_root (page_with (codes "") (codes "div{font-size:2em;width:1em;height:1rem;max-width:1vw;min-width:1vh;min-height:1cqw;max-height:1cqh}") (leaf 0 (codes "div") [])) Width
        ≡ units 2048 }
    ensures rem { of_root (page_with (codes "") (codes "div{font-size:2em;width:1em;height:1rem;max-width:1vw;min-width:1vh;min-height:1cqw;max-height:1cqh}") (leaf 0 (codes "div") [])) Height
        ≡ units 2048 }
    ensures viewport_width { of_root (page_with (codes "") (codes "div{font-size:2em;width:1em;height:1rem;max-width:1vw;min-width:1vh;min-height:1cqw;max-height:1cqh}") (leaf 0 (codes "div") [])) MaxWidth
        ≡ units 512 }
    ensures viewport_height { of_root (page_with (codes "") (codes "div{font-size:2em;width:1em;height:1rem;max-width:1vw;min-width:1vh;min-height:1cqw;max-height:1cqh}") (leaf 0 (codes "div") [])) MinWidth
        ≡ units 384 }
    ensures container_width { of_root (page_with (codes "") (codes "div{font-size:2em;width:1em;height:1rem;max-width:1vw;min-width:1vh;min-height:1cqw;max-height:1cqh}") (leaf 0 (codes "div") [])) MinHeight
        ≡ units 512 }
    ensures container_height { of_root (page_with (codes "") (codes "div{font-size:2em;width:1em;height:1rem;max-width:1vw;min-width:1vh;min-height:1cqw;max-height:1cqh}") (leaf 0 (codes "div") [])) MaxHeight
        ≡ units 384 }
{}

/// `rem` of `font-size` at the root.
#[tactic(auto, unfolding(css_model::specs::inner::Nesting::levels_of, css_model::specs::inner::Pieces::pieces_after, css_model::specs::inner::Fronts::parts_after))]
pub fn root_rem()
    ensures font_size { of_root (page_with (codes "") (codes "div{font-size:2rem}") (leaf 0 (codes "div") [])) FontSize
        ≡ units 2048 }
{}

/// A percentage of `font-size` at the root.
#[tactic(auto, unfolding(css_model::specs::inner::Nesting::levels_of, css_model::specs::inner::Pieces::pieces_after, css_model::specs::inner::Fronts::parts_after))]
pub fn root_percentage()
    ensures font_size { of_root (page_with (codes "") (codes "div{font-size:50%}") (leaf 0 (codes "div") [])) FontSize
        ≡ units 512 }
{}

/// Below the root.
#[tactic(auto, unfolding(css_model::specs::inner::Nesting::levels_of, css_model::specs::inner::Pieces::pieces_after, css_model::specs::inner::Fronts::parts_after))]
pub fn child()
    ensures font_size { of_child (page_with (codes "") (codes "div{font-size:20px}p{font-size:2em;width:1em;height:1rem;line-height:50%}") (parent 0 (codes "div") [] (leaf 1 (codes "p") []))) FontSize
        ≡ units 2560 }
    ensures em { of_child (page_with (codes "") (codes "div{font-size:20px}p{font-size:2em;width:1em;height:1rem;line-height:50%}") (parent 0 (codes "div") [] (leaf 1 (codes "p") []))) Width
        ≡ units 2560 }
    ensures rem { of_child (page_with (codes "") (codes "div{font-size:20px}p{font-size:2em;width:1em;height:1rem;line-height:50%}") (parent 0 (codes "div") [] (leaf 1 (codes "p") []))) Height
        ≡ units 1280 }
    ensures line_height { of_child (page_with (codes "") (codes "div{font-size:20px}p{font-size:2em;width:1em;height:1rem;line-height:50%}") (parent 0 (codes "div") [] (leaf 1 (codes "p") []))) LineHeight
        ≡ units 1280 }
{}

/// A percentage and `rem` of `font-size`, below the root.
#[tactic(auto, unfolding(css_model::specs::inner::Nesting::levels_of, css_model::specs::inner::Pieces::pieces_after, css_model::specs::inner::Fronts::parts_after))]
pub fn relative()
    ensures percentage { of_child (page_with (codes "") (codes "div{font-size:20px}p{font-size:50%}q{font-size:1.5rem;width:1em}") (parent 0 (codes "div") [] (parent 1 (codes "p") [] (leaf 2 (codes "q") [])))) FontSize
        ≡ units 640 }
    ensures rem { of_grandchild (page_with (codes "") (codes "div{font-size:20px}p{font-size:50%}q{font-size:1.5rem;width:1em}") (parent 0 (codes "div") [] (parent 1 (codes "p") [] (leaf 2 (codes "q") [])))) FontSize
        ≡ units 1920 }
    ensures em { of_grandchild (page_with (codes "") (codes "div{font-size:20px}p{font-size:50%}q{font-size:1.5rem;width:1em}") (parent 0 (codes "div") [] (parent 1 (codes "p") [] (leaf 2 (codes "q") [])))) Width
        ≡ units 1920 }
{}

/// Font sizes are inherited, and so is a line height as it is computed.
#[tactic(auto, unfolding(css_model::specs::inner::Nesting::levels_of, css_model::specs::inner::Pieces::pieces_after, css_model::specs::inner::Fronts::parts_after))]
pub fn inherited()
    ensures font_size { of_child (page_with (codes "") (codes "div{font-size:20px;line-height:2em}p{width:1em}q{line-height:2}") (parent 0 (codes "div") [] (parent 1 (codes "p") [] (leaf 2 (codes "q") [])))) FontSize
        ≡ units 1280 }
    ensures line_height { of_child (page_with (codes "") (codes "div{font-size:20px;line-height:2em}p{width:1em}q{line-height:2}") (parent 0 (codes "div") [] (parent 1 (codes "p") [] (leaf 2 (codes "q") [])))) LineHeight
        ≡ units 2560 }
    ensures em { of_child (page_with (codes "") (codes "div{font-size:20px;line-height:2em}p{width:1em}q{line-height:2}") (parent 0 (codes "div") [] (parent 1 (codes "p") [] (leaf 2 (codes "q") [])))) Width
        ≡ units 1280 }
    ensures number { of_grandchild (page_with (codes "") (codes "div{font-size:20px;line-height:2em}p{width:1em}q{line-height:2}") (parent 0 (codes "div") [] (parent 1 (codes "p") [] (leaf 2 (codes "q") [])))) LineHeight
        ≡ number (pos 2000000) }
{}

/// `em` of `font-size` is the font size of the parent, and not that of the root.
#[tactic(auto, unfolding(css_model::specs::inner::Nesting::levels_of, css_model::specs::inner::Pieces::pieces_after, css_model::specs::inner::Fronts::parts_after))]
pub fn parent()
    ensures font_size { of_grandchild (page_with (codes "") (codes "div{font-size:20px}p{font-size:10px}q{font-size:2em}") (parent 0 (codes "div") [] (parent 1 (codes "p") [] (leaf 2 (codes "q") [])))) FontSize
        ≡ units 1280 }
{}

/// The order of declarations is no matter: the font size is first.
#[tactic(auto, unfolding(css_model::specs::inner::Nesting::levels_of, css_model::specs::inner::Pieces::pieces_after, css_model::specs::inner::Fronts::parts_after))]
pub fn first()
    ensures before { of_root (page_with (codes "") (codes "div{width:1em;font-size:10px;height:1em}") (leaf 0 (codes "div") [])) Width
        ≡ units 640 }
    ensures after { of_root (page_with (codes "") (codes "div{width:1em;font-size:10px;height:1em}") (leaf 0 (codes "div") [])) Height
        ≡ units 640 }
{}
