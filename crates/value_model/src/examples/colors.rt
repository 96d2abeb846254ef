//! Colours (CSS Color 4, sections 5.2 and 6).
ghost use Rattle.std.specs.Prelude.{◌≡◌, None, Some, codes};
ghost use Rattle.value_model.specs.Colors.{rgba};
ghost use Rattle.value_model.specs.declared.color.Color.TheVariants.{CurrentColor, Rgba};
ghost use Rattle.value_model.specs.inner.Examples.{color_in};

/// The named colours, in any case.
#[tactic(auto, unfolding(css_model::specs::inner::Nesting::levels_of, css_model::specs::inner::Pieces::pieces_after, css_model::specs::inner::Fronts::parts_after))]
pub fn names()
    ensures black { color_in (codes "black") ≡ Some (Rgba (rgba 0 0 0 255)) }
    ensures silver { color_in (codes "silver") ≡ Some (Rgba (rgba 192 192 192 255)) }
    ensures gray { color_in (codes "gray") ≡ Some (Rgba (rgba 128 128 128 255)) }
    ensures white { color_in (codes "white") ≡ Some (Rgba (rgba 255 255 255 255)) }
    ensures maroon { color_in (codes "maroon") ≡ Some (Rgba (rgba 128 0 0 255)) }
    ensures red { color_in (codes "red") ≡ Some (Rgba (rgba 255 0 0 255)) }
    ensures purple { color_in (codes "purple") ≡ Some (Rgba (rgba 128 0 128 255)) }
    ensures fuchsia { color_in (codes "fuchsia") ≡ Some (Rgba (rgba 255 0 255 255)) }
    ensures green { color_in (codes "green") ≡ Some (Rgba (rgba 0 128 0 255)) }
    ensures lime { color_in (codes "lime") ≡ Some (Rgba (rgba 0 255 0 255)) }
    ensures olive { color_in (codes "olive") ≡ Some (Rgba (rgba 128 128 0 255)) }
    ensures yellow { color_in (codes "yellow") ≡ Some (Rgba (rgba 255 255 0 255)) }
    ensures navy { color_in (codes "navy") ≡ Some (Rgba (rgba 0 0 128 255)) }
    ensures blue { color_in (codes "blue") ≡ Some (Rgba (rgba 0 0 255 255)) }
    ensures teal { color_in (codes "teal") ≡ Some (Rgba (rgba 0 128 128 255)) }
    ensures aqua { color_in (codes "aqua") ≡ Some (Rgba (rgba 0 255 255 255)) }
    ensures orange { color_in (codes "orange") ≡ Some (Rgba (rgba 255 165 0 255)) }
    ensures transparent { color_in (codes "transparent") ≡ Some (Rgba (rgba 0 0 0 0)) }
    ensures current { color_in (codes "currentcolor") ≡ Some CurrentColor }
    ensures in_capitals { color_in (codes "RED") ≡ Some (Rgba (rgba 255 0 0 255)) }
    ensures current_in_capitals { color_in (codes "currentColor") ≡ Some CurrentColor }
    ensures escape { color_in (codes "r\\65 d") ≡ Some (Rgba (rgba 255 0 0 255)) }
{}

/// The hexadecimal notations.
#[tactic(auto, unfolding(css_model::specs::inner::Nesting::levels_of, css_model::specs::inner::Pieces::pieces_after, css_model::specs::inner::Fronts::parts_after))]
pub fn digits()
    ensures three { color_in (codes "#1aF") ≡ Some (Rgba (rgba 17 170 255 255)) }
    ensures four { color_in (codes "#1aF0") ≡ Some (Rgba (rgba 17 170 255 0)) }
    ensures six { color_in (codes "#12aBfe") ≡ Some (Rgba (rgba 18 171 254 255)) }
    ensures eight { color_in (codes "#12aBfe80") ≡ Some (Rgba (rgba 18 171 254 128)) }
    ensures begins_with_a_letter { color_in (codes "#abc") ≡ Some (Rgba (rgba 170 187 204 255)) }
{}

/// What is no colour.
#[tactic(auto, unfolding(css_model::specs::inner::Nesting::levels_of, css_model::specs::inner::Pieces::pieces_after, css_model::specs::inner::Fronts::parts_after))]
pub fn no_color()
    ensures one { color_in (codes "#1") ≡ None }
    ensures two { color_in (codes "#12") ≡ None }
    ensures five { color_in (codes "#12345") ≡ None }
    ensures seven { color_in (codes "#1234567") ≡ None }
    ensures nine { color_in (codes "#123456789") ≡ None }
    ensures no_digit { color_in (codes "#12g") ≡ None }
    ensures cyan { color_in (codes "cyan") ≡ None }
    ensures magenta { color_in (codes "magenta") ≡ None }
    ensures grey { color_in (codes "grey") ≡ None }
    ensures another_name { color_in (codes "rebeccapurple") ≡ None }
    ensures a_function { color_in (codes "rgb(0,0,0)") ≡ None }
    ensures a_string { color_in (codes "\"red\"") ≡ None }
    ensures a_number { color_in (codes "123") ≡ None }
    ensures none { color_in (codes "none") ≡ None }
    ensures nothing { color_in (codes "") ≡ None }
{}
