//! Features in their forms (Media Queries 4, sections 2.4 and 4.1 to 4.4).
ghost use Rattle.value_model.specs.Lengths.{unit};
ghost use Rattle.conditions_model.specs.SizeFeatures.{boolean, bounded, orientation_is};
ghost use Rattle.conditions_model.specs.declared.comparison.Comparison.TheVariants.{LessThan, AtMost, EqualTo, AtLeast, MoreThan};
ghost use Rattle.conditions_model.specs.declared.feature_name.FeatureName.TheVariants.{Width, Height, AspectRatio, Orientation};
ghost use Rattle.value_model.specs.declared.length_unit.LengthBase.TheVariants.{Pixel, Em};
ghost use Rattle.conditions_model.specs.declared.orientation.Orientation.TheVariants.{Landscape, Portrait};
ghost use Rattle.conditions_model.specs.inner.Examples.{bound, length, media_feature, px, ratio};
ghost use Rattle.std.specs.Prelude.{◌≡◌, ◌∷◌, [], None, Some, codes, neg_ℤ, pos};

/// The boolean form (2.4.2).
#[tactic(auto, unfolding(css_model::specs::inner::Nesting::levels_of, css_model::specs::inner::Pieces::pieces_after, css_model::specs::inner::Fronts::parts_after))]
pub fn boolean_form()
    ensures width { media_feature (codes "width") ≡ Some (boolean Width) }
    ensures height { media_feature (codes "height") ≡ Some (boolean Height) }
    ensures aspect_ratio { media_feature (codes "aspect-ratio") ≡ Some (boolean AspectRatio) }
    ensures orientation { media_feature (codes "orientation") ≡ Some (boolean Orientation) }
    ensures in_capitals { media_feature (codes "WIDTH") ≡ Some (boolean Width) }
    ensures escape { media_feature (codes "w\\69 dth") ≡ Some (boolean Width) }
    ensures unknown { media_feature (codes "foo") ≡ None }
    ensures with_prefix { media_feature (codes "min-width") ≡ None }
    ensures a_size_of_containers { media_feature (codes "inline-size") ≡ None }
    ensures a_number { media_feature (codes "1") ≡ None }
    ensures two { media_feature (codes "width height") ≡ None }
    ensures none { media_feature (codes "") ≡ None }
{}

/// The plain form (2.4, 2.4.4).
#[tactic(auto, unfolding(css_model::specs::inner::Nesting::levels_of, css_model::specs::inner::Pieces::pieces_after, css_model::specs::inner::Fronts::parts_after))]
pub fn plain_form()
    ensures width { media_feature (codes "width:5px")
        ≡ Some (bounded Width (bound EqualTo (px 5) ∷ [])) }
    ensures height { media_feature (codes "height : 5px")
        ≡ Some (bounded Height (bound EqualTo (px 5) ∷ [])) }
    ensures at_least { media_feature (codes "min-width: 5px")
        ≡ Some (bounded Width (bound AtLeast (px 5) ∷ [])) }
    ensures at_most { media_feature (codes "max-height:5px")
        ≡ Some (bounded Height (bound AtMost (px 5) ∷ [])) }
    ensures in_capitals { media_feature (codes "MIN-Width: 5PX")
        ≡ Some (bounded Width (bound AtLeast (px 5) ∷ [])) }
    ensures zero { media_feature (codes "width:0")
        ≡ Some (bounded Width (bound EqualTo (px 0) ∷ [])) }
    ensures negative { media_feature (codes "min-width:-5px")
        ≡ Some (bounded Width (bound AtLeast (length (neg_ℤ (pos 5000000)) (unit Pixel 1 1)) ∷ [])) }
    ensures em { media_feature (codes "width:1em")
        ≡ Some (bounded Width (bound EqualTo (length (pos 1000000) (unit Em 1 1)) ∷ [])) }
    ensures a_ratio { media_feature (codes "aspect-ratio:4/3")
        ≡ Some (bounded AspectRatio (bound EqualTo (ratio 4 3) ∷ [])) }
    ensures ratio_with_whitespace { media_feature (codes "min-aspect-ratio: 4 / 3 ")
        ≡ Some (bounded AspectRatio (bound AtLeast (ratio 4 3) ∷ [])) }
    ensures one_number { media_feature (codes "max-aspect-ratio:2")
        ≡ Some (bounded AspectRatio (bound AtMost (ratio 2 1) ∷ [])) }
    ensures zeros { media_feature (codes "aspect-ratio:0/0")
        ≡ Some (bounded AspectRatio (bound EqualTo (ratio 0 0) ∷ [])) }
    ensures a_comment { media_feature (codes "width/**/:/**/5px")
        ≡ Some (bounded Width (bound EqualTo (px 5) ∷ [])) }
    ensures portrait { media_feature (codes "orientation:portrait")
        ≡ Some (orientation_is Portrait) }
    ensures landscape { media_feature (codes "ORIENTATION: Landscape ")
        ≡ Some (orientation_is Landscape) }
    ensures a_number { media_feature (codes "width:5") ≡ None }
    ensures a_percentage { media_feature (codes "width:5%") ≡ None }
    ensures another_unit { media_feature (codes "width:5deg") ≡ None }
    ensures no_value { media_feature (codes "width:") ≡ None }
    ensures two_values { media_feature (codes "width:5px 6px") ≡ None }
    ensures a_word { media_feature (codes "width:a") ≡ None }
    ensures no_colon { media_feature (codes "width 5px") ≡ None }
    ensures a_length_for_a_ratio { media_feature (codes "aspect-ratio:4px/3px") ≡ None }
    ensures a_negative_ratio { media_feature (codes "aspect-ratio:-4/3") ≡ None }
    ensures a_negative_divisor { media_feature (codes "aspect-ratio:4/-3") ≡ None }
    ensures three_numbers { media_feature (codes "aspect-ratio:4/3/2") ≡ None }
    ensures no_slash { media_feature (codes "aspect-ratio:4 3") ≡ None }
    ensures half_a_ratio { media_feature (codes "aspect-ratio:4/") ≡ None }
    ensures another_orientation { media_feature (codes "orientation:square") ≡ None }
    ensures orientation_at_least { media_feature (codes "min-orientation:portrait") ≡ None }
    ensures two_prefixes { media_feature (codes "min-max-width:5px") ≡ None }
    ensures unknown { media_feature (codes "foo:5px") ≡ None }
    ensures unknown_at_least { media_feature (codes "min-foo:5px") ≡ None }
    ensures another_prefix { media_feature (codes "mid-width:5px") ≡ None }
    ensures a_ratio_for_a_length { media_feature (codes "width:4/3") ≡ None }
    ensures prefix_alone { media_feature (codes "min-:5px") ≡ None }
    ensures a_semicolon { media_feature (codes "width:5px;") ≡ None }
{}

/// The range form with one sign (2.4.3).
#[tactic(auto, unfolding(css_model::specs::inner::Nesting::levels_of, css_model::specs::inner::Pieces::pieces_after, css_model::specs::inner::Fronts::parts_after))]
pub fn one_sided()
    ensures less_than { media_feature (codes "width < 5px")
        ≡ Some (bounded Width (bound LessThan (px 5) ∷ [])) }
    ensures at_most { media_feature (codes "width <= 5px")
        ≡ Some (bounded Width (bound AtMost (px 5) ∷ [])) }
    ensures equal_to { media_feature (codes "width = 5px")
        ≡ Some (bounded Width (bound EqualTo (px 5) ∷ [])) }
    ensures at_least { media_feature (codes "width >= 5px")
        ≡ Some (bounded Width (bound AtLeast (px 5) ∷ [])) }
    ensures more_than { media_feature (codes "width > 5px")
        ≡ Some (bounded Width (bound MoreThan (px 5) ∷ [])) }
    ensures less_than_after { media_feature (codes "5px < height")
        ≡ Some (bounded Height (bound MoreThan (px 5) ∷ [])) }
    ensures at_most_after { media_feature (codes "5px <= height")
        ≡ Some (bounded Height (bound AtLeast (px 5) ∷ [])) }
    ensures equal_to_after { media_feature (codes "5px = height")
        ≡ Some (bounded Height (bound EqualTo (px 5) ∷ [])) }
    ensures at_least_after { media_feature (codes "5px >= height")
        ≡ Some (bounded Height (bound AtMost (px 5) ∷ [])) }
    ensures more_than_after { media_feature (codes "5px > height")
        ≡ Some (bounded Height (bound LessThan (px 5) ∷ [])) }
    ensures no_whitespace { media_feature (codes "width<=5px")
        ≡ Some (bounded Width (bound AtMost (px 5) ∷ [])) }
    ensures no_whitespace_after { media_feature (codes "5px<width")
        ≡ Some (bounded Width (bound MoreThan (px 5) ∷ [])) }
    ensures a_comment_in_the_sign { media_feature (codes "width</**/=5px")
        ≡ Some (bounded Width (bound AtMost (px 5) ∷ [])) }
    ensures a_ratio { media_feature (codes "aspect-ratio>4/3")
        ≡ Some (bounded AspectRatio (bound MoreThan (ratio 4 3) ∷ [])) }
    ensures a_ratio_after { media_feature (codes "4 / 3 <= aspect-ratio")
        ≡ Some (bounded AspectRatio (bound AtLeast (ratio 4 3) ∷ [])) }
    ensures whitespace_in_the_sign { media_feature (codes "width < = 5px") ≡ None }
    ensures equal_first { media_feature (codes "width =< 5px") ≡ None }
    ensures two_signs { media_feature (codes "width <> 5px") ≡ None }
    ensures two_equals { media_feature (codes "width == 5px") ≡ None }
    ensures with_prefix { media_feature (codes "min-width > 5px") ≡ None }
    ensures with_prefix_after { media_feature (codes "5px < max-width") ≡ None }
    ensures orientation { media_feature (codes "orientation = portrait") ≡ None }
    ensures no_value { media_feature (codes "width <") ≡ None }
    ensures no_feature { media_feature (codes "< 5px") ≡ None }
    ensures two_features { media_feature (codes "width < height") ≡ None }
    ensures two_values { media_feature (codes "5px < 6px") ≡ None }
    ensures unknown { media_feature (codes "foo < 5px") ≡ None }
    ensures a_bad_value { media_feature (codes "width < 5") ≡ None }
    ensures two_names { media_feature (codes "width height < 5px") ≡ None }
    ensures a_colon { media_feature (codes "width <: 5px") ≡ None }
{}

/// The range form with two signs of one direction (2.4.3).
#[tactic(auto, unfolding(css_model::specs::inner::Nesting::levels_of, css_model::specs::inner::Pieces::pieces_after, css_model::specs::inner::Fronts::parts_after))]
pub fn two_sided()
    ensures less_less { media_feature (codes "1px < width < 5px")
        ≡ Some (bounded Width (bound MoreThan (px 1) ∷ bound LessThan (px 5) ∷ [])) }
    ensures less_at_most { media_feature (codes "1px < width <= 5px")
        ≡ Some (bounded Width (bound MoreThan (px 1) ∷ bound AtMost (px 5) ∷ [])) }
    ensures at_most_less { media_feature (codes "1px <= width < 5px")
        ≡ Some (bounded Width (bound AtLeast (px 1) ∷ bound LessThan (px 5) ∷ [])) }
    ensures at_most_at_most { media_feature (codes "1px <= width <= 5px")
        ≡ Some (bounded Width (bound AtLeast (px 1) ∷ bound AtMost (px 5) ∷ [])) }
    ensures more_more { media_feature (codes "1px > width > 5px")
        ≡ Some (bounded Width (bound LessThan (px 1) ∷ bound MoreThan (px 5) ∷ [])) }
    ensures more_at_least { media_feature (codes "1px > width >= 5px")
        ≡ Some (bounded Width (bound LessThan (px 1) ∷ bound AtLeast (px 5) ∷ [])) }
    ensures at_least_more { media_feature (codes "1px >= width > 5px")
        ≡ Some (bounded Width (bound AtMost (px 1) ∷ bound MoreThan (px 5) ∷ [])) }
    ensures at_least_at_least { media_feature (codes "1px >= width >= 5px")
        ≡ Some (bounded Width (bound AtMost (px 1) ∷ bound AtLeast (px 5) ∷ [])) }
    ensures no_whitespace { media_feature (codes "1px<height<=5px")
        ≡ Some (bounded Height (bound MoreThan (px 1) ∷ bound AtMost (px 5) ∷ [])) }
    ensures ratios { media_feature (codes "1/2<aspect-ratio<2")
        ≡ Some (bounded AspectRatio (bound MoreThan (ratio 1 2) ∷ bound LessThan (ratio 2 1) ∷ [])) }
    ensures less_then_more { media_feature (codes "1px < width > 5px") ≡ None }
    ensures at_most_then_at_least { media_feature (codes "1px <= width >= 5px") ≡ None }
    ensures more_then_less { media_feature (codes "1px > width < 5px") ≡ None }
    ensures at_least_then_at_most { media_feature (codes "1px >= width <= 5px") ≡ None }
    ensures equal_then_equal { media_feature (codes "1px = width = 5px") ≡ None }
    ensures less_then_equal { media_feature (codes "1px < width = 5px") ≡ None }
    ensures equal_then_less { media_feature (codes "1px = width < 5px") ≡ None }
    ensures more_then_equal { media_feature (codes "1px > width = 5px") ≡ None }
    ensures at_most_then_more { media_feature (codes "1px <= width > 5px") ≡ None }
    ensures feature_first { media_feature (codes "width < 1px < 5px") ≡ None }
    ensures feature_last { media_feature (codes "1px < 5px < width") ≡ None }
    ensures three_signs { media_feature (codes "1px < width < 5px < 9px") ≡ None }
    ensures with_prefix { media_feature (codes "1px < min-width < 5px") ≡ None }
    ensures a_bad_first_value { media_feature (codes "1 < width < 5px") ≡ None }
    ensures a_bad_last_value { media_feature (codes "1px < width < 5") ≡ None }
    ensures no_first_value { media_feature (codes "< width < 5px") ≡ None }
    ensures no_last_value { media_feature (codes "1px < width <") ≡ None }
    ensures orientation { media_feature (codes "1px < orientation < 5px") ≡ None }
{}
