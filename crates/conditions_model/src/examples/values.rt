//! Values of features on viewports, at each edge (Media Queries 4, sections 2.4 and 4.1 to 4.4).
ghost use Rattle.conditions_model.specs.declared.tri.Tri.TheVariants.{Yes, No, Unknown};
ghost use Rattle.conditions_model.specs.inner.Examples.{value};
ghost use Rattle.std.specs.Prelude.{◌≡◌, codes};

/// The width against lengths: below, at and above.
#[tactic(auto, unfolding(css_model::specs::inner::Nesting::levels_of, css_model::specs::inner::Pieces::pieces_after, css_model::specs::inner::Fronts::parts_after))]
pub fn widths()
    ensures less_below { value 99 7 (codes "(width<100px)") ≡ Yes }
    ensures less_at { value 100 7 (codes "(width<100px)") ≡ No }
    ensures less_above { value 101 7 (codes "(width<100px)") ≡ No }
    ensures at_most_below { value 99 7 (codes "(width<=100px)") ≡ Yes }
    ensures at_most_at { value 100 7 (codes "(width<=100px)") ≡ Yes }
    ensures at_most_above { value 101 7 (codes "(width<=100px)") ≡ No }
    ensures equal_below { value 99 7 (codes "(width=100px)") ≡ No }
    ensures equal_at { value 100 7 (codes "(width=100px)") ≡ Yes }
    ensures equal_above { value 101 7 (codes "(width=100px)") ≡ No }
    ensures at_least_below { value 99 7 (codes "(width>=100px)") ≡ No }
    ensures at_least_at { value 100 7 (codes "(width>=100px)") ≡ Yes }
    ensures at_least_above { value 101 7 (codes "(width>=100px)") ≡ Yes }
    ensures more_below { value 99 7 (codes "(width>100px)") ≡ No }
    ensures more_at { value 100 7 (codes "(width>100px)") ≡ No }
    ensures more_above { value 101 7 (codes "(width>100px)") ≡ Yes }
    ensures min_below { value 99 7 (codes "(min-width:100px)") ≡ No }
    ensures min_at { value 100 7 (codes "(min-width:100px)") ≡ Yes }
    ensures min_above { value 101 7 (codes "(min-width:100px)") ≡ Yes }
    ensures max_below { value 99 7 (codes "(max-width:100px)") ≡ Yes }
    ensures max_at { value 100 7 (codes "(max-width:100px)") ≡ Yes }
    ensures max_above { value 101 7 (codes "(max-width:100px)") ≡ No }
    ensures plain_below { value 99 7 (codes "(width:100px)") ≡ No }
    ensures plain_at { value 100 7 (codes "(width:100px)") ≡ Yes }
    ensures plain_above { value 101 7 (codes "(width:100px)") ≡ No }
    ensures boolean_of_zero { value 0 7 (codes "(width)") ≡ No }
    ensures boolean_of_one { value 1 7 (codes "(width)") ≡ Yes }
    ensures first_edge { value 1 7 (codes "(1px < width <= 5px)") ≡ No }
    ensures inside { value 3 7 (codes "(1px < width <= 5px)") ≡ Yes }
    ensures last_edge { value 5 7 (codes "(1px < width <= 5px)") ≡ Yes }
    ensures outside { value 6 7 (codes "(1px < width <= 5px)") ≡ No }
    ensures a_millionth_less { value 100 100 (codes "(width < 100.000001px)") ≡ Yes }
    ensures a_millionth_more { value 100 100 (codes "(width > 99.999999px)") ≡ Yes }
    ensures no_rounding { value 100 100 (codes "(width = 100.000001px)") ≡ No }
    ensures more_than_negative { value 0 0 (codes "(width > -1px)") ≡ Yes }
    ensures empty_range { value 3 3 (codes "(5px < width < 1px)") ≡ No }
{}

/// The height against lengths: below, at and above.
#[tactic(auto, unfolding(css_model::specs::inner::Nesting::levels_of, css_model::specs::inner::Pieces::pieces_after, css_model::specs::inner::Fronts::parts_after))]
pub fn heights()
    ensures less_below { value 7 99 (codes "(height<100px)") ≡ Yes }
    ensures less_at { value 7 100 (codes "(height<100px)") ≡ No }
    ensures less_above { value 7 101 (codes "(height<100px)") ≡ No }
    ensures at_most_below { value 7 99 (codes "(height<=100px)") ≡ Yes }
    ensures at_most_at { value 7 100 (codes "(height<=100px)") ≡ Yes }
    ensures at_most_above { value 7 101 (codes "(height<=100px)") ≡ No }
    ensures equal_below { value 7 99 (codes "(height=100px)") ≡ No }
    ensures equal_at { value 7 100 (codes "(height=100px)") ≡ Yes }
    ensures equal_above { value 7 101 (codes "(height=100px)") ≡ No }
    ensures at_least_below { value 7 99 (codes "(height>=100px)") ≡ No }
    ensures at_least_at { value 7 100 (codes "(height>=100px)") ≡ Yes }
    ensures at_least_above { value 7 101 (codes "(height>=100px)") ≡ Yes }
    ensures more_below { value 7 99 (codes "(height>100px)") ≡ No }
    ensures more_at { value 7 100 (codes "(height>100px)") ≡ No }
    ensures more_above { value 7 101 (codes "(height>100px)") ≡ Yes }
    ensures min_below { value 7 99 (codes "(min-height:100px)") ≡ No }
    ensures min_at { value 7 100 (codes "(min-height:100px)") ≡ Yes }
    ensures min_above { value 7 101 (codes "(min-height:100px)") ≡ Yes }
    ensures max_below { value 7 99 (codes "(max-height:100px)") ≡ Yes }
    ensures max_at { value 7 100 (codes "(max-height:100px)") ≡ Yes }
    ensures max_above { value 7 101 (codes "(max-height:100px)") ≡ No }
    ensures plain_below { value 7 99 (codes "(height:100px)") ≡ No }
    ensures plain_at { value 7 100 (codes "(height:100px)") ≡ Yes }
    ensures plain_above { value 7 101 (codes "(height:100px)") ≡ No }
    ensures boolean_of_zero { value 7 0 (codes "(height)") ≡ No }
    ensures boolean_of_one { value 7 1 (codes "(height)") ≡ Yes }
    ensures first_edge { value 7 1 (codes "(1px < height <= 5px)") ≡ No }
    ensures inside { value 7 3 (codes "(1px < height <= 5px)") ≡ Yes }
    ensures last_edge { value 7 5 (codes "(1px < height <= 5px)") ≡ Yes }
    ensures outside { value 7 6 (codes "(1px < height <= 5px)") ≡ No }
    ensures a_millionth_less { value 100 100 (codes "(height < 100.000001px)") ≡ Yes }
    ensures a_millionth_more { value 100 100 (codes "(height > 99.999999px)") ≡ Yes }
    ensures no_rounding { value 100 100 (codes "(height = 100.000001px)") ≡ No }
    ensures more_than_negative { value 0 0 (codes "(height > -1px)") ≡ Yes }
    ensures empty_range { value 3 3 (codes "(5px < height < 1px)") ≡ No }
{}

/// Ratios, by products alone.
#[tactic(auto, unfolding(css_model::specs::inner::Nesting::levels_of, css_model::specs::inner::Pieces::pieces_after, css_model::specs::inner::Fronts::parts_after))]
pub fn ratios()
    ensures less_below { value 399 300 (codes "(aspect-ratio<4/3)") ≡ Yes }
    ensures less_at { value 400 300 (codes "(aspect-ratio<4/3)") ≡ No }
    ensures less_above { value 401 300 (codes "(aspect-ratio<4/3)") ≡ No }
    ensures at_most_below { value 399 300 (codes "(aspect-ratio<=4/3)") ≡ Yes }
    ensures at_most_at { value 400 300 (codes "(aspect-ratio<=4/3)") ≡ Yes }
    ensures at_most_above { value 401 300 (codes "(aspect-ratio<=4/3)") ≡ No }
    ensures equal_below { value 399 300 (codes "(aspect-ratio=4/3)") ≡ No }
    ensures equal_at { value 400 300 (codes "(aspect-ratio=4/3)") ≡ Yes }
    ensures equal_above { value 401 300 (codes "(aspect-ratio=4/3)") ≡ No }
    ensures at_least_below { value 399 300 (codes "(aspect-ratio>=4/3)") ≡ No }
    ensures at_least_at { value 400 300 (codes "(aspect-ratio>=4/3)") ≡ Yes }
    ensures at_least_above { value 401 300 (codes "(aspect-ratio>=4/3)") ≡ Yes }
    ensures more_below { value 399 300 (codes "(aspect-ratio>4/3)") ≡ No }
    ensures more_at { value 400 300 (codes "(aspect-ratio>4/3)") ≡ No }
    ensures more_above { value 401 300 (codes "(aspect-ratio>4/3)") ≡ Yes }
    ensures min_below { value 399 300 (codes "(min-aspect-ratio:4/3)") ≡ No }
    ensures min_at { value 400 300 (codes "(min-aspect-ratio:4/3)") ≡ Yes }
    ensures max_at { value 400 300 (codes "(max-aspect-ratio:4/3)") ≡ Yes }
    ensures max_above { value 401 300 (codes "(max-aspect-ratio:4/3)") ≡ No }
    ensures no_rounded_quotient { value 3333 9999 (codes "(aspect-ratio:0.333333)") ≡ No }
    ensures a_third { value 3333 9999 (codes "(aspect-ratio:1/3)") ≡ Yes }
    ensures not_turned_round { value 1 2 (codes "(aspect-ratio > 1)") ≡ No }
    ensures near { value 9999 10000 (codes "(aspect-ratio < 1)") ≡ Yes }
    ensures near_above { value 10000 9999 (codes "(aspect-ratio > 1)") ≡ Yes }
    ensures of_no_height { value 5 0 (codes "(aspect-ratio > 1000000)") ≡ Yes }
    ensures of_nothing { value 0 0 (codes "(aspect-ratio = 7)") ≡ Yes }
    ensures zero_divisor { value 5 0 (codes "(aspect-ratio = 1/0)") ≡ Yes }
    ensures less_than_zero_divisor { value 5 5 (codes "(aspect-ratio < 1/0)") ≡ Yes }
    ensures zeros { value 5 7 (codes "(aspect-ratio = 0/0)") ≡ Yes }
    ensures two_sided { value 3 2 (codes "(1 < aspect-ratio <= 3/2)") ≡ Yes }
    ensures boolean { value 1 1 (codes "(aspect-ratio)") ≡ Yes }
    ensures boolean_of_no_width { value 0 1 (codes "(aspect-ratio)") ≡ No }
    ensures boolean_of_no_height { value 1 0 (codes "(aspect-ratio)") ≡ Yes }
{}

/// Orientations: a square is upright.
#[tactic(auto, unfolding(css_model::specs::inner::Nesting::levels_of, css_model::specs::inner::Pieces::pieces_after, css_model::specs::inner::Fronts::parts_after))]
pub fn orientations()
    ensures upright_portrait { value 2 3 (codes "(orientation:portrait)") ≡ Yes }
    ensures upright_landscape { value 2 3 (codes "(orientation:landscape)") ≡ No }
    ensures upright_boolean { value 2 3 (codes "(orientation)") ≡ Yes }
    ensures square_portrait { value 3 3 (codes "(orientation:portrait)") ≡ Yes }
    ensures square_landscape { value 3 3 (codes "(orientation:landscape)") ≡ No }
    ensures square_boolean { value 3 3 (codes "(orientation)") ≡ Yes }
    ensures lying_portrait { value 4 3 (codes "(orientation:portrait)") ≡ No }
    ensures lying_landscape { value 4 3 (codes "(orientation:landscape)") ≡ Yes }
    ensures lying_boolean { value 4 3 (codes "(orientation)") ≡ Yes }
    ensures of_nothing { value 0 0 (codes "(orientation)") ≡ Yes }
{}

/// Relative lengths: the font size is 16 pixels, and units of containers stand for those of the
/// viewport.
#[tactic(auto, unfolding(css_model::specs::inner::Nesting::levels_of, css_model::specs::inner::Pieces::pieces_after, css_model::specs::inner::Fronts::parts_after))]
pub fn relative()
    ensures em { value 800 600 (codes "(width = 50em)") ≡ Yes }
    ensures rem { value 800 600 (codes "(width = 50rem)") ≡ Yes }
    ensures vw { value 800 600 (codes "(width = 100vw)") ≡ Yes }
    ensures vh { value 800 600 (codes "(height = 100vh)") ≡ Yes }
    ensures vw_of_the_height { value 800 600 (codes "(height = 75vw)") ≡ Yes }
    ensures cqw { value 800 600 (codes "(width = 100cqw)") ≡ Yes }
    ensures cqh { value 800 600 (codes "(height = 100cqh)") ≡ Yes }
    ensures cqmin { value 800 600 (codes "(height = 100cqmin)") ≡ Yes }
    ensures less_than_vw { value 800 600 (codes "(width < 100.000001vw)") ≡ Yes }
{}

/// What is Unknown, and what Unknown leaves open.
#[tactic(auto, unfolding(css_model::specs::inner::Nesting::levels_of, css_model::specs::inner::Pieces::pieces_after, css_model::specs::inner::Fronts::parts_after))]
pub fn unknown()
    ensures unknown { value 800 600 (codes "(foo)") ≡ Unknown }
    ensures bad_value { value 800 600 (codes "(width:5)") ≡ Unknown }
    ensures bad_form { value 800 600 (codes "(min-width > 1px)") ≡ Unknown }
    ensures two_directions { value 800 600 (codes "(1px < width > 5px)") ≡ Unknown }
    ensures a_size_of_containers { value 800 600 (codes "(inline-size > 1px)") ≡ Unknown }
    ensures function { value 800 600 (codes "f(width)") ≡ Unknown }
    ensures style { value 800 600 (codes "style(--a)") ≡ Unknown }
    ensures not_unknown { value 800 600 (codes "not (foo)") ≡ Unknown }
    ensures not_a_function { value 800 600 (codes "not(width)") ≡ Unknown }
    ensures and_yes { value 800 600 (codes "(foo) and (width)") ≡ Unknown }
    ensures or_no { value 800 600 (codes "(foo) or (width < 1px)") ≡ Unknown }
    ensures and_no { value 800 600 (codes "(foo) and (width < 1px)") ≡ No }
    ensures or_yes { value 800 600 (codes "(foo) or (width)") ≡ Yes }
    ensures yes_or { value 800 600 (codes "(width) or (foo)") ≡ Yes }
    ensures no_and { value 800 600 (codes "(width < 1px) and (foo)") ≡ No }
{}
