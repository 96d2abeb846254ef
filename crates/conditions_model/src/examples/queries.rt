//! Media queries and lists of them (Media Queries 4, sections 2.1 to 2.3 and 3).
ghost use Rattle.conditions_model.specs.ConditionTrees.{all_of, any_of, enclosed, feature, negation};
ghost use Rattle.conditions_model.specs.MediaQueries.{condition_query, not_all, type_query};
ghost use Rattle.conditions_model.specs.SizeFeatures.{boolean};
ghost use Rattle.conditions_model.specs.declared.feature_name.FeatureName.TheVariants.{Width};
ghost use Rattle.conditions_model.specs.declared.media_type.MediaType.TheVariants.{All, Other, Screen};
ghost use Rattle.conditions_model.specs.declared.tri.Tri.TheVariants.{Yes, No, Unknown};
ghost use Rattle.conditions_model.specs.inner.Examples.{matches, query, value, width_height};
ghost use Rattle.std.specs.Prelude.{◌≡◌, None, Some, codes, true, false};

/// Queries. What is no query is `not all`.
#[tactic(auto, unfolding(css_model::specs::inner::Nesting::levels_of, css_model::specs::inner::Pieces::pieces_after, css_model::specs::inner::Fronts::parts_after))]
pub fn queries()
    ensures all { query (codes "all") ≡ type_query false All None }
    ensures screen { query (codes "screen") ≡ type_query false Screen None }
    ensures print { query (codes "print") ≡ type_query false Other None }
    ensures any_other { query (codes "foo") ≡ type_query false Other None }
    ensures in_capitals { query (codes "SCREEN") ≡ type_query false Screen None }
    ensures escape { query (codes "\\61ll") ≡ type_query false All None }
    ensures not { query (codes "not screen") ≡ type_query true Screen None }
    ensures only { query (codes "only screen") ≡ type_query false Screen None }
    ensures in_capitals_not { query (codes "NOT Screen") ≡ type_query true Screen None }
    ensures and { query (codes "screen and (width)")
        ≡ type_query false Screen (Some (feature (boolean Width))) }
    ensures not_and { query (codes "not screen and (width)")
        ≡ type_query true Screen (Some (feature (boolean Width))) }
    ensures only_and { query (codes "only all and (width)")
        ≡ type_query false All (Some (feature (boolean Width))) }
    ensures and_and { query (codes "screen and (width) and (height)")
        ≡ type_query false Screen (Some (all_of width_height)) }
    ensures and_or_in_brackets { query (codes "screen and ((width) or (height))")
        ≡ type_query false Screen (Some (any_of width_height)) }
    ensures and_enclosed { query (codes "screen and (foo)")
        ≡ type_query false Screen (Some enclosed) }
    ensures and_not { query (codes "screen and not (width)")
        ≡ type_query false Screen (Some (negation (feature (boolean Width)))) }
    ensures whitespace { query (codes " screen  and/**/ (width) ")
        ≡ type_query false Screen (Some (feature (boolean Width))) }
    ensures condition { query (codes "(width)") ≡ condition_query (feature (boolean Width)) }
    ensures or { query (codes "(width) or (height)")
        ≡ condition_query (any_of width_height) }
    ensures unknown_feature { query (codes "(a)") ≡ condition_query enclosed }
    ensures and_alone { query (codes "and") ≡ not_all }
    ensures or_alone { query (codes "or") ≡ not_all }
    ensures not_alone { query (codes "not") ≡ not_all }
    ensures only_alone { query (codes "only") ≡ not_all }
    ensures layer { query (codes "layer") ≡ not_all }
    ensures layer_in_capitals { query (codes "LAYER") ≡ not_all }
    ensures not_layer { query (codes "not layer") ≡ not_all }
    ensures only_not { query (codes "only not screen") ≡ not_all }
    ensures not_only { query (codes "not only screen") ≡ not_all }
    ensures not_twice { query (codes "not not screen") ≡ not_all }
    ensures only_condition { query (codes "only (width)") ≡ not_all }
    ensures two_types { query (codes "screen print") ≡ not_all }
    ensures type_or { query (codes "screen or (width)") ≡ not_all }
    ensures and_or { query (codes "screen and (width) or (height)") ≡ not_all }
    ensures or_after_and { query (codes "screen and (width) and (width) or (height)") ≡ not_all }
    ensures type_and { query (codes "screen and") ≡ not_all }
    ensures type_and_type { query (codes "screen and print") ≡ not_all }
    ensures type_and_not_type { query (codes "screen and not print") ≡ not_all }
    ensures condition_and_type { query (codes "(width) and screen") ≡ not_all }
    ensures no_and { query (codes "screen (width)") ≡ not_all }
    ensures a_function_of_and { query (codes "screen and(width)") ≡ not_all }
    ensures not_and_mixed { query (codes "not (width) and (height)") ≡ not_all }
    ensures a_number { query (codes "1") ≡ not_all }
    ensures empty { query (codes "") ≡ not_all }
    ensures a_string { query (codes "\"screen\"") ≡ not_all }
    ensures a_square_block { query (codes "[width]") ≡ not_all }
{}

/// Values of queries on a viewport of 800 by 600 pixels: `not` negates the whole, `only` nothing.
#[tactic(auto, unfolding(css_model::specs::inner::Nesting::levels_of, css_model::specs::inner::Pieces::pieces_after, css_model::specs::inner::Fronts::parts_after))]
pub fn query_values()
    ensures all { value 800 600 (codes "all") ≡ Yes }
    ensures screen { value 800 600 (codes "screen") ≡ Yes }
    ensures print { value 800 600 (codes "print") ≡ No }
    ensures not_screen { value 800 600 (codes "not screen") ≡ No }
    ensures not_print { value 800 600 (codes "not print") ≡ Yes }
    ensures only_screen { value 800 600 (codes "only screen") ≡ Yes }
    ensures only_print { value 800 600 (codes "only print") ≡ No }
    ensures not_of_the_whole { value 800 600 (codes "not screen and (width < 1px)") ≡ Yes }
    ensures not_of_the_whole_yes { value 800 600 (codes "not screen and (width)") ≡ No }
    ensures not_print_and { value 800 600 (codes "not print and (width < 1px)") ≡ Yes }
    ensures print_and_unknown { value 800 600 (codes "print and (foo)") ≡ No }
    ensures screen_and_unknown { value 800 600 (codes "screen and (foo)") ≡ Unknown }
    ensures not_screen_and_unknown { value 800 600 (codes "not screen and (foo)") ≡ Unknown }
    ensures not_print_and_unknown { value 800 600 (codes "not print and (foo)") ≡ Yes }
    ensures screen_and { value 800 600 (codes "screen and (width)") ≡ Yes }
    ensures no_query { value 800 600 (codes "and") ≡ No }
    ensures no_query_negated { value 800 600 (codes "not and") ≡ No }
{}

/// Lists on a viewport of 800 by 600 pixels. A list without a query matches, and what is no query spoils
/// itself alone.
#[tactic(auto, unfolding(css_model::specs::inner::Nesting::levels_of, css_model::specs::inner::Pieces::pieces_after, css_model::specs::inner::Fronts::parts_after))]
pub fn lists()
    ensures not_unknown { matches 800 600 (codes "not (foo)") ≡ false }
    ensures unknown_or { matches 800 600 (codes "(foo) or (width > 1px)") ≡ true }
    ensures screen { matches 800 600 (codes "screen") ≡ true }
    ensures print { matches 800 600 (codes "print") ≡ false }
    ensures two_queries { matches 800 600 (codes "print, (orientation: landscape)") ≡ true }
    ensures no_query { matches 800 600 (codes "and") ≡ false }
    ensures unknown { matches 800 600 (codes "(a)") ≡ false }
    ensures open_brackets { matches 800 600 (codes "(width > 1px and (a)") ≡ false }
    ensures empty { matches 800 600 (codes "") ≡ true }
    ensures whitespace { matches 800 600 (codes " \n ") ≡ true }
    ensures a_comment { matches 800 600 (codes "/**/") ≡ true }
    ensures a_comma { matches 800 600 (codes ",") ≡ false }
    ensures one_bad { matches 800 600 (codes "and, screen") ≡ true }
    ensures bad_last { matches 800 600 (codes "screen, 1") ≡ true }
    ensures a_comma_at_the_end { matches 800 600 (codes "screen,") ≡ true }
    ensures a_comma_at_the_end_of_no { matches 800 600 (codes "print,") ≡ false }
    ensures all_no { matches 800 600 (codes "print, not screen") ≡ false }
    ensures unknown_and_yes { matches 800 600 (codes "(foo), screen") ≡ true }
    ensures unknown_and_no { matches 800 600 (codes "(foo), print") ≡ false }
    ensures comma_in_brackets { matches 800 600 (codes "(a,screen)") ≡ false }
    ensures comma_in_a_function { matches 800 600 (codes "f(a),screen") ≡ true }
    ensures no_whitespace { matches 800 600 (codes "print,screen") ≡ true }
    ensures three { matches 800 600 (codes "print, print, all") ≡ true }
    ensures a_semicolon { matches 800 600 (codes "screen;") ≡ false }
    ensures a_closing_bracket { matches 800 600 (codes "screen)") ≡ false }
    ensures not_of_one { matches 800 600 (codes "not screen, print") ≡ false }
{}
