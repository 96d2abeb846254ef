//! Conditions for features of any kind: here one identifier in round brackets (Media Queries 4,
//! section 3).
ghost use Rattle.conditions_model.specs.ConditionTrees.{all_of, any_of, enclosed, feature, negation};
ghost use Rattle.conditions_model.specs.inner.Examples.{a, b, c, three, tree, tree_of_features, two};
ghost use Rattle.std.specs.Prelude.{◌≡◌, None, Some, codes};

/// A part alone is itself, in however many brackets.
#[tactic(auto, unfolding(css_model::specs::inner::Nesting::levels_of, css_model::specs::inner::Pieces::pieces_after, css_model::specs::inner::Fronts::parts_after))]
pub fn part_alone()
    ensures one { tree (codes "(a)") ≡ Some a }
    ensures whitespace { tree (codes " ( (a) ) ") ≡ Some a }
    ensures in_brackets { tree (codes "((a))") ≡ Some a }
    ensures thrice { tree (codes "(((a)))") ≡ Some a }
    ensures open { tree (codes "((a") ≡ Some a }
    ensures a_comment { tree (codes "/**/(a)/**/") ≡ Some a }
    ensures another_case { tree (codes "(A)") ≡ Some (feature (codes "A")) }
{}

/// `not` takes one part and stands alone at its level. With `(` right after it, it is the name of a
/// function.
#[tactic(auto, unfolding(css_model::specs::inner::Nesting::levels_of, css_model::specs::inner::Pieces::pieces_after, css_model::specs::inner::Fronts::parts_after))]
pub fn not()
    ensures not { tree (codes "not (a)") ≡ Some (negation a) }
    ensures in_capitals { tree (codes "NoT (a)") ≡ Some (negation a) }
    ensures escape { tree (codes "n\\6ft (a)") ≡ Some (negation a) }
    ensures a_comment { tree (codes "not/**/(a)") ≡ Some (negation a) }
    ensures twice_in_brackets { tree (codes "not (not (a))") ≡ Some (negation (negation a)) }
    ensures of_brackets { tree (codes "not ((a) and (b))") ≡ Some (negation (all_of (two a b))) }
    ensures in_brackets { tree (codes "(not (a))") ≡ Some (negation a) }
    ensures of_a_function { tree (codes "not f()") ≡ Some (negation enclosed) }
    ensures a_function { tree (codes "not(a)") ≡ Some enclosed }
    ensures twice { tree (codes "not not (a)") ≡ None }
    ensures alone { tree (codes "not") ≡ None }
    ensures after { tree (codes "(a) not") ≡ None }
    ensures with_and { tree (codes "not (a) and (b)") ≡ None }
    ensures after_and { tree (codes "(a) and not (b)") ≡ None }
    ensures with_or { tree (codes "not (a) or (b)") ≡ None }
    ensures another_word { tree (codes "nit (a)") ≡ None }
    ensures two_parts { tree (codes "not (a) (b)") ≡ None }
{}

/// `and` between parts; with `or` at one level it is nothing.
#[tactic(auto, unfolding(css_model::specs::inner::Nesting::levels_of, css_model::specs::inner::Pieces::pieces_after, css_model::specs::inner::Fronts::parts_after))]
pub fn and()
    ensures two { tree (codes "(a) and (b)") ≡ Some (all_of (two a b)) }
    ensures three { tree (codes "(a) and (b) and (c)") ≡ Some (all_of (three a b c)) }
    ensures no_whitespace_before { tree (codes "(a)and (b)") ≡ Some (all_of (two a b)) }
    ensures a_comment { tree (codes "(a)and/**/(b)") ≡ Some (all_of (two a b)) }
    ensures in_capitals { tree (codes "(a) AND (b) and (c)") ≡ Some (all_of (three a b c)) }
    ensures the_other_in_brackets { tree (codes "(a) and ((b) or (c))")
        ≡ Some (all_of (two a (any_of (two b c)))) }
    ensures itself_in_brackets { tree (codes "((a) and (b)) and (c)")
        ≡ Some (all_of (two (all_of (two a b)) c)) }
    ensures not_in_brackets { tree (codes "(a) and (not (b))")
        ≡ Some (all_of (two a (negation b))) }
    ensures functions { tree (codes "f() and g(x)") ≡ Some (all_of (two enclosed enclosed)) }
    ensures mixed { tree (codes "(a) and (b) or (c)") ≡ None }
    ensures first { tree (codes "and (a)") ≡ None }
    ensures last { tree (codes "(a) and") ≡ None }
    ensures twice { tree (codes "(a) and and (b)") ≡ None }
    ensures alone { tree (codes "and") ≡ None }
    ensures a_function_of_it { tree (codes "(a) and(b)") ≡ None }
    ensures without_a_part { tree (codes "(a) and b") ≡ None }
    ensures last_after_two { tree (codes "(a) and (b) and") ≡ None }
{}

/// `or` between parts; with `and` at one level it is nothing.
#[tactic(auto, unfolding(css_model::specs::inner::Nesting::levels_of, css_model::specs::inner::Pieces::pieces_after, css_model::specs::inner::Fronts::parts_after))]
pub fn or()
    ensures two { tree (codes "(a) or (b)") ≡ Some (any_of (two a b)) }
    ensures three { tree (codes "(a) or (b) or (c)") ≡ Some (any_of (three a b c)) }
    ensures no_whitespace_before { tree (codes "(a)or (b)") ≡ Some (any_of (two a b)) }
    ensures a_comment { tree (codes "(a)or/**/(b)") ≡ Some (any_of (two a b)) }
    ensures in_capitals { tree (codes "(a) OR (b) or (c)") ≡ Some (any_of (three a b c)) }
    ensures the_other_in_brackets { tree (codes "(a) or ((b) and (c))")
        ≡ Some (any_of (two a (all_of (two b c)))) }
    ensures itself_in_brackets { tree (codes "((a) or (b)) or (c)")
        ≡ Some (any_of (two (any_of (two a b)) c)) }
    ensures not_in_brackets { tree (codes "(a) or (not (b))") ≡ Some (any_of (two a (negation b))) }
    ensures functions { tree (codes "f() or g(x)") ≡ Some (any_of (two enclosed enclosed)) }
    ensures mixed { tree (codes "(a) or (b) and (c)") ≡ None }
    ensures first { tree (codes "or (a)") ≡ None }
    ensures last { tree (codes "(a) or") ≡ None }
    ensures twice { tree (codes "(a) or or (b)") ≡ None }
    ensures alone { tree (codes "or") ≡ None }
    ensures a_function_of_it { tree (codes "(a) or(b)") ≡ None }
    ensures without_a_part { tree (codes "(a) or b") ≡ None }
    ensures last_after_two { tree (codes "(a) or (b) or") ≡ None }
{}

/// Any other pair of round brackets, and any other function, is a part whose value is not known.
#[tactic(auto, unfolding(css_model::specs::inner::Nesting::levels_of, css_model::specs::inner::Pieces::pieces_after, css_model::specs::inner::Fronts::parts_after))]
pub fn enclosed_parts()
    ensures empty { tree (codes "()") ≡ Some enclosed }
    ensures whitespace { tree (codes "( )") ≡ Some enclosed }
    ensures two_words { tree (codes "(a b)") ≡ Some enclosed }
    ensures a_closing_bracket { tree (codes "(})") ≡ Some enclosed }
    ensures a_bad_string { tree (codes "(\"\n") ≡ Some enclosed }
    ensures a_semicolon { tree (codes "(;)") ≡ Some enclosed }
    ensures an_exclamation { tree (codes "(!)") ≡ Some enclosed }
    ensures a_comma { tree (codes "(a,b)") ≡ Some enclosed }
    ensures mixed_inside { tree (codes "((a) and (b) or (c))") ≡ Some enclosed }
    ensures not_inside { tree (codes "(not a)") ≡ Some enclosed }
    ensures function { tree (codes "f(x)") ≡ Some enclosed }
    ensures empty_function { tree (codes "f()") ≡ Some enclosed }
    ensures function_with_condition { tree (codes "f((a))") ≡ Some enclosed }
    ensures in_brackets { tree (codes "(f())") ≡ Some enclosed }
    ensures another_bracket_inside { tree (codes "([a])") ≡ Some enclosed }
    ensures beside_another { tree (codes "(}) or (a)") ≡ Some (any_of (two enclosed a)) }
{}

/// A reader is asked for a pair of round brackets only where no condition is in it.
#[tactic(auto, unfolding(css_model::specs::inner::Nesting::levels_of, css_model::specs::inner::Pieces::pieces_after, css_model::specs::inner::Fronts::parts_after))]
pub fn asked_last()
    ensures of_a_condition { tree_of_features (codes "(not (x))") ≡ Some (negation a) }
    ensures of_no_condition { tree_of_features (codes "(not x)") ≡ Some a }
    ensures of_a_function { tree_of_features (codes "f((x))") ≡ Some a }
    ensures of_a_square_block { tree_of_features (codes "[x]") ≡ None }
    ensures of_a_word { tree_of_features (codes "x") ≡ None }
{}

/// What is no condition.
#[tactic(auto, unfolding(css_model::specs::inner::Nesting::levels_of, css_model::specs::inner::Pieces::pieces_after, css_model::specs::inner::Fronts::parts_after))]
pub fn no_condition()
    ensures empty { tree (codes "") ≡ None }
    ensures whitespace { tree (codes " ") ≡ None }
    ensures a_word { tree (codes "a") ≡ None }
    ensures a_square_block { tree (codes "[a]") ≡ None }
    ensures a_curly_block { tree (codes "{a}") ≡ None }
    ensures a_number { tree (codes "1") ≡ None }
    ensures two_parts { tree (codes "(a) (b)") ≡ None }
    ensures without_whitespace { tree (codes "(a)(b)") ≡ None }
    ensures another_word { tree (codes "(a) xor (b)") ≡ None }
    ensures a_comma { tree (codes "(a),(b)") ≡ None }
    ensures a_closing_bracket { tree (codes "(a))") ≡ None }
    ensures a_word_and_a_part { tree (codes "a (b)") ≡ None }
    ensures a_part_and_a_word { tree (codes "(a) b") ≡ None }
    ensures a_square_block_joined { tree (codes "(a) and [b]") ≡ None }
{}
