//! Which elements a text matches.
ghost use Rattle.selectors_model.specs.inner.Examples.{matched_by};
ghost use Rattle.selectors_model.specs.inner.ExampleDocuments.{classes, list_items, paragraphs, spaced, tree, values};
ghost use Rattle.std.specs.Prelude.{◌≡◌, ◌∷◌, [], codes, Some, None};

/// `ul` with three `li`, elements 1 to 3.
#[tactic(auto, unfolding(css_model::specs::inner::Nesting::levels_of, css_model::specs::inner::Pieces::pieces_after, css_model::specs::inner::Fronts::parts_after))]
pub fn list_items()
    ensures odd_and_not_last { matched_by list_items (codes "li:nth-child(2n+1):not(:last-child)")
        ≡ Some (1 ∷ []) }
    ensures has { matched_by list_items (codes "li:has(a)") ≡ None }
    ensures list_with_an_invalid_member { matched_by list_items (codes ":is(li:zz, ul)")
        ≡ Some (0 ∷ []) }
    ensures all { matched_by list_items (codes "*") ≡ Some (0 ∷ 1 ∷ 2 ∷ 3 ∷ []) }
    ensures up_to_two { matched_by list_items (codes "li:nth-child(-n+2)") ≡ Some (1 ∷ 2 ∷ []) }
    ensures from_the_end { matched_by list_items (codes "li:nth-last-child(-n+2)")
        ≡ Some (2 ∷ 3 ∷ []) }
    ensures last { matched_by list_items (codes ":last-child") ≡ Some (0 ∷ 3 ∷ []) }
    ensures root { matched_by list_items (codes ":root") ≡ Some (0 ∷ []) }
    ensures next_of_next { matched_by list_items (codes "li + li + li") ≡ Some (3 ∷ []) }
    ensures subsequent { matched_by list_items (codes "li ~ li") ≡ Some (2 ∷ 3 ∷ []) }
{}

/// `div` with `p` of the classes `a` and `b`, `p` and `q`, elements 1 to 3.
#[tactic(auto, unfolding(css_model::specs::inner::Nesting::levels_of, css_model::specs::inner::Pieces::pieces_after, css_model::specs::inner::Fronts::parts_after))]
pub fn paragraphs()
    ensures siblings_and_positions { matched_by paragraphs (codes ".a ~ q, p:nth-last-of-type(1)")
        ≡ Some (2 ∷ 3 ∷ []) }
    ensures pseudo_element { matched_by paragraphs (codes "::before") ≡ Some ([]) }
    ensures invalid_not { matched_by paragraphs (codes "p:not(:zz)") ≡ None }
{}

/// An `a` (0) around: a text (1), `b` (2) around `a` (3) around `b` (4); a text (5); `a` (6); `b` (7).
#[tactic(auto, unfolding(css_model::specs::inner::Nesting::levels_of, css_model::specs::inner::Pieces::pieces_after, css_model::specs::inner::Fronts::parts_after))]
pub fn relatives()
    ensures of_type { matched_by tree (codes "a") ≡ Some (0 ∷ 3 ∷ 6 ∷ []) }
    ensures another_type { matched_by tree (codes "b") ≡ Some (2 ∷ 4 ∷ 7 ∷ []) }
    ensures type_in_its_case { matched_by tree (codes "A") ≡ Some ([]) }
    ensures part_of_the_name { matched_by tree (codes "ab") ≡ Some ([]) }
    ensures any { matched_by tree (codes "*") ≡ Some (0 ∷ 2 ∷ 3 ∷ 4 ∷ 6 ∷ 7 ∷ []) }
    ensures descendant { matched_by tree (codes "a b") ≡ Some (2 ∷ 4 ∷ 7 ∷ []) }
    ensures descendant_of_a_descendant { matched_by tree (codes "a a b") ≡ Some (4 ∷ []) }
    ensures another_ancestor { matched_by tree (codes "b b") ≡ Some (4 ∷ []) }
    ensures not_itself { matched_by tree (codes "a a") ≡ Some (3 ∷ 6 ∷ []) }
    ensures child { matched_by tree (codes "a > b") ≡ Some (2 ∷ 4 ∷ 7 ∷ []) }
    ensures child_of_b { matched_by tree (codes "b > a") ≡ Some (3 ∷ []) }
    ensures no_grandchild { matched_by tree (codes "b > b") ≡ Some ([]) }
    ensures child_of_a_child { matched_by tree (codes "a > b > a > b") ≡ Some (4 ∷ []) }
    ensures child_then_descendant { matched_by tree (codes "a > b b") ≡ Some (4 ∷ []) }
    ensures descendant_then_child { matched_by tree (codes "a b > a") ≡ Some (3 ∷ []) }
    ensures next { matched_by tree (codes "b + a") ≡ Some (6 ∷ []) }
    ensures next_across_a_text { matched_by tree (codes "a + b") ≡ Some (7 ∷ []) }
    ensures not_the_next { matched_by tree (codes "b + b") ≡ Some ([]) }
    ensures subsequent { matched_by tree (codes "b ~ b") ≡ Some (7 ∷ []) }
    ensures subsequent_again { matched_by tree (codes "b ~ *") ≡ Some (6 ∷ 7 ∷ []) }
    ensures not_before { matched_by tree (codes "a ~ a") ≡ Some ([]) }
    ensures both { matched_by tree (codes "b + a ~ b") ≡ Some (7 ∷ []) }
    ensures sibling_of_an_ancestor { matched_by tree (codes "b ~ b b") ≡ Some ([]) }
    ensures below_and_beside { matched_by tree (codes "a > b ~ a") ≡ Some (6 ∷ []) }
    ensures the_first_fails_another_does_not { matched_by tree (codes ":root > b b, :root > a > b")
        ≡ Some (4 ∷ []) }
    ensures farther_ancestor { matched_by tree (codes ":root b") ≡ Some (2 ∷ 4 ∷ 7 ∷ []) }
    ensures root_has_no_sibling { matched_by tree (codes "* + :root") ≡ Some ([]) }
    ensures root_has_no_parent { matched_by tree (codes "* :root") ≡ Some ([]) }
{}

/// Pseudo-classes of positions in the same tree: texts do not count, the root is an only child.
#[tactic(auto, unfolding(css_model::specs::inner::Nesting::levels_of, css_model::specs::inner::Pieces::pieces_after, css_model::specs::inner::Fronts::parts_after))]
pub fn positions()
    ensures root { matched_by tree (codes ":root") ≡ Some (0 ∷ []) }
    ensures first { matched_by tree (codes ":first-child") ≡ Some (0 ∷ 2 ∷ 3 ∷ 4 ∷ []) }
    ensures last { matched_by tree (codes ":last-child") ≡ Some (0 ∷ 3 ∷ 4 ∷ 7 ∷ []) }
    ensures only { matched_by tree (codes ":only-child") ≡ Some (0 ∷ 3 ∷ 4 ∷ []) }
    ensures first_of_type { matched_by tree (codes ":first-of-type")
        ≡ Some (0 ∷ 2 ∷ 3 ∷ 4 ∷ 6 ∷ []) }
    ensures last_of_type { matched_by tree (codes ":last-of-type")
        ≡ Some (0 ∷ 3 ∷ 4 ∷ 6 ∷ 7 ∷ []) }
    ensures only_of_type { matched_by tree (codes ":only-of-type") ≡ Some (0 ∷ 3 ∷ 4 ∷ 6 ∷ []) }
    ensures second { matched_by tree (codes ":nth-child(2)") ≡ Some (6 ∷ []) }
    ensures third { matched_by tree (codes ":nth-child(3)") ≡ Some (7 ∷ []) }
    ensures second_from_the_end { matched_by tree (codes ":nth-last-child(2)") ≡ Some (6 ∷ []) }
    ensures third_from_the_end { matched_by tree (codes ":nth-last-child(3)") ≡ Some (2 ∷ []) }
    ensures second_of_type { matched_by tree (codes ":nth-of-type(2)") ≡ Some (7 ∷ []) }
    ensures second_of_type_from_the_end { matched_by tree (codes ":nth-last-of-type(2)")
        ≡ Some (2 ∷ []) }
    ensures odd { matched_by tree (codes ":nth-child(odd)") ≡ Some (0 ∷ 2 ∷ 3 ∷ 4 ∷ 7 ∷ []) }
    ensures none { matched_by tree (codes ":nth-child(0)") ≡ Some ([]) }
    ensures all { matched_by tree (codes ":nth-child(n)") ≡ Some (0 ∷ 2 ∷ 3 ∷ 4 ∷ 6 ∷ 7 ∷ []) }
    ensures below { matched_by tree (codes ":nth-child(-n)") ≡ Some ([]) }
    ensures root_of_type { matched_by tree (codes ":root:nth-last-of-type(1)") ≡ Some (0 ∷ []) }
{}

/// An `a` (0) with `b` of the class `x y` and the id `x y` (1), of `xy` and the id `x` (2), of `x`,
/// tab, `z` (3), of `x`, U+00A0, `y` (4), of an empty class and id (5).
#[tactic(auto, unfolding(css_model::specs::inner::Nesting::levels_of, css_model::specs::inner::Pieces::pieces_after, css_model::specs::inner::Fronts::parts_after))]
pub fn classes()
    ensures in_a_list { matched_by classes (codes ".x") ≡ Some (1 ∷ 3 ∷ []) }
    ensures last_of_a_list { matched_by classes (codes ".y") ≡ Some (1 ∷ []) }
    ensures after_a_tab { matched_by classes (codes ".z") ≡ Some (3 ∷ []) }
    ensures a_longer_word { matched_by classes (codes ".xy") ≡ Some (2 ∷ []) }
    ensures two { matched_by classes (codes ".x.y") ≡ Some (1 ∷ []) }
    ensures no_break_space { matched_by classes (codes ".x\\a0y") ≡ Some (4 ∷ []) }
    ensures in_its_case { matched_by classes (codes ".X") ≡ Some ([]) }
    ensures id { matched_by classes (codes "#x") ≡ Some (2 ∷ []) }
    ensures id_in_its_case { matched_by classes (codes "#X") ≡ Some ([]) }
    ensures not_in_the_class { matched_by classes (codes "#y") ≡ Some ([]) }
    ensures presence { matched_by classes (codes "[class]") ≡ Some (1 ∷ 2 ∷ 3 ∷ 4 ∷ 5 ∷ []) }
    ensures absence { matched_by classes (codes ":not([class])") ≡ Some (0 ∷ []) }
    ensures presence_in_its_case { matched_by classes (codes "[CLASS]") ≡ Some ([]) }
    ensures empty_presence { matched_by classes (codes "[id]") ≡ Some (1 ∷ 2 ∷ 5 ∷ []) }
    ensures id_by_words { matched_by classes (codes "[id~=x]") ≡ Some (1 ∷ 2 ∷ []) }
{}

/// White space between words is ASCII's: of `x`, then U+000A, U+000C, U+000D, U+0020, U+000B and `y`.
#[tactic(auto, unfolding(css_model::specs::inner::Nesting::levels_of, css_model::specs::inner::Pieces::pieces_after, css_model::specs::inner::Fronts::parts_after))]
pub fn white_space()
    ensures after_line_feed { matched_by spaced (codes "[a~=y]") ≡ Some (1 ∷ 2 ∷ 3 ∷ 4 ∷ []) }
    ensures not_after_vertical_tab { matched_by spaced (codes "[a~=x]")
        ≡ Some (1 ∷ 2 ∷ 3 ∷ 4 ∷ []) }
{}

/// Values of the attribute `v`: none (0), empty (1), `a` (2), `a-b` (3), `ab` (4), `a b` (5), `-b` (6), `b a` (7).
#[tactic(auto, unfolding(css_model::specs::inner::Nesting::levels_of, css_model::specs::inner::Pieces::pieces_after, css_model::specs::inner::Fronts::parts_after))]
pub fn values()
    ensures presence { matched_by values (codes "[v]") ≡ Some (1 ∷ 2 ∷ 3 ∷ 4 ∷ 5 ∷ 6 ∷ 7 ∷ []) }
    ensures equals { matched_by values (codes "[v=a]") ≡ Some (2 ∷ []) }
    ensures equals_empty { matched_by values (codes "[v=\"\"]") ≡ Some (1 ∷ []) }
    ensures equals_in_its_case { matched_by values (codes "[v=A]") ≡ Some ([]) }
    ensures equals_two_words { matched_by values (codes "[v=\"a b\"]") ≡ Some (5 ∷ []) }
    ensures includes { matched_by values (codes "[v~=a]") ≡ Some (2 ∷ 5 ∷ 7 ∷ []) }
    ensures includes_empty { matched_by values (codes "[v~=\"\"]") ≡ Some ([]) }
    ensures includes_white_space { matched_by values (codes "[v~=\"a b\"]") ≡ Some ([]) }
    ensures includes_a_blank { matched_by values (codes "[v~=\" \"]") ≡ Some ([]) }
    ensures dash_match { matched_by values (codes "[v|=a]") ≡ Some (2 ∷ 3 ∷ []) }
    ensures dash_match_empty { matched_by values (codes "[v|=\"\"]") ≡ Some (1 ∷ 6 ∷ []) }
    ensures dash_match_longer { matched_by values (codes "[v|=\"a-b\"]") ≡ Some (3 ∷ []) }
    ensures prefix { matched_by values (codes "[v^=a]") ≡ Some (2 ∷ 3 ∷ 4 ∷ 5 ∷ []) }
    ensures prefix_empty { matched_by values (codes "[v^=\"\"]") ≡ Some ([]) }
    ensures prefix_all { matched_by values (codes "[v^=\"a-b\"]") ≡ Some (3 ∷ []) }
    ensures prefix_longer { matched_by values (codes "[v^=\"a-bc\"]") ≡ Some ([]) }
    ensures suffix { matched_by values (codes "[v$=b]") ≡ Some (3 ∷ 4 ∷ 5 ∷ 6 ∷ []) }
    ensures suffix_empty { matched_by values (codes "[v$=\"\"]") ≡ Some ([]) }
    ensures suffix_all { matched_by values (codes "[v$=ab]") ≡ Some (4 ∷ []) }
    ensures suffix_longer { matched_by values (codes "[v$=cab]") ≡ Some ([]) }
    ensures substring { matched_by values (codes "[v*=b]") ≡ Some (3 ∷ 4 ∷ 5 ∷ 6 ∷ 7 ∷ []) }
    ensures substring_inside { matched_by values (codes "[v*=\"-\"]") ≡ Some (3 ∷ 6 ∷ []) }
    ensures substring_white_space { matched_by values (codes "[v*=\" \"]") ≡ Some (5 ∷ 7 ∷ []) }
    ensures substring_empty { matched_by values (codes "[v*=\"\"]") ≡ Some ([]) }
    ensures substring_longer { matched_by values (codes "[v*=\"a-bc\"]") ≡ Some ([]) }
    ensures not_equal { matched_by values (codes ":not([v=a])")
        ≡ Some (0 ∷ 1 ∷ 3 ∷ 4 ∷ 5 ∷ 6 ∷ 7 ∷ []) }
{}

/// Functions, and what is known and matches nothing, in the tree of `relatives`.
#[tactic(auto, unfolding(css_model::specs::inner::Nesting::levels_of, css_model::specs::inner::Pieces::pieces_after, css_model::specs::inner::Fronts::parts_after))]
pub fn functions()
    ensures is { matched_by tree (codes ":is(a,b) > a") ≡ Some (3 ∷ 6 ∷ []) }
    ensures is_of_selectors { matched_by tree (codes "a:is(b a, :root)") ≡ Some (0 ∷ 3 ∷ []) }
    ensures where_list { matched_by tree (codes ":where(b) b") ≡ Some (4 ∷ []) }
    ensures not { matched_by tree (codes "a:not(:root)") ≡ Some (3 ∷ 6 ∷ []) }
    ensures not_of_two { matched_by tree (codes "*:not(a,b)") ≡ Some ([]) }
    ensures not_of_selectors { matched_by tree (codes "b:not(a > b)") ≡ Some ([]) }
    ensures not_on_the_left { matched_by tree (codes ":not(a) > *") ≡ Some (3 ∷ []) }
    ensures not_of_not { matched_by tree (codes ":not(:not(b))") ≡ Some (2 ∷ 4 ∷ 7 ∷ []) }
    ensures empty_is { matched_by tree (codes ":is()") ≡ Some ([]) }
    ensures not_of_empty_is { matched_by tree (codes ":not(:is())")
        ≡ Some (0 ∷ 2 ∷ 3 ∷ 4 ∷ 6 ∷ 7 ∷ []) }
    ensures is_of_invalid { matched_by tree (codes ":is(:zz,1)") ≡ Some ([]) }
    ensures is_without_invalid { matched_by tree (codes ":is(:zz,a)") ≡ Some (0 ∷ 3 ∷ 6 ∷ []) }
    ensures is_without_pseudo_elements { matched_by tree (codes ":is(::before,a)")
        ≡ Some (0 ∷ 3 ∷ 6 ∷ []) }
    ensures hover { matched_by tree (codes ":hover") ≡ Some ([]) }
    ensures not_hover { matched_by tree (codes "b:not(:hover)") ≡ Some (2 ∷ 4 ∷ 7 ∷ []) }
    ensures link { matched_by tree (codes ":any-link, :target, :enabled") ≡ Some ([]) }
    ensures pseudo_element { matched_by tree (codes "a::before") ≡ Some ([]) }
    ensures one_colon { matched_by tree (codes "a:before, b:first-line") ≡ Some ([]) }
    ensures below_a_pseudo_element { matched_by tree (codes "a::before b") ≡ Some ([]) }
    ensures beside_a_pseudo_element { matched_by tree (codes "::marker, b:nth-child(3)")
        ≡ Some (7 ∷ []) }
    ensures in_document_order { matched_by tree (codes "b, a")
        ≡ Some (0 ∷ 2 ∷ 3 ∷ 4 ∷ 6 ∷ 7 ∷ []) }
    ensures no_list { matched_by tree (codes "a,:zz") ≡ None }
{}
