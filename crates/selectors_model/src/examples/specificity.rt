//! Specificity (Selectors 4, section 17).
ghost use Rattle.selectors_model.specs.Specificity.{is_less_spec, spec, spec_sum};
ghost use Rattle.selectors_model.specs.declared.spec.TheConstants.{MAX_COUNT};
ghost use Rattle.selectors_model.specs.inner.ExampleDocuments.{tree};
ghost use Rattle.selectors_model.specs.inner.Examples.{counts, specificity_for, specificity_of};
ghost use Rattle.std.specs.Prelude.{◌≡◌, ◌∷◌, [], codes, None, Some, true, false};

/// The standard's own examples (Selectors 4, section 17).
#[tactic(auto, unfolding(css_model::specs::inner::Nesting::levels_of, css_model::specs::inner::Pieces::pieces_after, css_model::specs::inner::Fronts::parts_after))]
pub fn of_the_standard()
    ensures any { specificity_of (codes "*") ≡ (0, (0, 0)) ∷ [] }
    ensures one_type { specificity_of (codes "LI") ≡ (0, (0, 1)) ∷ [] }
    ensures two_types { specificity_of (codes "UL LI") ≡ (0, (0, 2)) ∷ [] }
    ensures three_types { specificity_of (codes "UL OL+LI") ≡ (0, (0, 3)) ∷ [] }
    ensures attribute { specificity_of (codes "H1 + *[REL=up]") ≡ (0, (1, 1)) ∷ [] }
    ensures class { specificity_of (codes "UL OL LI.red") ≡ (0, (1, 3)) ∷ [] }
    ensures two_classes { specificity_of (codes "LI.red.level") ≡ (0, (2, 1)) ∷ [] }
    ensures id { specificity_of (codes "#x34y") ≡ (1, (0, 0)) ∷ [] }
    ensures not { specificity_of (codes "#s12:not(FOO)") ≡ (1, (0, 1)) ∷ [] }
    ensures is { specificity_of (codes ".foo :is(.bar, #baz)") ≡ (1, (1, 0)) ∷ [] }
    ensures is_of_two { specificity_of (codes ":is(em, #foo)") ≡ (1, (0, 0)) ∷ [] }
    ensures not_of_two { specificity_of (codes ":not(em, strong#foo)") ≡ (1, (0, 1)) ∷ [] }
    ensures where_list { specificity_of (codes ".qux:where(em, #foo#bar#baz)") ≡ (0, (1, 0)) ∷ [] }
{}

/// What each simple selector counts, and sums over compounds.
#[tactic(auto, unfolding(css_model::specs::inner::Nesting::levels_of, css_model::specs::inner::Pieces::pieces_after, css_model::specs::inner::Fronts::parts_after))]
pub fn counts()
    ensures presence { specificity_of (codes "[a]") ≡ (0, (1, 0)) ∷ [] }
    ensures pseudo_class { specificity_of (codes ":root") ≡ (0, (1, 0)) ∷ [] }
    ensures one_that_matches_nothing { specificity_of (codes ":hover") ≡ (0, (1, 0)) ∷ [] }
    ensures nth { specificity_of (codes ":nth-child(2n+1)") ≡ (0, (1, 0)) ∷ [] }
    ensures nth_of_type { specificity_of (codes ":nth-last-of-type(1)") ≡ (0, (1, 0)) ∷ [] }
    ensures pseudo_element { specificity_of (codes "::before") ≡ (0, (0, 1)) ∷ [] }
    ensures one_colon { specificity_of (codes ":before") ≡ (0, (0, 1)) ∷ [] }
    ensures of_a_vendor { specificity_of (codes "::-webkit-x") ≡ (0, (0, 1)) ∷ [] }
    ensures empty_is { specificity_of (codes ":is()") ≡ (0, (0, 0)) ∷ [] }
    ensures is_without_invalid { specificity_of (codes ":is(#a:zz, b)") ≡ (0, (0, 1)) ∷ [] }
    ensures where_alone { specificity_of (codes ":where(#a)") ≡ (0, (0, 0)) ∷ [] }
    ensures not_alone { specificity_of (codes ":not(.a)") ≡ (0, (1, 0)) ∷ [] }
    ensures where_in_not { specificity_of (codes ":not(:where(#a), b)") ≡ (0, (0, 1)) ∷ [] }
    ensures is_in_is { specificity_of (codes ":is(:is(.a, b), b)") ≡ (0, (1, 0)) ∷ [] }
    ensures id_before_classes { specificity_of (codes ":is(#a, .b.c.d e f)") ≡ (1, (0, 0)) ∷ [] }
    ensures class_before_types { specificity_of (codes ":is(a b c d, .e)") ≡ (0, (1, 0)) ∷ [] }
    ensures more_types { specificity_of (codes ":is(a, a b)") ≡ (0, (0, 2)) ∷ [] }
    ensures greatest_first { specificity_of (codes ":is(a b, a)") ≡ (0, (0, 2)) ∷ [] }
    ensures a_selector_inside { specificity_of (codes ":is(a#b .c)") ≡ (1, (1, 1)) ∷ [] }
    ensures repeated { specificity_of (codes "#a#a.b.b") ≡ (2, (2, 0)) ∷ [] }
    ensures combinators { specificity_of (codes "a > b + c ~ d e") ≡ (0, (0, 5)) ∷ [] }
    ensures each_of_a_list { specificity_of (codes "a, .b, #c")
        ≡ (0, (0, 1)) ∷ (0, (1, 0)) ∷ (1, (0, 0)) ∷ [] }
    ensures all { specificity_of (codes "a#b.c[d]:root::after") ≡ (1, (3, 2)) ∷ [] }
{}

/// Each count stops at 2^32 - 1, and ids are compared before classes, classes before types.
#[tactic(auto, unfolding(css_model::specs::inner::Nesting::levels_of, css_model::specs::inner::Pieces::pieces_after, css_model::specs::inner::Fronts::parts_after))]
pub fn limits()
    ensures limit { MAX_COUNT ≡ 4294967295 }
    ensures at_the_limit { counts (spec_sum (spec 4294967294 4294967294 4294967294) (spec 1 1 1))
        ≡ (4294967295, (4294967295, 4294967295)) }
    ensures past_the_limit { counts (spec_sum (spec 4294967295 4294967295 4294967295) (spec 1 2 3))
        ≡ (4294967295, (4294967295, 4294967295)) }
    ensures one_past_the_limit { counts (spec_sum (spec 4294967295 0 0) (spec 0 4294967295 7))
        ≡ (4294967295, (4294967295, 7)) }
    ensures ids_first { is_less_spec (spec 0 9 9) (spec 1 0 0) ≡ true }
    ensures ids_first_again { is_less_spec (spec 1 0 0) (spec 0 9 9) ≡ false }
    ensures classes_next { is_less_spec (spec 1 0 9) (spec 1 1 0) ≡ true }
    ensures types_last { is_less_spec (spec 1 1 0) (spec 1 1 1) ≡ true }
    ensures the_same { is_less_spec (spec 1 1 1) (spec 1 1 1) ≡ false }
{}

/// Of a list, for an element: that of the most specific member that matches it. The tree is that of `relatives`.
#[tactic(auto, unfolding(css_model::specs::inner::Nesting::levels_of, css_model::specs::inner::Pieces::pieces_after, css_model::specs::inner::Fronts::parts_after))]
pub fn for_elements()
    ensures none_matches { specificity_for tree 2 (codes "a, #x") ≡ None }
    ensures one_matches { specificity_for tree 2 (codes "b, #x") ≡ Some (0, (0, 1)) }
    ensures the_greater { specificity_for tree 2 (codes "b, a > b, *") ≡ Some (0, (0, 2)) }
    ensures the_last { specificity_for tree 2 (codes "*, b, b:first-child") ≡ Some (0, (1, 1)) }
    ensures not_the_greatest_of_all { specificity_for tree 6 (codes "a, b#x, a:root")
        ≡ Some (0, (0, 1)) }
    ensures greatest_inside_is { specificity_for tree 6 (codes ":is(a, #x)") ≡ Some (1, (0, 0)) }
    ensures zero { specificity_for tree 6 (codes "*") ≡ Some (0, (0, 0)) }
    ensures no_list { specificity_for tree 6 (codes "a,1") ≡ None }
{}
