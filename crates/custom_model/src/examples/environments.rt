//! Environments (CSS Custom Properties 1, sections 2 and 3.1; CSS Cascade 4, section 7.3): what is declared, and
//! what is inherited.
ghost use Rattle.custom_model.specs.inner.Examples.{environment, in_environment, join_of};
ghost use Rattle.custom_model.specs.NamedValues.{are_in_order};
ghost use Rattle.std.specs.List.{repeat};
ghost use Rattle.std.specs.Prelude.{◌≡◌, ◌∷◌, ◌++◌, [], codes, Some, None, true, false};

/// Names have their values, or those of the parent, and stand in order of their code points.
#[tactic(auto, unfolding(css_model::specs::inner::Nesting::levels_of, css_model::specs::inner::Pieces::pieces_after, css_model::specs::inner::Fronts::parts_after))]
pub fn names()
    ensures nothing { environment (codes "") (codes "") ≡ [] }
    ensures declared { environment (codes "--a:x") (codes "") ≡ (codes "--a", codes "x") ∷ [] }
    ensures inherited { environment (codes "") (codes "--a:p") ≡ (codes "--a", codes "p") ∷ [] }
    ensures both { environment (codes "--a:x") (codes "--b:p")
        ≡ (codes "--a", codes "x") ∷ (codes "--b", codes "p") ∷ [] }
    ensures instead_of_the_parent { environment (codes "--a:x") (codes "--a:p")
        ≡ (codes "--a", codes "x") ∷ [] }
    ensures order { environment (codes "--b:x;--a:y") (codes "")
        ≡ (codes "--a", codes "y") ∷ (codes "--b", codes "x") ∷ [] }
    ensures order_with_the_parent { environment (codes "--b:x") (codes "--c:p;--a:q")
        ≡ (codes "--a", codes "q") ∷ (codes "--b", codes "x") ∷ (codes "--c", codes "p") ∷ [] }
    ensures shorter_first { environment (codes "--ab:x;--a:y") (codes "")
        ≡ (codes "--a", codes "y") ∷ (codes "--ab", codes "x") ∷ [] }
    ensures capitals_first { environment (codes "--a:x;--B:y") (codes "")
        ≡ (codes "--B", codes "y") ∷ (codes "--a", codes "x") ∷ [] }
    ensures case_counts { environment (codes "--a:x;--A:y") (codes "")
        ≡ (codes "--A", codes "y") ∷ (codes "--a", codes "x") ∷ [] }
    ensures escape_in_the_name { environment (codes "--\\61:x") (codes "--a:p")
        ≡ (codes "--a", codes "x") ∷ [] }
    ensures after_ascii { environment (codes "--é:x;--z:y") (codes "")
        ≡ (codes "--z", codes "y") ∷ (codes "--é", codes "x") ∷ [] }
    ensures empty { environment (codes "--a:") (codes "--a:p") ≡ (codes "--a", codes "") ∷ [] }
{}

/// Names in order.
#[tactic(auto, unfolding(css_model::specs::inner::Nesting::levels_of, css_model::specs::inner::Pieces::pieces_after, css_model::specs::inner::Fronts::parts_after))]
pub fn order()
    ensures none { are_in_order ([]) ≡ true }
    ensures one { are_in_order (codes "--a" ∷ []) ≡ true }
    ensures two { are_in_order (codes "--a" ∷ codes "--b" ∷ []) ≡ true }
    ensures three { are_in_order (codes "--B" ∷ codes "--a" ∷ codes "--ab" ∷ []) ≡ true }
    ensures turned { are_in_order (codes "--b" ∷ codes "--a" ∷ []) ≡ false }
    ensures twice { are_in_order (codes "--a" ∷ codes "--a" ∷ []) ≡ false }
    ensures last_two_turned { are_in_order (codes "--a" ∷ codes "--c" ∷ codes "--b" ∷ []) ≡ false }
{}

/// References to names of the same environment.
#[tactic(auto, unfolding(css_model::specs::inner::Nesting::levels_of, css_model::specs::inner::Pieces::pieces_after, css_model::specs::inner::Fronts::parts_after))]
pub fn references()
    ensures declared { environment (codes "--a:var(--b);--b:x") (codes "")
        ≡ (codes "--a", codes "x") ∷ (codes "--b", codes "x") ∷ [] }
    ensures declared_before { environment (codes "--b:x;--a:var(--b)") (codes "")
        ≡ (codes "--a", codes "x") ∷ (codes "--b", codes "x") ∷ [] }
    ensures three { environment (codes "--a:var(--b) 1;--b:var(--c) 2;--c:x") (codes "")
        ≡ (codes "--a", codes "x 2 1") ∷ (codes "--b", codes "x 2") ∷ (codes "--c", codes "x") ∷ [] }
    ensures inherited { environment (codes "--a:var(--b)") (codes "--b:p")
        ≡ (codes "--a", codes "p") ∷ (codes "--b", codes "p") ∷ [] }
    ensures declared_and_inherited { environment (codes "--a:var(--b);--b:x") (codes "--b:p")
        ≡ (codes "--a", codes "x") ∷ (codes "--b", codes "x") ∷ [] }
    ensures fallback { environment (codes "--a:var(--b,y)") (codes "")
        ≡ (codes "--a", codes "y") ∷ [] }
    ensures fallback_beside_a_name { environment (codes "--a:var(--b,y);--b:x") (codes "")
        ≡ (codes "--a", codes "x") ∷ (codes "--b", codes "x") ∷ [] }
    ensures empty { environment (codes "--a:var(--b);--b:") (codes "")
        ≡ (codes "--a", codes "") ∷ (codes "--b", codes "") ∷ [] }
    ensures two_ways { environment (codes "--a:var(--b) var(--c);--b:var(--c);--c:x") (codes "")
        ≡ (codes "--a", codes "x x") ∷ (codes "--b", codes "x") ∷ (codes "--c", codes "x") ∷ [] }
    ensures inside_a_function { environment (codes "--a:f(var(--b));--b:x") (codes "")
        ≡ (codes "--a", codes "f( x )") ∷ (codes "--b", codes "x") ∷ [] }
{}

/// A value that is invalid at computed-value time: the entry of the parent.
#[tactic(auto, unfolding(css_model::specs::inner::Nesting::levels_of, css_model::specs::inner::Pieces::pieces_after, css_model::specs::inner::Fronts::parts_after))]
pub fn invalid()
    ensures without_a_parent { environment (codes "--a:var(--z)") (codes "") ≡ [] }
    ensures with_one { environment (codes "--a:var(--z)") (codes "--a:p")
        ≡ (codes "--a", codes "p") ∷ [] }
    ensures another_sees_that { environment (codes "--a:var(--z);--b:var(--a)") (codes "--a:p")
        ≡ (codes "--a", codes "p") ∷ (codes "--b", codes "p") ∷ [] }
    ensures another_without_a_parent { environment (codes "--a:var(--z);--b:var(--a)") (codes "")
        ≡ [] }
    ensures another_with_a_fallback { environment (codes "--a:var(--z);--b:var(--a,y)") (codes "")
        ≡ (codes "--b", codes "y") ∷ [] }
    ensures its_own_parent { environment (codes "--a:var(--z);--b:var(--a)") (codes "--b:q")
        ≡ (codes "--b", codes "q") ∷ [] }
    ensures too_deep { environment (codes "--a:(var(--b));--b:" ++ repeat 64 (codes "[")) (codes "--a:p;--b:q")
        ≡ (codes "--a", codes "p") ∷ (codes "--b", join_of 64) ∷ [] }
{}

/// A cycle: each name on it has the entry of the parent, and a name that refers to it sees that.
#[tactic(auto, unfolding(css_model::specs::inner::Nesting::levels_of, css_model::specs::inner::Pieces::pieces_after, css_model::specs::inner::Fronts::parts_after))]
pub fn cycles()
    ensures two { environment (codes "--a:var(--b);--b:var(--a)") (codes "") ≡ [] }
    ensures two_with_a_parent { environment (codes "--a:var(--b);--b:var(--a)") (codes "--a:p;--b:q")
        ≡ (codes "--a", codes "p") ∷ (codes "--b", codes "q") ∷ [] }
    ensures itself { environment (codes "--a:var(--a)") (codes "--a:p")
        ≡ (codes "--a", codes "p") ∷ [] }
    ensures itself_with_a_fallback { environment (codes "--a:var(--a,x)") (codes "--a:p")
        ≡ (codes "--a", codes "p") ∷ [] }
    ensures itself_with_a_fallback_alone { environment (codes "--a:var(--a,x)") (codes "") ≡ [] }
    ensures fallback_that_is_not_used { environment (codes "--a:var(--b,var(--a));--b:x") (codes "--a:p")
        ≡ (codes "--a", codes "p") ∷ (codes "--b", codes "x") ∷ [] }
    ensures cycle_by_a_fallback { environment (codes "--a:var(--z,var(--a))") (codes "") ≡ [] }
    ensures reference_to_it { environment (codes "--a:var(--a);--b:var(--a)") (codes "--a:1px")
        ≡ (codes "--a", codes "1px") ∷ (codes "--b", codes "1px") ∷ [] }
    ensures reference_to_it_without_a_parent { environment (codes "--a:var(--a);--b:var(--a)") (codes "--b:q")
        ≡ (codes "--b", codes "q") ∷ [] }
    ensures reference_with_a_fallback { environment (codes "--a:var(--a);--b:var(--a,y)") (codes "")
        ≡ (codes "--b", codes "y") ∷ [] }
    ensures reference_with_a_fallback_and_a_parent { environment (codes "--a:var(--a);--b:var(--a,y)") (codes "--a:p")
        ≡ (codes "--a", codes "p") ∷ (codes "--b", codes "p") ∷ [] }
    ensures others_on_it { environment (codes "--a:var(--b) x;--b:var(--a) y;--c:z") (codes "--a:p")
        ≡ (codes "--a", codes "p") ∷ (codes "--c", codes "z") ∷ [] }
{}

/// CSS-wide keywords, alone and in any case.
#[tactic(auto, unfolding(css_model::specs::inner::Nesting::levels_of, css_model::specs::inner::Pieces::pieces_after, css_model::specs::inner::Fronts::parts_after))]
pub fn keywords()
    ensures initial { environment (codes "--a:initial") (codes "--a:p") ≡ [] }
    ensures inherit { environment (codes "--a:inherit") (codes "--a:p")
        ≡ (codes "--a", codes "p") ∷ [] }
    ensures unset { environment (codes "--a:unset") (codes "--a:p")
        ≡ (codes "--a", codes "p") ∷ [] }
    ensures revert { environment (codes "--a:revert") (codes "--a:p")
        ≡ (codes "--a", codes "p") ∷ [] }
    ensures inherit_without_a_parent { environment (codes "--a:inherit") (codes "") ≡ [] }
    ensures unset_without_a_parent { environment (codes "--a:unset") (codes "") ≡ [] }
    ensures capitals { environment (codes "--a:INITIAL") (codes "--a:p") ≡ [] }
    ensures revert_layer { environment (codes "--a:revert-layer") (codes "--a:p")
        ≡ (codes "--a", codes "revert-layer") ∷ [] }
    ensures two_words { environment (codes "--a:initial initial") (codes "--a:p")
        ≡ (codes "--a", codes "initial initial") ∷ [] }
    ensures in_a_block { environment (codes "--a:(initial)") (codes "--a:p")
        ≡ (codes "--a", codes "( initial )") ∷ [] }
    ensures string { environment (codes "--a:\"initial\"") (codes "--a:p")
        ≡ (codes "--a", codes "\"initial\"") ∷ [] }
    ensures reference_to_initial { environment (codes "--a:initial;--b:var(--a,y)") (codes "--a:p")
        ≡ (codes "--b", codes "y") ∷ [] }
    ensures reference_to_inherit { environment (codes "--a:inherit;--b:var(--a,y)") (codes "--a:p")
        ≡ (codes "--a", codes "p") ∷ (codes "--b", codes "p") ∷ [] }
{}

/// CSS-wide keywords after substitution, between white space.
#[tactic(auto, unfolding(css_model::specs::inner::Nesting::levels_of, css_model::specs::inner::Pieces::pieces_after, css_model::specs::inner::Fronts::parts_after))]
pub fn keywords_after_substitution()
    ensures initial { environment (codes "--a:var(--z,initial)") (codes "--a:p") ≡ [] }
    ensures inherit { environment (codes "--a:var(--z,inherit)") (codes "--a:p")
        ≡ (codes "--a", codes "p") ∷ [] }
    ensures unset { environment (codes "--a:var(--z,unset)") (codes "--a:p")
        ≡ (codes "--a", codes "p") ∷ [] }
    ensures revert { environment (codes "--a:var(--z,revert)") (codes "--a:p")
        ≡ (codes "--a", codes "p") ∷ [] }
    ensures whitespace { environment (codes "--a:var(--z, initial )") (codes "--a:p") ≡ [] }
    ensures beside_an_empty_one { environment (codes "--a:var(--b)initial;--b:") (codes "--a:p")
        ≡ (codes "--b", codes "") ∷ [] }
    ensures another_word { environment (codes "--a:var(--z,initial) x") (codes "--a:p")
        ≡ (codes "--a", codes "initial x") ∷ [] }
    ensures by_name { environment (codes "--a:var(--b);--b:var(--z,initial)") (codes "--a:p;--b:q")
        ≡ (codes "--a", codes "p") ∷ [] }
{}

/// Values of other properties in an environment.
#[tactic(auto, unfolding(css_model::specs::inner::Nesting::levels_of, css_model::specs::inner::Pieces::pieces_after, css_model::specs::inner::Fronts::parts_after))]
pub fn other_properties()
    ensures invalid_in_a_cycle { in_environment (codes "--a:var(--b);--b:var(--a)") (codes "") (codes "var(--a)")
        ≡ None }
    ensures fallback_beside_a_cycle { in_environment (codes "--a:var(--b);--b:var(--a)") (codes "") (codes "var(--c,5px)")
        ≡ Some (codes "5px") }
    ensures fallback_of_a_cycle { in_environment (codes "--a:var(--b);--b:var(--a)") (codes "") (codes "var(--a,5px)")
        ≡ Some (codes "5px") }
    ensures inherited { in_environment (codes "") (codes "--a:p") (codes "var(--a)")
        ≡ Some (codes "p") }
    ensures by_another_name { in_environment (codes "--a:var(--b);--b:8px") (codes "") (codes "calc(1px + 2*var(--a))")
        ≡ Some (codes "calc(1px + 2*8px)") }
    ensures initial { in_environment (codes "--a:initial") (codes "--a:p") (codes "var(--a,y)")
        ≡ Some (codes "y") }
    ensures whitespace_of_a_fallback { in_environment (codes "--a:var(--z, x)") (codes "") (codes "var(--a)")
        ≡ Some (codes " x") }
{}
