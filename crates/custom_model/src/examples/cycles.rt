//! Names on a cycle (CSS Custom Properties 1, section 2.3): of each declaration whether its name is one.
ghost use Rattle.custom_model.specs.inner.Examples.{cycles};
ghost use Rattle.std.specs.Prelude.{◌≡◌, ◌∷◌, [], codes, true, false};

/// What leads back to itself.
#[tactic(auto, unfolding(css_model::specs::inner::Nesting::levels_of, css_model::specs::inner::Pieces::pieces_after, css_model::specs::inner::Fronts::parts_after))]
pub fn on_a_cycle()
    ensures itself { cycles (codes "--a:var(--a)") ≡ true ∷ [] }
    ensures two { cycles (codes "--a:var(--b);--b:var(--a)") ≡ true ∷ true ∷ [] }
    ensures three { cycles (codes "--a:var(--b);--b:var(--c);--c:var(--a)")
        ≡ true ∷ true ∷ true ∷ [] }
    ensures the_other_way_round { cycles (codes "--c:var(--a);--b:var(--c);--a:var(--b)")
        ≡ true ∷ true ∷ true ∷ [] }
    ensures fallback { cycles (codes "--a:var(--z,var(--a))") ≡ true ∷ [] }
    ensures fallback_that_is_not_used { cycles (codes "--a:var(--b,var(--a));--b:x")
        ≡ true ∷ false ∷ [] }
    ensures second_reference { cycles (codes "--a:var(--z) var(--b);--b:f(var(--a))")
        ≡ true ∷ true ∷ [] }
    ensures two_of_them { cycles (codes "--a:var(--b) var(--c);--b:var(--a);--c:var(--a)")
        ≡ true ∷ true ∷ true ∷ [] }
{}

/// What does not, but may lead to a cycle.
#[tactic(auto, unfolding(css_model::specs::inner::Nesting::levels_of, css_model::specs::inner::Pieces::pieces_after, css_model::specs::inner::Fronts::parts_after))]
pub fn beside_a_cycle()
    ensures no_reference { cycles (codes "--a:x") ≡ false ∷ [] }
    ensures reference { cycles (codes "--a:var(--b);--b:x") ≡ false ∷ false ∷ [] }
    ensures reference_to_no_other { cycles (codes "--a:var(--z)") ≡ false ∷ [] }
    ensures reference_to_a_cycle { cycles (codes "--a:var(--b);--b:var(--b)") ≡ false ∷ true ∷ [] }
    ensures from_a_cycle { cycles (codes "--a:var(--a) var(--b);--b:x") ≡ true ∷ false ∷ [] }
    ensures between_cycles { cycles (codes "--a:var(--a);--b:var(--a) var(--c);--c:var(--c)")
        ≡ true ∷ false ∷ true ∷ [] }
    ensures two_ways { cycles (codes "--a:var(--b) var(--c);--b:var(--d);--c:var(--d);--d:x")
        ≡ false ∷ false ∷ false ∷ false ∷ [] }
    ensures another_case { cycles (codes "--a:var(--A)") ≡ false ∷ [] }
    ensures word { cycles (codes "--a:--a") ≡ false ∷ [] }
    ensures string { cycles (codes "--a:\"var(--a)\"") ≡ false ∷ [] }
{}
