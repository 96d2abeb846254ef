//! Laws of sets of margins (CSS 2.1, section 8.3.1).
ghost use Rattle.flow_laws.specs.Unions.{union_of};
ghost use Rattle.flow_model.specs.declared.margins.Margins.{Margins};
ghost use Rattle.flow_model.specs.MarginSets.{joined, seen};
ghost use Rattle.std.specs.Prelude.{◌≡◌, ◌∷◌, ◌++◌, [], ℤ, List, map};

/// What is seen of sets that are joined is what is seen of all their margins.
pub fn joined_sets_are_one_set()
    ensures { (sets : List (List ℤ)) → joined (map seen sets) ≡ seen (union_of sets) }
{}

/// Sets may be joined one after another.
pub fn sets_are_joined_one_after_another()
    ensures in_front { (m : Margins) (sets : List Margins) → joined (m ∷ joined sets ∷ []) ≡ joined (m ∷ sets) }
    ensures behind { (sets : List Margins) (m : Margins) → joined (joined sets ∷ m ∷ []) ≡ joined (sets ++ m ∷ []) }
{}
