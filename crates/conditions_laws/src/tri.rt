//! Laws of three values.
ghost use Rattle.conditions_model.specs.TriTables.{tri_and, tri_not, tri_or};
ghost use Rattle.conditions_model.specs.declared.tri.Tri.{Tri};
ghost use Rattle.std.specs.Prelude.{◌≡◌};

/// Two negations are none.
pub fn double_negation()
    ensures { (a : Tri) → tri_not (tri_not a) ≡ a }
{}

/// De Morgan's law of `and`.
pub fn not_and()
    ensures { (a b : Tri) → tri_not (tri_and a b) ≡ tri_or (tri_not a) (tri_not b) }
{}

/// De Morgan's law of `or`.
pub fn not_or()
    ensures { (a b : Tri) → tri_not (tri_or a b) ≡ tri_and (tri_not a) (tri_not b) }
{}

/// The order of two values does not count for `and`.
pub fn and_order()
    ensures { (a b : Tri) → tri_and a b ≡ tri_and b a }
{}

/// Nor for `or`.
pub fn or_order()
    ensures { (a b : Tri) → tri_or a b ≡ tri_or b a }
{}

/// How three values are grouped does not count for `and`.
pub fn and_groups()
    ensures { (a b c : Tri) → tri_and (tri_and a b) c ≡ tri_and a (tri_and b c) }
{}

/// Nor for `or`.
pub fn or_groups()
    ensures { (a b c : Tri) → tri_or (tri_or a b) c ≡ tri_or a (tri_or b c) }
{}
