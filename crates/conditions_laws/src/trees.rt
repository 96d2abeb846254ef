//! Laws of conditions, for features of any kind and whatever their values.
ghost use Rattle.conditions_laws.specs.Negations.{negations};
ghost use Rattle.conditions_model.specs.ConditionTrees.{ConditionTree, ConditionTrees, all_of, any_of, condition_value, negation};
ghost use Rattle.conditions_model.specs.declared.tri.Tri.{Tri};
ghost use Rattle.std.specs.Prelude.{◌≡◌};

/// The negation of a negation has the value of the condition.
pub fn double_negation<Q>()
    ensures { (judge : Q → Tri) (c : ConditionTree Q) →
        condition_value judge (negation (negation c)) ≡ condition_value judge c }
{}

/// The negation of an `and` has the value of the `or` of the negations.
pub fn not_all<Q>()
    ensures { (judge : Q → Tri) (cs : ConditionTrees Q) →
        condition_value judge (negation (all_of cs)) ≡ condition_value judge (any_of (negations cs)) }
{}

/// The negation of an `or` has the value of the `and` of the negations.
pub fn not_any<Q>()
    ensures { (judge : Q → Tri) (cs : ConditionTrees Q) →
        condition_value judge (negation (any_of cs)) ≡ condition_value judge (all_of (negations cs)) }
{}
