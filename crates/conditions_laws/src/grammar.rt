//! Laws of the grammar of conditions (Media Queries 4, section 3).
ghost use Rattle.conditions_laws.specs.Spelled.{IsCondition};
ghost use Rattle.conditions_model.specs.ConditionTrees.{ConditionTree};
ghost use Rattle.conditions_model.specs.ConditionWords.{Word, condition_of_words};
ghost use Rattle.std.specs.Prelude.{◌≡◌, ◌↔◌, List, Some};

/// Words are read as a condition exactly where they are written as one.
pub fn form<Q>()
    ensures { (ws : List (Word Q)) (c : ConditionTree Q) →
        IsCondition ws c ↔ (condition_of_words ws ≡ Some c) }
{}

/// Words are written as one condition at most.
pub fn at_most_one<Q>()
    ensures { (ws : List (Word Q)) (c d : ConditionTree Q) →
        IsCondition ws c → IsCondition ws d → c ≡ d }
{}
