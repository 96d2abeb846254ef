//! What is known.
ghost use Rattle.conditions_laws.specs.Known.{HasNoEnclosed, is_known};
ghost use Rattle.conditions_model.specs.ConditionTrees.{ConditionTree, condition_value};
ghost use Rattle.conditions_model.specs.FeatureValues.{Measured, feature_value};
ghost use Rattle.conditions_model.specs.SizeFeatures.{SizeFeature};
ghost use Rattle.conditions_model.specs.declared.tri.Tri.{Tri};
ghost use Rattle.std.specs.Prelude.{◌≡◌, true};

/// A condition without enclosed parts is Yes or No where each feature is.
pub fn two_valued<Q>()
    ensures { (judge : Q → Tri) → ((q : Q) → is_known (judge q) ≡ true) →
        (c : ConditionTree Q) → HasNoEnclosed c → is_known (condition_value judge c) ≡ true }
{}

/// A feature of a size is Yes or No.
pub fn features()
    ensures { (m : Measured) (f : SizeFeature) → is_known (feature_value m f) ≡ true }
{}
