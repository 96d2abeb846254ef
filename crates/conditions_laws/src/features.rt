//! Laws of the forms of features.
ghost use Rattle.conditions_model.specs.FeatureValues.{Measured, feature_value};
ghost use Rattle.conditions_model.specs.SizeFeatures.{Bound, Names, SizeFeature, bounded, bounded_by, is_one_direction, last_side, mirrored, named, one_bound, plain_from, plain_name, range_feature, side, side_name};
ghost use Rattle.conditions_model.specs.TriTables.{tri_and};
ghost use Rattle.conditions_model.specs.declared.comparison.Comparison.TheVariants.{AtLeast, AtMost};
ghost use Rattle.conditions_model.specs.declared.comparison.Comparison.{Comparison};
ghost use Rattle.conditions_model.specs.declared.feature_name.FeatureName.{FeatureName};
ghost use Rattle.css_model.specs.Classes.{Text};
ghost use Rattle.css_model.specs.Components.{Components};
ghost use Rattle.std.specs.Prelude.{◌≡◌, ◌∷◌, ◌++◌, [], None, Some, codes, true};

/// `(min-f: v)` is the feature that is at least v.
pub fn min_prefix()
    ensures { (names : Names) (n : Text) (f : FeatureName) (v : Components) →
        named names n ≡ Some f → named names (codes "min-" ++ n) ≡ None →
        plain_from (plain_name names (codes "min-" ++ n)) (Some v) ≡ one_bound f AtLeast v }
{}

/// `(max-f: v)` is the feature that is at most v.
pub fn max_prefix()
    ensures { (names : Names) (n : Text) (f : FeatureName) (v : Components) →
        named names n ≡ Some f → named names (codes "max-" ++ n) ≡ None →
        plain_from (plain_name names (codes "max-" ++ n)) (Some v) ≡ one_bound f AtMost v }
{}

/// So is a range with one sign, where the value is right.
pub fn one_sided()
    ensures { (names : Names) (f : FeatureName) (s : Comparison) (a v : Components) (q : SizeFeature) →
        side_name names a ≡ Some f → one_bound f s v ≡ Some q →
        range_feature names (side a s (last_side v)) ≡ Some q }
{}

/// A range with two signs has the bounds of both sides, where both values are right.
pub fn two_sided()
    ensures { (names : Names) (f : FeatureName) (a b c : Components) (s t : Comparison)
        (low high : Bound) → is_one_direction s t ≡ true → side_name names b ≡ Some f →
        bounded_by f (mirrored s) a ≡ Some (low ∷ []) → bounded_by f t c ≡ Some (high ∷ []) →
        range_feature names (side a s (side b t (last_side c))) ≡ Some (bounded f (low ∷ high ∷ [])) }
{}

/// A feature with two bounds has the value of the `and` of those with one.
pub fn both_sides()
    ensures { (m : Measured) (f : FeatureName) (low high : Bound) →
        feature_value m (bounded f (low ∷ high ∷ []))
        ≡ tri_and (feature_value m (bounded f (low ∷ []))) (feature_value m (bounded f (high ∷ []))) }
{}
