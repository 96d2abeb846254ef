//! Laws of the table of properties.
ghost use Rattle.std.specs.List.{slice_get};
ghost use Rattle.std.specs.Prelude.{◌≡◌, ◌↔◌, Some, true};
ghost use Rattle.value_model.specs.Properties.{is_same_prop, prop_place, properties};
ghost use Rattle.value_model.specs.declared.prop.Prop.{Prop};

/// Each property stands in its place among all properties.
pub fn are_in_places()
    ensures { (p : Prop) → slice_get properties (prop_place p) ≡ Some p }
{}

/// Properties are compared by their places.
pub fn are_told_apart()
    ensures { (p q : Prop) → (is_same_prop p q ≡ true) ↔ (p ≡ q) }
{}
