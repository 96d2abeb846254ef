//! Laws of names on a cycle (CSS Custom Properties 1, section 2.3).
ghost use Rattle.css_model.specs.Classes.{Text};
ghost use Rattle.custom_laws.specs.Reordered.{AreReordered};
ghost use Rattle.custom_model.specs.Cycles.{IsOnCycle, IsReached};
ghost use Rattle.custom_model.specs.NamedValues.{NamedValues};
ghost use Rattle.custom_model.specs.inner.Finding.{is_on_cycle, is_reached};
ghost use Rattle.std.specs.Prelude.{◌≡◌, ◌↔◌, true};

/// What is found to be reached is what is reached.
pub fn reached()
    ensures { (declared : NamedValues) (from to : Text)
        → (is_reached declared from to ≡ true) ↔ IsReached declared from to }
{}

/// What is found to be on a cycle is what is on one.
pub fn on_cycle()
    ensures { (declared : NamedValues) (name : Text)
        → (is_on_cycle declared name ≡ true) ↔ IsOnCycle declared name }
{}

/// Which names are on a cycle does not depend on the order of the declared values.
pub fn order()
    ensures { (declared others : NamedValues) (name : Text) → AreReordered declared others
        → IsOnCycle declared name ↔ IsOnCycle others name }
{}
