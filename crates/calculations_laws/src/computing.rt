//! Laws of what lengths compute to (CSS Values 4, section 10.11).
ghost use Rattle.calculations_laws.specs.ComputedLengths.{UsesWhatIsDeclared, is_length, is_units_from};
ghost use Rattle.value_model.specs.Calculations.{Calculation, computed_length, units_from_zero};
ghost use Rattle.std.specs.Prelude.{◌≡◌, pos, true, ℤ};
ghost use Rattle.value_model.specs.Lengths.{Length};
ghost use Rattle.value_model.specs.declared.length_unit.Bases.{Bases};

/// Each length computes to units that fit, or where it has a percentage to a calculation in pixels and
/// percentages.
pub fn gives_lengths()
    ensures { (b : Bases) (c : Calculation Length) → is_length (computed_length b c) ≡ true }
{}

/// What may not be below 0, as a font size, computes to units that fit and are not below 0.
pub fn gives_units_from_zero()
    ensures { (b : Bases) (base : ℤ) (c : Calculation Length)
        → is_units_from (pos 0) (units_from_zero b base c) ≡ true }
{}

/// Where a length has a percentage, its used value is the value of the calculation as it is declared.
pub fn truncates_nothing_beside_a_percentage()
    ensures { UsesWhatIsDeclared }
{}
