//! Laws of `An+B` (CSS Syntax 3, section 6).
ghost use Rattle.selectors_laws.specs.Positions.{IsOneOf};
ghost use Rattle.selectors_model.specs.AnPlusBs.{is_position};
ghost use Rattle.selectors_model.specs.declared.an_plus_b.AnPlusB.{AnPlusB};
ghost use Rattle.std.specs.Prelude.{◌≡◌, ◌↔◌, ℕ, true};

/// The positions that are meant are exactly the numbers A n + B for some n from 0 on.
pub fn positions()
    ensures { (at : AnPlusB) (position : ℕ)
        → (is_position at position ≡ true) ↔ IsOneOf at position }
{}
