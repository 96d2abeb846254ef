//! Laws of shorthands (CSS Cascade 4, section 3).
ghost use Rattle.css_model.specs.Components.{Components};
ghost use Rattle.std.specs.Option.{IfSome};
ghost use Rattle.std.specs.Prelude.{◌≡◌, map};
ghost use Rattle.value_model.specs.Shorthands.{Shorthand, expansion_of, longhands};

/// A shorthand sets each of its longhands just once, and nothing else.
pub fn set_longhands()
    ensures { (s : Shorthand) (cs : Components)
        → IfSome (expansion_of s cs) (λ ls. map (λ l. l.0) ls ≡ longhands s) }
{}
