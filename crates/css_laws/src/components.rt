//! Laws of component values (CSS Syntax 3, sections 5.4.7 to 5.4.9).
ghost use Rattle.css_model.specs.Components.{Components, IsComponents};
ghost use Rattle.css_model.specs.declared.token.Token.{Token};
ghost use Rattle.css_model.specs.inner.Nesting.{nesting};
ghost use Rattle.std.specs.Prelude.{◌≡◌, List};

/// Each list of tokens has component values: the ones that are computed of it.
pub fn exist()
    ensures { (tokens : List Token) → IsComponents tokens (nesting tokens) }
{}

/// No list of tokens has two lists of component values.
pub fn are_unique()
    ensures { (tokens : List Token) (these those : Components) →
        IsComponents tokens these → IsComponents tokens those → these ≡ those }
{}
