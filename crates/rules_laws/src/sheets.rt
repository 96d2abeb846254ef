//! Laws of sheets as texts.
ghost use Rattle.css_model.specs.Classes.{Text};
ghost use Rattle.rules_laws.specs.Accepted.{IsWithin};
ghost use Rattle.rules_laws.specs.Texts.{AreComponentsOf};
ghost use Rattle.rules_model.specs.Sheets.{components_of, limit_of_sheet, size_of_sheet};
ghost use Rattle.std.specs.Prelude.{◌≡◌, ◌↔◌, None};

/// The components of a text are those of its token list.
pub fn components()
    ensures { (text : Text) → AreComponentsOf text (components_of text) }
{}

/// No limit refuses a sheet exactly where it is within all of them.
pub fn limits()
    ensures { (text : Text) → (limit_of_sheet text ≡ None) ↔ IsWithin (size_of_sheet text) }
{}
