//! Laws of references (CSS Custom Properties 1, section 3).
ghost use Rattle.css_model.specs.Components.{Components, component, function_block, no_components};
ghost use Rattle.css_model.specs.declared.token.Token.{Token};
ghost use Rattle.custom_laws.specs.Written.{IsReference};
ghost use Rattle.custom_model.specs.References.{Reference, is_var_type, names_in, reference_in};
ghost use Rattle.std.specs.Prelude.{◌≡◌, ◌↔◌, ◌∷◌, [], Option, Some, option_map, true, unwrap_or};

/// The contents of a `var()` are read as a reference exactly where they are written as one.
pub fn form()
    ensures { (contents : Components) (r : Reference)
        → (reference_in contents ≡ Some r) ↔ IsReference contents r }
{}

/// A `var()` of the right form refers to its name, and to the names in its fallback.
pub fn names()
    ensures { (head : Token) (contents : Components) (close : Option Token) (r : Reference)
        → is_var_type head.token_type ≡ true → reference_in contents ≡ Some r
        → names_in (component (function_block head contents close) no_components)
        ≡ r.name ∷ unwrap_or (option_map names_in r.fallback) [] }
{}
