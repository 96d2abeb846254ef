//! Laws of substitution (CSS Custom Properties 1, section 3).
ghost use Rattle.css_model.specs.Components.{Components, function_block};
ghost use Rattle.css_model.specs.declared.token.Token.{Token};
ghost use Rattle.custom_laws.specs.SameEntries.{AreSameOn, AreWithoutVar};
ghost use Rattle.custom_model.specs.References.{Reference, has_var, is_var_type, names_in, reference_in};
ghost use Rattle.custom_model.specs.Substitution.{Entries, is_within, replacement_of, replacement_of_all, substituted, substituted_within};
ghost use Rattle.std.specs.Option.{option_or};
ghost use Rattle.std.specs.Prelude.{◌≡◌, Option, Some, false, option_and_then, true, ℕ};

/// In a value without `var()` nothing is replaced.
pub fn nothing_replaced()
    ensures { (entries : Entries) (value : Components) → has_var value ≡ false
        → replacement_of_all entries value ≡ Some value }
{}

/// A value without `var()` is itself after substitution, whatever the limits.
pub fn without_var()
    ensures { (tokens levels : ℕ) (entries : Entries) (value : Components) → has_var value ≡ false
        → substituted_within tokens levels entries value ≡ Some value }
{}

/// A `var()` of the right form is replaced by the entry of its name, or else by its fallback after
/// replacement.
pub fn one_reference()
    ensures { (entries : Entries) (head : Token) (contents : Components) (close : Option Token) (r : Reference)
        → is_var_type head.token_type ≡ true → reference_in contents ≡ Some r
        → replacement_of entries (function_block head contents close)
        ≡ option_or (entries r.name) (option_and_then (replacement_of_all entries) r.fallback) }
{}

/// What a value is after substitution depends only on the entries of the names to which it refers.
pub fn by_names()
    ensures { (entries others : Entries) (value : Components)
        → AreSameOn entries others (names_in value) → substituted entries value ≡ substituted others value }
{}

/// A value with `var()` is within the limits after substitution.
pub fn limits()
    ensures { (tokens levels : ℕ) (entries : Entries) (value result : Components) → has_var value ≡ true
        → substituted_within tokens levels entries value ≡ Some result → is_within tokens levels result ≡ true }
{}

/// No `var()` is left after substitution, where no entry has one.
pub fn none_left()
    ensures { (entries : Entries) (value result : Components) → AreWithoutVar entries
        → substituted entries value ≡ Some result → has_var result ≡ false }
{}
