//! Laws of computed values (CSS Cascade 4, section 4.4).
ghost use Rattle.css_model.specs.Classes.{Text};
ghost use Rattle.css_model.specs.Components.{Components};
ghost use Rattle.std.specs.List.{All};
ghost use Rattle.std.specs.Option.{IfSome};
ghost use Rattle.std.specs.Prelude.{◌≡◌, Some, true, ℤ};
ghost use Rattle.value_laws.specs.ComputedForms.{Computes, is_computed};
ghost use Rattle.value_model.specs.Grammar.{value_of};
ghost use Rattle.value_model.specs.Properties.{pixels, property};
ghost use Rattle.value_model.specs.Shorthands.{Shorthand, expansion_of, shorthand_of_name};
ghost use Rattle.value_model.specs.Values.{Value, keyword};
ghost use Rattle.value_model.specs.declared.keyword.Keyword.TheVariants.{Block};
ghost use Rattle.value_model.specs.declared.length_unit.Bases.{Bases};
ghost use Rattle.value_model.specs.declared.prop.Prop.{Prop};
ghost use Rattle.value_model.specs.declared.prop.Prop.TheVariants.{BorderBottomWidth, BorderLeftWidth, BorderRightWidth, BorderTopWidth, Display};

/// Each value that the grammar of a property takes computes to one of its computed values.
///
/// No base has to be above 0, nor has the font size of the parent: sizes, margins and paddings may compute
/// to a length below 0, and all other lengths are cut at 0. A CSS-wide keyword computes here to the initial
/// value.
pub fn takes_what_the_grammar_takes()
    ensures { (p : Prop) (cs : Components) (v : Value) (b : Bases) (parent_font : ℤ)
        → value_of p cs ≡ Some v → Computes b parent_font p v }
{}

/// Each value that a shorthand gives to a property does too.
pub fn takes_what_a_shorthand_sets()
    ensures { (name : Text) (s : Shorthand) (cs : Components) (b : Bases) (parent_font : ℤ)
        → shorthand_of_name name ≡ Some s
        → IfSome (expansion_of s cs) (λ ls. All (λ l. Computes b parent_font l.0 l.1) ls) }
{}

/// The initial value of each property is one of its computed values.
pub fn initial_values_are_computed()
    ensures { (p : Prop) → is_computed p (property p).initial ≡ true }
{}

/// A border without a style has no width, and that is a computed width (CSS Backgrounds 3, section 3.3).
pub fn no_width_is_computed()
    ensures top { is_computed BorderTopWidth (pixels 0) ≡ true }
    ensures right { is_computed BorderRightWidth (pixels 0) ≡ true }
    ensures bottom { is_computed BorderBottomWidth (pixels 0) ≡ true }
    ensures left { is_computed BorderLeftWidth (pixels 0) ≡ true }
{}

/// The root becomes a block, and that is a computed `display` (CSS 2.1, section 9.7).
pub fn block_is_computed()
    ensures { is_computed Display (keyword Block) ≡ true }
{}
