//! Laws of printed values.
ghost use Rattle.reply_laws.specs.ValueTexts.{IsComputedStyle, TellsStylesApart, TellsValuesApart, initial_style};
ghost use Rattle.value_model.specs.declared.prop.Prop.{Prop};

/// Of one property, two different computed values have different texts.
pub fn tell_values_apart()
    ensures { (p : Prop) → TellsValuesApart p }
{}

/// Two different styles of computed values have different lines, and so have custom properties with
/// different names or with values of different texts; the initial values are such a style.
pub fn tell_styles_apart()
    ensures apart { TellsStylesApart }
    ensures initial_values { IsComputedStyle initial_style }
{}
