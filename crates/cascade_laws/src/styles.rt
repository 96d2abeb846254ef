//! Laws of styles (CSS Cascade 4, section 4.4).
ghost use Rattle.cascade_laws.specs.Styles.{HaveChildStyles, HaveEachAStyle, HaveOneRoot, HaveOneStyle, HaveRootStyle, HaveStyles};
ghost use Rattle.cascade_model.specs.Defaulting.{value_in};
ghost use Rattle.cascade_model.specs.StyleEquation.{Given, final_value, style_of};
ghost use Rattle.std.specs.Prelude.{◌≡◌};
ghost use Rattle.value_model.specs.declared.prop.Prop.{Prop};

/// A style has the value of the equation for each property.
pub fn have_values()
    ensures { (g : Given) (p : Prop) → value_in (style_of g) p ≡ final_value g p }
{}

/// A document on which no id stands twice has styles, and none for what is no element.
pub fn exist()
    ensures { HaveStyles }
{}

/// Two styles of a document are the same at each element.
pub fn are_unique()
    ensures { HaveOneStyle }
{}

/// Each element of a document has a style.
pub fn of_elements()
    ensures { HaveEachAStyle }
{}

/// The root has the style of an element without a parent, and no other element is without one.
pub fn of_root()
    ensures style { HaveRootStyle }
    ensures alone { HaveOneRoot }
{}

/// Each element that has a parent has the style of a child of an element with the parent's style.
pub fn of_children()
    ensures { HaveChildStyles }
{}
