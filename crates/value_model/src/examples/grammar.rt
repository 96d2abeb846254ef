//! What holds of the values of every property.
ghost use Rattle.std.specs.Prelude.{◌≡◌, Some, codes, false, true};
ghost use Rattle.value_model.specs.Values.{wide_keyword};
ghost use Rattle.value_model.specs.declared.prop.Prop.TheVariants.{Color, Contain, ContainerName, Display, MarginTop, Width};
ghost use Rattle.value_model.specs.declared.wide_keyword.WideKeyword.TheVariants.{Inherit, Initial, Unset, Revert};
ghost use Rattle.value_model.specs.inner.Examples.{declared, final, is_right, units};

/// The keywords of every property (CSS Cascade 4, section 7.3).
#[tactic(auto, unfolding(css_model::specs::inner::Nesting::levels_of, css_model::specs::inner::Pieces::pieces_after, css_model::specs::inner::Fronts::parts_after))]
pub fn wide_keywords()
    ensures width_inherit { declared Width (codes "inherit") ≡ Some (wide_keyword Inherit) }
    ensures width_initial { declared Width (codes "initial") ≡ Some (wide_keyword Initial) }
    ensures width_unset { declared Width (codes "unset") ≡ Some (wide_keyword Unset) }
    ensures width_revert { declared Width (codes "revert") ≡ Some (wide_keyword Revert) }
    ensures color_inherit { declared Color (codes "inherit") ≡ Some (wide_keyword Inherit) }
    ensures color_initial { declared Color (codes "initial") ≡ Some (wide_keyword Initial) }
    ensures color_unset { declared Color (codes "unset") ≡ Some (wide_keyword Unset) }
    ensures color_revert { declared Color (codes "revert") ≡ Some (wide_keyword Revert) }
    ensures container_name_inherit { declared ContainerName (codes "inherit")
        ≡ Some (wide_keyword Inherit) }
    ensures container_name_initial { declared ContainerName (codes "initial")
        ≡ Some (wide_keyword Initial) }
    ensures container_name_unset { declared ContainerName (codes "unset") ≡ Some (wide_keyword Unset) }
    ensures container_name_revert { declared ContainerName (codes "revert")
        ≡ Some (wide_keyword Revert) }
    ensures contain_inherit { declared Contain (codes "inherit") ≡ Some (wide_keyword Inherit) }
    ensures contain_initial { declared Contain (codes "initial") ≡ Some (wide_keyword Initial) }
    ensures contain_unset { declared Contain (codes "unset") ≡ Some (wide_keyword Unset) }
    ensures contain_revert { declared Contain (codes "revert") ≡ Some (wide_keyword Revert) }
    ensures display_inherit { declared Display (codes "INHERIT") ≡ Some (wide_keyword Inherit) }
    ensures width_not_inherit_inherit { is_right Width (codes "inherit inherit") ≡ false }
    ensures width_not_revert_layer { is_right Width (codes "revert-layer") ≡ false }
    ensures margin_top_not_auto_inherit { is_right MarginTop (codes "auto inherit") ≡ false }
    ensures contain_not_inherit_layout { is_right Contain (codes "inherit layout") ≡ false }
{}

/// Component values that are part of no value.
#[tactic(auto, unfolding(css_model::specs::inner::Nesting::levels_of, css_model::specs::inner::Pieces::pieces_after, css_model::specs::inner::Fronts::parts_after))]
pub fn component_values()
    ensures comment { final Width (codes "1px/**/") ≡ Some (units 64) }
    ensures block { is_right Width (codes "(1px)") ≡ false }
    ensures calculation { is_right Width (codes "calc(1px)") ≡ true }
    ensures function { is_right Width (codes "f(1px)") ≡ false }
    ensures important { is_right Width (codes "1px !important") ≡ false }
    ensures delim { is_right Display (codes "block/") ≡ false }
    ensures bad_string { is_right ContainerName (codes "a '") ≡ false }
{}
