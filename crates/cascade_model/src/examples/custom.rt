//! Custom properties and `var()` in the cascade (CSS Custom Properties 1, sections 2 and 3).
ghost use Rattle.cascade_model.specs.inner.Examples.{attribute, declared_by_root, environment_of_child, environment_of_root, leaf, of_child, of_root, page_with, parent, units};
ghost use Rattle.std.specs.Prelude.{[], codes, ◌∷◌, ◌≡◌};
ghost use Rattle.value_model.specs.Colors.{rgba};
ghost use Rattle.value_model.specs.Values.{color, keyword};
ghost use Rattle.value_model.specs.declared.color.Color.TheVariants.{Rgba};
ghost use Rattle.value_model.specs.declared.keyword.Keyword.TheVariants.{Auto, None as NoneKeyword};
ghost use Rattle.value_model.specs.declared.prop.Prop.TheVariants.{BorderTopStyle, Color, FontSize, Height, MarginBottom, MarginLeft, MarginRight, MarginTop, MaxWidth, PaddingTop, Width};

/// A value with `var()` is read after substitution, and an entry has no white space at its ends.
#[tactic(auto, unfolding(css_model::specs::inner::Nesting::levels_of, css_model::specs::inner::Pieces::pieces_after, css_model::specs::inner::Fronts::parts_after))]
pub fn references()
    ensures replaced { of_root (page_with (codes "") (codes "") (leaf 0 (codes "div") (attribute (codes "style") (codes "--w: 8px ;width:calc(1px + 2*var(--w));height:var(--h,5px);--b:a  b") ∷ []))) Width
        ≡ units 1088 }
    ensures fallback { of_root (page_with (codes "") (codes "") (leaf 0 (codes "div") (attribute (codes "style") (codes "--w: 8px ;width:calc(1px + 2*var(--w));height:var(--h,5px);--b:a  b") ∷ []))) Height
        ≡ units 320 }
    ensures environment { environment_of_root (page_with (codes "") (codes "") (leaf 0 (codes "div") (attribute (codes "style") (codes "--w: 8px ;width:calc(1px + 2*var(--w));height:var(--h,5px);--b:a  b") ∷ [])))
        ≡ (codes "--b", codes "a b") ∷ (codes "--w", codes "8px") ∷ [] }
{}

/// Names on a cycle have no entry at the root; a declaration that is invalid by them is as `unset`, and no weaker one stands in for it (section 3.1).
#[tactic(auto, unfolding(css_model::specs::inner::Nesting::levels_of, css_model::specs::inner::Pieces::pieces_after, css_model::specs::inner::Fronts::parts_after))]
pub fn cycles()
    ensures invalid { of_root (page_with (codes "") (codes "") (leaf 0 (codes "div") (attribute (codes "style") (codes "--a:var(--b);--b:var(--a);width:1px;width:var(--a);height:var(--a,5px)") ∷ []))) Width
        ≡ keyword Auto }
    ensures fallback { of_root (page_with (codes "") (codes "") (leaf 0 (codes "div") (attribute (codes "style") (codes "--a:var(--b);--b:var(--a);width:1px;width:var(--a);height:var(--a,5px)") ∷ []))) Height
        ≡ units 320 }
    ensures environment { environment_of_root (page_with (codes "") (codes "") (leaf 0 (codes "div") (attribute (codes "style") (codes "--a:var(--b);--b:var(--a);width:1px;width:var(--a);height:var(--a,5px)") ∷ [])))
        ≡ [] }
{}

/// Each longhand of a shorthand takes its part of the whole value; where that is invalid each is unset.
#[tactic(auto, unfolding(css_model::specs::inner::Nesting::levels_of, css_model::specs::inner::Pieces::pieces_after, css_model::specs::inner::Fronts::parts_after))]
pub fn shorthands()
    ensures top { of_root (page_with (codes "") (codes "") (leaf 0 (codes "div") (attribute (codes "style") (codes "--s:1px 2px;margin:var(--s) 3px;padding:1px;padding:var(--s) auto;border-top:var(--n)") ∷ []))) MarginTop
        ≡ units 64 }
    ensures right { of_root (page_with (codes "") (codes "") (leaf 0 (codes "div") (attribute (codes "style") (codes "--s:1px 2px;margin:var(--s) 3px;padding:1px;padding:var(--s) auto;border-top:var(--n)") ∷ []))) MarginRight
        ≡ units 128 }
    ensures bottom { of_root (page_with (codes "") (codes "") (leaf 0 (codes "div") (attribute (codes "style") (codes "--s:1px 2px;margin:var(--s) 3px;padding:1px;padding:var(--s) auto;border-top:var(--n)") ∷ []))) MarginBottom
        ≡ units 192 }
    ensures left { of_root (page_with (codes "") (codes "") (leaf 0 (codes "div") (attribute (codes "style") (codes "--s:1px 2px;margin:var(--s) 3px;padding:1px;padding:var(--s) auto;border-top:var(--n)") ∷ []))) MarginLeft
        ≡ units 128 }
    ensures invalid { of_root (page_with (codes "") (codes "") (leaf 0 (codes "div") (attribute (codes "style") (codes "--s:1px 2px;margin:var(--s) 3px;padding:1px;padding:var(--s) auto;border-top:var(--n)") ∷ []))) PaddingTop
        ≡ units 0 }
    ensures no_entry { of_root (page_with (codes "") (codes "") (leaf 0 (codes "div") (attribute (codes "style") (codes "--s:1px 2px;margin:var(--s) 3px;padding:1px;padding:var(--s) auto;border-top:var(--n)") ∷ []))) BorderTopStyle
        ≡ keyword NoneKeyword }
{}

/// A value that is a CSS-wide keyword after substitution acts as that keyword (section 3).
#[tactic(auto, unfolding(css_model::specs::inner::Nesting::levels_of, css_model::specs::inner::Pieces::pieces_after, css_model::specs::inner::Fronts::parts_after))]
pub fn keywords_in_values()
    ensures inherit { of_child (page_with (codes "") (codes "") (parent 0 (codes "div") (attribute (codes "style") (codes "color:red;width:1px;--i:inherit;--r: initial ;--v:revert") ∷ []) (leaf 1 (codes "p") (attribute (codes "style") (codes "color:blue;width:var(--z,inherit);color:var(--z, unset );height:1px;height:var(--z,initial)") ∷ [])))) Width
        ≡ units 64 }
    ensures unset { of_child (page_with (codes "") (codes "") (parent 0 (codes "div") (attribute (codes "style") (codes "color:red;width:1px;--i:inherit;--r: initial ;--v:revert") ∷ []) (leaf 1 (codes "p") (attribute (codes "style") (codes "color:blue;width:var(--z,inherit);color:var(--z, unset );height:1px;height:var(--z,initial)") ∷ [])))) Color
        ≡ color (Rgba (rgba 255 0 0 255)) }
    ensures initial { of_child (page_with (codes "") (codes "") (parent 0 (codes "div") (attribute (codes "style") (codes "color:red;width:1px;--i:inherit;--r: initial ;--v:revert") ∷ []) (leaf 1 (codes "p") (attribute (codes "style") (codes "color:blue;width:var(--z,inherit);color:var(--z, unset );height:1px;height:var(--z,initial)") ∷ [])))) Height
        ≡ keyword Auto }
{}

/// Also `revert`, by the winner of the user agent.
#[tactic(auto, unfolding(css_model::specs::inner::Nesting::levels_of, css_model::specs::inner::Pieces::pieces_after, css_model::specs::inner::Fronts::parts_after))]
pub fn revert_after_substitution()
    ensures user_agent { of_root (page_with (codes "p{width:1px}") (codes "p{width:2px;width:var(--z,revert)}") (leaf 0 (codes "p") [])) Width
        ≡ units 64 }
{}

/// The keywords as values of custom properties, which are inherited (CSS Cascade 4, section 7.3).
#[tactic(auto, unfolding(css_model::specs::inner::Nesting::levels_of, css_model::specs::inner::Pieces::pieces_after, css_model::specs::inner::Fronts::parts_after))]
pub fn keywords()
    ensures environment { environment_of_child (page_with (codes "") (codes "") (parent 0 (codes "div") (attribute (codes "style") (codes "--a:1;--b:2;--c:3;--d:4;--e:5") ∷ []) (leaf 1 (codes "p") (attribute (codes "style") (codes "--a:inherit;--b:initial;--c:unset;--d:revert;--e:var(--b)") ∷ []))))
        ≡ (codes "--a", codes "1") ∷ (codes "--c", codes "3") ∷ (codes "--d", codes "4") ∷ (codes "--e", codes "5") ∷ [] }
{}

/// Custom properties are inherited, their names compare exactly, and the declaration that wins is that of the cascade.
#[tactic(auto, unfolding(css_model::specs::inner::Nesting::levels_of, css_model::specs::inner::Pieces::pieces_after, css_model::specs::inner::Fronts::parts_after))]
pub fn names()
    ensures environment { environment_of_child (page_with (codes "") (codes "p{--a:1}#q{--a:2}p{--a:3}") (parent 0 (codes "div") (attribute (codes "style") (codes "--z:0") ∷ []) (leaf 1 (codes "p") (attribute (codes "style") (codes "--b:9;--A:7;--B:8") ∷ []))))
        ≡ (codes "--A", codes "7") ∷ (codes "--B", codes "8") ∷ (codes "--a", codes "3") ∷ (codes "--b", codes "9") ∷ (codes "--z", codes "0") ∷ [] }
{}

/// Importance, the `style` attribute and order are asked as of any property; an empty value is one, and what is no value is not kept.
#[tactic(auto, unfolding(css_model::specs::inner::Nesting::levels_of, css_model::specs::inner::Pieces::pieces_after, css_model::specs::inner::Fronts::parts_after))]
pub fn winners()
    ensures environment { environment_of_root (page_with (codes "") (codes "div{--a:1!important;--b:1;--c:1;--e:1}div{--c:2;--d:2}") (leaf 0 (codes "div") (attribute (codes "style") (codes "--a:2;--b:2;--e:2;--e:;--f:3;--f:)") ∷ [])))
        ≡ (codes "--a", codes "1") ∷ (codes "--b", codes "2") ∷ (codes "--c", codes "2") ∷ (codes "--d", codes "2") ∷ (codes "--e", codes "") ∷ (codes "--f", codes "3") ∷ [] }
{}

/// A declaration with a `var()` that is not of the right form is not kept.
#[tactic(auto, unfolding(css_model::specs::inner::Nesting::levels_of, css_model::specs::inner::Pieces::pieces_after, css_model::specs::inner::Fronts::parts_after))]
pub fn forms()
    ensures semicolon_inside { of_root (page_with (codes "") (codes "") (leaf 0 (codes "div") (attribute (codes "style") (codes "--a:2px;width:1px;width:var(--a;height:1px)") ∷ []))) Width
        ≡ units 64 }
{}

/// Other wrong forms; names of properties compare in any case.
#[tactic(auto, unfolding(css_model::specs::inner::Nesting::levels_of, css_model::specs::inner::Pieces::pieces_after, css_model::specs::inner::Fronts::parts_after))]
pub fn invalid_forms()
    ensures no_custom_name { of_root (page_with (codes "") (codes "") (leaf 0 (codes "div") (attribute (codes "style") (codes "width:1px;width:var(a);height:1px;height:var(--);--:1;--w:1px;margin-top:2px;zz:var(--w);MARGIN-top:var(--w)") ∷ []))) Width
        ≡ units 64 }
    ensures name_without_more { of_root (page_with (codes "") (codes "") (leaf 0 (codes "div") (attribute (codes "style") (codes "width:1px;width:var(a);height:1px;height:var(--);--:1;--w:1px;margin-top:2px;zz:var(--w);MARGIN-top:var(--w)") ∷ []))) Height
        ≡ units 64 }
    ensures any_case { of_root (page_with (codes "") (codes "") (leaf 0 (codes "div") (attribute (codes "style") (codes "width:1px;width:var(a);height:1px;height:var(--);--:1;--w:1px;margin-top:2px;zz:var(--w);MARGIN-top:var(--w)") ∷ []))) MarginTop
        ≡ units 64 }
    ensures environment { environment_of_root (page_with (codes "") (codes "") (leaf 0 (codes "div") (attribute (codes "style") (codes "width:1px;width:var(a);height:1px;height:var(--);--:1;--w:1px;margin-top:2px;zz:var(--w);MARGIN-top:var(--w)") ∷ [])))
        ≡ (codes "--w", codes "1px") ∷ [] }
{}

/// `all` sets each property, and leaves custom properties alone.
#[tactic(auto, unfolding(css_model::specs::inner::Nesting::levels_of, css_model::specs::inner::Pieces::pieces_after, css_model::specs::inner::Fronts::parts_after))]
pub fn all_properties()
    ensures inherited { of_child (page_with (codes "") (codes "") (parent 0 (codes "div") (attribute (codes "style") (codes "color:red;width:1px;--a:x") ∷ []) (leaf 1 (codes "p") (attribute (codes "style") (codes "color:blue;width:2px;all:var(--n, inherit );--b:y") ∷ [])))) Width
        ≡ units 64 }
    ensures environment { environment_of_child (page_with (codes "") (codes "") (parent 0 (codes "div") (attribute (codes "style") (codes "color:red;width:1px;--a:x") ∷ []) (leaf 1 (codes "p") (attribute (codes "style") (codes "color:blue;width:2px;all:var(--n, inherit );--b:y") ∷ []))))
        ≡ (codes "--a", codes "x") ∷ (codes "--b", codes "y") ∷ [] }
{}

/// A value with a `var()` of the right form is kept whatever else stands in it, and is invalid after substitution.
#[tactic(auto, unfolding(css_model::specs::inner::Nesting::levels_of, css_model::specs::inner::Pieces::pieces_after, css_model::specs::inner::Fronts::parts_after))]
pub fn kept_whole()
    ensures invalid { of_root (page_with (codes "") (codes "") (leaf 0 (codes "div") (attribute (codes "style") (codes "width:var(--n) );height:1px;height:var(--n) );max-width:1px;max-width:min(var(--n, 2px), 3px)") ∷ []))) Width
        ≡ keyword Auto }
    ensures over_a_valid_one { of_root (page_with (codes "") (codes "") (leaf 0 (codes "div") (attribute (codes "style") (codes "width:var(--n) );height:1px;height:var(--n) );max-width:1px;max-width:min(var(--n, 2px), 3px)") ∷ []))) Height
        ≡ keyword Auto }
    ensures calculation { of_root (page_with (codes "") (codes "") (leaf 0 (codes "div") (attribute (codes "style") (codes "width:var(--n) );height:1px;height:var(--n) );max-width:1px;max-width:min(var(--n, 2px), 3px)") ∷ []))) MaxWidth
        ≡ units 128 }
{}

/// A name on a cycle has the entry of the parent, and another name that refers to it sees that.
#[tactic(auto, unfolding(css_model::specs::inner::Nesting::levels_of, css_model::specs::inner::Pieces::pieces_after, css_model::specs::inner::Fronts::parts_after))]
pub fn invalid_custom_properties()
    ensures root { environment_of_root (page_with (codes "") (codes "") (parent 0 (codes "div") (attribute (codes "style") (codes "--a:var(--a)") ∷ []) (leaf 1 (codes "p") (attribute (codes "style") (codes "--a:1;--b:var(--b);--c:var(--d)") ∷ []))))
        ≡ [] }
    ensures child { environment_of_child (page_with (codes "") (codes "") (parent 0 (codes "div") (attribute (codes "style") (codes "--a:var(--a)") ∷ []) (leaf 1 (codes "p") (attribute (codes "style") (codes "--a:1;--b:var(--b);--c:var(--d)") ∷ []))))
        ≡ (codes "--a", codes "1") ∷ [] }
    ensures inherited { environment_of_child (page_with (codes "") (codes "") (parent 0 (codes "div") (attribute (codes "style") (codes "--a:1;--b:2;--c:3") ∷ []) (leaf 1 (codes "p") (attribute (codes "style") (codes "--a:var(--a);--b:var(--c);--c:var(--b) x;--d:var(--a)") ∷ []))))
        ≡ (codes "--a", codes "1") ∷ (codes "--b", codes "2") ∷ (codes "--c", codes "3") ∷ (codes "--d", codes "1") ∷ [] }
{}

/// A substituted value is computed where it is used.
#[tactic(auto, unfolding(css_model::specs::inner::Nesting::levels_of, css_model::specs::inner::Pieces::pieces_after, css_model::specs::inner::Fronts::parts_after))]
pub fn computed_where_used()
    ensures font_size { of_child (page_with (codes "") (codes "") (parent 0 (codes "div") (attribute (codes "style") (codes "font-size:20px;--w:2em") ∷ []) (leaf 1 (codes "p") (attribute (codes "style") (codes "font-size:10px;width:var(--w);font-size:var(--f, 2em)") ∷ [])))) FontSize
        ≡ units 2560 }
    ensures width { of_child (page_with (codes "") (codes "") (parent 0 (codes "div") (attribute (codes "style") (codes "font-size:20px;--w:2em") ∷ []) (leaf 1 (codes "p") (attribute (codes "style") (codes "font-size:10px;width:var(--w);font-size:var(--f, 2em)") ∷ [])))) Width
        ≡ units 5120 }
{}

/// What is declared stands in order of name, each name once, with the value that wins.
#[tactic(auto, unfolding(css_model::specs::inner::Nesting::levels_of, css_model::specs::inner::Pieces::pieces_after, css_model::specs::inner::Fronts::parts_after))]
pub fn declared()
    ensures in_order { declared_by_root (page_with (codes "") (codes "div{--b:1;--a:2}div{--b:3;--c:4}") (leaf 0 (codes "div") (attribute (codes "style") (codes "--a:5;width:1px") ∷ [])))
        ≡ (codes "--a", codes "5") ∷ (codes "--b", codes "3") ∷ (codes "--c", codes "4") ∷ [] }
{}
