//! Values of `contain` and of properties of containers.
ghost use Rattle.std.specs.Prelude.{◌≡◌, Some, codes, true, false, ◌∷◌, []};
ghost use Rattle.value_model.specs.Forms.{contained, nothing_contained};
ghost use Rattle.value_model.specs.Values.{containment, keyword, names};
ghost use Rattle.value_model.specs.declared.keyword.Keyword.TheVariants.{InlineSize, Normal, Size};
ghost use Rattle.value_model.specs.declared.prop.Prop.TheVariants.{Contain, ContainerName, ContainerType};
ghost use Rattle.value_model.specs.inner.Examples.{final, is_right};

/// `contain` (CSS Containment 2, section 2).
#[tactic(auto, unfolding(css_model::specs::inner::Nesting::levels_of, css_model::specs::inner::Pieces::pieces_after, css_model::specs::inner::Fronts::parts_after))]
pub fn contain()
    ensures contain_none { final Contain (codes "none") ≡ Some (containment nothing_contained) }
    ensures contain_strict { final Contain (codes "strict")
        ≡ Some (containment (contained true false true true true)) }
    ensures contain_content { final Contain (codes "content")
        ≡ Some (containment (contained false false true true true)) }
    ensures contain_size { final Contain (codes "size")
        ≡ Some (containment (contained true false false false false)) }
    ensures contain_inline_size { final Contain (codes "inline-size")
        ≡ Some (containment (contained false true false false false)) }
    ensures contain_layout { final Contain (codes "layout")
        ≡ Some (containment (contained false false true false false)) }
    ensures contain_style { final Contain (codes "style")
        ≡ Some (containment (contained false false false true false)) }
    ensures contain_paint { final Contain (codes "paint")
        ≡ Some (containment (contained false false false false true)) }
    ensures contain_paint_size { final Contain (codes "paint size")
        ≡ Some (containment (contained true false false false true)) }
    ensures contain_paint_style_layout_inline_size { final Contain (codes "PAINT Style layout inline-size")
        ≡ Some (containment (contained false true true true true)) }
    ensures contain_not_size_inline_size { is_right Contain (codes "size inline-size") ≡ false }
    ensures contain_not_inline_size_layout_size { is_right Contain (codes "inline-size layout size")
        ≡ false }
    ensures contain_not_layout_layout { is_right Contain (codes "layout layout") ≡ false }
    ensures contain_not_inline_size_inline_size { is_right Contain (codes "inline-size inline-size")
        ≡ false }
    ensures contain_not_paint_paint { is_right Contain (codes "paint paint") ≡ false }
    ensures contain_strict_2 { final Contain (codes "STRICT")
        ≡ Some (containment (contained true false true true true)) }
    ensures contain_not_size_size { is_right Contain (codes "size size") ≡ false }
    ensures contain_not_style_paint_style { is_right Contain (codes "style paint style") ≡ false }
    ensures contain_not_none_size { is_right Contain (codes "none size") ≡ false }
    ensures contain_not_strict_layout { is_right Contain (codes "strict layout") ≡ false }
    ensures contain_not_layout_content { is_right Contain (codes "layout content") ≡ false }
    ensures contain_not_paint_1 { is_right Contain (codes "paint 1") ≡ false }
    ensures contain_not { is_right Contain (codes "") ≡ false }
{}

/// `container-type` and `container-name` (CSS Conditional 5, sections 5.1 and 5.2).
#[tactic(auto, unfolding(css_model::specs::inner::Nesting::levels_of, css_model::specs::inner::Pieces::pieces_after, css_model::specs::inner::Fronts::parts_after))]
pub fn containers()
    ensures container_type_normal { final ContainerType (codes "normal") ≡ Some (keyword Normal) }
    ensures container_type_inline_size { final ContainerType (codes "inline-size")
        ≡ Some (keyword InlineSize) }
    ensures container_type_size { final ContainerType (codes "size") ≡ Some (keyword Size) }
    ensures container_type_not_block_size { is_right ContainerType (codes "block-size") ≡ false }
    ensures container_type_not_size_size { is_right ContainerType (codes "size size") ≡ false }
    ensures container_name_none { final ContainerName (codes "none") ≡ Some (names []) }
    ensures container_name_none_2 { final ContainerName (codes "NONE") ≡ Some (names []) }
    ensures container_name_a { final ContainerName (codes "a") ≡ Some (names (codes "a" ∷ [])) }
    ensures container_name_a_b_a { final ContainerName (codes "a B a")
        ≡ Some (names (codes "a" ∷ codes "B" ∷ codes "a" ∷ [])) }
    ensures container_name_a_slash_slash_b { final ContainerName (codes "a/**/b")
        ≡ Some (names (codes "a" ∷ codes "b" ∷ [])) }
    ensures container_name_auto { final ContainerName (codes "auto")
        ≡ Some (names (codes "auto" ∷ [])) }
    ensures container_name_a_2 { final ContainerName (codes "--a") ≡ Some (names (codes "--a" ∷ [])) }
    ensures container_name_not_and { is_right ContainerName (codes "and") ≡ false }
    ensures container_name_not_or { is_right ContainerName (codes "or") ≡ false }
    ensures container_name_not_not { is_right ContainerName (codes "not") ≡ false }
    ensures container_name_not_default { is_right ContainerName (codes "default") ≡ false }
    ensures container_name_not_revert_layer { is_right ContainerName (codes "revert-layer") ≡ false }
    ensures container_name_not_a_none { is_right ContainerName (codes "a none") ≡ false }
    ensures container_name_not_a_and { is_right ContainerName (codes "a AND") ≡ false }
    ensures container_name_not_a_or { is_right ContainerName (codes "a Or") ≡ false }
    ensures container_name_not_a_not { is_right ContainerName (codes "a nOt") ≡ false }
    ensures container_name_not_a_default { is_right ContainerName (codes "a default") ≡ false }
    ensures container_name_not_a_inherit { is_right ContainerName (codes "a inherit") ≡ false }
    ensures container_name_not_a_initial { is_right ContainerName (codes "a initial") ≡ false }
    ensures container_name_not_a_unset { is_right ContainerName (codes "a unset") ≡ false }
    ensures container_name_not_a_revert { is_right ContainerName (codes "a revert") ≡ false }
    ensures container_name_not_a_revert_layer { is_right ContainerName (codes "a revert-layer")
        ≡ false }
    ensures container_name_not_none_a { is_right ContainerName (codes "none a") ≡ false }
    ensures container_name_not_a_b { is_right ContainerName (codes "a, b") ≡ false }
    ensures container_name_not_a { is_right ContainerName (codes "\"a\"") ≡ false }
    ensures container_name_not { is_right ContainerName (codes "") ≡ false }
{}
