//! Kinds of boxes, independence and containment.
ghost use Rattle.flow_model.specs.declared.box_kind.BoxKind.TheVariants as kinds;
ghost use Rattle.flow_model.specs.inner.Examples.{but, kw, no_effects, plain};
ghost use Rattle.flow_model.specs.Kinds.{effects, is_visible, kind_of};
ghost use Rattle.std.specs.Prelude.{◌≡◌, false, true};
ghost use Rattle.value_model.specs.declared.keyword.Keyword.TheVariants as keywords;
ghost use Rattle.value_model.specs.declared.prop.Prop.TheVariants.{Contain, ContainerType, Display, Overflow};
ghost use Rattle.value_model.specs.Forms.{nothing_contained};
ghost use Rattle.value_model.specs.Values.{containment};

/// The kind of box by `display`.
pub fn by_display()
    ensures block { kind_of (kw keywords.Block) ≡ kinds.Block }
    ensures flow_root { kind_of (kw keywords.FlowRoot) ≡ kinds.Block }
    ensures inline_block { kind_of (kw keywords.InlineBlock) ≡ kinds.InlineBlock }
    ensures inline { kind_of (kw keywords.Inline) ≡ kinds.Inline }
    ensures none { kind_of (kw keywords.None) ≡ kinds.NoBox }
    ensures visible { is_visible (kw keywords.Visible) ≡ true }
    ensures hidden { is_visible (kw keywords.Hidden) ≡ false }
{}

/// A block is independent where something makes it so.
pub fn independence()
    ensures block { effects (but Display (kw keywords.Block) plain) false ≡ no_effects }
    ensures root { effects (but Display (kw keywords.Block) plain) true
        ≡ record no_effects { independent = true } }
    ensures flow_root { effects (but Display (kw keywords.FlowRoot) plain) false
        ≡ record no_effects { independent = true } }
    ensures inline_block { effects (but Display (kw keywords.InlineBlock) plain) false
        ≡ record no_effects { kind = kinds.InlineBlock; independent = true } }
    ensures hidden { effects (but Overflow (kw keywords.Hidden) (but Display (kw keywords.Block) plain)) false
        ≡ record no_effects { independent = true } }
    ensures scroll { effects (but Overflow (kw keywords.Scroll) (but Display (kw keywords.Block) plain)) false
        ≡ record no_effects { independent = true } }
    ensures auto { effects (but Overflow (kw keywords.Auto) (but Display (kw keywords.Block) plain)) false
        ≡ record no_effects { independent = true } }
{}

/// `contain` and `container-type` give containment; style containment has no effect.
pub fn containment_of_blocks()
    ensures size { effects (but Contain (containment (record nothing_contained { size = true }))
        (but Display (kw keywords.Block) plain)) false
        ≡ record no_effects { size_contained = true } }
    ensures inline_size { effects (but Contain (containment (record nothing_contained { inline_size = true }))
        (but Display (kw keywords.Block) plain)) false
        ≡ record no_effects { inline_contained = true } }
    ensures layout { effects (but Contain (containment (record nothing_contained { layout = true }))
        (but Display (kw keywords.Block) plain)) false
        ≡ record no_effects { independent = true; layout_contained = true } }
    ensures paint { effects (but Contain (containment (record nothing_contained { paint = true }))
        (but Display (kw keywords.Block) plain)) false
        ≡ record no_effects { independent = true } }
    ensures style { effects (but Contain (containment (record nothing_contained { style = true }))
        (but Display (kw keywords.Block) plain)) false ≡ no_effects }
    ensures inline_size_container { effects (but ContainerType (kw keywords.InlineSize)
        (but Display (kw keywords.Block) plain)) false
        ≡ record no_effects { independent = true; inline_contained = true; layout_contained = true } }
    ensures size_container { effects (but ContainerType (kw keywords.Size)
        (but Display (kw keywords.Block) plain)) false
        ≡ record no_effects { independent = true; size_contained = true; layout_contained = true } }
    ensures inline_block { effects (but ContainerType (kw keywords.Size)
        (but Display (kw keywords.InlineBlock) plain)) false
        ≡ record no_effects {
          kind = kinds.InlineBlock;
          independent = true;
          size_contained = true;
          layout_contained = true;
        } }
{}

/// Nothing has an effect on an element without a block or inline-block box.
pub fn without_a_box()
    ensures inline_container { effects (but ContainerType (kw keywords.Size) plain) false
        ≡ record no_effects { kind = kinds.Inline } }
    ensures inline_size_container { effects (but ContainerType (kw keywords.InlineSize) plain) false
        ≡ record no_effects { kind = kinds.Inline } }
    ensures hidden_inline { effects (but Overflow (kw keywords.Hidden) plain) false
        ≡ record no_effects { kind = kinds.Inline } }
    ensures none { effects (but Overflow (kw keywords.Hidden) (but Display (kw keywords.None) plain)) true
        ≡ record no_effects { kind = kinds.NoBox } }
{}
