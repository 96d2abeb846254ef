//! What a style makes of an element's box (CSS 2.1, sections 9.2 and 9.4.1; CSS Containment 2,
//! section 3).
ghost use Rattle.box_sizes.specs.StyleValues.{values_of};
ghost use Rattle.flow_model.specs.Kinds as kinds;
ghost use Rattle.prop_table.specs.Views.{final_view};
ghost use Rattle.std.specs.Prelude.{◌≡◌};
ghost use Rattle.value_model.specs.declared.prop.Prop.TheVariants as props;

use crate::lengths::value;
use flow_model::{BoxKind, Effects};
use prop_table::{Final, Style};
use value_model::{Containment, Keyword, Prop};

/// Returns the kind of box that an element of this style has, whether it is the root of a block
/// formatting context, and its containment.
pub fn effects(s: &Style, is_root: bool) -> Effects
    ensures { result ≡ kinds.effects (values_of s.now) is_root }
{
    let kind = kind(s);
    let boxed = is_boxed(kind);
    Effects {
        kind,
        independent: boxed && is_independent(s, is_root),
        inline_contained: boxed && has_inline_size_containment(s),
        size_contained: boxed && has_size_containment(s),
        layout_contained: boxed && has_layout_containment(s),
    }
}

// ---- single values

fn kind_of(display: &Final) -> BoxKind
    ensures { result ≡ kinds.kind_of (final_view display.now) }
{
    match display {
        Final::Keyword(Keyword::Block) => BoxKind::Block,
        Final::Keyword(Keyword::FlowRoot) => BoxKind::Block,
        Final::Keyword(Keyword::InlineBlock) => BoxKind::InlineBlock,
        Final::Keyword(Keyword::None) => BoxKind::NoBox,
        _ => BoxKind::Inline,
    }
}

fn is_boxed(kind: BoxKind) -> bool
    ensures { result ≡ kinds.is_boxed kind }
{
    match kind {
        BoxKind::Block => true,
        BoxKind::InlineBlock => true,
        BoxKind::Inline => false,
        BoxKind::NoBox => false,
    }
}

fn is_inline_block(kind: BoxKind) -> bool
    ensures { result ≡ kinds.is_inline_block kind }
{
    match kind {
        BoxKind::InlineBlock => true,
        _ => false,
    }
}

fn is_flow_root(display: &Final) -> bool
    ensures { result ≡ kinds.is_flow_root (final_view display.now) }
{
    match display {
        Final::Keyword(Keyword::FlowRoot) => true,
        _ => false,
    }
}

fn is_visible_value(overflow: &Final) -> bool
    ensures { result ≡ kinds.is_visible (final_view overflow.now) }
{
    match overflow {
        Final::Keyword(Keyword::Visible) => true,
        _ => false,
    }
}

fn contained_by(v: &Final) -> Containment
    ensures { result ≡ kinds.contained_by (final_view v.now) }
{
    match v {
        Final::Containment(c) => *c,
        _ => Containment {
            size: false,
            inline_size: false,
            layout: false,
            style: false,
            paint: false,
        },
    }
}

fn is_inline_size(container_type: &Final) -> bool
    ensures { result ≡ kinds.is_inline_size (final_view container_type.now) }
{
    match container_type {
        Final::Keyword(Keyword::InlineSize) => true,
        _ => false,
    }
}

fn is_size(container_type: &Final) -> bool
    ensures { result ≡ kinds.is_size (final_view container_type.now) }
{
    match container_type {
        Final::Keyword(Keyword::Size) => true,
        _ => false,
    }
}

// ---- styles

/// Whether `overflow` is `visible`.
pub(crate) fn is_overflow_visible(s: &Style) -> bool
    ensures { result ≡ kinds.is_visible (values_of s.now props.Overflow) }
{
    is_visible_value(value(s, Prop::Overflow))
}

fn kind(s: &Style) -> BoxKind
    ensures { result ≡ kinds.kind_of (values_of s.now props.Display) }
{
    kind_of(value(s, Prop::Display))
}

fn containment(s: &Style) -> Containment
    ensures { result ≡ kinds.contained_by (values_of s.now props.Contain) }
{
    contained_by(value(s, Prop::Contain))
}

fn is_inline_container(s: &Style) -> bool
    ensures { result ≡ kinds.is_inline_size (values_of s.now props.ContainerType) }
{
    is_inline_size(value(s, Prop::ContainerType))
}

fn is_size_container(s: &Style) -> bool
    ensures { result ≡ kinds.is_size (values_of s.now props.ContainerType) }
{
    is_size(value(s, Prop::ContainerType))
}

fn has_inline_size_containment(s: &Style) -> bool
    ensures { result ≡ kinds.has_inline_size_containment (values_of s.now) }
{
    containment(s).inline_size || is_inline_container(s)
}

fn has_size_containment(s: &Style) -> bool
    ensures { result ≡ kinds.has_size_containment (values_of s.now) }
{
    containment(s).size || is_size_container(s)
}

fn has_layout_containment(s: &Style) -> bool
    ensures { result ≡ kinds.has_layout_containment (values_of s.now) }
{
    containment(s).layout || (is_inline_container(s) || is_size_container(s))
}

fn is_independent(s: &Style, is_root: bool) -> bool
    ensures { result ≡ kinds.is_independent (values_of s.now) is_root }
{
    is_root
        || (is_inline_block(kind(s))
            || (is_flow_root(value(s, Prop::Display))
                || (!is_overflow_visible(s)
                    || (has_layout_containment(s) || containment(s).paint))))
}
