//! The properties in their order.
ghost use Rattle.std.specs.Prelude.{◌≡◌, ◌<◌};
ghost use Rattle.value_model.specs.Properties as properties;

use value_model::Prop;

/// The properties, in the order in which they are printed.
const ALL: [Prop; 45] = [
    Prop::Display,
    Prop::Width,
    Prop::Height,
    Prop::MinWidth,
    Prop::MinHeight,
    Prop::MaxWidth,
    Prop::MaxHeight,
    Prop::MarginTop,
    Prop::MarginRight,
    Prop::MarginBottom,
    Prop::MarginLeft,
    Prop::PaddingTop,
    Prop::PaddingRight,
    Prop::PaddingBottom,
    Prop::PaddingLeft,
    Prop::BorderTopWidth,
    Prop::BorderRightWidth,
    Prop::BorderBottomWidth,
    Prop::BorderLeftWidth,
    Prop::BorderTopStyle,
    Prop::BorderRightStyle,
    Prop::BorderBottomStyle,
    Prop::BorderLeftStyle,
    Prop::BorderTopColor,
    Prop::BorderRightColor,
    Prop::BorderBottomColor,
    Prop::BorderLeftColor,
    Prop::BoxSizing,
    Prop::FontSize,
    Prop::LineHeight,
    Prop::Color,
    Prop::BackgroundColor,
    Prop::TextAlign,
    Prop::WhiteSpace,
    Prop::Overflow,
    Prop::Contain,
    Prop::ContainerType,
    Prop::ContainerName,
    Prop::Visibility,
    Prop::Opacity,
    Prop::FontStyle,
    Prop::FontWeight,
    Prop::ZIndex,
    Prop::TextDecorationLine,
    Prop::PointerEvents,
];

/// Returns the properties, in the order in which they are printed.
pub fn all_props() -> &'static [Prop]
    ensures { result.now ≡ properties.properties }
{
    &ALL
}

/// Returns the place of `prop` in this order, from 0.
pub fn prop_place(prop: Prop) -> usize
    ensures place { result ≡ properties.prop_place prop }
    ensures within { result < 45 }
{
    prop as usize
}
