//! Properties.

/// A property, in the order in which they are printed.
#[derive(Clone, Copy, Debug, PartialEq, Eq)]
pub enum Prop {
    /// `display`.
    Display,
    /// `width`.
    Width,
    /// `height`.
    Height,
    /// `min-width`.
    MinWidth,
    /// `min-height`.
    MinHeight,
    /// `max-width`.
    MaxWidth,
    /// `max-height`.
    MaxHeight,
    /// `margin-top`.
    MarginTop,
    /// `margin-right`.
    MarginRight,
    /// `margin-bottom`.
    MarginBottom,
    /// `margin-left`.
    MarginLeft,
    /// `padding-top`.
    PaddingTop,
    /// `padding-right`.
    PaddingRight,
    /// `padding-bottom`.
    PaddingBottom,
    /// `padding-left`.
    PaddingLeft,
    /// `border-top-width`.
    BorderTopWidth,
    /// `border-right-width`.
    BorderRightWidth,
    /// `border-bottom-width`.
    BorderBottomWidth,
    /// `border-left-width`.
    BorderLeftWidth,
    /// `border-top-style`.
    BorderTopStyle,
    /// `border-right-style`.
    BorderRightStyle,
    /// `border-bottom-style`.
    BorderBottomStyle,
    /// `border-left-style`.
    BorderLeftStyle,
    /// `border-top-color`.
    BorderTopColor,
    /// `border-right-color`.
    BorderRightColor,
    /// `border-bottom-color`.
    BorderBottomColor,
    /// `border-left-color`.
    BorderLeftColor,
    /// `box-sizing`.
    BoxSizing,
    /// `font-size`.
    FontSize,
    /// `line-height`.
    LineHeight,
    /// `color`.
    Color,
    /// `background-color`.
    BackgroundColor,
    /// `text-align`.
    TextAlign,
    /// `white-space`.
    WhiteSpace,
    /// `overflow`.
    Overflow,
    /// `contain`.
    Contain,
    /// `container-type`.
    ContainerType,
    /// `container-name`.
    ContainerName,
    /// `visibility`.
    Visibility,
    /// `opacity`.
    Opacity,
    /// `font-style`.
    FontStyle,
    /// `font-weight`.
    FontWeight,
    /// `z-index`.
    ZIndex,
    /// `text-decoration-line`.
    TextDecorationLine,
    /// `pointer-events`.
    PointerEvents,
}
