//! The grammar of each property (the modules of each property).
ghost use Rattle.prop_table.specs.inner.FormViews.{forms_view};
ghost use Rattle.std.specs.Prelude.{◌≡◌};
ghost use Rattle.value_model.specs.Properties as properties;

use crate::form::Form;
use value_model::{Keyword, Prop};

/// The forms that a value of `prop` may have.
pub(crate) fn forms(prop: Prop) -> &'static [Form]
    ensures { forms_view result.now ≡ (properties.property prop).forms }
{
    match prop {
        Prop::Display => &DISPLAY,
        Prop::Width | Prop::Height | Prop::MinWidth | Prop::MinHeight => &SIZE,
        Prop::MaxWidth | Prop::MaxHeight => &MOST,
        Prop::MarginTop | Prop::MarginRight | Prop::MarginBottom | Prop::MarginLeft => &MARGIN,
        Prop::PaddingTop | Prop::PaddingRight | Prop::PaddingBottom | Prop::PaddingLeft => &PADDING,
        Prop::BorderTopWidth
        | Prop::BorderRightWidth
        | Prop::BorderBottomWidth
        | Prop::BorderLeftWidth => &BORDER_WIDTH,
        Prop::BorderTopStyle
        | Prop::BorderRightStyle
        | Prop::BorderBottomStyle
        | Prop::BorderLeftStyle => &BORDER_STYLE,
        Prop::BorderTopColor
        | Prop::BorderRightColor
        | Prop::BorderBottomColor
        | Prop::BorderLeftColor
        | Prop::Color
        | Prop::BackgroundColor => &COLOR,
        Prop::BoxSizing => &BOX_SIZING,
        Prop::FontSize => &FONT_SIZE,
        Prop::LineHeight => &LINE_HEIGHT,
        Prop::TextAlign => &TEXT_ALIGN,
        Prop::WhiteSpace => &WHITE_SPACE,
        Prop::Overflow => &OVERFLOW,
        Prop::Contain => &CONTAIN,
        Prop::ContainerType => &CONTAINER_TYPE,
        Prop::ContainerName => &CONTAINER_NAME,
        Prop::Visibility => &VISIBILITY,
        Prop::Opacity => &OPACITY,
        Prop::FontStyle => &FONT_STYLE,
        Prop::FontWeight => &FONT_WEIGHT,
        Prop::ZIndex => &Z_INDEX,
        Prop::TextDecorationLine => &TEXT_DECORATION_LINE,
        Prop::PointerEvents => &POINTER_EVENTS,
    }
}

const DISPLAY: [Form; 1] = [Form::OneOf(&[
    Keyword::Block,
    Keyword::Inline,
    Keyword::InlineBlock,
    Keyword::FlowRoot,
    Keyword::None,
])];

const SIZE: [Form; 2] = [Form::OneOf(&[Keyword::Auto]), Form::LengthOrPercentage];

const MOST: [Form; 2] = [Form::OneOf(&[Keyword::None]), Form::LengthOrPercentage];

const MARGIN: [Form; 2] = [Form::OneOf(&[Keyword::Auto]), Form::AnyLengthOrPercentage];

const PADDING: [Form; 1] = [Form::LengthOrPercentage];

const BORDER_WIDTH: [Form; 2] = [
    Form::OneOf(&[Keyword::Thin, Keyword::Medium, Keyword::Thick]),
    Form::Length,
];

const BORDER_STYLE: [Form; 1] = [Form::OneOf(&[
    Keyword::None,
    Keyword::Hidden,
    Keyword::Dotted,
    Keyword::Dashed,
    Keyword::Solid,
    Keyword::Double,
    Keyword::Groove,
    Keyword::Ridge,
    Keyword::Inset,
    Keyword::Outset,
])];

const COLOR: [Form; 1] = [Form::Color];

const BOX_SIZING: [Form; 1] = [Form::OneOf(&[Keyword::ContentBox, Keyword::BorderBox])];

const FONT_SIZE: [Form; 2] = [Form::OneOf(&[Keyword::Medium]), Form::LengthOrPercentage];

const LINE_HEIGHT: [Form; 3] = [
    Form::OneOf(&[Keyword::Normal]),
    Form::Number,
    Form::LengthOrPercentage,
];

const TEXT_ALIGN: [Form; 1] = [Form::OneOf(&[
    Keyword::Left,
    Keyword::Right,
    Keyword::Center,
    Keyword::Start,
    Keyword::End,
])];

const WHITE_SPACE: [Form; 1] = [Form::OneOf(&[Keyword::Normal, Keyword::Nowrap])];

const OVERFLOW: [Form; 1] = [Form::OneOf(&[
    Keyword::Visible,
    Keyword::Hidden,
    Keyword::Scroll,
    Keyword::Auto,
])];

const CONTAIN: [Form; 1] = [Form::Containment];

const CONTAINER_TYPE: [Form; 1] = [Form::OneOf(&[
    Keyword::Normal,
    Keyword::InlineSize,
    Keyword::Size,
])];

const CONTAINER_NAME: [Form; 1] = [Form::ContainerNames];

const VISIBILITY: [Form; 1] = [Form::OneOf(&[
    Keyword::Visible,
    Keyword::Hidden,
    Keyword::Collapse,
])];

const OPACITY: [Form; 1] = [Form::AnyNumber];

const FONT_STYLE: [Form; 1] = [Form::OneOf(&[Keyword::Normal, Keyword::Italic, Keyword::Oblique])];

const FONT_WEIGHT: [Form; 2] = [
    Form::OneOf(&[Keyword::Normal, Keyword::Bold]),
    Form::IntegerBetween(1, 1_000),
];

const Z_INDEX: [Form; 2] = [Form::OneOf(&[Keyword::Auto]), Form::AnyInteger];

const TEXT_DECORATION_LINE: [Form; 1] = [Form::OneOf(&[
    Keyword::None,
    Keyword::Underline,
    Keyword::Overline,
    Keyword::LineThrough,
])];

const POINTER_EVENTS: [Form; 1] = [Form::OneOf(&[Keyword::Auto, Keyword::None])];
