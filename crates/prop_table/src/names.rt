//! Properties by their names (CSS Logical 1, section 4).
ghost use Rattle.std.specs.List.{find};
ghost use Rattle.std.specs.Map.{lookup};
ghost use Rattle.std.specs.Prelude.{◌≡◌};
ghost use Rattle.std.specs.Str.{str_eq_ignore_ascii_case};
ghost use Rattle.value_model.specs.Grammar as grammar;
ghost use Rattle.value_model.specs.Properties.{properties, property};

use port_core::Text;
use value_model::Prop;
use value_parts::find_word;

/// Returns the property of this name, in any case.
pub fn property_of_name(name: &Text) -> Option<Prop>
    ensures { result ≡ grammar.property_of_name name.now }
{
    match own_name(name) {
        Some(prop) => Some(prop),
        None => logical_name(name),
    }
}

fn own_name(name: &Text) -> Option<Prop>
    ensures { result ≡ find (grammar.is_name_of name.now) properties }
{
    find_word(name, &NAMES)
}

fn logical_name(name: &Text) -> Option<Prop>
    ensures { result ≡ lookup (str_eq_ignore_ascii_case name.now) grammar.logical_names }
{
    find_word(name, &LOGICAL_NAMES)
}

/// Returns the name of `prop`.
pub fn prop_name(prop: Prop) -> &'static str
    ensures { result.now ≡ (property prop).name }
{
    match prop {
        Prop::Display => "display",
        Prop::Width => "width",
        Prop::Height => "height",
        Prop::MinWidth => "min-width",
        Prop::MinHeight => "min-height",
        Prop::MaxWidth => "max-width",
        Prop::MaxHeight => "max-height",
        Prop::MarginTop => "margin-top",
        Prop::MarginRight => "margin-right",
        Prop::MarginBottom => "margin-bottom",
        Prop::MarginLeft => "margin-left",
        Prop::PaddingTop => "padding-top",
        Prop::PaddingRight => "padding-right",
        Prop::PaddingBottom => "padding-bottom",
        Prop::PaddingLeft => "padding-left",
        Prop::BorderTopWidth => "border-top-width",
        Prop::BorderRightWidth => "border-right-width",
        Prop::BorderBottomWidth => "border-bottom-width",
        Prop::BorderLeftWidth => "border-left-width",
        Prop::BorderTopStyle => "border-top-style",
        Prop::BorderRightStyle => "border-right-style",
        Prop::BorderBottomStyle => "border-bottom-style",
        Prop::BorderLeftStyle => "border-left-style",
        Prop::BorderTopColor => "border-top-color",
        Prop::BorderRightColor => "border-right-color",
        Prop::BorderBottomColor => "border-bottom-color",
        Prop::BorderLeftColor => "border-left-color",
        Prop::BoxSizing => "box-sizing",
        Prop::FontSize => "font-size",
        Prop::LineHeight => "line-height",
        Prop::Color => "color",
        Prop::BackgroundColor => "background-color",
        Prop::TextAlign => "text-align",
        Prop::WhiteSpace => "white-space",
        Prop::Overflow => "overflow",
        Prop::Contain => "contain",
        Prop::ContainerType => "container-type",
        Prop::ContainerName => "container-name",
        Prop::Visibility => "visibility",
        Prop::Opacity => "opacity",
        Prop::FontStyle => "font-style",
        Prop::FontWeight => "font-weight",
        Prop::ZIndex => "z-index",
        Prop::TextDecorationLine => "text-decoration-line",
        Prop::PointerEvents => "pointer-events",
    }
}

/// The names.
const NAMES: [(&str, Prop); 45] = [
    ("display", Prop::Display),
    ("width", Prop::Width),
    ("height", Prop::Height),
    ("min-width", Prop::MinWidth),
    ("min-height", Prop::MinHeight),
    ("max-width", Prop::MaxWidth),
    ("max-height", Prop::MaxHeight),
    ("margin-top", Prop::MarginTop),
    ("margin-right", Prop::MarginRight),
    ("margin-bottom", Prop::MarginBottom),
    ("margin-left", Prop::MarginLeft),
    ("padding-top", Prop::PaddingTop),
    ("padding-right", Prop::PaddingRight),
    ("padding-bottom", Prop::PaddingBottom),
    ("padding-left", Prop::PaddingLeft),
    ("border-top-width", Prop::BorderTopWidth),
    ("border-right-width", Prop::BorderRightWidth),
    ("border-bottom-width", Prop::BorderBottomWidth),
    ("border-left-width", Prop::BorderLeftWidth),
    ("border-top-style", Prop::BorderTopStyle),
    ("border-right-style", Prop::BorderRightStyle),
    ("border-bottom-style", Prop::BorderBottomStyle),
    ("border-left-style", Prop::BorderLeftStyle),
    ("border-top-color", Prop::BorderTopColor),
    ("border-right-color", Prop::BorderRightColor),
    ("border-bottom-color", Prop::BorderBottomColor),
    ("border-left-color", Prop::BorderLeftColor),
    ("box-sizing", Prop::BoxSizing),
    ("font-size", Prop::FontSize),
    ("line-height", Prop::LineHeight),
    ("color", Prop::Color),
    ("background-color", Prop::BackgroundColor),
    ("text-align", Prop::TextAlign),
    ("white-space", Prop::WhiteSpace),
    ("overflow", Prop::Overflow),
    ("contain", Prop::Contain),
    ("container-type", Prop::ContainerType),
    ("container-name", Prop::ContainerName),
    ("visibility", Prop::Visibility),
    ("opacity", Prop::Opacity),
    ("font-style", Prop::FontStyle),
    ("font-weight", Prop::FontWeight),
    ("z-index", Prop::ZIndex),
    ("text-decoration-line", Prop::TextDecorationLine),
    ("pointer-events", Prop::PointerEvents),
];

/// Other names, where text runs from left to right and from top to bottom.
const LOGICAL_NAMES: [(&str, Prop); 14] = [
    ("inline-size", Prop::Width),
    ("block-size", Prop::Height),
    ("min-inline-size", Prop::MinWidth),
    ("min-block-size", Prop::MinHeight),
    ("max-inline-size", Prop::MaxWidth),
    ("max-block-size", Prop::MaxHeight),
    ("margin-block-start", Prop::MarginTop),
    ("margin-block-end", Prop::MarginBottom),
    ("margin-inline-start", Prop::MarginLeft),
    ("margin-inline-end", Prop::MarginRight),
    ("padding-block-start", Prop::PaddingTop),
    ("padding-block-end", Prop::PaddingBottom),
    ("padding-inline-start", Prop::PaddingLeft),
    ("padding-inline-end", Prop::PaddingRight),
];
