//! Colours (CSS Color 4, sections 5.2 and 6).
ghost use Rattle.css_tokens.specs.Nested.{component_view};
ghost use Rattle.prop_table.specs.inner.HexDigits.{whole};
ghost use Rattle.std.specs.Map.{lookup};
ghost use Rattle.std.specs.Option.{option_copied};
ghost use Rattle.std.specs.Prelude.{◌≡◌, option_map};
ghost use Rattle.std.specs.Str.{str_eq_ignore_ascii_case};
ghost use Rattle.value_model.specs.Colors as colors;
ghost use Rattle.value_model.specs.declared.color.Color.TheVariants as color;

use crate::hex_digits::of_two;
use css_tokens::{Component, TokenType, is_word};
use port_core::Text;
use value_model::{Color, Rgba};
use value_parts::find_word;

/// The colour that `c` is, if it is one.
pub(crate) fn color_of(c: &Component) -> Option<Color>
    ensures { result ≡ colors.color_of (component_view c.now) }
{
    match c {
        Component::One(token) => color_of_type(&token.token_type),
        _ => None,
    }
}

fn color_of_type(token_type: &TokenType) -> Option<Color>
    ensures { result ≡ colors.color_of_type token_type.now }
{
    match token_type {
        TokenType::Hash { name, .. } => Some(Color::Rgba(rgba_of_hex(name)?)),
        TokenType::Ident(name) => color_of_name(name),
        _ => None,
    }
}

fn color_of_name(name: &Text) -> Option<Color>
    ensures { result ≡ colors.color_of_type (TokenType.Ident name.now) }
{
    if is_word(name, "currentcolor") {
        return Some(Color::CurrentColor);
    }
    Some(Color::Rgba(rgba_of_name(name)?))
}

/// The named colour of this name, in any case.
fn rgba_of_name(name: &Text) -> Option<Rgba>
    ensures { result ≡ colors.rgba_of_name name.now }
{
    rgba_of_digits(hex_of_name(name)?.as_bytes())
}

/// The hexadecimal notation of a named colour.
fn hex_of_name(name: &Text) -> Option<&'static str>
    ensures { option_copied result ≡ lookup (str_eq_ignore_ascii_case name.now) colors.color_names }
{
    find_word(name, &COLORS)
}

/// The colour that these digits write.
fn rgba_of_hex(name: &Text) -> Option<Rgba>
    ensures { result ≡ colors.rgba_of_hex name.now }
{
    rgba_of_digits(name.as_str().as_bytes())
}

fn rgba_of_digits(digits: &[u8]) -> Option<Rgba>
    ensures { result ≡ colors.rgba_of_hex digits.now }
{
    match digits {
        [r, g, b] => rgba(of_two(*r, *r), of_two(*g, *g), of_two(*b, *b), Some(255)),
        [r, g, b, a] => rgba(
            of_two(*r, *r),
            of_two(*g, *g),
            of_two(*b, *b),
            of_two(*a, *a),
        ),
        [r, r2, g, g2, b, b2] => {
            rgba(of_two(*r, *r2), of_two(*g, *g2), of_two(*b, *b2), Some(255))
        }
        [r, r2, g, g2, b, b2, a, a2] => rgba(
            of_two(*r, *r2),
            of_two(*g, *g2),
            of_two(*b, *b2),
            of_two(*a, *a2),
        ),
        _ => None,
    }
}

/// The colour of these components, if each of them is there.
fn rgba(red: Option<u8>, green: Option<u8>, blue: Option<u8>, alpha: Option<u8>) -> Option<Rgba>
    ensures { result ≡ whole red green blue alpha }
{
    Some(Rgba {
        red: red?,
        green: green?,
        blue: blue?,
        alpha: alpha?,
    })
}

/// The named colours, and their hexadecimal notation (sections 6.1 to 6.3).
const COLORS: [(&str, &str); 18] = [
    ("black", "000000"),
    ("silver", "c0c0c0"),
    ("gray", "808080"),
    ("white", "ffffff"),
    ("maroon", "800000"),
    ("red", "ff0000"),
    ("purple", "800080"),
    ("fuchsia", "ff00ff"),
    ("green", "008000"),
    ("lime", "00ff00"),
    ("olive", "808000"),
    ("yellow", "ffff00"),
    ("navy", "000080"),
    ("blue", "0000ff"),
    ("teal", "008080"),
    ("aqua", "00ffff"),
    ("orange", "ffa500"),
    ("transparent", "00000000"),
];
