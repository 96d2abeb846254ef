//! Literal lengths and percentages, read from component values (CSS Values 4, sections 5 and 6).
ghost use Rattle.css_tokens.specs.Nested.{component_view};
ghost use Rattle.value_parts.specs.Views.{literal_view};
ghost use Rattle.std.specs.Prelude.{◌≡◌, if◌then◌else◌, pos, Some, None, option_map};
ghost use Rattle.std.specs.Ordering.{int_eq};
ghost use Rattle.value_model.specs.declared.length_unit.LengthBase.TheVariants as bases;
ghost use Rattle.value_model.specs.Lengths as lengths;

use crate::literal::Literal;
use crate::units::unit_of;
use css_tokens::{Component, TokenType};
use port_core::Text;
use units64::Fixed6;
use value_model::{LengthBase, LengthUnit};

/// Returns the length that `c` is, if it is one.
pub fn length_of(c: &Component) -> Option<Literal>
    ensures { option_map literal_view result ≡ lengths.length_of (component_view c.now) }
{
    match c {
        Component::One(token) => length_of_type(&token.token_type),
        _ => None,
    }
}

/// Returns the length or percentage that `c` is, if it is one.
pub fn length_or_percentage_of(c: &Component) -> Option<Literal>
    ensures { option_map literal_view result
        ≡ lengths.length_or_percentage_of (component_view c.now) }
{
    match c {
        Component::One(token) => length_or_percentage_of_type(&token.token_type),
        _ => None,
    }
}

fn length_or_percentage_of_type(token_type: &TokenType) -> Option<Literal>
    ensures { option_map literal_view result
        ≡ lengths.length_or_percentage_of_type token_type.now }
{
    match token_type {
        TokenType::Percentage(n) => Some(Literal::Percentage(n.millionths)),
        _ => length_of_type(token_type),
    }
}

fn length_of_type(token_type: &TokenType) -> Option<Literal>
    ensures { option_map literal_view result ≡ lengths.length_of_type token_type.now }
{
    match token_type {
        TokenType::Dimension(n, name) => dimension_of(n.millionths, name),
        TokenType::Number(n) => zero_of(n.millionths),
        _ => None,
    }
}

/// So many of the unit of this name.
fn dimension_of(number: Fixed6, name: &Text) -> Option<Literal>
    ensures { option_map literal_view result
        ≡ option_map (λ u. lengths.dimension number u) (lengths.unit_of name.now) }
{
    let unit = unit_of(name)?;
    Some(Literal::Dimension(number, unit))
}

/// The pixels that the number 0 is.
fn zero_of(number: Fixed6) -> Option<Literal>
    ensures { option_map literal_view result
        ≡ (if int_eq number (pos 0)
        then Some (lengths.dimension (pos 0) (lengths.unit bases.Pixel 1 1)) else None) }
{
    if number.get() != 0 {
        return None;
    }
    let pixel = LengthUnit {
        base: LengthBase::Pixel,
        numerator: 1,
        denominator: 1,
    };
    Some(Literal::Dimension(number, pixel))
}
