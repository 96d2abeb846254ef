//! What component values are in a calculation (CSS Values 4, sections 10.1 and 10.8).
ghost use Rattle.query_units.specs.inner.CalcItems.{item_view};
ghost use Rattle.css_model.specs.Components.{preserved};
ghost use Rattle.css_tokens.specs.Nested.{component_view};
ghost use Rattle.std.specs.Prelude.{◌≡◌, option_map, true};
ghost use Rattle.value_model.specs.CalculationGrammar as grammar;
ghost use Rattle.value_model.specs.Calculations.{leaf};

use crate::calc_value::{CalcValue, Operator};
use crate::length::Length;
use crate::literals::literal_of;
use css_tokens::{Component, Token, TokenType};

/// White space; an operator; or a value, or what is none.
#[derive(Debug, Drop)]
pub(crate) enum Item {
    /// White space.
    White,
    /// An operator, or a comma.
    Operator(Operator),
    /// A value, if it is one.
    Value(Option<CalcValue>),
}

/// What a component value is that is a preserved token.
pub(crate) fn item_of_token(percent: bool, c: &Component, token: &Token) -> Item
    requires { component_view c.now ≡ preserved token.now }
    ensures { item_view result ≡ grammar.item_of percent (component_view c.now) }
{
    match &token.token_type {
        TokenType::Whitespace => Item::White,
        TokenType::Comma => Item::Operator(Operator::Separate),
        TokenType::Delim(sign) => item_of_delim(*sign),
        TokenType::Number(n) => Item::Value(Some(CalcValue::Number(n.millionths))),
        _ => item_of_literal(percent, c),
    }
}

/// The operator that a delimiter is, if it is one.
fn item_of_delim(c: char) -> Item
    ensures { item_view result ≡ grammar.item_of_type true (TokenType.Delim c) }
{
    match c {
        '+' => Item::Operator(Operator::Add),
        '-' => Item::Operator(Operator::Subtract),
        '*' => Item::Operator(Operator::Multiply),
        '/' => Item::Operator(Operator::Divide),
        _ => Item::Value(None),
    }
}

/// The literal length that a component value is, if it is one.
fn item_of_literal(percent: bool, c: &Component) -> Item
    ensures { item_view result ≡ grammar.value (option_map (λ l. grammar.length (leaf l))
        (grammar.literal_of percent (component_view c.now))) }
{
    match literal_of(percent, c) {
        Some(literal) => Item::Value(Some(CalcValue::Length(Length::Literal(literal)))),
        None => Item::Value(None),
    }
}
