//! Literal lengths and percentages (CSS Values 4, sections 5 and 6).
ghost use Rattle.query_units.specs.Views.{computed_view};
ghost use Rattle.value_model.specs.CalculationGrammar as grammar;
ghost use Rattle.value_model.specs.Calculations as model;
ghost use Rattle.css_tokens.specs.Nested.{component_view};
ghost use Rattle.value_parts.specs.Views.{literal_view};
ghost use Rattle.std.specs.Prelude.{◌≡◌, option_map};
ghost use Rattle.value_model.specs.Lengths.{not_negative};

use crate::computed::Computed;
use css_tokens::Component;
use units64::{Fixed6, Units};
use value_model::Bases;
use value_parts::{Literal, length_of, length_or_percentage_of, percentage_value};

/// The value in millionths of a pixel, where percentages refer to `base`.
pub(crate) fn literal_value(literal: Literal, b: &Bases, base: Units) -> Fixed6
    ensures { result ≡ model.literal_value b.now base (literal_view literal) }
{
    match literal {
        Literal::Dimension(_, _) => literal.value(b),
        Literal::Percentage(number) => percentage_value(number, base),
    }
}

/// A length in pixels, or a percentage.
pub(crate) fn computed_literal(literal: Literal, b: &Bases) -> Computed
    ensures { computed_view result ≡ model.leaf (model.computed_leaf b.now (literal_view literal)) }
{
    match literal {
        Literal::Dimension(_, _) => Computed::Px(literal.value(b)),
        Literal::Percentage(number) => Computed::Pct(number),
    }
}

/// Whether it is a percentage.
pub(crate) fn is_percentage(literal: Literal) -> bool
    ensures { result ≡ model.is_percentage (literal_view literal) }
{
    match literal {
        Literal::Dimension(_, _) => false,
        Literal::Percentage(_) => true,
    }
}

/// The length that a component value is, or where they are allowed the percentage.
pub(crate) fn literal_of(percent: bool, c: &Component) -> Option<Literal>
    ensures { option_map literal_view result ≡ grammar.literal_of percent (component_view c.now) }
{
    if percent {
        length_or_percentage_of(c)
    } else {
        length_of(c)
    }
}

/// The same, if it is not negative.
pub(crate) fn literal_from_zero(percent: bool, c: &Component) -> Option<Literal>
    ensures { option_map literal_view result
        ≡ not_negative (grammar.literal_of percent (component_view c.now)) }
{
    let literal = literal_of(percent, c)?;
    if literal.is_negative() {
        None
    } else {
        Some(literal)
    }
}
