//! Values that features are compared with (Media Queries 4, sections 2.4 and 4.1 to 4.4).
ghost use Rattle.conditions_model.specs.SizeFeatures as model;
ghost use Rattle.css_tokens.specs.Nested.{component_view, components_view, listed};
ghost use Rattle.rules_model.specs.ComponentLists as lists;
ghost use Rattle.size_features.specs.Views.{value_view};
ghost use Rattle.std.specs.Prelude.{◌≡◌, ◌≤ℤ◌, pos, ◌∷◌, IfOk, IfSome, Some, false, option_and_then, option_map};
ghost use Rattle.units64.specs.declared.constants.TheConstants.{MILLIONTHS_PER_PIXEL};
ghost use Rattle.value_model.specs.CalculationGrammar as grammar;
ghost use Rattle.value_model.specs.Words.{words_of};

use crate::bound::FeatureValue;
use crate::ratio::Ratio;
use crate::white_space::only_trimmed;
use conditions_model::{FeatureName, Orientation};
use css_tokens::{Component, TokenType, is_word};
use port_core::{NoMemory, Text};
use query_units::any_length_of;
use std::alloc::Global;
use units64::{Fixed6, MILLIONTHS_PER_PIXEL};
use value_parts::{first_word, ident_of, only_word};

/// A value of this feature that can be compared; `orientation` has none.
pub(crate) fn value_of(
    alloc: Global,
    f: FeatureName,
    components: &[Component],
) -> Result<Option<FeatureValue>, NoMemory>
    ensures { IfOk result (λ v. option_map value_view v
        ≡ model.value_of f (components_view components.now)) }
{
    match f {
        FeatureName::Width | FeatureName::Height => length_value(alloc, components),
        FeatureName::AspectRatio => Ok(ratio_value(components)),
        FeatureName::Orientation => Ok(None),
    }
}

fn length_value(alloc: Global, components: &[Component]) -> Result<Option<FeatureValue>, NoMemory>
    ensures { IfOk result (λ v. option_map value_view v
        ≡ option_map model.length_value (option_and_then (grammar.any_length_of false)
        (model.only_component (lists.trimmed (components_view components.now))))) }
{
    match only_trimmed(components) {
        Some(only) => length_of_word(alloc, only),
        None => Ok(None),
    }
}

fn length_of_word(alloc: Global, c: &Component) -> Result<Option<FeatureValue>, NoMemory>
    ensures { IfOk result (λ v. option_map value_view v
        ≡ option_map model.length_value (grammar.any_length_of false (component_view c.now))) }
{
    match any_length_of(alloc, c, false)? {
        Some(length) => Ok(Some(FeatureValue::Length(length))),
        None => Ok(None),
    }
}

/// `<ratio>`: a number, or two with `/`.
fn ratio_value(components: &[Component]) -> Option<FeatureValue>
    ensures { option_map value_view result
        ≡ model.ratio_of (model.without_whitespace (components_view components.now)) }
{
    match first_word(components) {
        Some(first) => ratio_of_words(first.word, first.rest),
        None => None,
    }
}

/// The ratio of a first component value and what is after it.
fn ratio_of_words(a: &Component, rest: &[Component]) -> Option<FeatureValue>
    ensures { option_map value_view result
        ≡ model.ratio_of (listed (component_view a.now
        ∷ words_of (components_view rest.now))) }
{
    match first_word(rest) {
        Some(slash) => ratio_with_slash(a, slash.word, slash.rest),
        None => number_alone(a),
    }
}

fn ratio_with_slash(a: &Component, slash: &Component, rest: &[Component]) -> Option<FeatureValue>
    ensures { option_map value_view result
        ≡ model.ratio_of (listed (component_view a.now ∷ component_view slash.now
        ∷ words_of (components_view rest.now))) }
{
    if !is_slash(slash) {
        return None;
    }
    let b = only_word(rest)?;
    two_numbers(a, b)
}

fn number_alone(c: &Component) -> Option<FeatureValue>
    ensures { option_map value_view result
        ≡ model.ratio_from (model.ratio_number (component_view c.now))
        (Some MILLIONTHS_PER_PIXEL) }
{
    let across = ratio_number(c)?;
    let down = Fixed6::new(MILLIONTHS_PER_PIXEL as i128);
    Some(FeatureValue::Ratio(Ratio { across, down }))
}

fn two_numbers(a: &Component, b: &Component) -> Option<FeatureValue>
    ensures { option_map value_view result
        ≡ model.ratio_from (model.ratio_number (component_view a.now))
        (model.ratio_number (component_view b.now)) }
{
    let across = ratio_number(a)?;
    let down = ratio_number(b)?;
    Some(FeatureValue::Ratio(Ratio { across, down }))
}

/// A number that is at least 0.
fn ratio_number(c: &Component) -> Option<Fixed6>
    ensures number { result ≡ model.ratio_number (component_view c.now) }
    ensures not_negative { IfSome result (λ n. pos 0 ≤ℤ n) }
{
    match c {
        Component::One(token) => number_of(&token.token_type),
        _ => None,
    }
}

fn number_of(token_type: &TokenType) -> Option<Fixed6>
    ensures number { result ≡ model.number_of token_type.now }
    ensures not_negative { IfSome result (λ n. pos 0 ≤ℤ n) }
{
    match token_type {
        TokenType::Number(n) => {
            if n.millionths.get() >= 0 {
                Some(n.millionths)
            } else {
                None
            }
        }
        _ => None,
    }
}

fn is_slash(c: &Component) -> bool
    ensures { result ≡ lists.is_token model.is_slash_type (component_view c.now) }
{
    match c {
        Component::One(token) => is_slash_type(&token.token_type),
        _ => false,
    }
}

fn is_slash_type(token_type: &TokenType) -> bool
    ensures { result ≡ model.is_slash_type token_type.now }
{
    match token_type {
        TokenType::Delim(c) => *c == '/',
        _ => false,
    }
}

/// A value of `orientation`.
pub(crate) fn orientation_of(components: &[Component]) -> Option<Orientation>
    ensures { result ≡ model.orientation_of (components_view components.now) }
{
    let only = only_trimmed(components)?;
    let name = ident_of(only)?;
    orientation_of_name(name)
}

fn orientation_of_name(name: &Text) -> Option<Orientation>
    ensures { result ≡ model.orientation_of_name name.now }
{
    if is_word(name, "portrait") {
        Some(Orientation::Portrait)
    } else if is_word(name, "landscape") {
        Some(Orientation::Landscape)
    } else {
        None
    }
}
