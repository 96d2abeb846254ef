//! Signs of comparison, and what stands between them (Media Queries 4, section 2.4.3).
ghost use Rattle.conditions_model.specs.SizeFeatures as model;
ghost use Rattle.css_tokens.specs.Nested.{component_view, components_view};
ghost use Rattle.size_features.specs.inner.Signs.{after_equal, sides_seen, sign_seen, with_equal};
ghost use Rattle.std.specs.Option.{option_copied};
ghost use Rattle.std.specs.Prelude.{◌≡◌, option_map};

use conditions_model::Comparison;
use css_tokens::{Component, TokenType};

/// A sign, and the component values after it.
#[derive(Clone, Copy, Debug)]
pub(crate) struct Sign<'a> {
    /// The comparison that it stands for.
    pub comparison: Comparison,
    /// The component values after it.
    pub after: &'a [Component],
}

/// Component values before the first sign, and this sign.
#[derive(Clone, Copy, Debug)]
pub(crate) struct Sided<'a> {
    /// Those before it.
    pub before: &'a [Component],
    /// The sign.
    pub sign: Sign<'a>,
}

/// Splits component values at the first sign, if they have one.
pub(crate) fn split_at_sign(components: &[Component]) -> Option<Sided<'_>>
    ensures { sides_seen components.now result ≡ model.sides_of (components_view components.now) }
{
    for place in 0..components.len() {
        match sign_of(&components[place]) {
            Some(comparison) => {
                return Some(Sided {
                    before: &components[..place],
                    sign: with_equal_sign(comparison, &components[place + 1..]),
                });
            }
            None => {}
        }
    }
    None
}

/// A sign, together with a `=` right after it.
fn with_equal_sign(comparison: Comparison, after: &[Component]) -> Sign<'_>
    ensures { sign_seen result
        ≡ model.after_sign comparison (model.sides_of (components_view after.now)) }
{
    match (or_equal(comparison), after_equal_sign(after)) {
        (Some(comparison), Some(after)) => Sign { comparison, after },
        _ => Sign { comparison, after },
    }
}

/// The comparison of a sign with a `=` right after it.
fn or_equal(comparison: Comparison) -> Option<Comparison>
    ensures { result ≡ with_equal comparison }
{
    match comparison {
        Comparison::LessThan => Some(Comparison::AtMost),
        Comparison::MoreThan => Some(Comparison::AtLeast),
        _ => None,
    }
}

/// What is after a `=` in front.
fn after_equal_sign(components: &[Component]) -> Option<&[Component]>
    ensures { option_map (λ cs. model.sides_of (components_view cs)) (option_copied result)
        ≡ after_equal (model.sides_of (components_view components.now)) }
{
    match components {
        [first, rest @ ..] => match sign_of(first)? {
            Comparison::EqualTo => Some(rest),
            _ => None,
        },
        [] => None,
    }
}

/// `<`, `=` or `>`.
fn sign_of(c: &Component) -> Option<Comparison>
    ensures { result ≡ model.sign_of (component_view c.now) }
{
    match c {
        Component::One(token) => sign_of_type(&token.token_type),
        _ => None,
    }
}

fn sign_of_type(token_type: &TokenType) -> Option<Comparison>
    ensures { result ≡ model.sign_of_type token_type.now }
{
    match token_type {
        TokenType::Delim(c) => sign_of_char(*c),
        _ => None,
    }
}

fn sign_of_char(c: char) -> Option<Comparison>
    ensures { result ≡ model.sign_of_type (TokenType.Delim c) }
{
    match c {
        '<' => Some(Comparison::LessThan),
        '=' => Some(Comparison::EqualTo),
        '>' => Some(Comparison::MoreThan),
        _ => None,
    }
}
