//! Component values between commas (Media Queries 4, section 2.1).
ghost use Rattle.conditions_model.specs.MediaQueries as model;
ghost use Rattle.css_tokens.specs.Nested.{component_view, components_view};
ghost use Rattle.media_conditions.specs.inner.Commas.{pieces_seen};
ghost use Rattle.rules_model.specs.ComponentLists.{is_token};
ghost use Rattle.std.specs.Prelude.{◌≡◌, ◌<◌, IfSome, length};

use css_tokens::{Component, TokenType};

/// Component values before and after a comma.
#[derive(Clone, Copy, Debug)]
pub(crate) struct Split<'a> {
    /// Those before it.
    pub before: &'a [Component],
    /// Those after it.
    pub after: &'a [Component],
}

/// Splits component values at the first comma, if they have one.
pub(crate) fn split_at_comma(components: &[Component]) -> Option<Split<'_>>
    ensures pieces { pieces_seen components.now result
        ≡ model.between_commas (components_view components.now) }
    ensures shorter { IfSome result (λ s. length s.after.now < length components.now) }
{
    for place in 0..components.len() {
        if is_comma(&components[place]) {
            return Some(Split {
                before: &components[..place],
                after: &components[place + 1..],
            });
        }
    }
    None
}

fn is_comma(c: &Component) -> bool
    ensures { result ≡ is_token model.is_comma_type (component_view c.now) }
{
    match c {
        Component::One(token) => matches!(&token.token_type, TokenType::Comma),
        _ => false,
    }
}
