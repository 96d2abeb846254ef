//! How many tokens may still follow what stands in place of component values, found before it is made
//! (CSS Custom Properties 1, section 3.3).
ghost use Rattle.css_tokens.specs.Nested.{component_view, components_view};
ghost use Rattle.custom_model.specs.Substitution.{replacement_of};
ghost use Rattle.custom_props.specs.inner.Entries.{entries_of, var_replacement};
ghost use Rattle.custom_props.specs.inner.Measures.{room_after_all};
ghost use Rattle.custom_props.specs.inner.Rooms.{room_after, room_in};
ghost use Rattle.std.specs.Prelude.{◌≡◌, ◌≤◌, ◌-◌, drop, length, option_and_then};

use crate::entries::entry_in;
use crate::known::Known;
use crate::references::{is_var_type, place_after_comma};
use crate::rooms::{room_after, room_after_token, room_in};
use css_tokens::{Component, Token};

/// How many tokens may follow what stands in place of the component values from a place on, where so
/// many tokens and levels may be; `None` if it is more, or if there is nothing.
#[cycle(measuring)]
pub(crate) fn room_after_from(
    components: &[Component],
    start: usize,
    known: &Known<'_>,
    tokens: usize,
    levels: usize,
) -> Option<usize>
    requires { start ≤ length components.now }
    ensures { result ≡ room_after_all (entries_of known.now) tokens levels
        (components_view (drop start components.now)) }
{
    let mut left = tokens;
    for place in start..components.len() {
        match room_after_replaced(&components[place], known, left, levels) {
            Some(room) => left = room,
            None => return None,
        }
    }
    Some(left)
}

#[cycle(measuring)]
fn room_after_replaced(
    c: &Component,
    known: &Known<'_>,
    tokens: usize,
    levels: usize,
) -> Option<usize>
    ensures { result ≡ option_and_then (room_after tokens levels)
        (replacement_of (entries_of known.now) (component_view c.now)) }
{
    match c {
        Component::One(_) => room_after_token(tokens),
        Component::Block(_, contents, close) => {
            room_after_pair(contents.as_slice(), close, known, tokens, levels)
        }
        Component::Function(head, contents, close) => {
            if is_var_type(&head.token_type) {
                room_after_var(contents.as_slice(), known, tokens, levels)
            } else {
                room_after_pair(contents.as_slice(), close, known, tokens, levels)
            }
        }
    }
}

/// The same for a pair of brackets.
#[cycle(measuring)]
fn room_after_pair(
    contents: &[Component],
    close: &Option<Token>,
    known: &Known<'_>,
    tokens: usize,
    levels: usize,
) -> Option<usize>
    ensures { result ≡ option_and_then (λ inside. room_after_all (entries_of known.now) inside
        (levels - 1) (components_view contents.now)) (room_in close.now tokens levels) }
{
    match room_in(close, tokens, levels) {
        Some(inside) => room_after_from(contents, 0, known, inside, levels - 1),
        None => None,
    }
}

/// The same for a `var()` with these contents.
#[cycle(measuring)]
fn room_after_var(
    contents: &[Component],
    known: &Known<'_>,
    tokens: usize,
    levels: usize,
) -> Option<usize>
    ensures { result ≡ option_and_then (room_after tokens levels)
        (var_replacement (entries_of known.now) (components_view contents.now)) }
{
    match entry_in(contents, known) {
        Some(value) => room_after(value.as_slice(), tokens, levels),
        None => match place_after_comma(contents) {
            Some(place) => room_after_from(contents, place, known, tokens, levels),
            None => None,
        },
    }
}
