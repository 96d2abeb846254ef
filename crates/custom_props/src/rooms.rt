//! How many tokens may still follow component values (CSS Custom Properties 1, section 3.3).
ghost use Rattle.css_tokens.specs.Nested.{component_view, components_view};
ghost use Rattle.custom_props.specs.inner.Rooms.{room_after, room_after_one, room_after_token, room_in};
ghost use Rattle.std.specs.Prelude.{◌≡◌, ◌<◌, ◌-◌, IfSome, option_and_then};

use css_tokens::{Component, Token};

/// How many tokens may follow these component values, where so many tokens and levels may be; `None`
/// if they are more.
#[cycle(rooms)]
pub(crate) fn room_after(components: &[Component], tokens: usize, levels: usize) -> Option<usize>
    ensures { result ≡ room_after tokens levels (components_view components.now) }
{
    let mut left = tokens;
    for c in components {
        match room_after_one(c, left, levels) {
            Some(room) => left = room,
            None => return None,
        }
    }
    Some(left)
}

#[cycle(rooms)]
fn room_after_one(c: &Component, tokens: usize, levels: usize) -> Option<usize>
    ensures { result ≡ room_after_one tokens levels (component_view c.now) }
{
    match c {
        Component::One(_) => room_after_token(tokens),
        Component::Block(_, contents, close) => {
            room_after_pair(contents.as_slice(), close, tokens, levels)
        }
        Component::Function(_, contents, close) => {
            room_after_pair(contents.as_slice(), close, tokens, levels)
        }
    }
}

/// The same for a pair of brackets.
#[cycle(rooms)]
fn room_after_pair(
    contents: &[Component],
    close: &Option<Token>,
    tokens: usize,
    levels: usize,
) -> Option<usize>
    ensures { result ≡ option_and_then
        (λ inside. room_after inside (levels - 1) (components_view contents.now))
        (room_in close.now tokens levels) }
{
    match room_in(close, tokens, levels) {
        Some(inside) => room_after(contents, inside, levels - 1),
        None => None,
    }
}

/// How many tokens may follow a token.
pub(crate) fn room_after_token(tokens: usize) -> Option<usize>
    ensures { result ≡ room_after_token tokens }
{
    if tokens == 0 { None } else { Some(tokens - 1) }
}

/// How many tokens may be in a pair of brackets that this token closes.
pub(crate) fn room_in(close: &Option<Token>, tokens: usize, levels: usize) -> Option<usize>
    ensures room { result ≡ room_in close.now tokens levels }
    ensures levels { IfSome result (λ _. 0 < levels) }
{
    if levels == 0 {
        return None;
    }
    let inside = room_after_token(tokens)?;
    match close {
        Some(_) => room_after_token(inside),
        None => Some(inside),
    }
}
