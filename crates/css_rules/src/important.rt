//! `!important` at the end of a value (CSS Syntax 3, section 5.4.6).
ghost use Rattle.css_rules.specs.inner.Reading.{IsMarkPlace, is_word_before_whitespace};
ghost use Rattle.css_tokens.specs.Nested.{components_view};
ghost use Rattle.rules_model.specs.ComponentLists as lists;
ghost use Rattle.rules_model.specs.Declarations as declarations;
ghost use Rattle.std.specs.Prelude.{◌≡◌};

use crate::classes::{is_exclamation, is_important, is_whitespace};
use crate::lists::shorten;
use css_tokens::{Component, Components};

/// Drops `!important` and what is after it, and returns whether the value had it.
pub(crate) fn take_important(value: &mut Components) -> bool
    ensures important { result ≡ declarations.has_important_mark (components_view value.old) }
    ensures value { components_view value.new
        ≡ declarations.before_important_mark (components_view value.old) }
{
    match mark_place(value.as_slice()) {
        Some(place) => {
            shorten(value, place);
            true
        }
        None => false,
    }
}

/// How many component values are before `!important`.
///
/// White space is read once for each `!` and each `important` just before it, so the time grows
/// with the length of the value.
fn mark_place(value: &[Component]) -> Option<usize>
    ensures { IsMarkPlace result value.now }
{
    for place in 0..value.len() {
        if is_important_mark(&value[place..]) {
            return Some(place);
        }
    }
    None
}

fn is_important_mark(components: &[Component]) -> bool
    ensures { result ≡ declarations.is_important_mark (components_view components.now) }
{
    match components {
        [first, rest @ ..] => is_exclamation(first) && is_important_word(rest),
        [] => false,
    }
}

fn is_important_word(components: &[Component]) -> bool
    ensures { result ≡ declarations.is_important_word (components_view components.now) }
{
    for place in 0..components.len() {
        if !is_whitespace(&components[place]) {
            return is_word_at_end(&components[place..]);
        }
    }
    false
}

/// Whether the first is `important`, and the others are white space.
fn is_word_at_end(components: &[Component]) -> bool
    ensures { result ≡ is_word_before_whitespace (components_view components.now) }
{
    match components {
        [first, rest @ ..] => is_important(first) && are_whitespace(rest),
        [] => false,
    }
}

fn are_whitespace(components: &[Component]) -> bool
    ensures { result ≡ lists.are_whitespace (components_view components.now) }
{
    for c in components {
        if !is_whitespace(c) {
            return false;
        }
    }
    true
}
