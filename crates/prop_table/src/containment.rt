//! `contain` (CSS Containment 2, section 2).
ghost use Rattle.css_tokens.specs.Nested.{component_view, components_view};
ghost use Rattle.prop_table.specs.inner.WordSteps.{containment_with};
ghost use Rattle.rules_model.specs.ComponentLists as lists;
ghost use Rattle.std.specs.Map.{lookup};
ghost use Rattle.std.specs.Prelude.{◌≡◌};
ghost use Rattle.std.specs.Str.{str_eq_ignore_ascii_case};
ghost use Rattle.value_model.specs.Forms as forms;
ghost use Rattle.value_model.specs.Words.{words_of};

use css_tokens::{Component, is_word};
use port_core::Text;
use value_model::Containment;
use value_parts::{find_word, first_word, ident_of, is_whitespace};

/// The containment of one keyword by itself, or of at least one word.
pub(crate) fn containment_of(components: &[Component]) -> Option<Containment>
    ensures { result ≡ forms.containment_of (words_of (components_view components.now)) }
{
    let first = first_word(components)?;
    match first_word(first.rest) {
        None => match whole_containment(first.word) {
            Some(containment) => Some(containment),
            None => containment_of_words(components),
        },
        Some(_) => containment_of_words(components),
    }
}

/// The containment of one keyword by itself.
fn whole_containment(c: &Component) -> Option<Containment>
    ensures { result ≡ forms.whole_containment (component_view c.now) }
{
    whole_containment_named(ident_of(c)?)
}

fn whole_containment_named(name: &Text) -> Option<Containment>
    ensures { result ≡ lookup (str_eq_ignore_ascii_case name.now) forms.whole_containments }
{
    find_word(name, &WHOLE)
}

/// The containment of distinct words, in any order.
fn containment_of_words(components: &[Component]) -> Option<Containment>
    ensures { result ≡ forms.containment_of_words (words_of (components_view components.now)) }
{
    let mut found = Some(NOTHING);
    let mut place = components.len();
    while place > 0 {
        place -= 1;
        found = with_component(&components[place], found);
    }
    found
}

/// What was found, with one more component value in front.
fn with_component(c: &Component, found: Option<Containment>) -> Option<Containment>
    ensures { result ≡ containment_with (component_view c.now) found }
{
    if is_whitespace(c) {
        found
    } else {
        with_word(ident_of(c)?, found?)
    }
}

/// With one more word, which may not be there before.
fn with_word(name: &Text, c: Containment) -> Option<Containment>
    ensures { result ≡ forms.with_containment name.now c }
{
    if is_word(name, "size") {
        let more = Containment {
            size: true,
            inline_size: false,
            ..c
        };
        unless(c.size || c.inline_size, more)
    } else if is_word(name, "inline-size") {
        let more = Containment {
            size: false,
            inline_size: true,
            ..c
        };
        unless(c.size || c.inline_size, more)
    } else if is_word(name, "layout") {
        unless(c.layout, Containment { layout: true, ..c })
    } else if is_word(name, "style") {
        unless(c.style, Containment { style: true, ..c })
    } else if is_word(name, "paint") {
        unless(c.paint, Containment { paint: true, ..c })
    } else {
        None
    }
}

fn unless(holds: bool, c: Containment) -> Option<Containment>
    ensures { result ≡ forms.unless holds c }
{
    if holds { None } else { Some(c) }
}

const NOTHING: Containment = Containment {
    size: false,
    inline_size: false,
    layout: false,
    style: false,
    paint: false,
};

const STRICT: Containment = Containment {
    size: true,
    inline_size: false,
    layout: true,
    style: true,
    paint: true,
};

const CONTENT: Containment = Containment {
    size: false,
    ..STRICT
};

/// The values that are one keyword by itself.
const WHOLE: [(&str, Containment); 3] = [
    ("none", NOTHING),
    ("strict", STRICT),
    ("content", CONTENT),
];
