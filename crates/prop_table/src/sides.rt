//! Shorthands of one value for each side (CSS Cascade 4, section 3; CSS 2.1, section 8.3).
ghost use Rattle.css_tokens.specs.Nested.{component_view, components_view};
ghost use Rattle.prop_table.specs.Views.{pairs_view};
ghost use Rattle.prop_table.specs.inner.SideWords.{AreFourWords, AreTwoWords, four_of, four_view, two_of, two_view};
ghost use Rattle.std.specs.Prelude.{◌≡◌, IfOk, IfSome, option_map};
ghost use Rattle.value_model.specs.Shorthands as shorthands;
ghost use Rattle.value_model.specs.Words.{words_of};

use crate::longhand::{Pairs, read_longhand, with_longhand};
use crate::shorthand::Sides;
use css_tokens::Component;
use port_core::{NoMemory, Seq};
use std::alloc::Global;
use value_model::Prop;
use value_parts::first_word;

/// The component values of the two ends of an axis.
#[derive(Clone, Copy, Debug)]
struct TwoWords<'a> {
    start: &'a Component,
    end: &'a Component,
}

/// The component values of the four sides.
#[derive(Clone, Copy, Debug)]
struct FourWords<'a> {
    top: &'a Component,
    right: &'a Component,
    bottom: &'a Component,
    left: &'a Component,
}

/// One or two component values; the one of one is that of both ends.
fn two_words(components: &[Component]) -> Option<TwoWords<'_>>
    ensures words { option_map two_view result
        ≡ two_of (words_of (components_view components.now)) }
    ensures no_space { IfSome result AreTwoWords }
{
    let first = first_word(components)?;
    match first_word(first.rest) {
        None => Some(TwoWords {
            start: first.word,
            end: first.word,
        }),
        Some(second) => match first_word(second.rest) {
            None => Some(TwoWords {
                start: first.word,
                end: second.word,
            }),
            Some(_) => None,
        },
    }
}

/// One to four component values. One that is missing is that of the other side of its axis, and
/// right that of top.
fn four_words(components: &[Component]) -> Option<FourWords<'_>>
    ensures words { option_map four_view result
        ≡ four_of (words_of (components_view components.now)) }
    ensures no_space { IfSome result AreFourWords }
{
    let top = first_word(components)?;
    let Some(right) = first_word(top.rest) else {
        return Some(four(top.word, top.word, top.word, top.word));
    };
    let Some(bottom) = first_word(right.rest) else {
        return Some(four(top.word, right.word, top.word, right.word));
    };
    let Some(left) = first_word(bottom.rest) else {
        return Some(four(top.word, right.word, bottom.word, right.word));
    };
    match first_word(left.rest) {
        None => Some(four(top.word, right.word, bottom.word, left.word)),
        Some(_) => None,
    }
}

fn four<'a>(
    top: &'a Component,
    right: &'a Component,
    bottom: &'a Component,
    left: &'a Component,
) -> FourWords<'a>
    ensures { four_view result ≡ (
      component_view top.entry.now,
      component_view right.entry.now,
      component_view bottom.entry.now,
      component_view left.entry.now,
    ) }
{
    FourWords {
        top,
        right,
        bottom,
        left,
    }
}

/// The values of the two ends of an axis.
pub(crate) fn each_of_two(
    alloc: Global,
    start: Prop,
    end: Prop,
    components: &[Component],
) -> Result<Option<Pairs>, NoMemory>
    ensures { IfOk result (λ ps. option_map pairs_view ps
        ≡ shorthands.each_of_two start end (words_of (components_view components.now))) }
{
    match two_words(components) {
        Some(words) => two_values(alloc, start, end, words),
        None => Ok(None),
    }
}

fn two_values(
    alloc: Global,
    start: Prop,
    end: Prop,
    words: TwoWords<'_>,
) -> Result<Option<Pairs>, NoMemory>
    requires { AreTwoWords words }
    ensures { IfOk result (λ ps. option_map pairs_view ps
        ≡ shorthands.each_of_two_values start end
        (two_view words.entry).0 (two_view words.entry).1) }
{
    let none = Some(Seq::new(alloc));
    let one = with_longhand(none, read_longhand(alloc, start, words.start)?)?;
    with_longhand(one, read_longhand(alloc, end, words.end)?)
}

/// The values of the four sides.
pub(crate) fn each_of_four(
    alloc: Global,
    sides: Sides,
    components: &[Component],
) -> Result<Option<Pairs>, NoMemory>
    ensures { IfOk result (λ ps. option_map pairs_view ps
        ≡ shorthands.each_of_four sides.top sides.right sides.bottom sides.left
        (words_of (components_view components.now))) }
{
    match four_words(components) {
        Some(words) => four_values(alloc, sides, words),
        None => Ok(None),
    }
}

fn four_values(alloc: Global, sides: Sides, words: FourWords<'_>) -> Result<Option<Pairs>, NoMemory>
    requires { AreFourWords words }
    ensures { IfOk result (λ ps. option_map pairs_view ps
        ≡ shorthands.each_of_four_values sides.top sides.right sides.bottom sides.left
        (four_view words.entry).0 (four_view words.entry).1
        (four_view words.entry).2 (four_view words.entry).3) }
{
    let none = Some(Seq::new(alloc));
    let one = with_longhand(none, read_longhand(alloc, sides.top, words.top)?)?;
    let two = with_longhand(one, read_longhand(alloc, sides.right, words.right)?)?;
    let three = with_longhand(two, read_longhand(alloc, sides.bottom, words.bottom)?)?;
    with_longhand(three, read_longhand(alloc, sides.left, words.left)?)
}
