//! Shorthands, and the values that they give their longhands (CSS Cascade 4, sections 3 and 3.2).
ghost use Rattle.css_tokens.specs.Nested.{components_view};
ghost use Rattle.prop_table.specs.Views.{pairs_view};
ghost use Rattle.prop_table.specs.inner.ShorthandViews.{shorthand_view, wide_longhands};
ghost use Rattle.std.specs.Prelude.{◌≡◌, ◌∷◌, ◌++◌, IfOk, OnOk, [], option_and_then, option_map};
ghost use Rattle.std.specs.Str.{chars};
ghost use Rattle.value_model.specs.Shorthands as shorthands;
ghost use Rattle.value_model.specs.Words.{words_of};

use crate::background::background_values_of;
use crate::borders::border_values_of;
use crate::container::container_values_of;
use crate::longhand::{Longhand, Pairs};
use crate::longhands::longhands;
use crate::shorthand::{Shorthand, shorthand_of_name};
use crate::sides::{each_of_four, each_of_two};
use crate::value::Value;
use css_tokens::{Component, Components};
use port_core::{NoMemory, Seq, Text};
use std::alloc::Global;
use value_model::{Prop, WideKeyword};
use value_parts::wide_keyword_of;

/// Returns the values that the shorthand of this name, in any case, gives its longhands, where `c`
/// is a value of it; `None` where it is not, and where no shorthand has this name.
pub fn expand_shorthand(
    alloc: Global,
    name: &str,
    c: &Components,
) -> Result<Option<Pairs>, NoMemory>
    ensures { IfOk result (λ ps. option_map pairs_view ps
        ≡ option_and_then (λ s. shorthands.expansion_of s (components_view c.now))
        (shorthands.shorthand_of_name (chars name.now))) }
{
    let name = Text::new(alloc, name)?;
    match shorthand_of_name(&name) {
        Some(shorthand) => expansion_of(alloc, shorthand, c.as_slice()),
        None => Ok(None),
    }
}

/// The values that a shorthand gives its longhands.
fn expansion_of(
    alloc: Global,
    shorthand: Shorthand,
    components: &[Component],
) -> Result<Option<Pairs>, NoMemory>
    ensures { IfOk result (λ ps. option_map pairs_view ps
        ≡ shorthands.expansion_of (shorthand_view shorthand) (components_view components.now)) }
{
    match wide_keyword_of(components) {
        Some(wide) => Ok(Some(wide_values(alloc, shorthand, wide)?)),
        None => own_values_of(alloc, shorthand, components),
    }
}

/// Its values other than a CSS-wide keyword.
fn own_values_of(
    alloc: Global,
    shorthand: Shorthand,
    components: &[Component],
) -> Result<Option<Pairs>, NoMemory>
    ensures { IfOk result (λ ps. option_map pairs_view ps
        ≡ shorthands.own_values_of (shorthand_view shorthand)
        (words_of (components_view components.now))) }
{
    match shorthand {
        Shorthand::FourSides(sides) => each_of_four(alloc, sides, components),
        Shorthand::TwoSides(start, end) => each_of_two(alloc, start, end, components),
        Shorthand::Borders(sides) => border_values_of(alloc, sides, components),
        Shorthand::Background => background_values_of(alloc, components),
        Shorthand::Container => container_values_of(alloc, components),
        Shorthand::All => Ok(None),
    }
}

/// A CSS-wide keyword for each longhand.
fn wide_values(alloc: Global, shorthand: Shorthand, wide: WideKeyword) -> Result<Pairs, NoMemory>
    ensures { IfOk result (λ ps. pairs_view ps
        ≡ wide_longhands wide (shorthands.longhands (shorthand_view shorthand))) }
{
    let props = longhands(alloc, shorthand)?;
    wide_for_each(alloc, props.as_slice(), wide)
}

fn wide_for_each(alloc: Global, props: &[Prop], wide: WideKeyword) -> Result<Pairs, NoMemory>
    ensures { IfOk result (λ ps. pairs_view ps ≡ wide_longhands wide props.now) }
{
    let mut pairs = Seq::new(alloc);
    for prop in props {
        push_wide(*prop, wide, &mut pairs)?;
    }
    Ok(pairs)
}

/// Appends a property with a CSS-wide keyword.
fn push_wide(prop: Prop, wide: WideKeyword, pairs: &mut Pairs) -> Result<(), NoMemory>
    ensures { OnOk result (pairs_view pairs.new
        ≡ pairs_view pairs.old ++ wide_longhands wide (prop ∷ [])) }
{
    pairs.push(Longhand {
        prop,
        value: Value::Wide(wide),
    })
}
