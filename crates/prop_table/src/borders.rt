//! Shorthands of borders (CSS Backgrounds 3, section 3.4).
ghost use Rattle.css_tokens.specs.Nested.{component_view, components_view};
ghost use Rattle.prop_table.specs.Views.{pairs_view, value_view};
ghost use Rattle.prop_table.specs.inner.BorderViews.{add_part, complete, parts_view, parts_with, side_values, values_view};
ghost use Rattle.prop_table.specs.inner.ShorthandViews.{borders_view};
ghost use Rattle.rules_model.specs.ComponentLists as lists;
ghost use Rattle.std.specs.Prelude.{◌≡◌, ◌∷◌, ◌++◌, [], IfOk, None, OnOk, false, option_and_then, option_map, unwrap_or};
ghost use Rattle.value_model.specs.Shorthands as shorthands;
ghost use Rattle.value_model.specs.Words.{words_of};
ghost use Rattle.value_model.specs.Shorthands.{BorderParts};

use crate::longhand::{Longhand, Pairs, value_of_alone};
use crate::shorthand::Border;
use crate::value::Value;
use css_tokens::Component;
use port_core::{NoMemory, Seq};
use std::alloc::Global;
use value_model::{Color, Keyword, Prop};
use value_parts::{first_word, is_whitespace};

/// What one component value is of a border.
#[derive(Drop)]
enum Part {
    /// Its width.
    Width(Value),
    /// Its style.
    Style(Value),
    /// Its colour.
    Color(Value),
}

/// What was written of a border.
#[derive(Drop)]
struct Parts {
    width: Option<Value>,
    style: Option<Value>,
    color: Option<Value>,
}

/// The value of each part of a border.
#[derive(Drop)]
struct BorderValues {
    width: Value,
    style: Value,
    color: Value,
}

/// The values of the borders of `sides`, of at least one part.
pub(crate) fn border_values_of(
    alloc: Global,
    sides: &[Border],
    components: &[Component],
) -> Result<Option<Pairs>, NoMemory>
    ensures { IfOk result (λ ps. option_map pairs_view ps
        ≡ shorthands.border_values_of (borders_view sides.now)
        (words_of (components_view components.now))) }
{
    if first_word(components).is_none() {
        return Ok(None);
    }
    match border_parts(alloc, components)? {
        Some(parts) => Ok(Some(values_of_parts(alloc, sides, parts)?)),
        None => Ok(None),
    }
}

/// The values of the borders of `sides`; a part that is missing is initial.
fn values_of_parts(alloc: Global, sides: &[Border], parts: Parts) -> Result<Pairs, NoMemory>
    ensures { IfOk result (λ ps. pairs_view ps
        ≡ shorthands.border_values (borders_view sides.now) (parts_view parts)) }
{
    let values = parts.completed();
    border_values(alloc, sides, &values)
}

/// What component values are of a border.
fn border_parts(alloc: Global, components: &[Component]) -> Result<Option<Parts>, NoMemory>
    ensures { IfOk result (λ parts. option_map parts_view parts
        ≡ shorthands.border_parts (words_of (components_view components.now))) }
{
    let mut found = Some(Parts::none());
    let mut place = components.len();
    while place > 0 {
        place -= 1;
        found = with_component(alloc, &components[place], found)?;
    }
    Ok(found)
}

/// What was found, with one more component value in front.
fn with_component(
    alloc: Global,
    c: &Component,
    found: Option<Parts>,
) -> Result<Option<Parts>, NoMemory>
    ensures { IfOk result (λ parts. option_map parts_view parts
        ≡ parts_with (component_view c.now) (option_map parts_view found)) }
{
    if is_whitespace(c) {
        return Ok(found);
    }
    let part = border_part(alloc, c)?;
    Ok(with_part(part, found))
}

/// What was found, with one more part in front, if both are right.
fn with_part(part: Option<Part>, found: Option<Parts>) -> Option<Parts>
    ensures { option_map parts_view result
        ≡ option_and_then (λ add. option_and_then add (option_map parts_view found))
        (option_map add_part part) }
{
    let part = part?;
    let parts = found?;
    parts.with(part)
}

/// What one component value is of a border: its width, its style or its colour.
fn border_part(alloc: Global, c: &Component) -> Result<Option<Part>, NoMemory>
    requires { lists.is_whitespace (component_view c.now) ≡ false }
    ensures { IfOk result (λ part. option_map add_part part
        ≡ shorthands.border_part (component_view c.now)) }
{
    if let Some(width) = value_of_alone(alloc, Prop::BorderTopWidth, c)? {
        return Ok(Some(Part::Width(width)));
    }
    if let Some(style) = value_of_alone(alloc, Prop::BorderTopStyle, c)? {
        return Ok(Some(Part::Style(style)));
    }
    match value_of_alone(alloc, Prop::BorderTopColor, c)? {
        Some(color) => Ok(Some(Part::Color(color))),
        None => Ok(None),
    }
}

impl Parts {
    fn none() -> Parts
        ensures { parts_view result ≡ record { width = None; style = None; color = None } }
    {
        Parts {
            width: None,
            style: None,
            color: None,
        }
    }

    /// With a part that may not be there before.
    fn with(self, part: Part) -> Option<Parts>
        ensures { option_map parts_view result ≡ add_part part (parts_view self) }
    {
        match part {
            Part::Width(width) => match self.width {
                None => Some(Parts {
                    width: Some(width),
                    style: self.style,
                    color: self.color,
                }),
                Some(_) => None,
            },
            Part::Style(style) => match self.style {
                None => Some(Parts {
                    width: self.width,
                    style: Some(style),
                    color: self.color,
                }),
                Some(_) => None,
            },
            Part::Color(color) => match self.color {
                None => Some(Parts {
                    width: self.width,
                    style: self.style,
                    color: Some(color),
                }),
                Some(_) => None,
            },
        }
    }

    /// A part that is missing is initial.
    fn completed(self) -> BorderValues
        ensures { values_view result ≡ complete (parts_view self) }
    {
        BorderValues {
            width: or_else(self.width, Value::Keyword(Keyword::Medium)),
            style: or_else(self.style, Value::Keyword(Keyword::None)),
            color: or_else(self.color, Value::Color(Color::CurrentColor)),
        }
    }
}

fn or_else(value: Option<Value>, initial: Value) -> Value
    ensures { value_view result ≡ unwrap_or (option_map value_view value) (value_view initial) }
{
    match value {
        Some(value) => value,
        None => initial,
    }
}

/// The same values for the border of each side.
fn border_values(alloc: Global, sides: &[Border], values: &BorderValues) -> Result<Pairs, NoMemory>
    ensures { IfOk result (λ ps. pairs_view ps
        ≡ side_values (borders_view sides.now) (values_view values.now)) }
{
    let mut pairs = Seq::new(alloc);
    for side in sides {
        push_copy(alloc, side.width, &values.width, &mut pairs)?;
        push_copy(alloc, side.style, &values.style, &mut pairs)?;
        push_copy(alloc, side.color, &values.color, &mut pairs)?;
    }
    Ok(pairs)
}

/// Appends a property with a copy of a value.
fn push_copy(alloc: Global, prop: Prop, value: &Value, pairs: &mut Pairs) -> Result<(), NoMemory>
    ensures { OnOk result (pairs_view pairs.new
        ≡ pairs_view pairs.old ++ ((prop, value_view value.now) ∷ [])) }
{
    let value = value.copy(alloc)?;
    pairs.push(Longhand { prop, value })
}
