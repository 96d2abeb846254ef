//! What declared values compute to (CSS Cascade 4, section 4.4; the modules of each property).
ghost use Rattle.prop_table.specs.Views.{final_view, value_view};
ghost use Rattle.query_units.specs.Views.{length_view};
ghost use Rattle.std.specs.Int.{int_max, int_min};
ghost use Rattle.std.specs.Prelude.{◌≡◌, IfOk, pos};
ghost use Rattle.value_model.specs.Computing as computing;

use crate::final_value::Final;
use crate::initial_values::{initial, pixels};
use crate::name_lists::copy_names;
use crate::value::Value;
use port_core::NoMemory;
use query_units::{Bases, Computed, Length};
use std::alloc::Global;
use units64::{Fixed6, Units};
use value_model::{Keyword, Prop};

/// Returns what `v` computes to for `prop`, where lengths refer to `b`, and the font size of the
/// parent is `parent_font`.
///
/// What a CSS-wide keyword stands for, and `currentcolor` for `color`, is not said here: a CSS-wide
/// keyword gives the initial value. The width of a border is that of one with a style.
pub fn compute(
    alloc: Global,
    prop: Prop,
    v: &Value,
    b: &Bases,
    parent_font: Units,
) -> Result<Final, NoMemory>
    ensures { IfOk result (λ f. final_view f
        ≡ computing.computed prop (value_view v.now) b.now parent_font) }
{
    match v {
        Value::Wide(_) => Ok(initial(alloc, prop)),
        Value::Keyword(keyword) => Ok(computed_keyword(prop, *keyword)),
        Value::Length(length) => computed_length(alloc, prop, length, b, parent_font),
        Value::Number(number) => Ok(computed_number(prop, *number)),
        Value::Integer(integer) => Ok(Final::Integer(*integer)),
        Value::Color(color) => Ok(Final::Color(*color)),
        Value::Containment(containment) => Ok(Final::Containment(*containment)),
        Value::Names(names) => Ok(Final::Names(copy_names(alloc, names)?)),
    }
}

fn computed_keyword(prop: Prop, keyword: Keyword) -> Final
    ensures { final_view result ≡ computing.computed_keyword prop keyword }
{
    match prop {
        Prop::MinWidth | Prop::MinHeight => pixels(0),
        Prop::BorderTopWidth
        | Prop::BorderRightWidth
        | Prop::BorderBottomWidth
        | Prop::BorderLeftWidth => border_width(keyword),
        Prop::FontSize => pixels(16),
        Prop::TextAlign => alignment(keyword),
        Prop::FontWeight => weight(keyword),
        _ => Final::Keyword(keyword),
    }
}

/// The width of a border (CSS Backgrounds 3, section 3.3).
fn border_width(keyword: Keyword) -> Final
    ensures { final_view result ≡ computing.border_width keyword }
{
    match keyword {
        Keyword::Thin => pixels(1),
        Keyword::Medium => pixels(3),
        Keyword::Thick => pixels(5),
        _ => Final::Keyword(keyword),
    }
}

/// The alignment, where text runs from left to right (CSS Text 3, section 7.1).
fn alignment(keyword: Keyword) -> Final
    ensures { final_view result ≡ computing.alignment keyword }
{
    match keyword {
        Keyword::Start => Final::Keyword(Keyword::Left),
        Keyword::End => Final::Keyword(Keyword::Right),
        _ => Final::Keyword(keyword),
    }
}

/// The weight of a font (CSS Fonts 4, section 2.2).
fn weight(keyword: Keyword) -> Final
    ensures { final_view result ≡ computing.weight keyword }
{
    match keyword {
        Keyword::Bold => Final::Integer(700),
        _ => Final::Integer(400),
    }
}

/// A percentage of a font size is one of the parent's (CSS Fonts 4, section 2.5), and one of a line
/// height is one of the element's own font size (CSS 2.1, section 10.8.1); a width of a border has
/// none. What a calculation gives below 0 is 0 for these.
fn computed_length(
    alloc: Global,
    prop: Prop,
    length: &Length,
    b: &Bases,
    parent_font: Units,
) -> Result<Final, NoMemory>
    ensures { IfOk result (λ f. final_view f
        ≡ computing.computed_length_of prop b.now parent_font (length_view length.now)) }
{
    match prop {
        Prop::FontSize => Ok(absolute_length(length, b, parent_font)),
        Prop::LineHeight => Ok(absolute_length(length, b, b.em)),
        Prop::BorderTopWidth
        | Prop::BorderRightWidth
        | Prop::BorderBottomWidth
        | Prop::BorderLeftWidth => Ok(length_of_border(length, b)),
        _ => Ok(Final::Length(length.absolute(alloc, b)?)),
    }
}

/// A width of a border, which has no percentage.
fn length_of_border(length: &Length, b: &Bases) -> Final
    ensures { final_view result ≡ computing.absolute_length b.now (pos 0) (length_view length.now) }
{
    absolute_length(length, b, Units::new(0))
}

/// A length where percentages refer to `base`, and not below 0.
fn absolute_length(length: &Length, b: &Bases, base: Units) -> Final
    ensures { final_view result ≡ computing.absolute_length b.now base (length_view length.now) }
{
    Final::Length(Computed::Units(length.units_from_zero(b, base)))
}

/// A line height is a number; an opacity is one from 0 to 1 (CSS Color 4, section 4.2).
fn computed_number(prop: Prop, number: Fixed6) -> Final
    ensures { final_view result ≡ computing.computed_number prop number }
{
    match prop {
        Prop::LineHeight => Final::Number(number),
        _ => Final::Alpha(from_zero_to_one(number)),
    }
}

fn from_zero_to_one(number: Fixed6) -> Fixed6
    ensures { result ≡ int_max (pos 0) (int_min (pos 1000000) number) }
{
    Fixed6::new(0).max(Fixed6::new(1_000_000).min(number))
}
