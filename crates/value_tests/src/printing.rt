//! How values are printed in rows.
use css_tokens::{Components, components, tokenize};
use port_core::{NoMemory, Text};
use prop_table::{
    Bases, Color, Computed, Containment, Final, Prop, Value, WideKeyword, compute, keyword_text,
};
use std::alloc::Global;
use std::test::Fail;
use units64::Units;

/// Font sizes of 10 and 20 pixels, a viewport of 1,000 by 500 pixels, and a container of 300 by
/// 400.
fn bases() -> Bases {
    Bases {
        em: Units::new(640),
        rem: Units::new(1280),
        vw: Units::new(64_000),
        vh: Units::new(32_000),
        cqw: Units::new(19_200),
        cqh: Units::new(25_600),
    }
}

/// The component values of a text.
pub fn components_of(alloc: Global, text: &str) -> Result<Components, Fail> {
    let tokens = tokenize(alloc, text)?;
    Ok(components(alloc, &tokens)?)
}

/// Prints a value as it is computed below a parent with a font size of 30 pixels.
pub fn print_value(
    alloc: Global,
    prop: Prop,
    value: &Value,
    printed: &mut String,
) -> Result<(), NoMemory> {
    match value {
        Value::Wide(wide) => printed.push_str(wide_text(*wide)),
        _ => {
            let computed = compute(alloc, prop, value, &bases(), Units::new(1920))?;
            print_final(alloc, &computed, printed)
        }
    }
}

fn wide_text(wide: WideKeyword) -> &'static str {
    match wide {
        WideKeyword::Inherit => "inherit",
        WideKeyword::Initial => "initial",
        WideKeyword::Unset => "unset",
        WideKeyword::Revert => "revert",
    }
}

/// Prints a computed value.
pub fn print_final(alloc: Global, value: &Final, printed: &mut String) -> Result<(), NoMemory> {
    match value {
        Final::Keyword(keyword) => printed.push_str(keyword_text(*keyword)),
        Final::Length(Computed::Units(length)) => print_number(alloc, length.get() as i64, printed),
        Final::Length(Computed::Pct(number)) => {
            printed.push_str("pct:")?;
            print_number(alloc, number.get(), printed)
        }
        Final::Length(_) => printed.push_str("calculated"),
        Final::Number(number) => {
            printed.push_str("num:")?;
            print_number(alloc, number.get(), printed)
        }
        Final::Alpha(number) => print_number(alloc, number.get(), printed),
        Final::Integer(integer) => print_number(alloc, *integer as i64, printed),
        Final::Color(color) => print_color(alloc, *color, printed),
        Final::Containment(containment) => print_containment(*containment, printed),
        Final::Names(names) => print_names(names.as_slice(), printed),
    }
}

fn print_number(alloc: Global, number: i64, printed: &mut String) -> Result<(), NoMemory> {
    let text = format!(in alloc; "{number}")?;
    printed.push_str(text.as_str())
}

fn print_color(alloc: Global, color: Color, printed: &mut String) -> Result<(), NoMemory> {
    match color {
        Color::CurrentColor => printed.push_str("currentcolor"),
        Color::Rgba(c) => {
            let (r, g, b, a) = (c.red, c.green, c.blue, c.alpha);
            let text = format!(in alloc; "#{r:02x}{g:02x}{b:02x}{a:02x}")?;
            printed.push_str(text.as_str())
        }
    }
}

fn print_containment(c: Containment, printed: &mut String) -> Result<(), NoMemory> {
    let words = [
        (c.size, "size "),
        (c.inline_size, "inline-size "),
        (c.layout, "layout "),
        (c.style, "style "),
        (c.paint, "paint "),
    ];
    for (is, word) in words {
        if is {
            printed.push_str(word)?;
        }
    }
    Ok(())
}

fn print_names(names: &[Text], printed: &mut String) -> Result<(), NoMemory> {
    for name in names {
        printed.push_str(name.as_str())?;
        printed.push(' ')?;
    }
    Ok(())
}
