//! How values are printed in rows.
use port_core::{NoMemory, Text};
use prop_table::{Color, Computed, Final, keyword_text};
use std::alloc::Global;

/// Prints a computed value.
pub(crate) fn print_final(alloc: Global, value: &Final) -> Result<String, NoMemory> {
    match value {
        Final::Keyword(keyword) => text_of(alloc, keyword_text(*keyword)),
        Final::Length(Computed::Units(length)) => format!(in alloc; "{}", length.get()),
        Final::Length(Computed::Pct(number)) => format!(in alloc; "%{}", number.get()),
        Final::Length(_) => text_of(alloc, "calculated"),
        Final::Number(number) | Final::Alpha(number) => format!(in alloc; "{}", number.get()),
        Final::Integer(integer) => format!(in alloc; "{integer}"),
        Final::Color(color) => print_color(alloc, *color),
        Final::Containment(c) => text_of(alloc, if c.layout { "layout" } else { "none" }),
        Final::Names(names) => print_names(alloc, names.as_slice()),
    }
}

fn text_of(alloc: Global, text: &str) -> Result<String, NoMemory> {
    String::from_str(alloc, text)
}

fn print_color(alloc: Global, color: Color) -> Result<String, NoMemory> {
    match color {
        Color::CurrentColor => text_of(alloc, "currentcolor"),
        Color::Rgba(c) => {
            let (r, g, b, a) = (c.red, c.green, c.blue, c.alpha);
            format!(in alloc; "#{r:02x}{g:02x}{b:02x}{a:02x}")
        }
    }
}

fn print_names(alloc: Global, names: &[Text]) -> Result<String, NoMemory> {
    let mut printed = String::new(alloc);
    for name in names {
        printed.push_str(name.as_str())?;
        printed.push(',')?;
    }
    Ok(printed)
}
