//! Computed values.
ghost use Rattle.prop_table.specs.Views.{final_view};
ghost use Rattle.reply_model.specs.ValueTexts.{color_text, component_text, final_text};
ghost use Rattle.std.specs.Prelude.{◌≡◌, ◌++◌, OnOk, string_bytes};
ghost use Rattle.value_model.specs.declared.color.Color.TheVariants.{Rgba as an_rgba};

use crate::fields::{push_signed, push_tagged, push_text};
use crate::lengths::push_length;
use crate::quotes::push_hex_digit;
use crate::words::{push_containment, push_names};
use port_core::NoMemory;
use prop_table::{Color, Final, Rgba, keyword_text};

/// Appends a computed value.
pub(crate) fn push_final(reply: &mut String, value: &Final) -> Result<(), NoMemory>
    ensures { OnOk result (string_bytes reply.new
        ≡ string_bytes reply.old ++ final_text (final_view value.now)) }
{
    match value {
        Final::Keyword(keyword) => push_text(reply, keyword_text(*keyword)),
        Final::Length(length) => push_length(reply, length),
        Final::Number(number) => push_tagged(reply, "num:", number.get()),
        Final::Alpha(number) => push_signed(reply, number.get()),
        Final::Integer(integer) => push_signed(reply, *integer as i64),
        Final::Color(color) => push_color(reply, *color),
        Final::Containment(containment) => push_containment(reply, *containment),
        Final::Names(names) => push_names(reply, names.as_slice()),
    }
}

/// Appends a colour (CSS Color 4, section 5.2).
fn push_color(reply: &mut String, color: Color) -> Result<(), NoMemory>
    ensures { OnOk result (string_bytes reply.new ≡ string_bytes reply.old ++ color_text color) }
{
    match color {
        Color::CurrentColor => push_text(reply, "currentcolor"),
        Color::Rgba(color) => push_rgba(reply, color),
    }
}

fn push_rgba(reply: &mut String, color: Rgba) -> Result<(), NoMemory>
    ensures { OnOk result (string_bytes reply.new
        ≡ string_bytes reply.old ++ color_text (an_rgba color)) }
{
    push_text(reply, "#")?;
    push_component(reply, color.red)?;
    push_component(reply, color.green)?;
    push_component(reply, color.blue)?;
    push_component(reply, color.alpha)
}

/// Appends the two digits of a component.
fn push_component(reply: &mut String, component: u8) -> Result<(), NoMemory>
    ensures { OnOk result (string_bytes reply.new
        ≡ string_bytes reply.old ++ component_text component) }
{
    push_hex_digit(reply, component as u32 / 16)?;
    push_hex_digit(reply, component as u32 % 16)
}
