//! Quoted strings.
ghost use Rattle.reply_model.specs.Spelling.{hex_digit, in_quotes, quoted};
ghost use Rattle.std.specs.Prelude.{◌≡◌, ◌++◌, ◌%◌, ◌/◌, ◌∷◌, ◌<◌, [], OnOk};
ghost use Rattle.std.specs.Prelude.{codes, flat_map, string_bytes};
ghost use Rattle.std.specs.Str.{chars};

use crate::fields::push_text;
use port_core::NoMemory;

/// Appends a text between double quotes.
#[tactic(auto, unfolding(reply_model::specs::Spelling::quoted))]
pub fn push_quoted(reply: &mut String, text: &str) -> Result<(), NoMemory>
    ensures { OnOk result (string_bytes reply.new ≡ string_bytes reply.old ++ quoted (chars text.now)) }
{
    push_text(reply, "\"")?;
    push_in_quotes(reply, text)?;
    push_text(reply, "\"")
}

/// Appends a text as it stands between quotes.
pub fn push_in_quotes(reply: &mut String, text: &str) -> Result<(), NoMemory>
    ensures { OnOk result (string_bytes reply.new
        ≡ string_bytes reply.old ++ flat_map in_quotes (chars text.now)) }
{
    for c in text.chars() {
        push_char_in_quotes(reply, c)?;
    }
    Ok(())
}

/// Appends a code point as it stands between quotes.
fn push_char_in_quotes(reply: &mut String, c: char) -> Result<(), NoMemory>
    ensures { OnOk result (string_bytes reply.new ≡ string_bytes reply.old ++ in_quotes c) }
{
    if c == '"' {
        push_text(reply, "\\\"")
    } else if c == '\\' {
        push_text(reply, "\\\\")
    } else if (c as u32) < 32 {
        push_by_number(reply, c as u32)
    } else {
        reply.push(c)
    }
}

/// Appends a code point below 32 by its number.
fn push_by_number(reply: &mut String, number: u32) -> Result<(), NoMemory>
    requires { number < 32 }
    ensures { OnOk result (string_bytes reply.new ≡ string_bytes reply.old
        ++ (codes "\\u00" ++ (hex_digit (number / 16) ∷ hex_digit (number % 16) ∷ []))) }
{
    push_text(reply, "\\u00")?;
    push_hex_digit(reply, number / 16)?;
    push_hex_digit(reply, number % 16)
}

/// Appends a digit of base 16.
pub(crate) fn push_hex_digit(reply: &mut String, digit: u32) -> Result<(), NoMemory>
    requires { digit < 16 }
    ensures { OnOk result (string_bytes reply.new ≡ string_bytes reply.old ++ (hex_digit digit ∷ [])) }
{
    let code = if digit < 10 { 48 + digit } else { 87 + digit };
    reply.push(code as u8 as char)
}
