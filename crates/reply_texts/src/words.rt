//! Words with spaces between them.
ghost use Rattle.reply_model.specs.Spelling.{field, quoted};
ghost use Rattle.reply_model.specs.ValueTexts.{containment_words, words_text};
ghost use Rattle.reply_texts.specs.Words.{word_after};
ghost use Rattle.std.specs.Prelude.{◌≡◌, ◌++◌, ◌&&◌, IfOk, OnOk, flat_map, map, not, string_bytes};

use crate::fields::{push_field, push_text};
use crate::quotes::push_quoted;
use port_core::{NoMemory, Text};
use value_model::Containment;

/// Appends the kinds of containment, or `none` (CSS Containment 2, section 2).
pub(crate) fn push_containment(reply: &mut String, c: Containment) -> Result<(), NoMemory>
    ensures { OnOk result (string_bytes reply.new
        ≡ string_bytes reply.old ++ words_text (containment_words c)) }
{
    let none = push_word_if(reply, true, c.size, "size")?;
    let none = push_word_if(reply, none, c.inline_size, "inline-size")?;
    let none = push_word_if(reply, none, c.layout, "layout")?;
    let none = push_word_if(reply, none, c.style, "style")?;
    let none = push_word_if(reply, none, c.paint, "paint")?;
    if none {
        push_text(reply, "none")
    } else {
        Ok(())
    }
}

/// Appends a word where it `holds`, after a space unless it is the first. Returns whether there is
/// no word still.
fn push_word_if(reply: &mut String, none: bool, holds: bool, word: &str) -> Result<bool, NoMemory>
    ensures word { OnOk result (string_bytes reply.new
        ≡ string_bytes reply.old ++ word_after none holds word.now) }
    ensures none { IfOk result (λ left. left ≡ (none && not holds)) }
{
    if !holds {
        return Ok(none);
    }
    if none {
        push_text(reply, word)?;
    } else {
        push_field(reply, word)?;
    }
    Ok(false)
}

/// Appends names in quotes, or `none`.
pub(crate) fn push_names(reply: &mut String, names: &[Text]) -> Result<(), NoMemory>
    ensures { OnOk result (string_bytes reply.new
        ≡ string_bytes reply.old ++ words_text (map quoted names.now)) }
{
    if names.is_empty() {
        return push_text(reply, "none");
    }
    push_quoted(reply, names[0].as_str())?;
    push_more_names(reply, &names[1..])
}

/// Appends names in quotes, each after a space.
fn push_more_names(reply: &mut String, names: &[Text]) -> Result<(), NoMemory>
    ensures { OnOk result (string_bytes reply.new
        ≡ string_bytes reply.old ++ flat_map field (map quoted names.now)) }
{
    for name in names {
        push_text(reply, " ")?;
        push_quoted(reply, name.as_str())?;
    }
    Ok(())
}
