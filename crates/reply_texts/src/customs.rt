//! The lines of custom properties (CSS Custom Properties 1, section 2).
ghost use Rattle.css_tokens.specs.Nested.{components_view};
ghost use Rattle.custom_props.specs.EnvView.{env_view};
ghost use Rattle.reply_model.specs.StyleText.{custom_line, custom_lines};
ghost use Rattle.reply_texts.specs.inner.Customs.{line_at, line_of};
ghost use Rattle.std.specs.Option.{option_copied};
ghost use Rattle.std.specs.Prelude.{◌≡◌, ◌++◌, OnOk, option_map, string_bytes};
ghost use Rattle.std.specs.Str.{chars};

use crate::custom_values::push_custom_value;
use crate::fields::push_text;
use crate::quotes::push_quoted;
use css_tokens::Components;
use custom_props::Env;
use port_core::NoMemory;

/// Appends the lines of the custom properties of an element, in order of name.
#[tactic(auto, unfolding(reply_model::specs::StyleText::custom_lines))]
pub(crate) fn push_custom_lines(reply: &mut String, env: &Env) -> Result<(), NoMemory>
    ensures { OnOk result (string_bytes reply.new
        ≡ string_bytes reply.old ++ custom_lines (env_view env.now)) }
{
    for place in 0..env.len() {
        push_line_at(reply, env, place)?;
    }
    Ok(())
}

/// Appends the line of the name in a place.
fn push_line_at(reply: &mut String, env: &Env, place: usize) -> Result<(), NoMemory>
    ensures { OnOk result (string_bytes reply.new
        ≡ string_bytes reply.old ++ line_at (env_view env.now) place) }
{
    match env.name_at(place) {
        Some(name) => push_line_of(reply, name, env.value_at(place)),
        None => Ok(()),
    }
}

/// Appends the line of a name, if it has a value.
fn push_line_of(reply: &mut String, name: &str, value: Option<&Components>) -> Result<(), NoMemory>
    ensures { OnOk result (string_bytes reply.new ≡ string_bytes reply.old
        ++ line_of (chars name.now) (option_map components_view (option_copied value.entry))) }
{
    match value {
        Some(value) => push_line(reply, name, value),
        None => Ok(()),
    }
}

/// Appends the line of a name with this value.
#[tactic(auto, unfolding(reply_model::specs::StyleText::custom_line))]
fn push_line(reply: &mut String, name: &str, value: &Components) -> Result<(), NoMemory>
    ensures { OnOk result (string_bytes reply.new
        ≡ string_bytes reply.old ++ custom_line (chars name.now) (components_view value.now)) }
{
    push_text(reply, "custom ")?;
    push_quoted(reply, name)?;
    push_text(reply, " ")?;
    push_custom_value(reply, value)?;
    push_text(reply, "\n")
}
