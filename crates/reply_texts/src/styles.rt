//! The lines of a style.
ghost use Rattle.cascade_model.specs.Defaulting.{value_in};
ghost use Rattle.custom_props.specs.EnvView.{env_view};
ghost use Rattle.prop_table.specs.Styles.{style_view};
ghost use Rattle.prop_table.specs.Views.{final_view};
ghost use Rattle.reply_model.specs.StyleText.{style_lines, styling_lines, value_line};
ghost use Rattle.std.specs.Prelude.{◌≡◌, ◌++◌, OnOk, string_bytes};

use crate::customs::push_custom_lines;
use crate::fields::push_text;
use crate::values::push_final;
use custom_props::Env;
use port_core::NoMemory;
use prop_table::{Final, Prop, Style, all_props, prop_name};

/// Appends the lines of an element: one for each property, in their order, and then one for each custom
/// property, in order of name.
pub fn push_style(reply: &mut String, style: &Style, env: &Env) -> Result<(), NoMemory>
    ensures { OnOk result (string_bytes reply.new ≡ string_bytes reply.old
        ++ styling_lines (record { style = style_view style.now; environment = env_view env.now })) }
{
    push_properties(reply, style)?;
    push_custom_lines(reply, env)
}

/// Appends a line for each property, in their order.
#[tactic(auto, unfolding(reply_model::specs::StyleText::style_lines))]
fn push_properties(reply: &mut String, style: &Style) -> Result<(), NoMemory>
    ensures { OnOk result (string_bytes reply.new
        ≡ string_bytes reply.old ++ style_lines (style_view style.now)) }
{
    for prop in all_props() {
        push_value_of(reply, style, *prop)?;
    }
    Ok(())
}

/// Appends the line of a property of a style.
#[tactic(auto, using(cascade_core::proofs::ValueIn::value_there))]
fn push_value_of(reply: &mut String, style: &Style, prop: Prop) -> Result<(), NoMemory>
    ensures { OnOk result (string_bytes reply.new
        ≡ string_bytes reply.old ++ value_line prop (value_in (style_view style.now) prop)) }
{
    push_value(reply, prop, style.get(prop))
}

/// Appends the line of a property.
#[tactic(auto, unfolding(reply_model::specs::StyleText::value_line))]
fn push_value(reply: &mut String, prop: Prop, value: &Final) -> Result<(), NoMemory>
    ensures { OnOk result (string_bytes reply.new
        ≡ string_bytes reply.old ++ value_line prop (final_view value.now)) }
{
    push_text(reply, prop_name(prop))?;
    push_text(reply, ": ")?;
    push_final(reply, value)?;
    push_text(reply, "\n")
}
