//! Computed lengths (CSS Values 4, section 10.11).
ghost use Rattle.query_units.specs.Views.{all_computed_view, computed_view};
ghost use Rattle.reply_texts.specs.Words.{after_comma};
ghost use Rattle.std.specs.Fmt.{signed_decimal};
ghost use Rattle.std.specs.Prelude.{◌≡◌, ◌++◌, OnOk, codes, flat_map, string_bytes};
ghost use Rattle.value_model.specs.Calculations.{length_text, length_texts};

use crate::fields::{push_signed, push_tagged, push_text};
use port_core::{NoMemory, Seq};
use prop_table::Computed;
use units64::Fixed6;

/// Appends a length in units, or a calculation as a tree of calls.
///
/// The calls are as deep as the calculation.
#[cycle(lengths)]
pub(crate) fn push_length(reply: &mut String, length: &Computed) -> Result<(), NoMemory>
    ensures { OnOk result (string_bytes reply.new
        ≡ string_bytes reply.old ++ length_text (computed_view length.now)) }
{
    match length {
        Computed::Units(units) => push_signed(reply, units.get() as i64),
        Computed::Px(number) => push_tagged(reply, "px:", number.get()),
        Computed::Pct(number) => push_tagged(reply, "pct:", number.get()),
        Computed::Add(a, b) => {
            begin_call(reply, "add")?;
            push_length(reply, a.get())?;
            push_text(reply, ",")?;
            push_length(reply, b.get())?;
            push_text(reply, ")")
        }
        Computed::Scale(a, number) => {
            begin_call(reply, "scale")?;
            push_length(reply, a.get())?;
            end_with_number(reply, *number)
        }
        Computed::Over(a, number) => {
            begin_call(reply, "over")?;
            push_length(reply, a.get())?;
            end_with_number(reply, *number)
        }
        Computed::Min(first, others) => {
            begin_call(reply, "min")?;
            push_length(reply, first.get())?;
            push_others(reply, others)?;
            push_text(reply, ")")
        }
        Computed::Max(first, others) => {
            begin_call(reply, "max")?;
            push_length(reply, first.get())?;
            push_others(reply, others)?;
            push_text(reply, ")")
        }
    }
}

/// Appends a name and `(`.
fn begin_call(reply: &mut String, name: &str) -> Result<(), NoMemory>
    ensures { OnOk result (string_bytes reply.new
        ≡ string_bytes reply.old ++ (name.now ++ codes "(")) }
{
    push_text(reply, name)?;
    push_text(reply, "(")
}

/// Appends a number as the last part of a call.
fn end_with_number(reply: &mut String, number: Fixed6) -> Result<(), NoMemory>
    ensures { OnOk result (string_bytes reply.new ≡ string_bytes reply.old
        ++ (codes "," ++ (signed_decimal number ++ codes ")"))) }
{
    push_tagged(reply, ",", number.get())?;
    push_text(reply, ")")
}

/// Appends lengths, each after a comma.
#[cycle(lengths)]
fn push_others(reply: &mut String, others: &Seq<Computed>) -> Result<(), NoMemory>
    ensures { OnOk result (string_bytes reply.new ≡ string_bytes reply.old
        ++ flat_map after_comma (length_texts (all_computed_view others.now))) }
{
    for other in others.as_slice() {
        push_text(reply, ",")?;
        push_length(reply, other)?;
    }
    Ok(())
}
