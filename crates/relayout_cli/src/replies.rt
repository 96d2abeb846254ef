//! The lines of replies.
ghost use Rattle.std.specs.Prelude.{◌≡◌, ◌++◌, ◌+◌, ◌<◌, ◌≤◌, length, IfErr, OnOk, OnErr, string_bytes, string_len, string_capacity};
ghost use Rattle.std.specs.Fmt.{decimal};
ghost use Rattle.reply_model.specs.Spelling.{field, ok_line, ok_nodes_line, error_line};
ghost use Rattle.reply_model.specs.Replies.{edit_text};

use itoa::Buffer;
use page_model::Cause;
use port_core::NoMemory;
use reply_texts::{push_field, push_text};
use request_model::Accepted;

/// The most bytes of the reply to an edit.
pub const MAX_EDIT_REPLY: usize = 32;

/// Appends the line of a request that was carried out.
#[tactic(auto, unfolding(reply_model::specs::Spelling::ok_line))]
pub fn push_ok(reply: &mut String) -> Result<(), NoMemory>
    ensures line { OnOk result (string_bytes reply.new ≡ string_bytes reply.old ++ ok_line) }
    ensures room { OnErr result (string_capacity reply.old < string_len reply.old + 3) }
{
    reply.push_str("ok\n")
}

/// Appends a field that is a number.
fn push_number(reply: &mut String, number: u32) -> Result<(), NoMemory>
    ensures text { OnOk result (string_bytes reply.new ≡ string_bytes reply.old ++ field (decimal number)) }
    ensures room { OnErr result (string_capacity reply.old < string_len reply.old + 11) }
    ensures len { OnOk result (string_len reply.new ≤ string_len reply.old + 11) }
    ensures capacity { string_capacity reply.old ≤ string_capacity reply.new }
{
    push_field(reply, Buffer::new().format(number))
}

/// Appends the line of an edit that brought a tree.
#[tactic(auto, unfolding(reply_model::specs::Spelling::ok_nodes_line))]
fn push_ok_nodes(reply: &mut String, accepted: Accepted) -> Result<(), NoMemory>
    ensures line { OnOk result (string_bytes reply.new
        ≡ string_bytes reply.old ++ ok_nodes_line accepted.first accepted.count) }
    ensures room { OnErr result (string_capacity reply.old < string_len reply.old + 25) }
{
    push_text(reply, "ok")?;
    push_number(reply, accepted.first)?;
    push_number(reply, accepted.count)?;
    push_text(reply, "\n")
}

/// Appends the reply to an edit, with the ids of its nodes if it brought a tree.
pub fn push_accepted(
    reply: &mut String,
    brings_tree: bool,
    accepted: Accepted,
) -> Result<(), NoMemory>
    ensures line { OnOk result (string_bytes reply.new
        ≡ string_bytes reply.old ++ edit_text brings_tree accepted) }
    ensures room { OnErr result (string_capacity reply.old < string_len reply.old + 32) }
{
    if brings_tree {
        push_ok_nodes(reply, accepted)
    } else {
        push_ok(reply)
    }
}

/// Appends the line of a refusal.
#[tactic(auto, unfolding(reply_model::specs::Spelling::error_line))]
pub fn push_error(reply: &mut String, cause: Cause) -> Result<(), NoMemory>
    ensures line { OnOk result (string_bytes reply.new ≡ string_bytes reply.old ++ error_line cause) }
    ensures room { OnErr result (string_capacity reply.old < string_len reply.old + 32) }
{
    push_text(reply, "error")?;
    push_number(reply, cause.number() as u32)?;
    push_field(reply, cause.name())?;
    push_text(reply, "\n")
}
