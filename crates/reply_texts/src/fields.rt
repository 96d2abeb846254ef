//! Fields of the lines of replies.
ghost use Rattle.reply_model.specs.Spelling.{field};
ghost use Rattle.std.specs.Fmt.{signed_decimal};
ghost use Rattle.std.specs.Prelude.{◌≡◌, ◌++◌, ◌+◌, ◌<◌, ◌≤◌, length, OnErr, OnOk};
ghost use Rattle.std.specs.Prelude.{string_bytes, string_capacity, string_len};

use itoa::Buffer;
use port_core::NoMemory;

/// Appends `text`. It fails only where the room is too small.
pub fn push_text(reply: &mut String, text: &str) -> Result<(), NoMemory>
    ensures text { OnOk result (string_bytes reply.new ≡ string_bytes reply.old ++ text.now) }
    ensures room { OnErr result (string_capacity reply.old < string_len reply.old + length text.now) }
    ensures len { OnOk result (string_len reply.new ≡ string_len reply.old + length text.now) }
    ensures capacity { string_capacity reply.old ≤ string_capacity reply.new }
{
    reply.push_str(text)
}

/// Appends a field: a space, and then the text.
pub fn push_field(reply: &mut String, text: &str) -> Result<(), NoMemory>
    ensures text { OnOk result (string_bytes reply.new ≡ string_bytes reply.old ++ field text.now) }
    ensures room { OnErr result (string_capacity reply.old < string_len reply.old + 1 + length text.now) }
    ensures len { OnOk result (string_len reply.new ≡ string_len reply.old + 1 + length text.now) }
    ensures capacity { string_capacity reply.old ≤ string_capacity reply.new }
{
    reply.push_str(" ")?;
    reply.push_str(text)
}

/// Appends a number in decimal.
pub(crate) fn push_signed(reply: &mut String, number: i64) -> Result<(), NoMemory>
    ensures { OnOk result (string_bytes reply.new ≡ string_bytes reply.old ++ signed_decimal number) }
{
    push_text(reply, Buffer::new().format(number))
}

/// Appends `tag` and then a number in decimal.
pub(crate) fn push_tagged(reply: &mut String, tag: &str, number: i64) -> Result<(), NoMemory>
    ensures { OnOk result (string_bytes reply.new
        ≡ string_bytes reply.old ++ (tag.now ++ signed_decimal number)) }
{
    push_text(reply, tag)?;
    push_signed(reply, number)
}
