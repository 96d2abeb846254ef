//! Copies of bytes.
ghost use Rattle.std.specs.Prelude.{◌≡◌, ◌+◌, ◌≤◌, ◌++◌, length, take, drop, vec_capacity};

/// Copies `count` bytes of `bytes`, from `start` on, into the front of `buf`.
pub fn copy_piece(bytes: &[u8], start: usize, count: usize, buf: &mut [u8])
    requires in_bytes { start + count ≤ length bytes.now }
    requires in_buf { count ≤ length buf.old }
    ensures { drop start bytes.now ≡ take count buf.new ++ drop (start + count) bytes.now }
{
    buf[..count].copy_from_slice(&bytes[start..start + count]);
}

/// Appends `more`, which fits the capacity of `bytes`.
pub fn append(bytes: &mut Vec<u8>, more: &[u8])
    requires { length bytes.old.items + length more.now ≤ vec_capacity bytes.old }
    ensures items { bytes.new.items ≡ bytes.old.items ++ more.now }
    ensures capacity { vec_capacity bytes.old ≤ vec_capacity bytes.new }
{
    let _ = bytes.extend_from_slice(more);
}
