//! Text of few bytes, which lies in the value itself.
ghost use Rattle.std.specs.Prelude.{◌≡◌, ◌≤◌, length, IfSome, IsUtf8, take};
ghost use Rattle.std.specs.Str.{IsAscii};
ghost use Rattle.port_core.specs.declared.short_text.TheConstants.{ROOM};

use std::str;

/// How many bytes a short text has at most.
pub const ROOM: usize = 12;

/// A short text: the first `len` of `bytes`.
#[derive(Clone, Copy, Debug)]
pub struct ShortText {
    len: u16,
    bytes: [u8; ROOM],
    ghost fits: { len ≤ ROOM },
    ghost utf8: { ∥ IsUtf8 (take len bytes) ∥₁ },
}

impl ShortText {
    /// A copy of `s`.
    pub fn new(s: &str) -> ShortText
        requires { length s.now ≤ ROOM }
        ensures { take result.len result.bytes ≡ s.now }
    {
        let mut bytes = [0; ROOM];
        let len = s.len();
        bytes[..len].copy_from_slice(s.as_bytes());
        ShortText {
            len: len as u16,
            bytes,
        }
    }

    /// The text of `cs`, if that is ASCII and short.
    pub fn from_ascii(cs: &[char]) -> Option<ShortText>
        ensures bytes { IfSome result (λ t. take t.len t.bytes ≡ cs.now) }
        ensures ascii { IfSome result (λ t. IsAscii cs.now) }
    {
        if cs.len() > ROOM {
            return None;
        }
        let mut bytes = [0; ROOM];
        for i in 0..cs.len() {
            let c = cs[i];
            if c > '\u{7f}' {
                return None;
            }
            bytes[i] = c as u8;
        }
        Some(ShortText {
            len: cs.len() as u16,
            bytes,
        })
    }

    /// The text, borrowed.
    pub fn as_str(&self) -> &str
        ensures { result.now ≡ take self.now.len self.now.bytes }
    {
        unsafe { str::from_utf8_unchecked(&self.bytes[..self.len as usize]) }
    }
}
