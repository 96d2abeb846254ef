//! Owned text. A short one lies in the value itself; a longer one lies on the heap.
ghost use Rattle.std.specs.Prelude.{◌≡◌, ◌↔◌, [], ◌∷◌, ◌++◌, IsTrue, IfOk, OnOk, string_bytes, encode_utf8_all};
ghost use Rattle.std.specs.Str.{chars};
ghost use Rattle.port_core.specs.Text.{kept_bytes};

use crate::NoMemory;
use crate::short_text::{ROOM, ShortText};
use std::alloc::Global;
use std::marker::Model;

/// Where the bytes of a text lie.
#[derive(Debug, Drop)]
enum Kept {
    /// In the value itself.
    Here(ShortText),
    /// On the heap.
    There(Box<String>),
}

/// Owned text, which contracts see as the list of its characters.
#[derive(Debug, Drop)]
pub struct Text {
    kept: Kept,
}

impl Model for Text {
    ghost use Rattle.std.specs.Prelude.{List, ℕ};
    ghost use Rattle.std.specs.Str.{chars};
    ghost use Rattle.port_core.specs.Text.{kept_bytes};

    ghost Value = { List ℕ };

    ghost view = { λ t. chars (kept_bytes t.kept) };
}

impl Text {
    /// A copy of `s`.
    pub fn new(alloc: Global, s: &str) -> Result<Text, NoMemory>
        ensures { IfOk result (λ t. t ≡ chars s.now) }
    {
        let kept = if s.len() <= ROOM {
            Kept::Here(ShortText::new(s))
        } else {
            there(alloc, s)?
        };
        Ok(Text { kept })
    }

    /// The text of these characters.
    pub fn from_chars(alloc: Global, cs: &[char]) -> Result<Text, NoMemory>
        ensures { IfOk result (λ t. t ≡ cs.now) }
    {
        match ShortText::from_ascii(cs) {
            Some(short) => Ok(Text {
                kept: Kept::Here(short),
            }),
            None => Text::new(alloc, written(alloc, cs)?.as_str()),
        }
    }

    /// A copy of the text. One of a short text takes no memory.
    pub fn copy(&self, alloc: Global) -> Result<Text, NoMemory>
        ensures { IfOk result (λ t. t ≡ self.now) }
    {
        let kept = match &self.kept {
            Kept::Here(short) => Kept::Here(*short),
            Kept::There(text) => there(alloc, text.as_str())?,
        };
        Ok(Text { kept })
    }

    /// The text, borrowed.
    pub fn as_str(&self) -> &str
        ensures characters { chars result.now ≡ self.now }
        ensures bytes { result.now ≡ encode_utf8_all self.now }
    {
        self.kept.as_str()
    }

    /// Whether both have the same characters.
    pub fn same(&self, other: &Text) -> bool
        ensures { IsTrue result ↔ (self.now ≡ other.now) }
    {
        same_bytes(self.as_str(), other.as_str())
    }

    /// Whether the text is `s`.
    pub fn is(&self, s: &str) -> bool
        ensures { IsTrue result ↔ (self.now ≡ chars s.now) }
    {
        same_bytes(self.as_str(), s)
    }
}

impl Kept {
    ghost use Rattle.port_core.specs.Text.{kept_bytes};

    fn as_str(&self) -> &str
        ensures { result.now ≡ kept_bytes self.now }
    {
        match self {
            Kept::Here(short) => short.as_str(),
            Kept::There(text) => text.as_str(),
        }
    }
}

/// A copy of `s` on the heap.
fn there(alloc: Global, s: &str) -> Result<Kept, NoMemory>
    ensures { IfOk result (λ kept. kept_bytes kept ≡ s.now) }
{
    let text = String::from_str(alloc, s)?;
    match Box::new(alloc, text) {
        Ok(text) => Ok(Kept::There(text)),
        Err(_) => Err(NoMemory),
    }
}

/// These characters, in UTF-8.
fn written(alloc: Global, cs: &[char]) -> Result<String, NoMemory>
    ensures { IfOk result (λ s. chars (string_bytes s) ≡ cs.now) }
{
    let mut text = String::with_capacity(alloc, cs.len())?;
    for c in cs {
        push_char(&mut text, *c)?;
    }
    Ok(text)
}

/// Appends `c` to `text`.
pub fn push_char(text: &mut String, c: char) -> Result<(), NoMemory>
    ensures { OnOk result (chars (string_bytes text.new) ≡ chars (string_bytes text.old) ++ c ∷ []) }
{
    text.push(c)
}

/// Whether two texts have the same characters: in UTF-8 exactly those with the same bytes have.
fn same_bytes(a: &str, b: &str) -> bool
    ensures { IsTrue result ↔ (chars a.now ≡ chars b.now) }
{
    a == b
}

#[cfg(test)]
mod tests {
    use crate::{NoMemory, Text};

    #[test]
    fn keeps_short_and_long_texts(rt: HostRuntime) -> Result<(), NoMemory> {
        for s in [
            "",
            "größe",
            "twelve-bytes",
            "thirteen-byte",
            "a much longer text, größer",
        ] {
            let text = Text::new(rt.alloc(), s)?;
            assert_eq!(rt; text.as_str(), s);
            assert!(rt; text.copy(rt.alloc())?.is(s));
        }
        Ok(())
    }
}
