//! The text before it is cut into tokens (CSS Syntax 3, section 3.3).
ghost use Rattle.std.specs.Prelude.{◌≡◌, ◌++◌, string_bytes, true, IfOk, OnOk};
ghost use Rattle.std.specs.List.{list_all};
ghost use Rattle.std.specs.Str.{chars};
ghost use Rattle.css_model.specs.Preprocessing as model;
ghost use Rattle.css_tokens.specs.inner.Replacing.{is_kept, kept_after};

use port_core::{NoMemory, push_char};
use std::alloc::Global;

/// Whether preprocessing changes no code point of `text`.
pub fn is_preprocessed(text: &str) -> bool
    ensures { result ≡ true → model.preprocessed (chars text.now) ≡ chars text.now }
{
    are_kept(text.as_bytes())
}

fn are_kept(bytes: &[u8]) -> bool
    ensures { result ≡ list_all is_kept bytes.now }
{
    bytes.iter().all(|b| is_kept(*b))
}

/// Whether preprocessing does not change `b`.
fn is_kept(b: u8) -> bool
    ensures { result ≡ is_kept b }
{
    b != b'\r' && b != 12 && b != 0
}

/// The code points of `text`, preprocessed.
pub fn preprocess(alloc: Global, text: &str) -> Result<String, NoMemory>
    ensures { IfOk result (λ s. chars (string_bytes s) ≡ model.preprocessed (chars text.now)) }
{
    let mut kept = String::with_capacity(alloc, text.len())?;
    let mut before = '\0';
    for c in text.chars() {
        keep(&mut kept, before, c)?;
        before = c;
    }
    Ok(kept)
}

/// Appends what `c` becomes after `before`: nothing, if it is a newline after a carriage return.
fn keep(kept: &mut String, before: char, c: char) -> Result<(), NoMemory>
    ensures { OnOk result (chars (string_bytes kept.new)
        ≡ chars (string_bytes kept.old) ++ kept_after before c) }
{
    if before != '\r' || c != '\n' {
        push_char(kept, replaced(c))?;
    }
    Ok(())
}

/// A carriage return and a form feed become a newline, and U+0000 becomes U+FFFD.
fn replaced(c: char) -> char
    ensures { result ≡ model.replaced c }
{
    match c {
        '\r' | '\u{c}' => '\n',
        '\0' => '\u{fffd}',
        _ => c,
    }
}
