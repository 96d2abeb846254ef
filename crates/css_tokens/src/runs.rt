//! What is in front of a text.
ghost use Rattle.std.specs.Prelude.{◌≡◌, ◌≤◌, [], ◌∷◌, length, take, drop, false, MatchOption};
ghost use Rattle.std.specs.List.{prefix_len};
ghost use Rattle.std.specs.Str.{chars, IsAscii};
ghost use Rattle.css_model.specs.Classes as model;
ghost use Rattle.css_model.specs.inner.Fronts.{one_in, run_in};
ghost use Rattle.css_model.specs.inner.Pieces as pieces;
ghost use Rattle.css_tokens.specs.inner.Classes.{test_of};
ghost use Rattle.css_tokens.specs.inner.Texts.{AreAscii, IsAfter};

use crate::classes::Class;

/// The first code point of `cs`, if it has one, and the rest.
pub fn first<'a>(cs: &'a str) -> Option<(char, &'a str)>
    ensures { MatchOption result (chars cs.now ≡ []) (λ p. chars cs.now ≡ p.0 ∷ chars p.1.now) }
{
    let mut rest = cs.chars();
    match rest.next() {
        Some(c) => Some((c, rest.as_str())),
        None => None,
    }
}

/// The first `len` bytes of `cs`, which are ASCII, and the rest.
pub fn split_ascii<'a>(cs: &'a str, len: usize) -> (&'a [u8], &'a str)
    requires within { len ≤ length cs.now }
    requires ascii { IsAscii (take len cs.now) }
    ensures front { result.0.now ≡ take len (chars cs.now) }
    ensures rest { chars result.1.now ≡ drop len (chars cs.now) }
{
    let (front, rest) = cs.split_at(len);
    (front.as_bytes(), rest)
}

/// The text after `front`, which is ASCII, if `cs` begins with it.
pub fn after_front<'a>(front: &[u8], cs: &'a str) -> Option<&'a str>
    requires { AreAscii front.now }
    ensures { MatchOption result (model.has_front front.now (chars cs.now) ≡ false)
        (λ rest. IsAfter front.now (chars cs.now) (chars rest.now)) }
{
    if begins_with(front, cs.as_bytes()) {
        let (_, rest) = split_ascii(cs, front.len());
        Some(rest)
    } else {
        None
    }
}

fn begins_with(front: &[u8], bytes: &[u8]) -> bool
    ensures { result ≡ model.has_front front.now bytes.now }
{
    bytes.starts_with(front)
}

/// Whether the first code point of `cs` is of this class.
pub fn begins(class: Class, cs: &str) -> bool
    ensures { result ≡ model.begins (test_of class) (chars cs.now) }
{
    begins_bytes(class, cs.as_bytes())
}

/// Whether the first byte of `bytes` is of this class.
pub fn begins_bytes(class: Class, bytes: &[u8]) -> bool
    ensures { result ≡ model.begins (test_of class) bytes.now }
{
    match bytes {
        [] => false,
        [b, ..] => class.has(*b as char),
    }
}

/// The code points of this class in front of `cs`, which are ASCII, and the rest.
pub fn run<'a>(class: Class, cs: &'a str) -> (&'a [u8], &'a str)
    ensures front { result.0.now ≡ run_in (test_of class) (chars cs.now) }
    ensures rest { chars result.1.now ≡ drop (length (run_in (test_of class) (chars cs.now))) (chars cs.now) }
{
    split_ascii(cs, run_length(class, cs.as_bytes()))
}

/// How many bytes of this class are in front of `bytes`.
pub fn run_length(class: Class, bytes: &[u8]) -> usize
    ensures run { result ≡ prefix_len (test_of class) bytes.now }
    ensures within { result ≤ length bytes.now }
{
    bytes.iter().take_while(|b| class.has(**b as char)).count()
}

/// The text after the whitespace in front of `cs`.
pub fn after_white<'a>(cs: &'a str) -> &'a str
    ensures { chars result.now ≡ pieces.after_white (chars cs.now) }
{
    let (_, rest) = run(Class::Whitespace, cs);
    rest
}

/// The first code point of `cs`, if it is of this class, and the rest.
pub fn one<'a>(class: Class, cs: &'a str) -> (&'a [u8], &'a str)
    ensures front { result.0.now ≡ one_in (test_of class) (chars cs.now) }
    ensures rest { chars result.1.now ≡ drop (length (one_in (test_of class) (chars cs.now))) (chars cs.now) }
{
    split_ascii(cs, one_length(class, cs.as_bytes()))
}

/// How many of the first byte of `bytes` are of this class.
fn one_length(class: Class, bytes: &[u8]) -> usize
    ensures one { result ≡ length (one_in (test_of class) bytes.now) }
    ensures within { result ≤ length bytes.now }
{
    match bytes {
        [] => 0,
        [b, ..] => if class.has(*b as char) { 1 } else { 0 },
    }
}
