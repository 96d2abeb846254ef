//! Comments (CSS Syntax 3, section 4.3.2).
ghost use Rattle.std.specs.Prelude.{◌≡◌, ◌≤◌, [], ◌++◌, length, drop, codes};
ghost use Rattle.std.specs.Str.{chars};
ghost use Rattle.css_model.specs.Classes.{has_front};
ghost use Rattle.css_model.specs.inner.Pieces as model;
ghost use Rattle.css_tokens.specs.inner.Found.{IsFound};

use crate::piece::Piece;
use crate::runs::after_front;

/// Consumes a comment; `cs` starts just after its `/*`.
pub fn consume_comment<'a>(cs: &'a str) -> Piece<'a>
    ensures { IsFound result (model.consume_comment (chars cs.now)) (codes "/*" ++ chars cs.now) }
{
    Piece::comment(after_end(after_inside(cs)))
}

/// The text after the `*/` in front of `cs`, if it is there.
fn after_end<'a>(cs: &'a str) -> &'a str
    requires { model.comment_inside (chars cs.now) ≡ [] }
    ensures { chars result.now ≡ drop (length (model.comment_end (chars cs.now))) (chars cs.now) }
{
    match after_front(b"*/", cs) {
        Some(rest) => rest,
        None => cs,
    }
}

/// `cs` from its first `*/` on, or its end, if it has none.
fn after_inside<'a>(cs: &'a str) -> &'a str
    ensures { chars result.now ≡ drop (length (model.comment_inside (chars cs.now))) (chars cs.now) }
{
    let (_, rest) = cs.split_at(inside_length(cs.as_bytes()));
    rest
}

/// How many bytes are before the first `*/`, or are there at all.
fn inside_length(bytes: &[u8]) -> usize
    ensures inside { result ≡ length (model.comment_inside bytes.now) }
    ensures within { result ≤ length bytes.now }
{
    for i in 0..bytes.len() {
        let (_, rest) = bytes.split_at(i);
        if begins_end(rest) {
            return i;
        }
    }
    bytes.len()
}

fn begins_end(bytes: &[u8]) -> bool
    ensures { result ≡ has_front (codes "*/") bytes.now }
{
    matches!(bytes, [b'*', b'/', ..])
}
