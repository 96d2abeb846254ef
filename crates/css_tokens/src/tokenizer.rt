//! The tokens of a text (CSS Syntax 3, section 4.3).
ghost use Rattle.std.specs.Prelude.{◌≡◌, ◌+◌, ◌<◌, ◌^◌, [], ◌∷◌, ◌++◌, length, drop, IfOk, OnOk};
ghost use Rattle.std.specs.Str.{chars};
ghost use Rattle.css_model.specs.TokenList.{IsTokenList, tokens_from, token_at};
ghost use Rattle.css_model.specs.inner.Pieces.{pieces};
ghost use Rattle.css_tokens.specs.inner.Found.{tokens_of_type};
ghost use Rattle.css_tokens.specs.inner.Texts.{IsRest, front_of};
ghost use Rattle.css_tokens.specs.inner.Left.{IsWithin, tokens_left};

use crate::first_piece::first_piece;
use crate::piece::Piece;
use crate::preprocessing::{is_preprocessed, preprocess};
use crate::runs::first;
use css_model::{Token, TokenType, Tokens};
use port_core::{NoMemory, Seq, Text};
use std::alloc::Global;

/// The token list of `text`.
///
/// Time and memory grow with the length of the text.
pub fn tokenize(alloc: Global, text: &str) -> Result<Tokens, NoMemory>
    ensures tokens { IfOk result (λ ts. IsTokenList (chars text.now) ts) }
{
    if is_preprocessed(text) {
        tokens_of(alloc, text)
    } else {
        tokens_of(alloc, preprocess(alloc, text)?.as_str())
    }
}

/// What is left of a text, and how many code points of the text are before it.
#[derive(Clone, Copy, Debug)]
struct Left<'a> {
    start: usize,
    text: &'a str,
}

/// The tokens of the preprocessed text `cs`.
fn tokens_of(alloc: Global, cs: &str) -> Result<Tokens, NoMemory>
    ensures { IfOk result (λ ts. ts ≡ tokens_from 0 (pieces (chars cs.now))) }
{
    let mut tokens = Seq::new(alloc);
    let mut left = Left { start: 0, text: cs };
    while let Some((c, rest)) = first(left.text) {
        left = take_piece(alloc, &mut tokens, left, c, rest)?;
    }
    Ok(tokens)
}

/// Consumes the first piece of what is left, which is `c` and then `rest`, keeps its token, and
/// returns what is left then.
fn take_piece<'a>(
    alloc: Global,
    tokens: &mut Tokens,
    left: Left<'a>,
    c: char,
    rest: &'a str,
) -> Result<Left<'a>, NoMemory>
    requires split { chars left.text.now ≡ c ∷ chars rest.now }
    requires room { IsWithin left }
    ensures shorter { IfOk result (λ next. length (chars next.text.now) < length (chars left.entry.text.now)) }
    ensures room { IfOk result (λ next. IsWithin next) }
    ensures taken { IfOk result (λ next. tokens.new ++ tokens_left next ≡ tokens.old ++ tokens_left left.entry) }
{
    match first_piece(alloc, left.text, c, rest) {
        Ok(piece) => keep_piece(alloc, tokens, left, piece),
        Err(fault) => Err(fault),
    }
}

/// Keeps the token of `piece`, which is in front of what is left, and returns what is left after it.
fn keep_piece<'a>(
    alloc: Global,
    tokens: &mut Tokens,
    left: Left<'a>,
    piece: Piece<'a>,
) -> Result<Left<'a>, NoMemory>
    requires rest { IsRest (chars left.text.now) (chars piece.rest.now) }
    requires room { IsWithin left }
    ensures start { IfOk result (λ next. next.start
        ≡ left.entry.start + length (front_of (chars left.entry.text.now) (chars piece.entry.rest.now))) }
    ensures text { IfOk result (λ next. next.text.now ≡ piece.entry.rest.now) }
    ensures kept { OnOk result (tokens.new ≡ tokens.old
        ++ tokens_of_type piece.entry.token_type left.entry.start (front_of (chars left.entry.text.now) (chars piece.entry.rest.now))) }
{
    let spelling = before(left.text, piece.rest);
    let end = left.start + count(spelling);
    keep_token(alloc, tokens, piece.token_type, left.start, end, spelling)?;
    Ok(Left {
        start: end,
        text: piece.rest,
    })
}

/// What is in front of `rest` in `text`.
fn before<'a>(text: &'a str, rest: &str) -> &'a str
    requires { IsRest (chars text.now) (chars rest.now) }
    ensures { chars result.now ≡ front_of (chars text.now) (chars rest.now) }
{
    text.split_at(text.len() - rest.len()).0
}

/// How many code points `cs` has.
fn count(cs: &str) -> usize
    ensures { result ≡ length (chars cs.now) }
{
    if cs.is_ascii() {
        cs.len()
    } else {
        cs.chars().count()
    }
}

/// Appends the token of this type, place and spelling, if there is a type.
fn keep_token(
    alloc: Global,
    tokens: &mut Tokens,
    token_type: Option<TokenType>,
    start: usize,
    end: usize,
    spelling: &str,
) -> Result<(), NoMemory>
    requires { end ≡ start + length (chars spelling.now) }
    ensures { OnOk result (tokens.new ≡ tokens.old ++ tokens_of_type token_type start (chars spelling.now)) }
{
    match token_type {
        Some(token_type) => {
            let token = Token {
                token_type,
                start,
                end,
                spelling: Text::new(alloc, spelling)?,
            };
            tokens.push(token)
        }
        None => Ok(()),
    }
}
