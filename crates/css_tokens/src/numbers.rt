//! Numbers, percentages and dimensions (CSS Syntax 3, section 4.3.3).
ghost use Rattle.std.specs.Prelude.{◌≡◌, length, drop, true, IfOk};
ghost use Rattle.std.specs.Str.{chars};
ghost use Rattle.css_model.specs.Numerals as written;
ghost use Rattle.css_model.specs.inner.Fronts.{would_start_number, numeral_in};
ghost use Rattle.css_model.specs.inner.Pieces as model;
ghost use Rattle.css_tokens.specs.inner.Found.{IsFound};

use crate::numerals::read_numeral;
use crate::parts::{after_parts, meaning_of_parts, would_start_ident};
use crate::piece::Piece;
use crate::runs::after_front;
use css_model::{Number, Place, TokenType};
use port_core::NoMemory;
use std::alloc::Global;

/// Consumes the number, percentage or dimension in front of `cs`.
pub fn consume_numeric<'a>(alloc: Global, cs: &'a str) -> Result<Piece<'a>, NoMemory>
    requires { would_start_number (chars cs.now) ≡ true }
    ensures { IfOk result (λ p. IsFound p (model.consume_numeric (numeral_in (chars cs.now))
        (drop (length (written.numeral_text (numeral_in (chars cs.now)))) (chars cs.now))) (chars cs.now)) }
{
    let (number, rest) = read_number(cs);
    if would_start_ident(rest) {
        let unit = meaning_of_parts(alloc, Place::InName, rest)?;
        return Ok(Piece::token(
            TokenType::Dimension(number, unit),
            after_parts(Place::InName, rest),
        ));
    }
    match after_front(b"%", rest) {
        Some(rest) => Ok(Piece::token(TokenType::Percentage(number), rest)),
        None => Ok(Piece::token(TokenType::Number(number), rest)),
    }
}

/// The number in front of `cs`, and the text after it.
fn read_number<'a>(cs: &'a str) -> (Number, &'a str)
    requires { would_start_number (chars cs.now) ≡ true }
    ensures number { result.0 ≡ written.number_of (numeral_in (chars cs.now)) }
    ensures rest { chars result.1.now
        ≡ drop (length (written.numeral_text (numeral_in (chars cs.now)))) (chars cs.now) }
{
    let (numeral, rest) = read_numeral(cs);
    (numeral.number(), rest)
}
