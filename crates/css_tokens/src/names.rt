//! Identifiers and functions (CSS Syntax 3, section 4.3.4).
ghost use Rattle.std.specs.Prelude.{◌≡◌, ◌&&◌, not, IfOk};
ghost use Rattle.std.specs.Str.{chars};
ghost use Rattle.css_model.specs.declared.place.Place.TheVariants.{InName};
ghost use Rattle.css_model.specs.inner.Fronts as fronts;
ghost use Rattle.css_model.specs.inner.Fronts.{parts_in};
ghost use Rattle.css_model.specs.Spellings as spelling;
ghost use Rattle.css_model.specs.inner.Pieces as model;
ghost use Rattle.css_tokens.specs.inner.Found.{IsFound};

use crate::classes::Class;
use crate::parts::{after_parts, meaning_of_parts};
use crate::piece::Piece;
use crate::runs::{after_white, begins, first};
use crate::urls::consume_url;
use css_model::{Place, TokenType};
use port_core::{NoMemory, Text};
use std::alloc::Global;

/// Consumes the identifier, function or url whose name is in front of `cs`.
pub fn consume_ident_like<'a>(alloc: Global, cs: &'a str) -> Result<Piece<'a>, NoMemory>
    ensures { IfOk result (λ p. IsFound p
        (model.consume_ident_like (parts_in InName (chars cs.now))
        (fronts.after_parts (parts_in InName (chars cs.now)) (chars cs.now))) (chars cs.now)) }
{
    let name = meaning_of_parts(alloc, Place::InName, cs)?;
    let rest = after_parts(Place::InName, cs);
    match first(rest) {
        None => Ok(Piece::token(TokenType::Ident(name), rest)),
        Some((c, inside)) => {
            if c != '(' {
                Ok(Piece::token(TokenType::Ident(name), rest))
            } else if begins_url(&name, inside) {
                consume_url(alloc, inside)
            } else {
                Ok(Piece::token(TokenType::Function(name), inside))
            }
        }
    }
}

/// Whether `name`, `(` and then `rest` begin a url without quotes.
fn begins_url(name: &Text, rest: &str) -> bool
    ensures { result ≡ (spelling.is_url_name name.now && not (spelling.quote_follows (chars rest.now))) }
{
    is_url_name(name) && !quote_follows(rest)
}

/// Whether `name` is the name of urls, in any case.
fn is_url_name(name: &Text) -> bool
    ensures { result ≡ spelling.is_url_name name.now }
{
    name.as_str().eq_ignore_ascii_case("url")
}

/// Whether `cs` begins with a quote, with or without whitespace before it.
fn quote_follows(cs: &str) -> bool
    ensures { result ≡ spelling.quote_follows (chars cs.now) }
{
    begins(Class::Quote, after_white(cs))
}
