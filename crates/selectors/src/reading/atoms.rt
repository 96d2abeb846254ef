//! What component values are in a selector.
ghost use Rattle.css_model.specs.declared.token.TokenType.TheVariants as token;
ghost use Rattle.selectors.specs.inner.Atoms.{atom_view};
ghost use Rattle.selectors_model.specs.Grammar as model;
ghost use Rattle.std.specs.Prelude.{◌≡◌, IfOk};

use crate::selector::Simple;
use css_model::TokenType;
use port_core::{NoMemory, Text};
use selectors_model::Combinator;
use std::alloc::Global;

/// What a component value is in a selector.
#[derive(Drop)]
pub(crate) enum Atom<'a> {
    /// White space.
    White,
    /// `,`.
    Comma,
    /// `>`, `+` or `~`.
    Combinator(Combinator),
    /// What stands in a compound selector, or nowhere.
    Part(Part<'a>),
}

/// What stands in a compound selector, or nowhere.
#[derive(Drop)]
pub(crate) enum Part<'a> {
    /// `.`.
    Dot,
    /// `:`.
    Colon,
    /// `*`.
    Star,
    /// An identifier.
    Word(&'a Text),
    /// A simple selector by itself: `#id` or `[..]`.
    Whole(Simple),
    /// A function, and the pseudo-class that it is after a `:`.
    Function(&'a Text, Option<Simple>),
    /// What stands in no selector.
    Other,
}

/// What a token is by itself.
pub(crate) fn atom_of_type(alloc: Global, token_type: &TokenType) -> Result<Atom<'_>, NoMemory>
    ensures { IfOk result (λ a. atom_view a ≡ model.atom_of_type token_type.now) }
{
    match token_type {
        TokenType::Whitespace => Ok(Atom::White),
        TokenType::Comma => Ok(Atom::Comma),
        TokenType::Colon => Ok(Atom::Part(Part::Colon)),
        TokenType::Ident(name) => Ok(Atom::Part(Part::Word(name))),
        TokenType::Hash { name, is_id } => atom_of_hash(alloc, name, *is_id),
        TokenType::Delim(c) => Ok(atom_of_delim(*c)),
        _ => Ok(Atom::Part(Part::Other)),
    }
}

fn atom_of_hash<'a>(alloc: Global, name: &Text, is_id: bool) -> Result<Atom<'a>, NoMemory>
    ensures { IfOk result (λ a. atom_view a ≡ model.atom_of_type (token.Hash name.now is_id)) }
{
    if is_id {
        Ok(Atom::Part(Part::Whole(Simple::Id(name.copy(alloc)?))))
    } else {
        Ok(Atom::Part(Part::Other))
    }
}

fn atom_of_delim<'a>(delim: char) -> Atom<'a>
    ensures { atom_view result ≡ model.atom_of_type (token.Delim delim) }
{
    match delim {
        '.' => Atom::Part(Part::Dot),
        '*' => Atom::Part(Part::Star),
        '>' => Atom::Combinator(Combinator::Child),
        '+' => Atom::Combinator(Combinator::NextSibling),
        '~' => Atom::Combinator(Combinator::SubsequentSibling),
        _ => Atom::Part(Part::Other),
    }
}
