//! Conditions, read word by word (Media Queries 4, section 3).
ghost use Rattle.conditions_model.specs.ConditionWords.{part, ident};
ghost use Rattle.conditions_model.specs.Conditions.{words_before};
ghost use Rattle.std.specs.Prelude.{◌≡◌, [], ◌∷◌, IfOk, option_map};
ghost use Rattle.tri_conditions.specs.Views.{condition_view, conditions_view};
ghost use Rattle.tri_conditions.specs.inner.Drafts.{condition_after, join_named, joined, TakesWord, TakesWords};
ghost use Rattle.tri_conditions.specs.inner.Words.{words_seen};

use crate::condition::Condition;
use crate::words::Word;
use css_tokens::is_word;
use port_core::{Boxed, NoMemory, Seq, Text};
use std::alloc::Global;

/// A keyword between parts.
#[derive(Clone, Copy, Debug, PartialEq, Eq)]
pub(crate) enum Join {
    /// `and`.
    And,
    /// `or`.
    Or,
}

impl Join {
    /// The keyword of this name.
    fn named(name: &Text) -> Option<Join>
        ensures { result ≡ join_named name.now }
    {
        if is_word(name, "and") {
            Some(Join::And)
        } else if is_word(name, "or") {
            Some(Join::Or)
        } else {
            None
        }
    }

    /// The condition of parts with the keyword between them.
    fn condition<Q>(self, parts: Seq<Condition<Q>>) -> Condition<Q>
        ensures { condition_view result ≡ joined self (conditions_view parts) }
    {
        match self {
            Join::And => Condition::All(parts),
            Join::Or => Condition::Any(parts),
        }
    }
}

/// What was read of a condition.
#[derive(Drop)]
pub(crate) enum Draft<Q> {
    /// Nothing.
    Empty,
    /// `not`.
    Not,
    /// A condition after which nothing may be.
    Whole(Condition<Q>),
    /// A part.
    Part(Condition<Q>),
    /// Parts with a keyword between them.
    Parts(Join, Seq<Condition<Q>>),
    /// Parts with a keyword after each.
    Open(Join, Seq<Condition<Q>>),
    /// What no condition begins with.
    Invalid,
}

impl<Q: Drop> Draft<Q> {
    /// Takes a word.
    pub(crate) fn take(self, alloc: Global, word: Word<'_, Q>) -> Result<Draft<Q>, NoMemory>
        ensures { IfOk result (λ d. TakesWords self (words_seen word.entry) d) }
    {
        match word {
            Word::Space => Ok(self),
            Word::Part(c) => self.take_part(alloc, c),
            Word::Ident(name) => self.take_ident(alloc, name),
            Word::Other => Ok(Draft::Invalid),
        }
    }

    /// Takes a part.
    fn take_part(self, alloc: Global, c: Condition<Q>) -> Result<Draft<Q>, NoMemory>
        ensures { IfOk result (λ d. TakesWord self (part (condition_view c)) d) }
    {
        match self {
            Draft::Empty => Ok(Draft::Part(c)),
            Draft::Not => Ok(Draft::Whole(Condition::Not(Boxed::new(alloc, c)?))),
            Draft::Open(join, mut parts) => {
                parts.push(c)?;
                Ok(Draft::Parts(join, parts))
            }
            _ => Ok(Draft::Invalid),
        }
    }

    /// Takes an identifier.
    fn take_ident(self, alloc: Global, name: &Text) -> Result<Draft<Q>, NoMemory>
        ensures { IfOk result (λ d. TakesWord self (ident name.now) d) }
    {
        match self {
            Draft::Empty => Ok(Draft::begun(name)),
            Draft::Part(c) => Draft::opened(alloc, c, name),
            Draft::Parts(join, parts) => Ok(Draft::reopened(join, parts, name)),
            _ => Ok(Draft::Invalid),
        }
    }

    /// What begins with an identifier.
    fn begun(name: &Text) -> Draft<Q>
        ensures { TakesWord Draft.Empty (ident name.now) result }
    {
        if is_word(name, "not") {
            Draft::Not
        } else {
            Draft::Invalid
        }
    }

    /// A part, and an identifier after it.
    fn opened(alloc: Global, c: Condition<Q>, name: &Text) -> Result<Draft<Q>, NoMemory>
        ensures { IfOk result (λ d. TakesWord (Draft.Part c) (ident name.now) d) }
    {
        match Join::named(name) {
            Some(join) => {
                let mut parts = Seq::new(alloc);
                parts.push(c)?;
                Ok(Draft::Open(join, parts))
            }
            None => Ok(Draft::Invalid),
        }
    }

    /// Parts with a keyword between them, and an identifier after the last.
    fn reopened(join: Join, parts: Seq<Condition<Q>>, name: &Text) -> Draft<Q>
        ensures { TakesWord (Draft.Parts join parts) (ident name.now) result }
    {
        if Join::named(name) == Some(join) {
            Draft::Open(join, parts)
        } else {
            Draft::Invalid
        }
    }

    /// The condition that was read, if nothing comes after it.
    pub(crate) fn finish(self) -> Option<Condition<Q>>
        ensures { option_map condition_view result ≡ condition_after self [] }
    {
        match self {
            Draft::Whole(c) | Draft::Part(c) => Some(c),
            Draft::Parts(join, parts) => Some(join.condition(parts)),
            _ => None,
        }
    }
}
