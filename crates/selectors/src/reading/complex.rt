//! Complex selectors, read part by part (Selectors 4, sections 15 and 18).
ghost use Rattle.selectors.specs.inner.Atoms.{part_view};
ghost use Rattle.selectors.specs.inner.Drafts.{TakesAtom, IsLeft, begun, selector_after, no_selector};
ghost use Rattle.selectors.specs.Views.{selector_view, compound_view};
ghost use Rattle.selectors_model.specs.Grammar.{combinator};
ghost use Rattle.selectors_model.specs.Selectors.{compound, combined};
ghost use Rattle.std.specs.Prelude.{◌≡◌, [], IfOk, OnOk, Some, option_map};

use super::atoms::Part;
use super::compounds::CompoundDraft;
use crate::selector::{Compound, Link, Selector};
use port_core::{NoMemory, Seq};
use selectors_model::Combinator;
use std::alloc::Global;
use std::mem;

/// What is on the left of a compound selector.
#[derive(Drop)]
pub(crate) enum Left {
    /// It is the first.
    Nothing,
    /// A selector and a combinator.
    Selector(Selector, Combinator),
    /// What is no selector.
    Invalid,
}

/// What is on the left, and the compound selector.
fn joined(alloc: Global, left: Left, compound: Compound) -> Result<Option<Selector>, NoMemory>
    ensures { IfOk result (λ s.
        option_map selector_view s ≡ begun left (Some (compound_view compound))) }
{
    match left {
        Left::Nothing => Ok(Some(first_selector(alloc, compound))),
        Left::Selector(selector, combinator) => {
            Ok(Some(followed_by(selector, combinator, compound)?))
        }
        Left::Invalid => Ok(None),
    }
}

/// The compound alone.
fn first_selector(alloc: Global, first: Compound) -> Selector
    ensures { selector_view result ≡ compound (compound_view first) }
{
    Selector {
        first,
        links: Seq::new(alloc),
    }
}

/// One more combinator and compound on the right.
fn followed_by(
    selector: Selector,
    combinator: Combinator,
    compound: Compound,
) -> Result<Selector, NoMemory>
    ensures { IfOk result (λ s.
        selector_view s ≡ combined (selector_view selector) combinator (compound_view compound)) }
{
    let Selector { first, mut links } = selector;
    links.push(Link {
        combinator,
        compound,
    })?;
    Ok(Selector { first, links })
}

/// What is on the left of the compound after this combinator.
fn left_of(selector: Option<Selector>, by: Combinator) -> Left
    ensures { IsLeft (option_map selector_view selector) by result }
{
    match selector {
        Some(selector) => Left::Selector(selector, by),
        None => Left::Invalid,
    }
}

/// A complex selector that is being read.
#[derive(Drop)]
pub(crate) struct SelectorDraft {
    /// Whether it stands in a function, where no pseudo-element may.
    in_function: bool,
    /// What is on the left of the compound selector.
    left: Left,
    /// The last compound selector so far.
    compound: CompoundDraft,
}

impl SelectorDraft {
    /// Nothing was read.
    pub(crate) fn new(alloc: Global, in_function: bool) -> SelectorDraft
        ensures { result ≡ no_selector in_function }
    {
        SelectorDraft {
            in_function,
            left: Left::Nothing,
            compound: CompoundDraft::new(alloc),
        }
    }

    /// Takes a part of a compound selector.
    pub(crate) fn take_part(&mut self, alloc: Global, part: Part<'_>) -> Result<(), NoMemory>
        ensures { OnOk result (TakesAtom self.old (part_view part.entry) self.new) }
    {
        self.compound.take(alloc, part, self.in_function)
    }

    /// Takes a combinator.
    pub(crate) fn take_combinator(&mut self, alloc: Global, by: Combinator) -> Result<(), NoMemory>
        ensures { OnOk result (TakesAtom self.old (combinator by) self.new) }
    {
        let selector = self.end(alloc)?;
        self.left = left_of(selector, by);
        Ok(())
    }

    /// Ends the selector, if it is one, and begins the next.
    pub(crate) fn end(&mut self, alloc: Global) -> Result<Option<Selector>, NoMemory>
        ensures selector { IfOk result (λ s.
            option_map selector_view s ≡ selector_after self.old []) }
        ensures new { OnOk result (self.new ≡ no_selector self.old.in_function) }
    {
        let left = mem::replace(&mut self.left, Left::Nothing);
        match self.compound.end(alloc) {
            Some(compound) => joined(alloc, left, compound),
            None => Ok(None),
        }
    }
}
