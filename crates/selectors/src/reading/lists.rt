//! Selector lists, read part by part (Selectors 4, sections 4.1, 15 and 18).
ghost use Rattle.selectors.specs.inner.Atoms.{part_view, atom_view};
ghost use Rattle.selectors.specs.inner.Drafts.{TakesInList, EndsMember, after_white, no_members, outcome_after, HasOutcome, selector_after};
ghost use Rattle.selectors.specs.Views.{selector_view, list_view};
ghost use Rattle.selectors_model.specs.Grammar.{white, comma, combinator};
ghost use Rattle.std.specs.Prelude.{◌≡◌, [], IfOk, OnOk, Some, None, map, option_map, if◌then◌else◌};

use super::atoms::{Atom, Part};
use super::complex::SelectorDraft;
use crate::selector::{Selector, SelectorList};
use port_core::{NoMemory, Seq};
use selectors_model::Combinator;
use std::alloc::Global;

/// What is just before: white space between two compound selectors is the descendant combinator
/// (Selectors 4, section 15.1).
#[derive(Clone, Copy, Debug, PartialEq, Eq)]
pub(crate) enum Gap {
    /// No compound selector.
    None,
    /// A compound selector.
    Compound,
    /// A compound selector, and white space after it.
    White,
}

impl Gap {
    /// White space is next.
    fn after_white(self) -> Gap
        ensures { result ≡ after_white self }
    {
        match self {
            Gap::None => Gap::None,
            Gap::Compound | Gap::White => Gap::White,
        }
    }
}

/// A selector list that is being read.
#[derive(Drop)]
pub(crate) struct ListDraft {
    /// Its valid members so far.
    members: Seq<Selector>,
    /// Whether there was no other member.
    are_valid: bool,
    /// What is just before.
    gap: Gap,
    /// The member that is being read.
    selector: SelectorDraft,
}

impl ListDraft {
    /// Nothing was read. In a function no member may have a pseudo-element.
    pub(crate) fn new(alloc: Global, in_function: bool) -> ListDraft
        ensures { result ≡ no_members in_function }
    {
        ListDraft {
            members: Seq::new(alloc),
            are_valid: true,
            gap: Gap::None,
            selector: SelectorDraft::new(alloc, in_function),
        }
    }

    /// Takes what is next.
    pub(crate) fn take(&mut self, alloc: Global, atom: Atom<'_>) -> Result<(), NoMemory>
        ensures { OnOk result (TakesInList self.old (atom_view atom.entry) self.new) }
    {
        match atom {
            Atom::White => {
                self.take_white();
                Ok(())
            }
            Atom::Comma => self.take_comma(alloc),
            Atom::Combinator(by) => self.take_combinator(alloc, by),
            Atom::Part(part) => self.take_part(alloc, part),
        }
    }

    fn take_white(&mut self)
        ensures { TakesInList self.old white self.new }
    {
        self.gap = self.gap.after_white();
    }

    fn take_comma(&mut self, alloc: Global) -> Result<(), NoMemory>
        ensures { OnOk result (TakesInList self.old comma self.new) }
    {
        self.end_member(alloc)?;
        self.gap = Gap::None;
        Ok(())
    }

    fn take_combinator(&mut self, alloc: Global, by: Combinator) -> Result<(), NoMemory>
        ensures { OnOk result (TakesInList self.old (combinator by) self.new) }
    {
        self.gap = Gap::None;
        self.selector.take_combinator(alloc, by)
    }

    fn take_part(&mut self, alloc: Global, part: Part<'_>) -> Result<(), NoMemory>
        ensures { OnOk result (TakesInList self.old (part_view part.entry) self.new) }
    {
        let is_descendant = self.gap == Gap::White;
        self.gap = Gap::Compound;
        if is_descendant {
            self.selector
                .take_combinator(alloc, Combinator::Descendant)?;
            return self.selector.take_part(alloc, part);
        }
        self.selector.take_part(alloc, part)
    }

    /// Ends the member, and begins the next.
    fn end_member(&mut self, alloc: Global) -> Result<(), NoMemory>
        ensures { OnOk result (EndsMember self.old self.new) }
    {
        match self.selector.end(alloc)? {
            Some(selector) => self.members.push(selector),
            None => {
                self.are_valid = false;
                Ok(())
            }
        }
    }

    /// Ends the list.
    pub(crate) fn finish(mut self, alloc: Global) -> Result<Members, NoMemory>
        ensures { IfOk result (λ read. HasOutcome read (outcome_after self [])) }
    {
        self.end_member(alloc)?;
        let ListDraft {
            members,
            are_valid,
            ..
        } = self;
        Ok(Members {
            list: SelectorList { members },
            are_valid,
        })
    }
}

/// What was read of a selector list.
#[derive(Drop)]
pub(crate) struct Members {
    /// The members that are valid: what a forgiving selector list is.
    pub(crate) list: SelectorList,
    /// Whether all members are.
    pub(crate) are_valid: bool,
}

impl Members {
    /// The list of all members, if all are valid.
    pub(crate) fn all(self) -> Option<SelectorList>
        ensures { option_map list_view result
            ≡ if self.are_valid then Some (list_view self.list) else None }
    {
        if self.are_valid {
            Some(self.list)
        } else {
            None
        }
    }
}
