//! Compound selectors, read part by part (Selectors 4, sections 3.1 and 18).
ghost use Rattle.selectors.specs.inner.Atoms.{part_view};
ghost use Rattle.selectors.specs.inner.Drafts.{IsStep, EndsSimple, EndsCompound, TakesPart, Adds, rest_of, compound_after};
ghost use Rattle.selectors.specs.Views.{simple_view, compound_view};
ghost use Rattle.selectors_model.specs.Grammar.{word, is_pseudo_element_selector};
ghost use Rattle.selectors_model.specs.Selectors.{no_simples};
ghost use Rattle.std.specs.Prelude.{◌≡◌, ◌&&◌, [], IfOk, OnOk, Some, None, option_map, Bool, if◌then◌else◌};

use super::atoms::Part;
use super::pseudo_names::{
    is_one_colon_pseudo_element, is_pseudo_element, is_webkit_pseudo_element, pseudo_class_of,
};
use crate::selector::{Compound, Simple};
use port_core::{NoMemory, Seq, Text};
use std::alloc::Global;
use std::mem;

/// What may be next in a compound selector.
#[derive(Clone, Copy, Debug, PartialEq, Eq)]
pub(crate) enum Next {
    /// The first part.
    Any,
    /// A part after the first one.
    Subclass,
    /// A name after `.`.
    ClassName,
    /// A name, a function or a second colon after `:`.
    Pseudo,
    /// A name or a function after `::`.
    PseudoElement,
    /// Nothing: a pseudo-element is the last part.
    Nothing,
    /// It is no compound selector.
    Invalid,
}

/// What a part adds to a compound selector, and what may be next.
#[derive(Drop)]
pub(crate) struct Step {
    /// The simple selector that ends with the part, if one does.
    simple: Option<Simple>,
    /// What may be next.
    next: Next,
}

impl Step {
    /// The part ends a simple selector.
    fn ends(simple: Simple, next: Next) -> Step
        ensures { result ≡ record { simple = Some simple; next = next } }
    {
        Step {
            simple: Some(simple),
            next,
        }
    }

    /// The part ends none.
    fn to(next: Next) -> Step
        ensures { result ≡ record { simple = None; next = next } }
    {
        Step { simple: None, next }
    }
}

/// The first part.
fn any_step(alloc: Global, part: Part<'_>) -> Result<Step, NoMemory>
    ensures { IfOk result (λ s. IsStep Next.Any (part_view part.entry) s) }
{
    match part {
        Part::Word(name) => Ok(Step::ends(Simple::Type(name.copy(alloc)?), Next::Subclass)),
        Part::Star => Ok(Step::ends(Simple::Universal, Next::Subclass)),
        Part::Whole(simple) => Ok(Step::ends(simple, Next::Subclass)),
        Part::Dot => Ok(Step::to(Next::ClassName)),
        Part::Colon => Ok(Step::to(Next::Pseudo)),
        Part::Function(_, _) | Part::Other => Ok(Step::to(Next::Invalid)),
    }
}

/// A part after the first one.
fn subclass_step(part: Part<'_>) -> Step
    ensures { IsStep Next.Subclass (part_view part.entry) result }
{
    match part {
        Part::Whole(simple) => Step::ends(simple, Next::Subclass),
        Part::Dot => Step::to(Next::ClassName),
        Part::Colon => Step::to(Next::Pseudo),
        Part::Star | Part::Word(_) | Part::Function(_, _) | Part::Other => Step::to(Next::Invalid),
    }
}

/// What is after `.`.
fn class_step(alloc: Global, part: Part<'_>) -> Result<Step, NoMemory>
    ensures { IfOk result (λ s. IsStep Next.ClassName (part_view part.entry) s) }
{
    match part {
        Part::Word(name) => Ok(Step::ends(Simple::Class(name.copy(alloc)?), Next::Subclass)),
        _ => Ok(Step::to(Next::Invalid)),
    }
}

/// What is after `:`.
fn pseudo_step(part: Part<'_>) -> Step
    ensures { IsStep Next.Pseudo (part_view part.entry) result }
{
    match part {
        Part::Word(name) => pseudo_word_step(name),
        Part::Function(_, simple) => pseudo_class_step(simple),
        Part::Colon => Step::to(Next::PseudoElement),
        _ => Step::to(Next::Invalid),
    }
}

/// A pseudo-class, or a pseudo-element that may stand after one colon.
fn pseudo_word_step(name: &Text) -> Step
    ensures { IsStep Next.Pseudo (word name.now) result }
{
    if is_one_colon_pseudo_element(name) {
        return Step::ends(Simple::PseudoElement, Next::Nothing);
    }
    match pseudo_class_of(name) {
        Some(class) => Step::ends(Simple::PseudoClass(class), Next::Subclass),
        None => Step::to(Next::Invalid),
    }
}

/// A pseudo-class, if the function is one.
fn pseudo_class_step(simple: Option<Simple>) -> Step
    ensures { EndsSimple (option_map simple_view simple) result }
{
    match simple {
        Some(simple) => Step::ends(simple, Next::Subclass),
        None => Step::to(Next::Invalid),
    }
}

/// What is after `::`.
fn pseudo_element_step(part: &Part<'_>) -> Step
    ensures { IsStep Next.PseudoElement (part_view part.now) result }
{
    match part {
        Part::Word(name) => last_step(is_pseudo_element(name)),
        Part::Function(name, _) => last_step(is_webkit_pseudo_element(name)),
        _ => Step::to(Next::Invalid),
    }
}

/// A pseudo-element, if it is known.
fn last_step(is_known: bool) -> Step
    ensures { EndsCompound is_known result }
{
    if is_known {
        Step::ends(Simple::PseudoElement, Next::Nothing)
    } else {
        Step::to(Next::Invalid)
    }
}

/// What the part adds, where `next` says what it may be.
fn next_step(alloc: Global, next: Next, part: Part<'_>) -> Result<Step, NoMemory>
    ensures { IfOk result (λ s. IsStep next (part_view part.entry) s) }
{
    match next {
        Next::Any => any_step(alloc, part),
        Next::Subclass => Ok(subclass_step(part)),
        Next::ClassName => class_step(alloc, part),
        Next::Pseudo => Ok(pseudo_step(part)),
        Next::PseudoElement => Ok(pseudo_element_step(&part)),
        Next::Nothing | Next::Invalid => Ok(Step::to(Next::Invalid)),
    }
}

/// Whether nothing need be next.
fn is_complete(next: Next) -> bool
    ensures { rest_of next [] ≡ if result then Some no_simples else None }
{
    matches!(next, Next::Subclass | Next::Nothing)
}

/// Whether the simple selector may not stand there: in a function no pseudo-element may.
fn is_forbidden(simple: &Simple, in_function: bool) -> bool
    ensures { result ≡ (is_pseudo_element_selector (simple_view simple.now) && in_function) }
{
    match simple {
        Simple::PseudoElement => in_function,
        _ => false,
    }
}

/// A compound selector that is being read.
#[derive(Drop)]
pub(crate) struct CompoundDraft {
    /// The simple selectors so far.
    simples: Seq<Simple>,
    /// What may be next.
    next: Next,
}

impl CompoundDraft {
    /// Nothing was read.
    pub(crate) fn new(alloc: Global) -> CompoundDraft
        ensures { result ≡ record { simples = []; next = Next.Any } }
    {
        CompoundDraft {
            simples: Seq::new(alloc),
            next: Next::Any,
        }
    }

    /// Takes a part. In a function a pseudo-element makes it invalid.
    pub(crate) fn take(
        &mut self,
        alloc: Global,
        part: Part<'_>,
        in_function: bool,
    ) -> Result<(), NoMemory>
        ensures { OnOk result (TakesPart in_function self.old (part_view part.entry) self.new) }
    {
        let Step { simple, next } = next_step(alloc, self.next, part)?;
        match simple {
            Some(simple) => self.add(simple, next, in_function),
            None => {
                self.next = next;
                Ok(())
            }
        }
    }

    /// Adds a simple selector.
    fn add(&mut self, simple: Simple, next: Next, in_function: bool) -> Result<(), NoMemory>
        ensures { OnOk result (Adds in_function self.old (simple_view simple) next self.new) }
    {
        if is_forbidden(&simple, in_function) {
            self.next = Next::Invalid;
            return Ok(());
        }
        self.next = next;
        self.simples.push(simple)
    }

    /// Ends the compound selector, if it is one, and begins the next.
    pub(crate) fn end(&mut self, alloc: Global) -> Option<Compound>
        ensures compound { (in_function : Bool) →
            option_map compound_view result ≡ compound_after in_function self.old [] }
        ensures new { self.new ≡ record { simples = []; next = Next.Any } }
    {
        let CompoundDraft { simples, next } = mem::replace(self, CompoundDraft::new(alloc));
        if is_complete(next) {
            Some(simples)
        } else {
            None
        }
    }
}
