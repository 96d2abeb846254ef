//! Component values that are read from the front, one after another.
ghost use Rattle.css_model.specs.inner.Nesting.{followed};
ghost use Rattle.css_rules.specs.inner.Reading.{left_of, begins_with, ends, after, end_of, IsNext, Passes};
ghost use Rattle.css_tokens.specs.Nested.{component_view, components_view};
ghost use Rattle.rules_model.specs.ComponentLists as lists;
ghost use Rattle.rules_model.specs.ComponentLists.{before, without_front_whitespace};
ghost use Rattle.rules_model.specs.Declarations as declarations;
ghost use Rattle.std.specs.Prelude.{◌≡◌, [], IfOk, OnOk, Some, None, option_map, if◌then◌else◌};

use crate::classes::{is_colon, is_curly_block, is_semicolon, is_whitespace};
use css_tokens::{Component, Components};
use port_core::{NoMemory, Seq};
use std::alloc::Global;

/// Where a part of a list of component values ends.
#[derive(Clone, Copy, Debug)]
pub(crate) enum End {
    /// At `;`.
    Semicolon,
    /// At a `{}` block.
    Block,
    /// At either, as an at-rule does.
    AtRule,
}

impl End {
    /// Whether the part ends at `c`.
    fn is(self, c: &Component) -> bool
        ensures { result ≡ ends self (component_view c.now) }
    {
        match self {
            End::Semicolon => is_semicolon(c),
            End::Block => is_curly_block(c),
            End::AtRule => is_semicolon(c) || is_curly_block(c),
        }
    }
}

/// Returns an empty list with room for `count` component values.
fn with_room(alloc: Global, count: usize) -> Result<Components, NoMemory>
    ensures { IfOk result (λ cs. cs ≡ []) }
{
    Ok(Seq::from_vec(Vec::with_capacity(alloc, count)?))
}

/// Component values that are not read yet.
#[derive(Drop)]
pub(crate) struct Ahead {
    /// The next one is the last.
    stack: Seq<Component>,
}

impl Ahead {
    /// All these are ahead.
    pub(crate) fn new(alloc: Global, components: Components) -> Result<Ahead, NoMemory>
        ensures { IfOk result (λ ahead. left_of ahead ≡ components_view components) }
    {
        let mut components = components;
        let mut stack = with_room(alloc, components.len())?;
        while let Some(last) = components.pop() {
            stack.push(last)?;
        }
        Ok(Ahead { stack })
    }

    /// Takes the next one.
    pub(crate) fn next(&mut self) -> Option<Component>
        ensures { IsNext result (left_of self.old) (left_of self.new) }
    {
        self.stack.pop()
    }

    /// Drops the next one.
    fn pass(&mut self)
        ensures { Passes (left_of self.old) (left_of self.new) }
    {
        let _ = self.stack.pop();
    }

    /// Whether the next one is white space.
    fn is_at_whitespace(&self) -> bool
        ensures { result ≡ begins_with lists.is_whitespace (left_of self.now) }
    {
        match self.stack.as_slice() {
            [.., next] => is_whitespace(next),
            [] => false,
        }
    }

    /// Whether the next one is `:`.
    fn is_at_colon(&self) -> bool
        ensures { result ≡ begins_with lists.is_colon (left_of self.now) }
    {
        match self.stack.as_slice() {
            [.., next] => is_colon(next),
            [] => false,
        }
    }

    /// Passes over white space.
    pub(crate) fn skip_whitespace(&mut self)
        ensures { left_of self.new ≡ without_front_whitespace (left_of self.old) }
    {
        while self.is_at_whitespace() {
            self.pass();
        }
    }

    /// Passes over white space and then a `:`, and returns whether there was one.
    pub(crate) fn skip_colon(&mut self) -> bool
        ensures colon { declarations.after_colon (before lists.is_semicolon (left_of self.old))
            ≡ if result then Some (before lists.is_semicolon (left_of self.new)) else None }
        ensures left { after lists.is_semicolon (left_of self.new)
            ≡ after lists.is_semicolon (left_of self.old) }
    {
        self.skip_whitespace();
        if self.is_at_colon() {
            self.pass();
            true
        } else {
            false
        }
    }

    /// Passes over all up to an end, and over it.
    pub(crate) fn skip(&mut self, end: End)
        ensures { left_of self.new ≡ after (ends end) (left_of self.old) }
    {
        while let Some(c) = self.next() {
            if end.is(&c) {
                return;
            }
        }
    }

    /// Moves all up to an end behind `part`, and returns the end, if there is one.
    pub(crate) fn gather(
        &mut self,
        part: &mut Components,
        end: End,
    ) -> Result<Option<Component>, NoMemory>
        ensures part { OnOk result (components_view part.new
            ≡ followed (components_view part.old) (before (ends end) (left_of self.old))) }
        ensures left { OnOk result (left_of self.new ≡ after (ends end) (left_of self.old)) }
        ensures end { IfOk result (λ c. option_map component_view c
            ≡ end_of (ends end) (left_of self.old)) }
    {
        while let Some(c) = self.next() {
            if end.is(&c) {
                return Ok(Some(c));
            }
            part.push(c)?;
        }
        Ok(None)
    }
}
