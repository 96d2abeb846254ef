//! Lists of declarations, in style blocks and `style` attributes (CSS Syntax 3, sections 5.3.8 and
//! 5.4.4 to 5.4.6).
ghost use Rattle.css_rules.specs.Views.{declaration_view, declarations_view};
ghost use Rattle.css_rules.specs.inner.Reading.{left_of, after, count};
ghost use Rattle.css_model.specs.Components as components;
ghost use Rattle.css_tokens.specs.Nested.{component_view, components_view};
ghost use Rattle.rules_model.specs.ComponentLists.{before, is_semicolon};
ghost use Rattle.rules_model.specs.Declarations as defined;
ghost use Rattle.rules_model.specs.Sheets.{style_attr_of};
ghost use Rattle.std.specs.Prelude.{◌≡◌, ◌≤◌, ◌++◌, IfOk, OnOk, Some, option_map};
ghost use Rattle.std.specs.Str.{chars};

use crate::ahead::{Ahead, End};
use crate::classes::{into_ident, is_at_keyword, is_semicolon, is_whitespace};
use crate::declaration::{Declaration, Declarations};
use crate::important::take_important;
use crate::lists::trim_end;
use crate::text_components::components_of;
use css_tokens::{Component, Components, TokenFault};
use port_core::{NoMemory, Seq, Text};
use std::alloc::Global;

/// The declarations of a `style` attribute, in their order (CSS Syntax 3, section 5.3.8).
///
/// One whose brackets nest deeper than `MAX_NESTING` has none.
/// Time and memory grow with the length of the text.
pub fn parse_style_attr(alloc: Global, text: &str) -> Result<Declarations, NoMemory>
    ensures { IfOk result (λ ds. declarations_view ds ≡ style_attr_of (chars text.now)) }
{
    match components_of(alloc, text) {
        Ok(components) => declarations_in(alloc, components),
        Err(TokenFault::TooDeep) => Ok(Seq::new(alloc)),
        Err(TokenFault::NoMemory) => Err(NoMemory),
    }
}

/// The declarations of a list of them and of at-rules, in their order.
pub(crate) fn declarations_in(alloc: Global, contents: Components) -> Result<Declarations, NoMemory>
    ensures { IfOk result (λ ds. declarations_view ds
        ≡ defined.declarations_of (components_view contents)) }
{
    let mut ahead = Ahead::new(alloc, contents)?;
    let mut declarations = Seq::new(alloc);
    while let Some(c) = ahead.next() {
        take_item(alloc, c, &mut ahead, &mut declarations)?;
    }
    Ok(declarations)
}

/// Takes what begins with `first`, and keeps it if it is a declaration.
fn take_item(
    alloc: Global,
    first: Component,
    ahead: &mut Ahead,
    declarations: &mut Declarations,
) -> Result<(), NoMemory>
    ensures less { OnOk result (count (left_of ahead.new) ≤ count (left_of ahead.old)) }
    ensures taken { OnOk result (declarations_view declarations.new
        ++ defined.declarations_of (left_of ahead.new)
        ≡ declarations_view declarations.old
        ++ defined.declarations_of (components.component (component_view first)
        (left_of ahead.old))) }
{
    if is_whitespace(&first) || is_semicolon(&first) {
        return Ok(());
    }
    if is_at_keyword(&first) {
        ahead.skip(End::AtRule);
        return Ok(());
    }
    match take_declaration(alloc, first, ahead)? {
        Some(declaration) => declarations.push(declaration),
        None => Ok(()),
    }
}

/// Takes all up to the next `;`, and returns the declaration that it is with `first` in front.
fn take_declaration(
    alloc: Global,
    first: Component,
    ahead: &mut Ahead,
) -> Result<Option<Declaration>, NoMemory>
    ensures declaration { IfOk result (λ d. option_map declaration_view d ≡ defined.declaration_of
        (components.component (component_view first) (before is_semicolon (left_of ahead.old)))) }
    ensures left { OnOk result (left_of ahead.new ≡ after is_semicolon (left_of ahead.old)) }
{
    let name = into_ident(first);
    let has_colon = ahead.skip_colon();
    match name {
        Some(name) if has_colon => Ok(Some(take_value(alloc, name, ahead)?)),
        _ => {
            ahead.skip(End::Semicolon);
            Ok(None)
        }
    }
}

/// Takes all up to the next `;` as the value of a declaration.
fn take_value(alloc: Global, name: Text, ahead: &mut Ahead) -> Result<Declaration, NoMemory>
    ensures declaration { IfOk result (λ d. Some (declaration_view d)
        ≡ defined.declaration_from (Some name) (Some (before is_semicolon (left_of ahead.old)))) }
    ensures left { OnOk result (left_of ahead.new ≡ after is_semicolon (left_of ahead.old)) }
{
    ahead.skip_whitespace();
    let mut value = Seq::new(alloc);
    ahead.gather(&mut value, End::Semicolon)?;
    let important = take_important(&mut value);
    trim_end(&mut value);
    Ok(Declaration {
        name,
        value,
        important,
    })
}
