//! Which rules and `style` attributes have forms that are not built yet.
ghost use Rattle.css_model.specs.Components.{all_tokens_of, close_tokens, tokens_of};
ghost use Rattle.css_rules.specs.Views.{condition_lists, conditions_at, declaration_view, declarations_view, rule_view, sheet_view};
ghost use Rattle.css_tokens.specs.Nested.{component_view, components_view};
ghost use Rattle.request_model.specs.UnbuiltStyles as model;
ghost use Rattle.rules_model.specs.Sheets.{style_attr_of};
ghost use Rattle.std.specs.List.{list_any};
ghost use Rattle.std.specs.Prelude.{◌≡◌, IfOk, map};
ghost use Rattle.std.specs.Str.{chars, str_eq_ignore_ascii_case};

use css_model::{Token, TokenType};
use css_rules::{Component, Condition, Declaration, Sheet, StyleRule, parse_style_attr};
use css_tokens::is_word;
use port_core::{NoMemory, Text};
use rules_model::ConditionalRule;
use std::alloc::Global;

/// Returns whether a rule of a sheet stands in `@container`, or has a declaration that is not built.
#[tactic(auto, using(crate::proofs::IsUnbuilt::any_sheet))]
pub fn any_unbuilt_rule(sheets: &[Sheet]) -> bool
    ensures { result ≡ list_any (list_any model.is_unbuilt_rule) (map sheet_view sheets.now) }
{
    for sheet in sheets {
        if has_unbuilt_rule(sheet) {
            return true;
        }
    }
    false
}

fn has_unbuilt_rule(sheet: &Sheet) -> bool
    ensures { result ≡ list_any model.is_unbuilt_rule (sheet_view sheet.now) }
{
    any_of_rules(sheet.rules.as_slice(), sheet.conditions.as_slice())
}

/// Returns whether one of the rules is such, in a sheet with these conditions.
#[tactic(auto, using(crate::proofs::IsUnbuilt::any_rule))]
fn any_of_rules(rules: &[StyleRule], conditions: &[Condition]) -> bool
    ensures { result ≡ list_any model.is_unbuilt_rule
        (map (rule_view (condition_lists conditions.now)) rules.now) }
{
    for rule in rules {
        if is_unbuilt_rule(rule, conditions) {
            return true;
        }
    }
    false
}

fn is_unbuilt_rule(rule: &StyleRule, conditions: &[Condition]) -> bool
    ensures { result ≡ model.is_unbuilt_rule (rule_view (condition_lists conditions.now) rule.now) }
{
    is_in_container(rule.around, conditions) || has_unbuilt(rule.declarations.as_slice())
}

/// Returns whether one of the conditions from that in `place` outwards is that of a container. Each
/// stands before those in it.
fn is_in_container(place: Option<usize>, conditions: &[Condition]) -> bool
    ensures { result ≡ model.any_container (conditions_at (condition_lists conditions.now) place) }
{
    let mut within = conditions.len();
    let mut next = place;
    while let Some(place) = next {
        if place >= within {
            return false;
        }
        let condition = &conditions[place];
        if is_container(condition.at_rule) {
            return true;
        }
        within = place;
        next = condition.around;
    }
    false
}

fn is_container(at_rule: ConditionalRule) -> bool
    ensures { result ≡ model.is_container at_rule }
{
    match at_rule {
        ConditionalRule::Media => false,
        ConditionalRule::Container => true,
    }
}

/// Returns whether the text of a `style` attribute has a declaration that is not built.
pub fn is_unbuilt_attribute(alloc: Global, text: &str) -> Result<bool, NoMemory>
    ensures { IfOk result (λ unbuilt. unbuilt ≡ model.has_unbuilt (style_attr_of (chars text.now))) }
{
    let declarations = parse_style_attr(alloc, text)?;
    Ok(has_unbuilt(declarations.as_slice()))
}

#[tactic(auto, using(crate::proofs::IsUnbuilt::any_declared))]
fn has_unbuilt(declarations: &[Declaration]) -> bool
    ensures { result ≡ model.has_unbuilt (declarations_view declarations.now) }
{
    for declaration in declarations {
        if is_unbuilt_declaration(declaration) {
            return true;
        }
    }
    false
}

fn is_unbuilt_declaration(declaration: &Declaration) -> bool
    ensures { result ≡ model.is_unbuilt_declaration (declaration_view declaration.now) }
{
    any_unbuilt(declaration.value.as_slice())
}

/// Returns whether one of the tokens of component values is not built. The calls are as deep as
/// brackets nest.
#[cycle(components)]
#[tactic(auto, using(crate::proofs::IsUnbuilt::any_next))]
fn any_unbuilt(components: &[Component]) -> bool
    ensures { result ≡ list_any model.is_unbuilt_token (all_tokens_of (components_view components.now)) }
{
    for component in components {
        if is_unbuilt(component) {
            return true;
        }
    }
    false
}

#[cycle(components)]
#[tactic(auto, using(crate::proofs::IsUnbuilt::any_joined))]
fn is_unbuilt(component: &Component) -> bool
    ensures { result ≡ list_any model.is_unbuilt_token (tokens_of (component_view component.now)) }
{
    match component {
        Component::One(token) => is_unbuilt_token(token),
        Component::Block(head, contents, close) | Component::Function(head, contents, close) => {
            is_unbuilt_token(head) || any_unbuilt(contents.as_slice()) || is_unbuilt_close(close)
        }
    }
}

fn is_unbuilt_close(close: &Option<Token>) -> bool
    ensures { result ≡ list_any model.is_unbuilt_token (close_tokens close.now) }
{
    match close {
        Some(token) => is_unbuilt_token(token),
        None => false,
    }
}

fn is_unbuilt_token(token: &Token) -> bool
    ensures { result ≡ model.is_unbuilt_token token.now }
{
    match &token.token_type {
        TokenType::Dimension(_, name) => is_unbuilt_unit(name),
        _ => false,
    }
}

fn is_unbuilt_unit(name: &Text) -> bool
    ensures { result ≡ list_any (str_eq_ignore_ascii_case name.now) model.unbuilt_units }
{
    is_word(name, "cqw")
        || is_word(name, "cqh")
        || is_word(name, "cqi")
        || is_word(name, "cqb")
        || is_word(name, "cqmin")
        || is_word(name, "cqmax")
}
