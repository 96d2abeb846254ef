//! What rules and declarations ask of component values.
ghost use Rattle.css_model.specs.Components as components;
ghost use Rattle.css_tokens.specs.Nested.{component_view, components_view};
ghost use Rattle.rules_model.specs.ComponentLists as lists;
ghost use Rattle.rules_model.specs.Declarations as declarations;
ghost use Rattle.rules_model.specs.Rules as rules;
ghost use Rattle.std.specs.Option.{is_some};
ghost use Rattle.std.specs.Prelude.{◌≡◌, codes, option_and_then};
ghost use Rattle.std.specs.Str.{str_eq_ignore_ascii_case};

use css_model::{Bracket, Token, TokenType};
use css_tokens::{Component, Components};
use port_core::{Seq, Text};
use rules_model::ConditionalRule;
use std::alloc::Global;

pub(crate) fn is_whitespace(c: &Component) -> bool
    ensures { result ≡ lists.is_whitespace (component_view c.now) }
{
    match c {
        Component::One(token) => matches!(&token.token_type, TokenType::Whitespace),
        _ => false,
    }
}

pub(crate) fn is_colon(c: &Component) -> bool
    ensures { result ≡ lists.is_colon (component_view c.now) }
{
    match c {
        Component::One(token) => matches!(&token.token_type, TokenType::Colon),
        _ => false,
    }
}

pub(crate) fn is_semicolon(c: &Component) -> bool
    ensures { result ≡ lists.is_semicolon (component_view c.now) }
{
    match c {
        Component::One(token) => matches!(&token.token_type, TokenType::Semicolon),
        _ => false,
    }
}

pub(crate) fn is_at_keyword(c: &Component) -> bool
    ensures { result ≡ is_some (lists.at_keyword_of (component_view c.now)) }
{
    match c {
        Component::One(token) => matches!(&token.token_type, TokenType::AtKeyword(_)),
        _ => false,
    }
}

/// Whether this is `<!--` or `-->`.
pub(crate) fn is_cdo_or_cdc(c: &Component) -> bool
    ensures { result ≡ lists.is_token lists.is_cdo_or_cdc_type (component_view c.now) }
{
    match c {
        Component::One(token) => matches!(&token.token_type, TokenType::Cdo | TokenType::Cdc),
        _ => false,
    }
}

/// Whether this is a `{}` block.
pub(crate) fn is_curly_block(c: &Component) -> bool
    ensures { result ≡ lists.is_curly_block (component_view c.now) }
{
    match c {
        Component::Block(head, _, _) => is_curly(&head.token_type),
        _ => false,
    }
}

/// Whether this is `{`.
fn is_curly(token_type: &TokenType) -> bool
    ensures { result ≡ lists.is_curly_type token_type.now }
{
    match token_type {
        TokenType::Opening(bracket) => *bracket == Bracket::Curly,
        _ => false,
    }
}

/// Whether this is `!`.
pub(crate) fn is_exclamation(c: &Component) -> bool
    ensures { result ≡ lists.is_token declarations.is_exclamation_type (component_view c.now) }
{
    match c {
        Component::One(token) => is_exclamation_type(&token.token_type),
        _ => false,
    }
}

fn is_exclamation_type(token_type: &TokenType) -> bool
    ensures { result ≡ declarations.is_exclamation_type token_type.now }
{
    match token_type {
        TokenType::Delim(c) => *c == '!',
        _ => false,
    }
}

/// Whether this is `important`, in any case.
pub(crate) fn is_important(c: &Component) -> bool
    ensures { result ≡ lists.is_token declarations.is_important_type (component_view c.now) }
{
    match c {
        Component::One(token) => is_important_type(&token.token_type),
        _ => false,
    }
}

fn is_important_type(token_type: &TokenType) -> bool
    ensures { result ≡ declarations.is_important_type token_type.now }
{
    match token_type {
        TokenType::Ident(name) => is_important_name(name),
        _ => false,
    }
}

fn is_important_name(name: &Text) -> bool
    ensures { result ≡ declarations.is_important_type (TokenType.Ident name.now) }
{
    name.as_str().eq_ignore_ascii_case("important")
}

/// The at-rule whose block is kept, if this is its keyword.
pub(crate) fn conditional_rule(c: &Component) -> Option<ConditionalRule>
    ensures { result ≡ option_and_then rules.conditional_rule_of
        (lists.at_keyword_of (component_view c.now)) }
{
    match c {
        Component::One(token) => conditional_rule_of_type(&token.token_type),
        _ => None,
    }
}

fn conditional_rule_of_type(token_type: &TokenType) -> Option<ConditionalRule>
    ensures { result ≡ option_and_then rules.conditional_rule_of
        (lists.at_keyword_of_type token_type.now) }
{
    match token_type {
        TokenType::AtKeyword(name) => conditional_rule_of_name(name),
        _ => None,
    }
}

fn conditional_rule_of_name(name: &Text) -> Option<ConditionalRule>
    ensures { result ≡ rules.conditional_rule_of name.now }
{
    if is_media(name) {
        Some(ConditionalRule::Media)
    } else if is_container(name) {
        Some(ConditionalRule::Container)
    } else {
        None
    }
}

fn is_media(name: &Text) -> bool
    ensures { result ≡ str_eq_ignore_ascii_case name.now (codes "media") }
{
    name.as_str().eq_ignore_ascii_case("media")
}

fn is_container(name: &Text) -> bool
    ensures { result ≡ str_eq_ignore_ascii_case name.now (codes "container") }
{
    name.as_str().eq_ignore_ascii_case("container")
}

/// The name of an identifier.
pub(crate) fn into_ident(c: Component) -> Option<Text>
    ensures { result ≡ lists.ident_of (component_view c) }
{
    match c {
        Component::One(token) => {
            let Token { token_type, .. } = token;
            match token_type {
                TokenType::Ident(name) => Some(name),
                _ => None,
            }
        }
        _ => None,
    }
}

/// What is in a simple block.
pub(crate) fn into_contents(alloc: Global, c: Component) -> Components
    ensures { components_view result ≡ lists.contents_of (component_view c) }
{
    match c {
        Component::Block(_, contents, _) => contents,
        _ => Seq::new(alloc),
    }
}
