//! Whether two environments are the same.
ghost use Rattle.css_model.specs.Components.{function_block, preserved, simple_block};
ghost use Rattle.css_tokens.specs.Nested.{component_view, components_view};
ghost use Rattle.custom_props.specs.EnvView.{env_view};
ghost use Rattle.custom_props.specs.Views.{value_view, values_view};
ghost use Rattle.std.specs.Prelude.{◌≡◌, ◌↔◌, IsTrue, map};

use crate::env::Env;
use crate::named_value::NamedValue;
use crate::token_kind::is_same_type;
use css_tokens::{Component, Token};

impl Env {
    /// Returns whether both have the same names with the same values.
    pub fn same(&self, other: &Env) -> bool
        ensures { IsTrue result ↔ (env_view self.now ≡ env_view other.now) }
    {
        are_same_values(self.values.as_slice(), other.values.as_slice())
    }
}

fn are_same_values(a: &[NamedValue], b: &[NamedValue]) -> bool
    ensures { IsTrue result ↔ (values_view a.now ≡ values_view b.now) }
{
    if a.len() != b.len() {
        return false;
    }
    for place in 0..a.len() {
        if !is_same_value(&a[place], &b[place]) {
            return false;
        }
    }
    true
}

fn is_same_value(a: &NamedValue, b: &NamedValue) -> bool
    ensures { IsTrue result ↔ (value_view a.now ≡ value_view b.now) }
{
    a.name.same(&b.name) && are_same(a.value.as_slice(), b.value.as_slice())
}

#[cycle(sameness)]
fn are_same(a: &[Component], b: &[Component]) -> bool
    ensures { IsTrue result ↔ (map component_view a.now ≡ map component_view b.now) }
{
    if a.len() != b.len() {
        return false;
    }
    for place in 0..a.len() {
        if !is_same(&a[place], &b[place]) {
            return false;
        }
    }
    true
}

#[cycle(sameness)]
fn is_same(a: &Component, b: &Component) -> bool
    ensures { IsTrue result ↔ (component_view a.now ≡ component_view b.now) }
{
    match a {
        Component::One(token) => is_one(token, b),
        Component::Block(head, contents, close) => is_block(head, contents.as_slice(), close, b),
        Component::Function(head, contents, close) => {
            is_function(head, contents.as_slice(), close, b)
        }
    }
}

/// Whether a component value is this token.
fn is_one(token: &Token, b: &Component) -> bool
    ensures { IsTrue result ↔ (preserved token.now ≡ component_view b.now) }
{
    match b {
        Component::One(other) => is_same_token(token, other),
        _ => false,
    }
}

/// Whether a component value is a simple block of these.
#[cycle(sameness)]
fn is_block(head: &Token, contents: &[Component], close: &Option<Token>, b: &Component) -> bool
    ensures { IsTrue result
        ↔ (simple_block head.now (components_view contents.now) close.now ≡ component_view b.now) }
{
    match b {
        Component::Block(other_head, other_contents, other_close) => {
            is_same_pair(head, close, other_head, other_close)
                && are_same(contents, other_contents.as_slice())
        }
        _ => false,
    }
}

/// Whether a component value is a function of these.
#[cycle(sameness)]
fn is_function(head: &Token, contents: &[Component], close: &Option<Token>, b: &Component) -> bool
    ensures { IsTrue result
        ↔ (function_block head.now (components_view contents.now) close.now ≡ component_view b.now) }
{
    match b {
        Component::Function(other_head, other_contents, other_close) => {
            is_same_pair(head, close, other_head, other_close)
                && are_same(contents, other_contents.as_slice())
        }
        _ => false,
    }
}

/// Whether both brackets are the same.
fn is_same_pair(
    head: &Token,
    close: &Option<Token>,
    other_head: &Token,
    other_close: &Option<Token>,
) -> bool
    ensures { IsTrue result ↔ ((head.now ≡ other_head.now) × (close.now ≡ other_close.now)) }
{
    is_same_token(head, other_head) && is_same_close(close, other_close)
}

fn is_same_close(a: &Option<Token>, b: &Option<Token>) -> bool
    ensures { IsTrue result ↔ (a.now ≡ b.now) }
{
    match (a, b) {
        (Some(a), Some(b)) => is_same_token(a, b),
        (None, None) => true,
        _ => false,
    }
}

fn is_same_token(a: &Token, b: &Token) -> bool
    ensures { IsTrue result ↔ (a.now ≡ b.now) }
{
    a.start == b.start
        && a.end == b.end
        && is_same_type(&a.token_type, &b.token_type)
        && a.spelling.same(&b.spelling)
}
