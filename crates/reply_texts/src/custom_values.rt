//! Values of custom properties: the spellings of their tokens, with one space between each two.
ghost use Rattle.css_model.specs.Components.{close_tokens};
ghost use Rattle.css_tokens.specs.Nested.{components_view};
ghost use Rattle.custom_model.specs.ValueText.{value_text};
ghost use Rattle.reply_model.specs.Spelling.{in_quotes, quoted};
ghost use Rattle.reply_texts.specs.inner.Customs.{all_tokens_after, component_tokens, components_tokens, is_first_after, spelling_after};
ghost use Rattle.std.specs.Prelude.{◌≡◌, ◌++◌, ◌∷◌, [], IfOk, OnOk, flat_map, string_bytes};
ghost use Rattle.std.specs.Str.{chars};

use crate::fields::push_text;
use crate::quotes::push_in_quotes;
use css_model::{Token, TokenType};
use css_tokens::{Component, Components};
use port_core::NoMemory;

/// Appends a value in quotes.
pub(crate) fn push_custom_value(reply: &mut String, value: &Components) -> Result<(), NoMemory>
    ensures { OnOk result (string_bytes reply.new
        ≡ string_bytes reply.old ++ quoted (value_text (components_view value.now))) }
{
    push_text(reply, "\"")?;
    push_components(reply, value.as_slice(), true)?;
    push_text(reply, "\"")
}

/// Appends the tokens of component values but white space, each after a space unless it is the
/// `first`. Returns whether the next one is the first still. The calls are as deep as brackets nest.
#[cycle(components)]
fn push_components(
    reply: &mut String,
    components: &[Component],
    first: bool,
) -> Result<bool, NoMemory>
    ensures text { OnOk result (string_bytes reply.new
        ≡ string_bytes reply.old ++ all_tokens_after first (components_tokens components.now)) }
    ensures first { IfOk result (λ left. left ≡ is_first_after first (components_tokens components.now)) }
{
    let mut first = first;
    for component in components {
        first = push_component(reply, component, first)?;
    }
    Ok(first)
}

/// Appends the tokens of a component value in the same way.
#[cycle(components)]
fn push_component(reply: &mut String, component: &Component, first: bool) -> Result<bool, NoMemory>
    ensures text { OnOk result (string_bytes reply.new
        ≡ string_bytes reply.old ++ all_tokens_after first (component_tokens component.now)) }
    ensures first { IfOk result (λ left. left ≡ is_first_after first (component_tokens component.now)) }
{
    match component {
        Component::One(token) => push_token(reply, token, first),
        Component::Block(head, contents, close) | Component::Function(head, contents, close) => {
            push_block(reply, head, contents.as_slice(), close, first)
        }
    }
}

/// Appends the token that opens a bracket, what is in it, and the token that closes it.
#[cycle(components)]
fn push_block(
    reply: &mut String,
    head: &Token,
    contents: &[Component],
    close: &Option<Token>,
    first: bool,
) -> Result<bool, NoMemory>
    ensures text { OnOk result (string_bytes reply.new ≡ string_bytes reply.old ++ all_tokens_after first
        (head.now ∷ (components_tokens contents.now ++ close_tokens close.now))) }
    ensures first { IfOk result (λ left. left ≡ is_first_after first
        (head.now ∷ (components_tokens contents.now ++ close_tokens close.now))) }
{
    let after_head = push_token(reply, head, first)?;
    let after_contents = push_components(reply, contents, after_head)?;
    push_close(reply, close, after_contents)
}

/// Appends the token that closes a bracket, if one does.
fn push_close(reply: &mut String, close: &Option<Token>, first: bool) -> Result<bool, NoMemory>
    ensures text { OnOk result (string_bytes reply.new
        ≡ string_bytes reply.old ++ all_tokens_after first (close_tokens close.now)) }
    ensures first { IfOk result (λ left. left ≡ is_first_after first (close_tokens close.now)) }
{
    match close {
        Some(token) => push_token(reply, token, first),
        None => Ok(first),
    }
}

/// Appends a token unless it is white space.
fn push_token(reply: &mut String, token: &Token, first: bool) -> Result<bool, NoMemory>
    ensures text { OnOk result (string_bytes reply.new
        ≡ string_bytes reply.old ++ all_tokens_after first (token.now ∷ [])) }
    ensures first { IfOk result (λ left. left ≡ is_first_after first (token.now ∷ [])) }
{
    match &token.token_type {
        TokenType::Whitespace => Ok(first),
        _ => {
            push_spelling(reply, token.spelling.as_str(), first)?;
            Ok(false)
        }
    }
}

/// Appends a spelling, after a space unless it is the `first`.
fn push_spelling(reply: &mut String, spelling: &str, first: bool) -> Result<(), NoMemory>
    ensures { OnOk result (string_bytes reply.new
        ≡ string_bytes reply.old ++ flat_map in_quotes (spelling_after first (chars spelling.now))) }
{
    if first {
        push_in_quotes(reply, spelling)
    } else {
        push_text(reply, " ")?;
        push_in_quotes(reply, spelling)
    }
}
