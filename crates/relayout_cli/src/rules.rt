//! The reply to `rules`.
ghost use Rattle.std.specs.Prelude.{◌≡◌, ◌++◌, OnOk, IfOk, string_bytes, flat_map};
ghost use Rattle.std.specs.Fmt.{decimal};
ghost use Rattle.rules_model.specs.PreludeText.{token_text, prelude_text};
ghost use Rattle.css_tokens.specs.Nested.{components_view};
ghost use Rattle.css_rules.specs.Views.{sheet_view};
ghost use Rattle.css_model.specs.Components.{close_tokens};
ghost use Rattle.reply_model.specs.Spelling.{field, in_quotes, quoted, ok_line};
ghost use Rattle.reply_model.specs.RulesText.{rule_lines, rules_text};
ghost use Rattle.relayout_cli.specs.Sheets.{texts_of, kept_rules};
ghost use Rattle.relayout_cli.specs.inner.RuleLines.{tokens_in_quotes, component_in_quotes, components_in_quotes, condition_counts, count_at, kept_line, lines_of_all};

use crate::page::Page;
use crate::replies::push_ok;
use css_model::{Token, TokenType};
use css_rules::{Component, Condition, Sheet, StyleRule};
use itoa::Buffer;
use port_core::{NoMemory, Seq};
use reply_texts::{push_field, push_in_quotes, push_text};
use std::alloc::Global;

/// Appends the lines of all style rules of a page.
pub fn push_rules(alloc: Global, page: &Page, reply: &mut String) -> Result<(), NoMemory>
    ensures { OnOk result (string_bytes reply.new
        ≡ string_bytes reply.old ++ (rules_text (texts_of page.now.sheets) ++ ok_line)) }
{
    push_sheets(alloc, reply, page.sheets.as_slice())?;
    push_ok(reply)
}

/// Appends the lines of the rules of these sheets.
fn push_sheets(alloc: Global, reply: &mut String, sheets: &[Sheet]) -> Result<(), NoMemory>
    ensures { OnOk result (string_bytes reply.new ≡ string_bytes reply.old
        ++ lines_of_all 0 (kept_rules sheets.now)) }
{
    for number in 0..sheets.len() {
        push_sheet(alloc, reply, number, &sheets[number])?;
    }
    Ok(())
}

/// Appends the lines of the rules of a sheet.
fn push_sheet(
    alloc: Global,
    reply: &mut String,
    number: usize,
    sheet: &Sheet,
) -> Result<(), NoMemory>
    ensures { OnOk result (string_bytes reply.new
        ≡ string_bytes reply.old ++ rule_lines number 0 (sheet_view sheet.now)) }
{
    let counts = count_conditions(alloc, sheet.conditions.as_slice())?;
    let rules = sheet.rules.as_slice();
    for place in 0..rules.len() {
        let rule = &rules[place];
        let conditions = count_at(counts.as_slice(), rule.around);
        push_rule(reply, number, place, conditions, rule)?;
    }
    Ok(())
}

/// Returns, for each place, how many conditions there are up to the one in it.
fn count_conditions(alloc: Global, conditions: &[Condition]) -> Result<Seq<usize>, NoMemory>
    ensures { IfOk result (λ counts. counts ≡ condition_counts conditions.now) }
{
    let mut counts = Seq::new(alloc);
    for condition in conditions {
        let around = count_at(counts.as_slice(), condition.around);
        counts.push(around + 1)?;
    }
    Ok(counts)
}

/// Returns how many conditions there are up to the one in a place; there are none without a place.
fn count_at(counts: &[usize], place: Option<usize>) -> usize
    ensures { result ≡ count_at counts.now place }
{
    match place {
        Some(place) => match counts.get(place) {
            Some(count) => *count,
            None => 0,
        },
        None => 0,
    }
}

/// Appends the line of a rule.
fn push_rule(
    reply: &mut String,
    sheet: usize,
    place: usize,
    conditions: usize,
    rule: &StyleRule,
) -> Result<(), NoMemory>
    ensures { OnOk result (string_bytes reply.new
        ≡ string_bytes reply.old ++ kept_line sheet place conditions rule.now) }
{
    push_text(reply, "rule")?;
    push_numbers(reply, sheet, place)?;
    push_numbers(reply, conditions, rule.declarations.len())?;
    push_prelude(reply, rule.prelude.as_slice())?;
    push_text(reply, "\n")
}

/// Appends two fields that are numbers.
fn push_numbers(reply: &mut String, a: usize, b: usize) -> Result<(), NoMemory>
    ensures { OnOk result (string_bytes reply.new
        ≡ string_bytes reply.old ++ (field (decimal a) ++ field (decimal b))) }
{
    push_field(reply, Buffer::new().format(a))?;
    push_field(reply, Buffer::new().format(b))
}

/// Appends a field that is a prelude in quotes.
#[tactic(auto, unfolding(reply_model::specs::Spelling::quoted))]
fn push_prelude(reply: &mut String, prelude: &[Component]) -> Result<(), NoMemory>
    ensures { OnOk result (string_bytes reply.new
        ≡ string_bytes reply.old ++ field (quoted (prelude_text (components_view prelude.now)))) }
{
    push_text(reply, " \"")?;
    push_components(reply, prelude)?;
    push_text(reply, "\"")
}

/// Appends the tokens of these component values, as they stand between quotes. The calls are as deep
/// as brackets nest.
#[cycle(components)]
fn push_components(reply: &mut String, components: &[Component]) -> Result<(), NoMemory>
    ensures { OnOk result (string_bytes reply.new
        ≡ string_bytes reply.old ++ components_in_quotes components.now) }
{
    for component in components {
        push_component(reply, component)?;
    }
    Ok(())
}

/// Appends the tokens of a component value.
#[cycle(components)]
fn push_component(reply: &mut String, component: &Component) -> Result<(), NoMemory>
    ensures { OnOk result (string_bytes reply.new
        ≡ string_bytes reply.old ++ component_in_quotes component.now) }
{
    match component {
        Component::One(token) => push_token(reply, token),
        Component::Block(head, contents, close) | Component::Function(head, contents, close) => {
            push_token(reply, head)?;
            push_components(reply, contents.as_slice())?;
            push_close(reply, close)
        }
    }
}

/// Appends the token that closes a bracket, if one does.
fn push_close(reply: &mut String, close: &Option<Token>) -> Result<(), NoMemory>
    ensures { OnOk result (string_bytes reply.new
        ≡ string_bytes reply.old ++ tokens_in_quotes (close_tokens close.now)) }
{
    match close {
        Some(token) => push_token(reply, token),
        None => Ok(()),
    }
}

/// Appends a token as it is spelled, and white space as one space.
fn push_token(reply: &mut String, token: &Token) -> Result<(), NoMemory>
    ensures { OnOk result (string_bytes reply.new
        ≡ string_bytes reply.old ++ flat_map in_quotes (token_text token.now)) }
{
    match &token.token_type {
        TokenType::Whitespace => push_text(reply, " "),
        _ => push_in_quotes(reply, token.spelling.as_str()),
    }
}
