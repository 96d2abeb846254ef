//! Style rules, and the conditions around them (CSS Syntax 3, sections 5.4.1 to 5.4.3).
ghost use Rattle.css_model.specs.Components as components;
ghost use Rattle.css_rules.specs.Views.{condition_view};
ghost use Rattle.css_rules.specs.inner.Found.{IsInside, Adds, Takes, around_of, rules_found, conditions_with, block_rules, qualified_rules, rule_of};
ghost use Rattle.css_rules.specs.inner.Reading.{left_of, after, end_of};
ghost use Rattle.css_tokens.specs.Nested.{component_view, components_view};
ghost use Rattle.rules_model.specs.ComponentLists as lists;
ghost use Rattle.rules_model.specs.Rules as rules;
ghost use Rattle.std.specs.Option.{is_none};
ghost use Rattle.std.specs.Prelude.{◌≡◌, [], ◌∷◌, ◌++◌, OnOk, IfOk, Some, List, false};
ghost use Rattle.rules_model.specs.ComponentLists.{ends_at_rule};

use crate::ahead::{Ahead, End};
use crate::classes::{
    conditional_rule, into_contents, is_at_keyword, is_cdo_or_cdc, is_curly_block, is_whitespace,
};
use crate::declaration_lists::declarations_in;
use crate::lists::trim_end;
use crate::sheet::{Condition, StyleRule};
use css_tokens::{Component, Components};
use port_core::{NoMemory, Seq};
use rules_model::ConditionalRule;
use std::alloc::Global;

/// The style rules that were found, and the conditions around them.
#[derive(Drop)]
pub(crate) struct Found {
    pub(crate) conditions: Seq<Condition>,
    pub(crate) rules: Seq<StyleRule>,
}

/// Finds the rules in a list of rules that is inside the condition in this place.
///
/// The calls are as deep as conditions nest.
#[cycle(rules)]
pub(crate) fn find_rules(
    alloc: Global,
    found: &mut Found,
    around: Option<usize>,
    contents: Components,
) -> Result<(), NoMemory>
    requires { IsInside found.old around }
    ensures { OnOk result (Adds found.old found.new
        (rules.rules_in (around_of found.old around) (components_view contents))) }
{
    let mut ahead = Ahead::new(alloc, contents)?;
    while let Some(first) = ahead.next() {
        find_rule(alloc, found, around, first, &mut ahead)?;
    }
    Ok(())
}

/// Finds the rules in what begins with `first`.
#[cycle(rules)]
fn find_rule(
    alloc: Global,
    found: &mut Found,
    around: Option<usize>,
    first: Component,
    ahead: &mut Ahead,
) -> Result<(), NoMemory>
    requires { IsInside found.old around }
    ensures { OnOk result (Takes found.old found.new (around_of found.old around)
        (components.component (component_view first) (left_of ahead.old)) (left_of ahead.new)) }
{
    if is_between_rules(around, &first) {
        Ok(())
    } else if is_at_keyword(&first) {
        find_in_at_rule(alloc, found, around, first, ahead)
    } else if is_curly_block(&first) {
        keep_rule(alloc, found, around, Seq::new(alloc), first)
    } else {
        find_qualified_rule(alloc, found, around, first, ahead)
    }
}

/// Whether `c` is passed over where a rule would begin inside the condition in this place.
fn is_between_rules(around: Option<usize>, c: &Component) -> bool
    ensures { (conditions : List rules.Condition) → rules.is_top_level conditions ≡ is_none around
        → result ≡ rules.is_between_rules conditions (component_view c.now) }
{
    is_whitespace(c) || (around.is_none() && is_cdo_or_cdc(c))
}

/// Finds the rules in the at-rule that begins with `keyword`.
#[cycle(rules)]
fn find_in_at_rule(
    alloc: Global,
    found: &mut Found,
    around: Option<usize>,
    keyword: Component,
    ahead: &mut Ahead,
) -> Result<(), NoMemory>
    requires { IsInside found.old around }
    ensures found { OnOk result (Adds found.old found.new (block_rules
        (rules.conditions_inside (around_of found.old around)
        (rules.condition_of (component_view keyword) (left_of ahead.old)))
        (end_of ends_at_rule (left_of ahead.old)))) }
    ensures left { OnOk result (left_of ahead.new ≡ after ends_at_rule (left_of ahead.old)) }
{
    match conditional_rule(&keyword) {
        Some(at_rule) => find_in_conditional_rule(alloc, found, around, at_rule, ahead),
        None => {
            ahead.skip(End::AtRule);
            Ok(())
        }
    }
}

/// Finds the rules in an at-rule whose block is kept, after its keyword.
#[cycle(rules)]
fn find_in_conditional_rule(
    alloc: Global,
    found: &mut Found,
    around: Option<usize>,
    at_rule: ConditionalRule,
    ahead: &mut Ahead,
) -> Result<(), NoMemory>
    requires { IsInside found.old around }
    ensures found { OnOk result (Adds found.old found.new (block_rules
        (Some (conditions_with (around_of found.old around) at_rule (left_of ahead.old)))
        (end_of ends_at_rule (left_of ahead.old)))) }
    ensures left { OnOk result (left_of ahead.new ≡ after ends_at_rule (left_of ahead.old)) }
{
    ahead.skip_whitespace();
    let mut prelude = Seq::new(alloc);
    let end = ahead.gather(&mut prelude, End::AtRule)?;
    trim_end(&mut prelude);
    let condition = Condition {
        at_rule,
        prelude,
        around,
    };
    match end {
        Some(end) => find_in_block(alloc, found, condition, into_contents(alloc, end)),
        None => Ok(()),
    }
}

/// Finds the rules in the block of an at-rule.
#[cycle(rules)]
fn find_in_block(
    alloc: Global,
    found: &mut Found,
    condition: Condition,
    contents: Components,
) -> Result<(), NoMemory>
    requires { IsInside found.old condition.around }
    ensures { OnOk result (Adds found.old found.new (rules.rules_in
        (around_of found.old condition.around ++ condition_view condition ∷ [])
        (components_view contents))) }
{
    if contents.is_empty() {
        return Ok(());
    }
    let inside = found.conditions.len();
    found.conditions.push(condition)?;
    find_rules(alloc, found, Some(inside), contents)
}

/// Finds the qualified rule that begins with `first`, which is no block.
fn find_qualified_rule(
    alloc: Global,
    found: &mut Found,
    around: Option<usize>,
    first: Component,
    ahead: &mut Ahead,
) -> Result<(), NoMemory>
    requires inside { IsInside found.old around }
    requires first { lists.is_whitespace (component_view first) ≡ false }
    ensures found { OnOk result (Adds found.old found.new
        (qualified_rules (around_of found.old around)
        (components.component (component_view first)
        (lists.before lists.is_curly_block (left_of ahead.old)))
        (end_of lists.is_curly_block (left_of ahead.old)))) }
    ensures left { OnOk result (left_of ahead.new
        ≡ after lists.is_curly_block (left_of ahead.old)) }
{
    let mut prelude = Seq::new(alloc);
    prelude.push(first)?;
    let end = ahead.gather(&mut prelude, End::Block)?;
    trim_end(&mut prelude);
    match end {
        Some(block) => keep_rule(alloc, found, around, prelude, block),
        None => Ok(()),
    }
}

/// Keeps the rule of this prelude and block.
fn keep_rule(
    alloc: Global,
    found: &mut Found,
    around: Option<usize>,
    prelude: Components,
    block: Component,
) -> Result<(), NoMemory>
    requires { IsInside found.old around }
    ensures { OnOk result (Adds found.old found.new
        (rule_of (around_of found.old around) (components_view prelude)
        (component_view block) ∷ [])) }
{
    let declarations = declarations_in(alloc, into_contents(alloc, block))?;
    found.rules.push(StyleRule {
        prelude,
        around,
        declarations,
    })
}

/// The style rules of a sheet's component values.
pub(crate) fn rules_of(alloc: Global, components: Components) -> Result<Found, NoMemory>
    ensures { IfOk result (λ found. rules_found found
        ≡ rules.rules_of (components_view components)) }
{
    let mut found = Found {
        conditions: Seq::new(alloc),
        rules: Seq::new(alloc),
    };
    find_rules(alloc, &mut found, None, components)?;
    Ok(found)
}
