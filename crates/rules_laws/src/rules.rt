//! Laws of lists of rules (CSS Syntax 3, sections 5.4.1 to 5.4.3).
ghost use Rattle.css_model.specs.Components.{Component, Components, all_tokens_of, component};
ghost use Rattle.css_model.specs.inner.Nesting.{followed};
ghost use Rattle.rules_laws.specs.Order.{IsSublist, rule_tokens};
ghost use Rattle.rules_laws.specs.RuleLists.{AreItems, BeginsAtRule, IsRuleList, IsUnended, RuleItem, items_components, items_rules};
ghost use Rattle.rules_model.specs.ComponentLists.{ends_at_rule, at_keyword_of, is_semicolon};
ghost use Rattle.rules_model.specs.Rules.{Condition, conditional_rule_of, rules_in};
ghost use Rattle.std.specs.Prelude.{◌≡◌, ◌++◌, List, None, option_and_then, true};

/// Each list of component values is a list of rules: whole rules, what is passed over between them,
/// and perhaps a rule that is not whole.
pub fn exist()
    ensures { (around : List Condition) (cs : Components) → IsRuleList around cs }
{}

/// The style rules of whole rules are those of each, in their order.
pub fn of_items()
    ensures { (around : List Condition) (items : List RuleItem) (rest : Components)
        → AreItems around items
        → rules_in around (followed (items_components items) rest)
        ≡ items_rules around items ++ rules_in around rest }
{}

/// The style rules of two lists, where the first ends with a whole rule, are those of the first and
/// then those of the second.
pub fn joined()
    ensures { (around : List Condition) (items : List RuleItem) (rest : Components)
        → AreItems around items
        → rules_in around (followed (items_components items) rest)
        ≡ rules_in around (items_components items) ++ rules_in around rest }
{}

/// A rule that is not whole adds none: a qualified rule without a block, an at-rule without its
/// end.
pub fn unended()
    ensures { (around : List Condition) (items : List RuleItem) (rest : Components)
        → AreItems around items
        → IsUnended around rest
        → rules_in around (followed (items_components items) rest) ≡ items_rules around items }
{}

/// An at-rule of another name, put where a rule would begin, changes nothing.
pub fn another_at_rule()
    ensures { (around : List Condition) (items : List RuleItem) (keyword : Component)
        (prelude : Components) (end : Component) (rest : Components) → AreItems around items
        → BeginsAtRule keyword prelude → ends_at_rule end ≡ true
        → option_and_then conditional_rule_of (at_keyword_of keyword) ≡ None
        → rules_in around (followed (items_components items)
        (component keyword (followed prelude (component end rest))))
        ≡ rules_in around (followed (items_components items) rest) }
{}

/// An at-rule of any name that ends with a `;`, put where a rule would begin, changes nothing.
pub fn at_rule_without_block()
    ensures { (around : List Condition) (items : List RuleItem) (keyword : Component)
        (prelude : Components) (end : Component) (rest : Components) → AreItems around items
        → BeginsAtRule keyword prelude → is_semicolon end ≡ true
        → rules_in around (followed (items_components items)
        (component keyword (followed prelude (component end rest))))
        ≡ rules_in around (followed (items_components items) rest) }
{}

/// The tokens of preludes and of the values of declarations stand in the list, in the order of the
/// rules.
pub fn in_order()
    ensures { (around : List Condition) (cs : Components) →
        IsSublist (rule_tokens (rules_in around cs)) (all_tokens_of cs) }
{}
