//! Laws of the conditions around rules.
ghost use Rattle.css_model.specs.Components.{Components, component, simple_block};
ghost use Rattle.css_model.specs.Components.{Component};
ghost use Rattle.css_model.specs.declared.token.Token.{Token};
ghost use Rattle.css_model.specs.inner.Nesting.{followed};
ghost use Rattle.rules_laws.specs.RuleLists.{BeginWith, BeginsAtRule};
ghost use Rattle.rules_model.specs.ComponentLists.{at_keyword_of, is_curly_block, trimmed};
ghost use Rattle.rules_model.specs.Rules.{Condition, conditional_rule_of, rules_in};
ghost use Rattle.rules_model.specs.declared.conditional_rule.ConditionalRule.{ConditionalRule};
ghost use Rattle.std.specs.Prelude.{◌≡◌, ◌++◌, ◌∷◌, [], List, Option, Some, option_and_then, true};

/// The rules in the block of an at-rule that is kept have its condition after those around it.
pub fn of_block()
    ensures { (around : List Condition) (keyword : Component) (kind : ConditionalRule)
        (prelude : Components) (head : Token) (contents : Components) (close : Option Token)
        (rest : Components)
        → BeginsAtRule keyword prelude
        → option_and_then conditional_rule_of (at_keyword_of keyword) ≡ Some kind
        → is_curly_block (simple_block head contents close) ≡ true
        → rules_in around (component keyword
        (followed prelude (component (simple_block head contents close) rest)))
        ≡ rules_in (around ++ (record { at_rule = kind; prelude = trimmed prelude } ∷ [])) contents
        ++ rules_in around rest }
{}

/// The conditions around a list of rules are the outermost of each rule in it.
pub fn outermost()
    ensures { (around : List Condition) (cs : Components) → BeginWith around (rules_in around cs) }
{}
