//! Style sheets (CSS Syntax 3, sections 5.3.3 and 5.4.1 to 5.4.3).
use crate::declaration::Declarations;
use css_tokens::Components;
use port_core::{Seq, Text};
use rules_model::ConditionalRule;

/// An at-rule whose block is kept, and so a condition around the rules in it.
#[derive(Debug, Drop)]
pub struct Condition {
    /// Which at-rule it is.
    pub at_rule: ConditionalRule,
    /// Its prelude, without white space at the ends.
    pub prelude: Components,
    /// The place in the sheet's conditions of the innermost one around it, if there is one.
    pub around: Option<usize>,
}

/// A style rule.
#[derive(Debug, Drop)]
pub struct StyleRule {
    /// Its prelude, without white space at the ends.
    pub prelude: Components,
    /// The place in the sheet's conditions of the innermost one around the rule, if there is one.
    pub around: Option<usize>,
    /// The declarations of its block.
    pub declarations: Declarations,
}

/// A style sheet.
#[derive(Debug, Drop)]
pub struct Sheet {
    /// The text that it was read from.
    pub text: Text,
    /// The conditions of its blocks, in the order of the text: each is after those around it.
    pub conditions: Seq<Condition>,
    /// Its style rules, in the order of the text.
    pub rules: Seq<StyleRule>,
}
