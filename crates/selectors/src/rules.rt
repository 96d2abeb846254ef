//! Rules by their numbers.
ghost use Rattle.selectors.specs.Rules.{AreAscending, IsAfterAll};
ghost use Rattle.std.specs.Prelude.{[], OnErr, OnOk, ◌++◌, ◌∷◌, ◌≡◌};

use crate::selector::SelectorList;
use port_core::{NoMemory, Seq};
use std::alloc::Global;
use std::marker::Model;

/// A rule: its number, and the elements that it is for.
#[derive(Debug, Drop)]
pub struct Rule {
    /// Its number, which no other rule of a list has.
    pub number: u32,
    /// Its selectors.
    pub list: SelectorList,
}

/// Rules, whose numbers rise. Contracts see the list of them.
#[derive(Debug, Drop)]
pub struct RuleList {
    rules: Seq<Rule>,
}

impl Model for RuleList {
    ghost use Rattle.std.specs.Prelude.{List};
    ghost use Rattle.selectors.specs.declared.rules.Rule.{Rule as rule};
    ghost use Rattle.selectors.specs.Rules.{AreAscending};

    ghost Value = { List rule };

    ghost use Rattle.selectors.specs.contracts.selector.SelectorList as selector_list;
    ghost use Rattle.std.specs.Coded.{codes};

    ghost coded = { Prim.hlevel (codes, selector_list.the_row.coded) };

    ghost view = { λ l. l.rules };

    ghost invariant = { λ l. AreAscending l.rules };
}

impl RuleList {
    /// Returns a list without rules; takes no memory.
    pub fn new(alloc: Global) -> RuleList
        ensures { result ≡ [] }
    {
        RuleList {
            rules: Seq::new(alloc),
        }
    }

    /// Returns the rules in the order of their numbers.
    pub fn as_slice(&self) -> &[Rule]
        ensures rules { result.now ≡ self.now }
        ensures order { AreAscending self.now }
    {
        self.rules.as_slice()
    }

    /// Appends the rule with the number `rule` and these selectors.
    ///
    /// # Errors
    ///
    /// `NoMemory`; then nothing has changed.
    pub fn push(&mut self, rule: u32, list: SelectorList) -> Result<(), NoMemory>
        requires later { IsAfterAll rule self.old }
        ensures pushed { OnOk result (self.new ≡ self.old ++ (record { number = rule; list = list }) ∷ []) }
        ensures kept { OnErr result (self.new ≡ self.old) }
    {
        self.rules.push(Rule { number: rule, list })
    }
}
