//! Rule books from sheets (CSS Cascade 4, section 6.2).
ghost use Rattle.cascade_core.specs.Books.{AreFew, AreRulesOf, book_view};
ghost use Rattle.cascade_model.specs.Books.{book_of};
ghost use Rattle.css_rules.specs.Views.{sheet_view};
ghost use Rattle.cascade_core.specs.inner.Drafts.{IsDraft, draft_view};
ghost use Rattle.std.specs.Prelude.{◌≡◌, IfOk, map};

use crate::defaults::Defaults;
use crate::draft::{Draft, add_sheet, empty_draft};
use crate::rule_book::RuleBook;
use crate::user_agent::user_agent_sheet;
use cascade_model::Origin;
use css_rules::Sheet;
use port_core::{NoMemory, Seq};
use selectors::RuleList;
use std::alloc::Global;

impl RuleBook {
    /// Reads the rules of the user agent and those of `sheets`: their selectors, the media queries
    /// around them, and their declarations.
    ///
    /// Time and memory grow with the number and the length of the rules.
    pub fn read(alloc: Global, sheets: &Seq<Sheet>) -> Result<RuleBook, NoMemory>
        requires { AreFew sheets.now }
        ensures { IfOk result (λ book. book_view book ≡ book_of (map sheet_view sheets.now)) }
    {
        let draft = draft_of(alloc, sheets.as_slice())?;
        Ok(RuleBook {
            rules: draft.rules,
            bodies: draft.bodies,
            defaults: Defaults::new(alloc)?,
        })
    }

    /// Returns the numbers and selectors of the rules, in their order.
    pub fn rules(&self) -> &RuleList
        ensures { AreRulesOf result.now (book_view self.now) }
    {
        &self.rules
    }
}

/// The rules of the user agent, and then those of each sheet.
fn draft_of(alloc: Global, sheets: &[Sheet]) -> Result<Draft, NoMemory>
    requires { AreFew sheets.now }
    ensures sound { IfOk result IsDraft }
    ensures rules { IfOk result (λ draft. draft_view draft ≡ book_of (map sheet_view sheets.now)) }
{
    let mut draft = empty_draft(alloc);
    let user_agent = user_agent_sheet(alloc)?;
    add_sheet(alloc, &mut draft, Origin::UserAgent, &user_agent)?;
    for sheet in sheets {
        add_sheet(alloc, &mut draft, Origin::Author, sheet)?;
    }
    Ok(draft)
}
