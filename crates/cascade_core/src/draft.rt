//! The rules of a book, while it is read (CSS Cascade 4, section 6.2).
ghost use Rattle.cascade_core.specs.Views.{all_kept_view, media_view};
ghost use Rattle.cascade_core.specs.inner.Drafts.{Adds, IsDraft, draft_view};
ghost use Rattle.cascade_core.specs.inner.Drafts.{book_rule_of, book_rules_of};
ghost use Rattle.cascade_model.specs.Books.{book_rules, in_front_if};
ghost use Rattle.css_rules.specs.Views.{sheet_view};
ghost use Rattle.selectors.specs.Views.{list_view};
ghost use Rattle.std.specs.Prelude.{◌≡◌, ◌∷◌, [], ◌<◌, ◌≤◌, ◌+◌, OnOk, length, map};

use crate::kept::{Kept, kept_declarations};
use crate::media::{MediaBlocks, blocks_at, blocks_of};
use crate::rule_body::RuleBody;
use cascade_model::Origin;
use css_rules::{Sheet, StyleRule};
use port_core::{NoMemory, Seq};
use selectors::{RuleList, SelectorList, read_list};
use std::alloc::Global;

/// Rules, each with its number and its selectors in one list, and the rest in another.
#[derive(Debug, Drop)]
pub(crate) struct Draft {
    pub(crate) rules: RuleList,
    pub(crate) bodies: Seq<RuleBody>,
}

/// No rule.
pub(crate) fn empty_draft(alloc: Global) -> Draft
    ensures sound { IsDraft result }
    ensures empty { draft_view result ≡ [] }
    ensures none { length result.rules ≡ 0 }
{
    Draft {
        rules: RuleList::new(alloc),
        bodies: Seq::new(alloc),
    }
}

/// Adds the rules of a sheet, in the order of its text.
pub(crate) fn add_sheet(
    alloc: Global,
    draft: &mut Draft,
    origin: Origin,
    sheet: &Sheet,
) -> Result<(), NoMemory>
    requires sound { IsDraft draft.old }
    requires few { length draft.old.rules + length sheet.now.rules < 100000 }
    ensures { OnOk result (Adds draft.old draft.new (book_rules origin (sheet_view sheet.now))
        (length sheet.now.rules)) }
{
    let places = blocks_of(alloc, sheet.conditions.as_slice())?;
    add_rules(
        alloc,
        draft,
        origin,
        sheet.rules.as_slice(),
        places.as_slice(),
    )
}

/// Adds rules, where these are the `@media` blocks up to each condition of their sheet.
fn add_rules(
    alloc: Global,
    draft: &mut Draft,
    origin: Origin,
    rules: &[StyleRule],
    places: &[MediaBlocks],
) -> Result<(), NoMemory>
    requires sound { IsDraft draft.old }
    requires few { length draft.old.rules + length rules.now < 100000 }
    ensures { OnOk result (Adds draft.old draft.new
        (book_rules_of origin (map media_view places.now) rules.now) (length rules.now)) }
{
    for rule in rules {
        add_rule(alloc, draft, origin, rule, places)?;
    }
    Ok(())
}

/// Adds a rule, if its prelude is a selector list (Selectors 4, section 3.9).
fn add_rule(
    alloc: Global,
    draft: &mut Draft,
    origin: Origin,
    rule: &StyleRule,
    places: &[MediaBlocks],
) -> Result<(), NoMemory>
    requires sound { IsDraft draft.old }
    requires few { length draft.old.rules < 100000 }
    ensures { OnOk result (Adds draft.old draft.new
        (in_front_if (book_rule_of origin (map media_view places.now) rule.now) []) 1) }
{
    match read_list(alloc, &rule.prelude)? {
        None => Ok(()),
        Some(list) => {
            let media = blocks_at(alloc, places, rule.around)?;
            let declarations = kept_declarations(alloc, &rule.declarations)?;
            push_rule(draft, origin, list, media, declarations)
        }
    }
}

/// Adds the rule of these selectors and declarations in these `@media` blocks.
fn push_rule(
    draft: &mut Draft,
    origin: Origin,
    list: SelectorList,
    media: MediaBlocks,
    declarations: Seq<Kept>,
) -> Result<(), NoMemory>
    requires sound { IsDraft draft.old }
    requires few { length draft.old.rules < 100000 }
    ensures { OnOk result (Adds draft.old draft.new (record {
      origin = origin;
      selectors = list_view list;
      media = media_view media;
      declarations = all_kept_view declarations;
    } ∷ []) 1) }
{
    let number = draft.rules.as_slice().len() as u32;
    draft.rules.push(number, list)?;
    draft.bodies.push(RuleBody {
        origin,
        media,
        declarations,
    })
}
