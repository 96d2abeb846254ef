//! Which declarations win for an element (CSS Cascade 4, section 6.1).
ghost use Rattle.cascade_core.specs.AppliedViews.{all_placed};
ghost use Rattle.cascade_core.specs.Books.{AreInBook, book_view, rules_at};
ghost use Rattle.cascade_core.specs.Views.{all_kept_view};
ghost use Rattle.cascade_core.specs.WinnersView.{cascaded_view};
ghost use Rattle.cascade_core.specs.inner.BothTables.{Takes};
ghost use Rattle.cascade_core.specs.inner.Matches.{applied_at, applied_at_all, place_of};
ghost use Rattle.cascade_model.specs.Applied.{applied_of};
ghost use Rattle.cascade_model.specs.Cascaded.{cascaded_of};
ghost use Rattle.cascade_model.specs.Kept as model;
ghost use Rattle.css_rules.specs.Views.{declarations_view};
ghost use Rattle.std.specs.Prelude.{◌≡◌, ◌<◌, IfOk, OnOk, length};

use crate::answer_list::Answers;
use crate::applied::Place;
use crate::kept::kept_declarations;
use crate::rule_body::RuleBody;
use crate::rule_book::RuleBook;
use crate::winners::{BothTables, Winners, no_winners, take_all};
use cascade_model::Origin;
use conditions_model::Tri;
use css_rules::Declarations;
use port_core::NoMemory;
use selectors::Matched;
use selectors_model::Spec;
use std::alloc::Global;

/// Returns the declarations that win for an element, of the rules of `book` that match it, where
/// the answers to their conditions are Yes, and of its `style` attribute.
///
/// Time grows with the number of declarations; the values are shared.
pub fn winning<L: Drop>(
    alloc: Global,
    book: &RuleBook,
    matched: &Matched<L>,
    answers: &Answers,
    inline: &Declarations,
) -> Result<Winners, NoMemory>
    requires numbers { AreInBook matched.now.pairs (book_view book.now) }
    requires answered { length answers.now ≡ length matched.now.pairs }
    ensures { IfOk result (λ w. cascaded_view w
        ≡ cascaded_of (applied_of (rules_at (book_view book.now) matched.now.pairs) answers.now
        (model.kept_declarations (declarations_view inline.now)))) }
{
    let mut tables = no_winners(alloc)?;
    take_matched(book, matched, answers.as_slice(), &mut tables)?;
    let kept = kept_declarations(alloc, inline)?;
    take_all(&mut tables, ATTRIBUTE, kept.as_slice())?;
    Ok(Winners {
        custom: tables.customs.declared(alloc)?,
        all: tables.all,
        user_agent: tables.user_agent,
        defaults: book.defaults.share()?,
    })
}

/// The `style` attribute of an element.
const ATTRIBUTE: Place = Place {
    origin: Origin::Author,
    in_attribute: true,
    specificity: Spec {
        ids: 0,
        classes: 0,
        types: 0,
    },
};

/// Takes the declarations of the rules that match.
fn take_matched<L: Drop>(
    book: &RuleBook,
    matched: &Matched<L>,
    answers: &[Tri],
    tables: &mut BothTables,
) -> Result<(), NoMemory>
    requires numbers { AreInBook matched.now.pairs (book_view book.now) }
    requires answered { length answers.now ≡ length matched.now.pairs }
    ensures { OnOk result (Takes tables.old tables.new
        (applied_at_all book.now.bodies matched.now.pairs answers.now)) }
{
    for i in 0..answers.len() {
        let answer = answers[i];
        match matched.get(i) {
            Some(pair) => take_rule(book, pair, answer, tables)?,
            None => {}
        }
    }
    Ok(())
}

/// Takes the declarations of a rule that matches, if the answer to its conditions is Yes.
fn take_rule(
    book: &RuleBook,
    pair: (u32, Spec),
    answer: Tri,
    tables: &mut BothTables,
) -> Result<(), NoMemory>
    requires { pair.0 < length book.now.bodies }
    ensures { OnOk result (Takes tables.old tables.new
        (applied_at book.now.bodies pair.0 pair.1 answer)) }
{
    match answer {
        Tri::Yes => take_body(&book.bodies.as_slice()[pair.0 as usize], pair.1, tables),
        Tri::No | Tri::Unknown => Ok(()),
    }
}

/// Takes the declarations of a rule.
fn take_body(body: &RuleBody, specificity: Spec, tables: &mut BothTables) -> Result<(), NoMemory>
    ensures { OnOk result (Takes tables.old tables.new
        (all_placed (place_of body.now specificity) (all_kept_view body.now.declarations))) }
{
    let place = Place {
        origin: body.origin,
        in_attribute: false,
        specificity,
    };
    take_all(tables, place, body.declarations.as_slice())
}
