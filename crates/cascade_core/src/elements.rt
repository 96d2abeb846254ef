//! The style of an element of a document (CSS Cascade 4, section 4).
ghost use Rattle.cascade_core.specs.Books.{book_view};
ghost use Rattle.cascade_core.specs.StyledView.{styled_view};
ghost use Rattle.cascade_model.specs.Cascaded.{cascaded_of};
ghost use Rattle.cascade_model.specs.DocumentStyles as model;
ghost use Rattle.cascade_model.specs.Kept.{kept_declarations};
ghost use Rattle.cascade_model.specs.Styling.{styling_of};
ghost use Rattle.css_rules.specs.Views.{declarations_view};
ghost use Rattle.page_model.specs.Document.{name_at};
ghost use Rattle.page_model.specs.declared.limits.TheConstants.{MAX_SIDE};
ghost use Rattle.selectors.specs.Rooms.{empty_room};
ghost use Rattle.std.specs.Option.{option_copied};
ghost use Rattle.std.specs.Prelude.{◌≡◌, ◌≤◌, ◌++◌, ◌∷◌, ◌⊎◌, [], length, option_map};
ghost use Rattle.std.specs.Prelude.{IfOk, IsSome, OnErr, OnOk};
ghost use Rattle.stream_model.specs.Ledger.{pair};
ghost use Rattle.stream_model.specs.declared.kind.Kind.TheVariants as kinds;

use crate::answering::answers;
use crate::cascading::winning;
use crate::rule_book::RuleBook;
use crate::styled::Styled;
use crate::styling::resolve;
use css_rules::{Declarations, parse_style_attr};
use dom_arena::Doc;
use page_model::Viewport;
use port_core::{NoMemory, NodeId, Seq, Steps};
use prop_table::Bases;
use selectors::{Matched, match_rules};
use std::alloc::Global;

/// Returns the style of the element `id` of a document on the viewport `v`, where the rules are those
/// of `book` and its parent has the style `parent`. `b` is what lengths in `font-size` refer to. What
/// was in `room` goes.
///
/// It logs the match of the element, and then its style.
///
/// # Errors
///
/// `NoMemory`; then at most the match is logged.
pub fn styled_element<L: Drop>(
    alloc: Global,
    doc: &Doc,
    id: NodeId,
    book: &RuleBook,
    v: Viewport,
    room: &mut Matched<L>,
    parent: Option<&Styled<L>>,
    b: &Bases,
    steps: &mut Steps<L>,
) -> Result<Styled<L>, NoMemory>
    requires element { IsSome (name_at id doc.now.document.root) }
    requires room { length (book_view book.now) ≤ room.old.room }
    requires width { v.width ≤ MAX_SIDE }
    requires height { v.height ≤ MAX_SIDE }
    ensures style { IfOk result (λ s. styled_view s ≡ styling_of (record {
      cascaded = cascaded_of (model.applied_to (book_view book.now) v doc.now.document.root id);
      parent = option_map styled_view (option_copied parent.entry);
      bases = b.now;
    })) }
    ensures logged { OnOk result
        (steps.new ≡ steps.old ++ pair kinds.Match id ∷ pair kinds.Style id ∷ []) }
    ensures begun { OnErr result
        ((steps.new ≡ steps.old) ⊎ (steps.new ≡ steps.old ++ pair kinds.Match id ∷ [])) }
    ensures room { room.new.room ≡ room.old.room }
{
    let inline = inline_declarations(alloc, doc, id)?;
    match_rules(doc, id, book.rules(), room, steps);
    let answers = answers(alloc, book, room, v)?;
    let winners = winning(alloc, book, room, &answers, &inline)?;
    resolve(alloc, id, &winners, parent, b, &answers, steps)
}

/// Returns room for the match of each rule of a book.
///
/// # Errors
///
/// `NoMemory` where there is none for so many.
pub fn room_for<L: Drop>(alloc: Global, book: &RuleBook) -> Result<Matched<L>, NoMemory>
    ensures { IfOk result (λ room. room ≡ empty_room (length (book_view book.now))) }
{
    Matched::with_room(alloc, book.rules().as_slice().len())
}

/// The declarations of the `style` attribute of the element `id`, if it has one.
fn inline_declarations(alloc: Global, doc: &Doc, id: NodeId) -> Result<Declarations, NoMemory>
    ensures { IfOk result (λ ds. kept_declarations (declarations_view ds)
        ≡ model.inline_declarations doc.now.document.root id) }
{
    match doc.attr(id, "style") {
        Some(text) => parse_style_attr(alloc, text),
        None => Ok(Seq::new(alloc)),
    }
}
