//! The rules that match an element (Selectors 4, sections 3.1 and 17).
ghost use Rattle.page_model.specs.Document.{name_at};
ghost use Rattle.selectors.specs.inner.ElementsIn.{IsIn};
ghost use Rattle.selectors.specs.Rules.{matched_rules};
ghost use Rattle.selectors.specs.Views.{list_view};
ghost use Rattle.selectors_model.specs.Specificity as model;
ghost use Rattle.std.specs.Prelude.{IsSome, Some, [], length, ◌++◌, ◌∷◌, ◌≡◌, ◌≤◌};
ghost use Rattle.stream_model.specs.Ledger.{pair};
ghost use Rattle.stream_model.specs.declared.kind.Kind.TheVariants.{Match};

use crate::matched::Matched;
use crate::matching::selector_matches;
use crate::rules::RuleList;
use crate::selector::SelectorList;
use crate::specificities::{greater_of, specificity};
use dom_arena::Doc;
use port_core::{Kind, NodeId, Steps};
use selectors_model::Spec;

/// Puts the numbers of the rules that match the element `id` into `room`, in their order, each with
/// the specificity of its most specific member that matches (Selectors 4, section 17). What was in
/// `room` goes.
///
/// It takes no memory, and logs one match.
pub fn match_rules<L: Drop>(
    doc: &Doc,
    id: NodeId,
    rules: &RuleList,
    room: &mut Matched<L>,
    steps: &mut Steps<L>,
)
    requires element { IsSome (name_at id doc.now.document.root) }
    requires room { length rules.now ≤ room.old.room }
    ensures matched { room.new.pairs ≡ matched_rules doc.now.document.root rules.now id }
    ensures room { room.new.room ≡ room.old.room }
    ensures logged { steps.new ≡ steps.old ++ pair Match id ∷ [] }
{
    steps.tick(Kind::Match, id);
    room.clear();
    let root = doc.root();
    for rule in rules.as_slice() {
        if let Some(spec) = matching_specificity(doc, root, id, &rule.list) {
            room.push(rule.number, spec);
        }
    }
}

/// Returns the specificity of the most specific member of the list that matches the element `id`,
/// or `None` where none does.
fn matching_specificity(doc: &Doc, root: NodeId, id: NodeId, list: &SelectorList) -> Option<Spec>
    requires { IsIn root id doc.now.document }
    ensures { result ≡ model.matching_specificity doc.now.document.root (list_view list.now) id }
{
    let members = list.members.as_slice();
    let mut greatest = None;
    for at in (0..members.len()).rev() {
        let member = &members[at];
        if selector_matches(doc, root, id, member) {
            greatest = Some(or_greater(specificity(member), greatest));
        }
    }
    greatest
}

/// Returns the more specific of one that matches and of those so far.
fn or_greater(spec: Spec, greatest: Option<Spec>) -> Spec
    ensures { Some result ≡ model.or_greater spec greatest }
{
    match greatest {
        Some(greatest) => greater_of(spec, greatest),
        None => spec,
    }
}
