//! Which elements a selector matches (Selectors 4, sections 3.1, 4, 14 and 15).
//!
//! A selector is matched from its right to its left. Where more than one element may be on the left
//! of a combinator, the nearest that matches is enough: whatever a farther one could still reach, it
//! reaches too.
ghost use Rattle.page_model.specs.Document.{name_at};
ghost use Rattle.selectors.specs.inner.ElementsIn.{IsElementIn, IsIn};
ghost use Rattle.selectors.specs.Views.{compound_view, list_view, selector_view, simple_view};
ghost use Rattle.selectors.specs.inner.Walks.{Checks, Climbs, IsWithin, KeepsRow, WalksBefore, WalksChain, WalksRow, ends_row, links_of, matches_one};
ghost use Rattle.selectors_model.specs.Elements.{ancestors_of};
ghost use Rattle.selectors_model.specs.Matching as model;
ghost use Rattle.std.specs.Prelude.{IsSome, length, ◌-◌, ◌&&◌, ◌≡◌, ◌≤◌};

use crate::names::{attribute_matches, has_attribute, has_class, has_id, has_type};
use crate::positions::{is_first, nth_matches};
use crate::selector::{Selector, SelectorList, Simple};
use crate::siblings::{Side, nearest};
use dom_arena::Doc;
use port_core::NodeId;
use selectors_model::{Combinator, Nth, PseudoClass};

/// What has to match: the selector up to its first `links` combinators, at the element `at`.
#[derive(Clone, Copy, Debug, PartialEq, Eq)]
struct Goal {
    links: usize,
    at: NodeId,
}

/// What is left of a goal after its compound.
#[derive(Clone, Copy, Debug, PartialEq, Eq)]
enum Checked {
    /// The compound is the first one, and matches.
    Matches,
    /// The compound does not match.
    Fails,
    /// The compound matches, and this combinator is on its left.
    Left(Combinator),
}

/// How far a walk to the left came.
#[derive(Clone, Copy, Debug, PartialEq, Eq)]
enum Reached {
    /// To the first compound.
    Matches,
    /// To an element that does not match, and there is no other.
    Fails,
    /// To a goal whose compound matches, with this combinator on its left.
    Open(Goal, Combinator),
}

/// Whether the selector matches the element `id` (Selectors 4, section 3.1).
///
/// It takes no memory, and the calls are as deep as selectors nest. Its time is at most linear in
/// the combinators and in the ancestors and their siblings before them, besides what positions
/// count.
pub fn matches(doc: &Doc, id: NodeId, s: &Selector) -> bool
    requires element { IsSome (name_at id doc.now.document.root) }
    ensures { result ≡ model.matches doc.now.document.root (selector_view s.now) id }
{
    selector_matches(doc, doc.root(), id, s)
}

// ---- simple selectors

/// Whether a pseudo-class without arguments matches (sections 14.1, 14.3 and 14.4).
fn pseudo_class_matches(doc: &Doc, root: NodeId, id: NodeId, p: PseudoClass) -> bool
    requires { IsIn root id doc.now.document }
    ensures { result ≡ model.pseudo_class_matches p id doc.now.document.root }
{
    match p {
        PseudoClass::Root => id == root,
        PseudoClass::FirstChild => is_first(doc, id, Nth::Child),
        PseudoClass::LastChild => is_first(doc, id, Nth::LastChild),
        PseudoClass::OnlyChild => is_only(doc, id, Nth::Child, Nth::LastChild),
        PseudoClass::FirstOfType => is_first(doc, id, Nth::OfType),
        PseudoClass::LastOfType => is_first(doc, id, Nth::LastOfType),
        PseudoClass::OnlyOfType => is_only(doc, id, Nth::OfType, Nth::LastOfType),
        PseudoClass::Unmatched => false,
    }
}

/// Whether the element `id` is the first from either end.
fn is_only(doc: &Doc, id: NodeId, start: Nth, end: Nth) -> bool
    requires { IsElementIn id doc.now.document }
    ensures { result ≡ (model.is_first start id doc.now.document.root && model.is_first end id doc.now.document.root) }
{
    is_first(doc, id, start) && is_first(doc, id, end)
}

/// Whether a simple selector matches (sections 5, 6, 4.2, 4.3 and 14).
#[cycle(matching)]
fn simple_matches(doc: &Doc, root: NodeId, id: NodeId, simple: &Simple) -> bool
    requires { IsIn root id doc.now.document }
    ensures { result ≡ model.simple_matches doc.now.document.root (simple_view simple.now) id }
{
    match simple {
        Simple::Type(name) => has_type(doc, id, name.as_str()),
        Simple::Universal => true,
        Simple::Id(value) => has_id(doc, id, value.as_str()),
        Simple::Class(name) => has_class(doc, id, name.as_str()),
        Simple::AttributePresent(name) => has_attribute(doc, id, name.as_str()),
        Simple::AttributeValue(name, matcher, value) => {
            attribute_matches(doc, id, name.as_str(), *matcher, value.as_str())
        }
        Simple::PseudoClass(p) => pseudo_class_matches(doc, root, id, *p),
        Simple::NthPseudoClass(nth, at) => nth_matches(doc, id, *nth, *at),
        Simple::Is(list) | Simple::Where(list) => list_matches(doc, root, id, list),
        Simple::Not(list) => !list_matches(doc, root, id, list),
        Simple::PseudoElement => false,
    }
}

/// Whether each simple selector of a compound matches (section 4.1).
#[cycle(matching)]
fn compound_matches(doc: &Doc, root: NodeId, id: NodeId, simples: &[Simple]) -> bool
    requires { IsIn root id doc.now.document }
    ensures { result ≡ model.compound_matches doc.now.document.root (compound_view simples.now) id }
{
    for simple in simples {
        if !simple_matches(doc, root, id, simple) {
            return false;
        }
    }
    true
}

/// Whether a member of the list matches (section 4.1).
#[cycle(matching)]
fn list_matches(doc: &Doc, root: NodeId, id: NodeId, list: &SelectorList) -> bool
    requires { IsIn root id doc.now.document }
    ensures { result ≡ model.list_matches doc.now.document.root (list_view list.now) id }
{
    for member in list.members.as_slice() {
        if selector_matches(doc, root, id, member) {
            return true;
        }
    }
    false
}

// ---- combinators

/// Whether the selector matches the element `id`.
#[cycle(matching)]
pub(crate) fn selector_matches(doc: &Doc, root: NodeId, id: NodeId, s: &Selector) -> bool
    requires { IsIn root id doc.now.document }
    ensures { result ≡ model.matches doc.now.document.root (selector_view s.now) id }
{
    let goal = Goal {
        links: s.links.len(),
        at: id,
    };
    match climb(doc, root, s, goal) {
        Reached::Matches => true,
        Reached::Fails => false,
        Reached::Open(right, _) => matches_above(doc, root, s, right),
    }
}

/// Whether the left part of an open goal matches an ancestor of its element.
///
/// The nearest ancestor that matches up to the next white space is enough: what is above a farther
/// one is above it too.
#[cycle(matching)]
fn matches_above(doc: &Doc, root: NodeId, s: &Selector, right: Goal) -> bool
    requires element { IsIn root right.at doc.now.document }
    requires links { IsWithin s.now right.links }
    ensures { result ≡ matches_one doc.now.document.root s.now (right.links - 1) (ancestors_of right.at doc.now.document.root) }
{
    let mut links = right.links - 1;
    let mut below = right.at;
    while let Some(at) = doc.parent(below) {
        match climb(doc, root, s, Goal { links, at }) {
            Reached::Matches => return true,
            Reached::Fails => below = at,
            Reached::Open(right, _) => {
                links = right.links - 1;
                below = right.at;
            }
        }
    }
    false
}

/// Walks from a goal to the left, up to the next white space.
#[cycle(matching)]
fn climb(doc: &Doc, root: NodeId, s: &Selector, start: Goal) -> Reached
    requires element { IsIn root start.at doc.now.document }
    requires links { start.links ≤ length (links_of s.now) }
    ensures { Climbs doc.now.document.root s.now start result }
{
    let mut goal = start;
    loop {
        match walk_row(doc, root, s, goal) {
            Reached::Open(right, Combinator::Child) => match doc.parent(right.at) {
                Some(at) => {
                    goal = Goal {
                        links: right.links - 1,
                        at,
                    }
                }
                None => return Reached::Fails,
            },
            reached => return reached,
        }
    }
}

/// Walks from a goal to the left, as long as there are siblings on the left.
#[cycle(matching)]
fn walk_row(doc: &Doc, root: NodeId, s: &Selector, goal: Goal) -> Reached
    requires element { IsIn root goal.at doc.now.document }
    requires links { goal.links ≤ length (links_of s.now) }
    ensures { WalksRow doc.now.document.root s.now goal result }
{
    match walk_chain(doc, root, s, goal) {
        Reached::Open(right, Combinator::SubsequentSibling) => walk_before(doc, root, s, right),
        reached => reached,
    }
}

/// Walks from an open goal to the left, where its left part has to match a sibling before.
///
/// The nearest sibling that matches up to the next `~` is enough: what is before a farther one is
/// before it too, and all have one parent.
#[cycle(matching)]
fn walk_before(doc: &Doc, root: NodeId, s: &Selector, right: Goal) -> Reached
    requires element { IsIn root right.at doc.now.document }
    requires links { IsWithin s.now right.links }
    ensures { WalksBefore doc.now.document.root s.now right result }
{
    let mut links = right.links - 1;
    let mut after = right.at;
    while let Some(at) = nearest(doc, after, Side::Before, None) {
        match walk_chain(doc, root, s, Goal { links, at }) {
            Reached::Matches => return Reached::Matches,
            Reached::Fails => after = at,
            Reached::Open(right, combinator) => {
                if leaves_row(combinator) {
                    return Reached::Open(right, combinator);
                }
                links = right.links - 1;
                after = right.at;
            }
        }
    }
    Reached::Fails
}

/// Whether a combinator leads out of the row of siblings.
fn leaves_row(combinator: Combinator) -> bool
    ensures { result ≡ ends_row combinator }
{
    match combinator {
        Combinator::Descendant | Combinator::Child => true,
        Combinator::NextSibling | Combinator::SubsequentSibling => false,
    }
}

/// Walks from a goal to the left, as long as there is a next-sibling combinator on the left.
#[cycle(matching)]
fn walk_chain(doc: &Doc, root: NodeId, s: &Selector, start: Goal) -> Reached
    requires element { IsIn root start.at doc.now.document }
    requires links { start.links ≤ length (links_of s.now) }
    ensures reaches { WalksChain doc.now.document.root s.now start result }
    ensures row { KeepsRow doc.now.document.root s.now start result }
{
    let mut goal = start;
    loop {
        match check(doc, root, s, goal) {
            Checked::Matches => return Reached::Matches,
            Checked::Fails => return Reached::Fails,
            Checked::Left(Combinator::NextSibling) => {
                match nearest(doc, goal.at, Side::Before, None) {
                    Some(at) => {
                        goal = Goal {
                            links: goal.links - 1,
                            at,
                        }
                    }
                    None => return Reached::Fails,
                }
            }
            Checked::Left(combinator) => return Reached::Open(goal, combinator),
        }
    }
}

/// Tests the compound of a goal.
#[cycle(matching)]
fn check(doc: &Doc, root: NodeId, s: &Selector, goal: Goal) -> Checked
    requires element { IsIn root goal.at doc.now.document }
    requires links { goal.links ≤ length (links_of s.now) }
    ensures { Checks doc.now.document.root s.now goal result }
{
    if goal.links == 0 {
        if compound_matches(doc, root, goal.at, s.first.as_slice()) {
            Checked::Matches
        } else {
            Checked::Fails
        }
    } else {
        let link = &s.links.as_slice()[goal.links - 1];
        if compound_matches(doc, root, goal.at, link.compound.as_slice()) {
            Checked::Left(link.combinator)
        } else {
            Checked::Fails
        }
    }
}
