//! Whether a place is on a cycle of references (CSS Custom Properties 1, section 2.3).
ghost use Rattle.custom_props.specs.inner.Graphs.{IsIn, IsWithin, Leads, Marks, is_marked};
ghost use Rattle.std.specs.List.{list_all};
ghost use Rattle.std.specs.Prelude.{◌≡◌, ◌<◌, ◌↔◌, IfOk, IsTrue, OnOk, [], ◌∷◌, false, true, length, replicate, ℕ};

use crate::graphs::successors;
use port_core::{NoMemory, Seq};
use std::alloc::Global;

/// Returns `count` places without a mark.
pub(crate) fn no_marks(alloc: Global, count: usize) -> Result<Seq<bool>, NoMemory>
    ensures { IfOk result (λ marks. marks ≡ replicate count false) }
{
    Ok(Seq::from_vec(vec![in alloc; false; count]?))
}

/// Whether a place is marked.
pub(crate) fn is_marked(marks: &Seq<bool>, place: usize) -> bool
    ensures { result ≡ is_marked marks.now place }
{
    match marks.get(place) {
        Some(mark) => *mark,
        None => false,
    }
}

/// Whether a place leads back to itself.
fn is_on_cycle(alloc: Global, graph: &[Seq<usize>], start: usize) -> Result<bool, NoMemory>
    requires start { start < length graph.now }
    requires within { IsWithin graph.now }
    ensures { IfOk result (λ on_cycle. IsTrue on_cycle ↔ Leads graph.now start start) }
{
    let mut marks = no_marks(alloc, graph.len())?;
    let mut pending = Seq::new(alloc);
    pending.push(start)?;
    while let Some(place) = pending.pop() {
        mark_all(successors(graph, place), &mut marks, &mut pending)?;
    }
    Ok(is_marked(&marks, start))
}

/// Whether a place leads back to itself, where the marked places are known not to. There is a search
/// only where it refers to a place without a mark.
pub(crate) fn is_on_cycle_beside(
    alloc: Global,
    graph: &[Seq<usize>],
    start: usize,
    off_cycles: &Seq<bool>,
) -> Result<bool, NoMemory>
    requires start { start < length graph.now }
    requires within { IsWithin graph.now }
    requires off_cycles { (y : ℕ) → is_marked off_cycles.now y ≡ true → Leads graph.now y y → ⊥ }
    ensures { IfOk result (λ on_cycle. IsTrue on_cycle ↔ Leads graph.now start start) }
{
    if are_marked(successors(graph, start), off_cycles) {
        return Ok(false);
    }
    is_on_cycle(alloc, graph, start)
}

/// Whether all these places are marked.
fn are_marked(places: &[usize], marks: &Seq<bool>) -> bool
    ensures { result ≡ list_all (is_marked marks.now) places.now }
{
    for place in places {
        if !is_marked(marks, *place) {
            return false;
        }
    }
    true
}

/// Marks these places; those that were not marked are to be looked at.
fn mark_all(
    places: &[usize],
    marks: &mut Seq<bool>,
    pending: &mut Seq<usize>,
) -> Result<(), NoMemory>
    requires { (y : ℕ) → IsIn y places.now → y < length marks.old }
    ensures { OnOk result (Marks places.now marks.old pending.old marks.new pending.new) }
{
    for index in 0..places.len() {
        mark(places[index], marks, pending)?;
    }
    Ok(())
}

fn mark(place: usize, marks: &mut Seq<bool>, pending: &mut Seq<usize>) -> Result<(), NoMemory>
    requires { place < length marks.old }
    ensures { OnOk result (Marks (place ∷ []) marks.old pending.old marks.new pending.new) }
{
    if is_marked(marks, place) {
        return Ok(());
    }
    marks.set(place, true);
    pending.push(place)?;
    Ok(())
}
