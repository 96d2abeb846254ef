//! An order of places in which each stands after those to which it refers, where that can be.
ghost use Rattle.custom_props.specs.inner.Graphs.{IsOrder, IsWithin};
ghost use Rattle.custom_props.specs.inner.Walks.{AreAllEntered, Enters, entered};
ghost use Rattle.std.specs.Prelude.{◌≡◌, ◌++◌, IfOk, OnOk, length};

use crate::graphs::successors;
use crate::searches::{is_marked, no_marks};
use port_core::{NoMemory, Seq};
use std::alloc::Global;

/// What is to be done with a place.
#[derive(Clone, Copy, Debug, PartialEq, Eq)]
pub(crate) enum Task {
    /// It is entered: what it refers to comes before it.
    Enter(usize),
    /// It is left: all that it refers to was entered.
    Leave(usize),
}

/// All places in order. Each task is done once, so the time grows with the references.
pub(crate) fn order_of(alloc: Global, graph: &[Seq<usize>]) -> Result<Seq<usize>, NoMemory>
    requires { IsWithin graph.now }
    ensures { IfOk result (λ order. IsOrder graph.now order) }
{
    let mut marks = no_marks(alloc, graph.len())?;
    let mut tasks = enter_each(alloc, graph.len())?;
    let mut order = Seq::new(alloc);
    while let Some(task) = tasks.pop() {
        match task {
            Task::Enter(place) => enter(graph, place, &mut marks, &mut tasks)?,
            Task::Leave(place) => order.push(place)?,
        }
    }
    Ok(order)
}

/// Enters a place, unless it was: all to which it refers are entered before it is left.
fn enter(
    graph: &[Seq<usize>],
    place: usize,
    marks: &mut Seq<bool>,
    tasks: &mut Seq<Task>,
) -> Result<(), NoMemory>
    requires { length marks.old ≡ length graph.now }
    ensures { OnOk result (Enters graph.now place marks.old tasks.old marks.new tasks.new) }
{
    if place >= marks.len() || is_marked(marks, place) {
        return Ok(());
    }
    marks.set(place, true);
    tasks.push(Task::Leave(place))?;
    enter_all(successors(graph, place), tasks)
}

/// Places are to be entered.
fn enter_all(places: &[usize], tasks: &mut Seq<Task>) -> Result<(), NoMemory>
    ensures { OnOk result (tasks.new ≡ tasks.old ++ entered places.now) }
{
    for place in places {
        tasks.push(Task::Enter(*place))?;
    }
    Ok(())
}

/// Each of so many places is to be entered.
fn enter_each(alloc: Global, count: usize) -> Result<Seq<Task>, NoMemory>
    ensures { IfOk result (λ tasks. AreAllEntered count tasks) }
{
    let mut tasks = Seq::new(alloc);
    for place in 0..count {
        tasks.push(Task::Enter(place))?;
    }
    Ok(tasks)
}
