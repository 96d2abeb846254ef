//! Serving scripts.
ghost use Rattle.std.specs.Prelude.{◌≡◌, ◌++◌};
ghost use Rattle.stream_model.specs.Ledger.{events};
ghost use Rattle.request_model.specs.States.{logs_of_asked};
ghost use Rattle.port_core.specs.Reader.{HasNotFailed};
ghost use Rattle.relayout_requests.specs.Views.{asked_view};
ghost use Rattle.relayout_cli.specs.Runs.{setting_of, Serves};
ghost use Rattle.relayout_cli.specs.inner.Coming.{Comes, ReadsOn, IsAtEnd};
ghost use Rattle.relayout_cli.specs.inner.Turns.{Turns, Tells, empty_logs};

use crate::page::Page;
use crate::respond::respond;
use crate::status::Status;
use page_model::Cause;
use port_core::{Line, LineReader, NoMemory, Push, Sink, Source, Steps};
use relayout_requests::{Asked, Request, ask};
use request_model::Query;
use std::alloc::Global;

/// What comes next of a script.
#[derive(Debug, Drop)]
pub enum Coming {
    /// A line that asks for this.
    Asks(Asked),
    /// Nothing: the source has ended.
    End,
    /// Nothing: the source failed.
    Failed,
    /// Nothing: the source gave all that a run takes.
    Spent,
    /// A line that there is no memory for.
    NoMemory,
}

/// How answering a line ended.
#[derive(Clone, Copy, Debug, PartialEq, Eq)]
pub enum Turn {
    /// The reply was written, if there is one.
    Answered,
    /// The sink failed.
    Failed,
    /// There was no memory for the reply.
    NoMemory,
}

/// Serves a script: answers each line of the source in its order, until the source ends or
/// something fails.
pub fn serve<I: Source, O: Sink, L: Drop>(
    alloc: Global,
    profile: u8,
    source: &mut I,
    sink: &mut O,
    steps: &mut Steps<L>,
) -> Status
    requires profile { profile ≡ 1 }
    ensures serves { Serves (setting_of profile) result (record {
      before = record { source = I.seen source.old; sink = O.seen sink.old; ledger = steps.old };
      after = record { source = I.seen source.new; sink = O.seen sink.new; ledger = steps.new };
    }) }
{
    // Nothing is laid out by the profile yet.
    let _ = profile;
    let mut reader = match LineReader::new(alloc) {
        Ok(reader) => reader,
        Err(NoMemory) => return Status::NoMemory,
    };
    let mut state = None;
    let mut reply = String::new(alloc);
    'script: loop {
        match read(alloc, &mut reader, source) {
            Coming::Asks(asked) => match answer(alloc, asked, &mut state, &mut reply, sink, steps) {
                Turn::Answered => {}
                Turn::Failed => return Status::WriteFault,
                Turn::NoMemory => return Status::NoMemory,
            },
            Coming::End => return Status::Done,
            Coming::Failed => return Status::ReadFault,
            Coming::Spent => return Status::InputSpent,
            Coming::NoMemory => return Status::NoMemory,
        }
    }
}

/// Reads the next line, and what it asks for.
fn read<I: Source>(alloc: Global, reader: &mut LineReader, source: &mut I) -> Coming
    requires going { HasNotFailed reader.old }
    requires ended { IsAtEnd reader.old (I.seen source.old) }
    ensures comes { Comes result reader.old reader.new (I.seen source.old) (I.seen source.new) }
    ensures reads_on { ReadsOn reader.old reader.new (I.seen source.old) (I.seen source.new) }
{
    match reader.next(source) {
        Line::Whole => match ask(alloc, reader.line()) {
            Ok(asked) => Coming::Asks(asked),
            Err(NoMemory) => Coming::NoMemory,
        },
        Line::TooLong => Coming::Asks(Asked::Broken(Cause::LineTooLong)),
        Line::End => Coming::End,
        Line::Failed => Coming::Failed,
        Line::Spent => Coming::Spent,
    }
}

/// Answers what a line asks for.
fn answer<O: Sink, L: Drop>(
    alloc: Global,
    asked: Asked,
    state: &mut Option<Page>,
    reply: &mut String,
    sink: &mut O,
    steps: &mut Steps<L>,
) -> Turn
    ensures turns { Turns result (asked_view asked) state.old state.new
        (record { sink = O.seen sink.old; ledger = steps.old })
        (record { sink = O.seen sink.new; ledger = steps.new }) }
{
    begin_log(&asked, steps);
    reply.clear();
    match respond(alloc, state, asked, reply, steps) {
        Ok(()) => tell(reply.as_str(), sink),
        Err(NoMemory) => Turn::NoMemory,
    }
}

/// Begins a new log where a line asks for an edit, or for boxes or styles, which are computed anew.
fn begin_log<L: Drop>(asked: &Asked, steps: &mut Steps<L>)
    ensures { steps.new ≡ steps.old ++ events (empty_logs (logs_of_asked (asked_view asked.now))) }
{
    match asked {
        Asked::Request(Request::Edit(_) | Request::Query(Query::Dump | Query::Style(_))) =>
            steps.mark(),
        _ => {}
    }
}

/// Writes a reply, if there is one.
fn tell<O: Sink>(reply: &str, sink: &mut O) -> Turn
    ensures { Tells result reply.now (O.seen sink.old) (O.seen sink.new) }
{
    if reply.is_empty() {
        return Turn::Answered;
    }
    match sink.push(reply.as_bytes()) {
        Push::Done => Turn::Answered,
        Push::Failed => Turn::Failed,
    }
}
