//! Whole scripts over a source and a sink in memory, with the replies that they must have.
mod endings;
mod limits;
mod matches;
mod names;
mod order;
mod replies;
mod sheets;
mod styles;

use port_core::{MemSink, MemSource, NoMemory, Steps};
use relayout_cli::{Status, run};
use std::alloc::Global;
use std::process::Abort;

/// A load of one `div`, and a dump of it.
const ONE_BOX: &[u8] = br#"{"do":"load","width":800,"height":600,"doc":["div"]}
{"do":"dump"}"#;

/// The replies to it.
const ONE_BOX_REPLIES: &[u8] = br#"ok 0 1
box 0 div 0 0 51200 0 51200 0
ok
"#;

/// Returns the words of a command line: the program's name, and `others` more.
fn words(alloc: Global, others: usize) -> Result<Vec<String>, NoMemory> {
    let mut words = Vec::new(alloc);
    words.push(String::from_str(alloc, "relayout")?)?;
    for _ in 0..others {
        words.push(String::from_str(alloc, "--help")?)?;
    }
    Ok(words)
}

/// Returns the status of a run that did not end for want of memory.
fn ending(status: Status) -> Result<Status, NoMemory> {
    match status {
        Status::NoMemory => Err(NoMemory),
        other => Ok(other),
    }
}

/// A script over a source and a sink in memory: how it ends, and what it writes.
#[derive(Drop)]
struct Case<'a> {
    script: &'a [u8],
    piece: usize,
    fail_at: Option<u64>,
    room: usize,
    status: Status,
    replies: &'a [u8],
}

/// Runs a script, and compares.
fn expect(rt: &impl Abort, alloc: Global, case: &Case) -> Result<(), NoMemory> {
    let words = words(alloc, 0)?;
    let piece = case.piece.max(1);
    let mut source = MemSource::new(alloc, case.script, piece, case.fail_at)?;
    let mut sink = MemSink::new(alloc, case.room)?;
    let mut steps = Steps::new(());
    let status = ending(run(alloc, words.as_slice(), &mut source, &mut sink, &mut steps))?;
    assert_eq!(rt; status, case.status);
    assert_eq!(rt; sink.bytes(), case.replies);
    Ok(())
}

/// Serves a script to its end, and compares.
fn expect_replies(
    rt: &impl Abort,
    alloc: Global,
    script: &[u8],
    replies: &[u8],
) -> Result<(), NoMemory> {
    let case = Case {
        script,
        piece: 4096,
        fail_at: None,
        room: 1_000_000,
        status: Status::Done,
        replies,
    };
    expect(rt, alloc, &case)
}
