//! How a run ends, what it has written then, and what the ledger has.
use crate::tests::{Case, ONE_BOX, ONE_BOX_REPLIES, ending, expect, words};
use port_core::{MemSink, MemSource, NoMemory, Steps};
use relayout_cli::{Status, run};
use std::alloc::Global;
use std::process::Abort;
use std::test::Fail;
use stream_model::Kind;

/// Serves the script of one box with this fault, and compares.
fn expect_fault(
    rt: &impl Abort,
    alloc: Global,
    fail_at: Option<u64>,
    room: usize,
    status: Status,
    replies: &[u8],
) -> Result<(), NoMemory> {
    let case = Case {
        script: ONE_BOX,
        piece: 9,
        fail_at,
        room,
        status,
        replies,
    };
    expect(rt, alloc, &case)
}

#[test]
fn each_piece_gives_the_same_replies(rt: HostRuntime) -> Result<(), Fail> {
    for piece in [1, 2, 3, 7, 1000] {
        let case = Case {
            script: ONE_BOX,
            piece,
            fail_at: None,
            room: 1000,
            status: Status::Done,
            replies: ONE_BOX_REPLIES,
        };
        expect(&rt, rt.alloc(), &case)?;
    }
    Ok(())
}

#[test]
fn a_full_sink_is_a_write_fault(rt: HostRuntime) -> Result<(), Fail> {
    expect_fault(
        &rt,
        rt.alloc(),
        None,
        10,
        Status::WriteFault,
        b"ok 0 1\nbox",
    )?;
    Ok(())
}

#[test]
fn a_source_that_fails_is_a_read_fault(rt: HostRuntime) -> Result<(), Fail> {
    for fail_at in [60, ONE_BOX.len() as u64] {
        expect_fault(
            &rt,
            rt.alloc(),
            Some(fail_at),
            1000,
            Status::ReadFault,
            b"ok 0 1\n",
        )?;
    }
    Ok(())
}

/// Runs with these words into a sink of this room, and compares.
fn expect_usage(
    rt: &impl Abort,
    alloc: Global,
    words: &[String],
    room: usize,
    status: Status,
) -> Result<(), NoMemory> {
    let usage = b"usage: relayout [--gen N] [--profile 1|2]\n".as_slice();
    let mut source = MemSource::new(alloc, ONE_BOX, 1000, None)?;
    let mut sink = MemSink::new(alloc, room)?;
    let mut steps = Steps::new(());
    let given = ending(run(alloc, words, &mut source, &mut sink, &mut steps))?;
    assert_eq!(rt; given, status);
    assert_eq!(rt; sink.bytes(), &usage[..room.min(usage.len())]);
    Ok(())
}

#[test]
fn other_words_are_told_the_usage(rt: HostRuntime) -> Result<(), Fail> {
    let two = words(rt.alloc(), 1)?;
    let none = Vec::new(rt.alloc());
    expect_usage(&rt, rt.alloc(), two.as_slice(), 1000, Status::BadWords)?;
    expect_usage(&rt, rt.alloc(), none.as_slice(), 1000, Status::BadWords)?;
    expect_usage(&rt, rt.alloc(), two.as_slice(), 5, Status::WriteFault)?;
    Ok(())
}

#[test]
fn statuses_have_their_numbers(rt: HostRuntime) {
    assert_eq!(rt; Status::Done.number(), 0);
    assert_eq!(rt; Status::BadWords.number(), 2);
    assert_eq!(rt; Status::ReadFault.number(), 3);
    assert_eq!(rt; Status::WriteFault.number(), 4);
    assert_eq!(rt; Status::NoMemory.number(), 5);
    assert_eq!(rt; Status::InputSpent.number(), 6);
}

/// Returns how many pairs a ledger that had one has since its last mark after this script.
fn pairs_after(alloc: Global, script: &[u8]) -> Result<u64, NoMemory> {
    let words = words(alloc, 0)?;
    let mut source = MemSource::new(alloc, script, 1000, None)?;
    let mut sink = MemSink::new(alloc, 2000)?;
    let mut steps = Steps::new(());
    steps.tick(Kind::Match, 0);
    let _status = ending(run(alloc, words.as_slice(), &mut source, &mut sink, &mut steps))?;
    Ok(steps.count(Kind::Match))
}

#[test]
fn edits_dumps_and_styles_mark_the_ledger(rt: HostRuntime) -> Result<(), Fail> {
    let others = pairs_after(
        rt.alloc(),
        b"\n{\"do\":\"rules\"}\n{\n{\"do\":\"resize\"}\n",
    )?;
    assert_eq!(rt; others, 1);
    let refused = pairs_after(rt.alloc(), br#"{"do":"remove","id":0}"#)?;
    assert_eq!(rt; refused, 0);
    let dump = pairs_after(rt.alloc(), br#"{"do":"dump"}"#)?;
    assert_eq!(rt; dump, 0);
    // The root and the element itself are matched.
    let style = pairs_after(
        rt.alloc(),
        br#"{"do":"load","width":1,"height":1,"doc":["div",["p"],["q"]]}
{"do":"style","id":1}"#,
    )?;
    assert_eq!(rt; style, 2);
    Ok(())
}
