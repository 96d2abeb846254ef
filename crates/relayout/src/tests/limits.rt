//! The limits on nodes, levels, ids and lines, on each side of them.
use crate::tests::{ONE_BOX, ONE_BOX_REPLIES, expect_replies};
use port_core::NoMemory;
use std::test::Fail;

/// Appends `part` to `script` `times` times.
fn repeat(script: &mut Vec<u8>, part: &[u8], times: usize) -> Result<(), NoMemory> {
    for _ in 0..times {
        script.extend_from_slice(part)?;
    }
    Ok(())
}

/// Appends `head`, a `div` with `children` children each in the one before it or side by side, and
/// the end of the request.
fn add_tree(
    script: &mut Vec<u8>,
    head: &[u8],
    children: usize,
    nested: bool,
) -> Result<(), NoMemory> {
    script.extend_from_slice(head)?;
    script.extend_from_slice(br#"["div""#)?;
    if nested {
        repeat(script, br#",["div""#, children)?;
        repeat(script, b"]", children)?;
    } else {
        repeat(script, br#",["div"]"#, children)?;
    }
    script.extend_from_slice(b"]}\n")
}

const LOAD: &[u8] = br#"{"do":"load","width":1,"height":1,"doc":"#;

const INSERT: &[u8] = br#"{"do":"insert","parent":0,"index":0,"tree":"#;

const INSERT_PAST: &[u8] = br#"{"do":"insert","parent":0,"index":20000,"tree":"#;

/// The trees of a script, as `add_tree` takes them: the limits on nodes and levels, on each side.
const TREES_AT_LIMITS: [(&[u8], usize, bool); 9] = [
    (LOAD, 20_000, false),
    (LOAD, 96, true),
    (LOAD, 125, true),
    (LOAD, 127, true),
    (LOAD, 95, true),
    (LOAD, 19_999, false),
    (INSERT_PAST, 0, false),
    (INSERT, 95, true),
    (INSERT, 0, false),
];

/// The replies to them.
const REPLIES_AT_LIMITS: &[u8] = br#"error 12 node-limit
error 13 depth-limit
error 13 depth-limit
error 1 bad-json
ok 0 96
ok 0 20000
error 10 bad-index
error 13 depth-limit
error 12 node-limit
"#;

#[test]
fn limits_are_exact(rt: HostRuntime) -> Result<(), Fail> {
    let mut script = Vec::new(rt.alloc());
    for (head, children, nested) in TREES_AT_LIMITS {
        add_tree(&mut script, head, children, nested)?;
    }
    expect_replies(&rt, rt.alloc(), script.as_slice(), REPLIES_AT_LIMITS)?;
    Ok(())
}

/// Appends the removal of a node.
fn add_remove(script: &mut Vec<u8>, id: &str) -> Result<(), NoMemory> {
    script.extend_from_slice(br#"{"do":"remove","id":"#)?;
    script.extend_from_slice(id.as_bytes())?;
    script.extend_from_slice(b"}\n")
}

/// The replies of a script that goes through all ids.
const REPLIES_AT_LAST_ID: &[u8] = br#"ok 0 1
ok 1 19999
ok
ok 20000 19999
ok
ok 39999 19999
ok
ok 59998 19999
ok
ok 79997 19999
error 12 node-limit
ok
error 15 id-limit
ok 99996 4
error 15 id-limit
"#;

#[test]
fn ids_have_a_limit(rt: HostRuntime) -> Result<(), Fail> {
    let mut script = Vec::new(rt.alloc());
    add_tree(&mut script, LOAD, 0, false)?;
    for id in ["1", "20000", "39999", "59998"] {
        add_tree(&mut script, INSERT, 19_998, false)?;
        add_remove(&mut script, id)?;
    }
    for children in [19_998, 4] {
        add_tree(&mut script, INSERT, children, false)?;
    }
    add_remove(&mut script, "79997")?;
    for children in [4, 3, 0] {
        add_tree(&mut script, INSERT, children, false)?;
    }
    expect_replies(&rt, rt.alloc(), script.as_slice(), REPLIES_AT_LAST_ID)?;
    Ok(())
}

#[test]
fn a_long_line_is_read_past(rt: HostRuntime) -> Result<(), Fail> {
    let mut script = Vec::new(rt.alloc());
    repeat(&mut script, b" ", 4_194_304)?;
    script.push(b'\n')?;
    repeat(&mut script, b" ", 4_194_305)?;
    script.push(b'\n')?;
    script.extend_from_slice(ONE_BOX)?;
    let mut replies = Vec::from_slice(rt.alloc(), b"error 3 line-too-long\n")?;
    replies.extend_from_slice(ONE_BOX_REPLIES)?;
    expect_replies(&rt, rt.alloc(), script.as_slice(), replies.as_slice())?;
    Ok(())
}
