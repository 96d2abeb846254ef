//! Short scripts and their replies.
use crate::tests::expect_replies;
use std::test::Fail;

/// Scripts with their replies, a row for each behaviour.
const ROWS: [(&[u8], &[u8]); 36] = [
    (b"", b""),
    (b"   \n\t\r\n\n", b""),
    (b"\x0c", b"error 1 bad-json\n"),
    (b"\x0b\n", b"error 1 bad-json\n"),
    (br#"{"do":"dump"}"#, b"error 4 not-loaded\n"),
    (br#"{"do":"fly","do":"dump"}"#, b"error 4 not-loaded\n"),
    (b"{", b"error 1 bad-json\n"),
    (br#"{"do":"dump"} x"#, b"error 1 bad-json\n"),
    (b"{\"do\":\"\xff\"}", b"error 1 bad-json\n"),
    (br#"{"do":"dump","a":"\ud800"}"#, b"error 1 bad-json\n"),
    (br#"{"do":"fly"}"#, b"error 2 bad-request\n"),
    (br#"{"do":"dump","at":1}"#, b"error 2 bad-request\n"),
    (br#"{"do":"insert"}"#, b"error 2 bad-request\n"),
    (br#"{"do":"resize"}"#, b"error 21 not-built\n"),
    (br#"{"do":"remove","id":0}"#, b"error 4 not-loaded\n"),
    (
        br#"{"do":"insert","parent":0,"index":0,"tree":["div"]}"#,
        b"error 4 not-loaded\n",
    ),
    (
        br#"{"do":"insert","parent":0,"index":0,"tree":["div"],"at":0}"#,
        b"error 2 bad-request\n",
    ),
    (
        br#"{"do":"insert","parent":0,"index":0,"tree":"text"}"#,
        b"error 21 not-built\n",
    ),
    (
        br#"{"do":"load","width":10001,"height":20,"doc":["p","text"]}"#,
        b"error 21 not-built\n",
    ),
    (
        br#"{"do":"load","width":10001,"height":20,"doc":["div"]}"#,
        b"error 16 viewport-range\n",
    ),
    (
        br#"{"do":"load","width":20,"height":10001,"doc":["div"]}"#,
        b"error 16 viewport-range\n",
    ),
    (
        br#"{"do":"load","width":10000,"height":10000,"doc":["div"]}"#,
        b"ok 0 1\n",
    ),
    (
        br#"{"do":"load","width":1,"height":1,"doc":["div"],"at":0}"#,
        b"error 2 bad-request\n",
    ),
    (
        br#"{"do":"load","width":1,"height":1,"doc":["div"],"sheets":null}"#,
        b"error 2 bad-request\n",
    ),
    (
        br#"{"do":"load","width":1,"height":1,"doc":["div"],"sheets":[1]}"#,
        b"error 2 bad-request\n",
    ),
    (
        br#"{"do":"load","width":1,"height":1,"doc":["div"],"sheets":[]}"#,
        b"ok 0 1\n",
    ),
    (
        br#"{"do":"load","width":1,"height":1,"doc":["div","text"]}"#,
        b"error 21 not-built\n",
    ),
    (
        br#"{"do":"load","width":1,"height":1,"doc":"div"}"#,
        b"error 2 bad-request\n",
    ),
    (
        br#"{"do":"load","width":-0,"height":1,"doc":["div"]}"#,
        b"error 2 bad-request\n",
    ),
    (
        br#"{"do":"load","width":1.0,"height":1,"doc":["div"]}"#,
        b"error 2 bad-request\n",
    ),
    (
        br#"{"do":"load","width":1e400,"height":1,"doc":["div"]}"#,
        b"error 1 bad-json\n",
    ),
    (
        br#"{"do":"load","width":18446744073709551615,"height":1,"doc":["div"]}
{"do":"load","width":18446744073709551616,"height":1,"doc":["div"]}"#,
        b"error 16 viewport-range\nerror 2 bad-request\n",
    ),
    // A refused load leaves the page as it was.
    (
        br#"{"do":"load","width":10,"height":20,"doc":["div",["div"],["div",{}]]}
{"do":"load","width":10001,"height":20,"doc":["div"]}
{"do":"dump"}"#,
        br#"ok 0 3
error 16 viewport-range
box 0 div 0 0 640 0 640 0
box 1 div 0 0 640 0 640 0
box 2 div 0 0 640 0 640 0
ok
"#,
    ),
    // Ids go on after a remove, and a number past all ids is not cut.
    (
        br#"{"do":"load","width":10,"height":20,"doc":["div"]}
{"do":"insert","parent":0,"index":0,"tree":["div",["div"]]}
{"do":"remove","id":1}
{"do":"remove","id":2}
{"do":"insert","parent":0,"index":0,"tree":["div",["div"]]}
{"do":"remove","id":0}
{"do":"insert","parent":4,"index":1,"tree":["div"]}
{"do":"insert","parent":4294967296,"index":0,"tree":["div"]}
{"do":"insert","parent":0,"index":4294967296,"tree":["div"]}
{"do":"remove","id":4294967299}
{"do":"insert","parent":0,"index":0,"tree":["div"]}
{"do":"insert","parent":0,"index":2,"tree":["div"]}
{"do":"dump"}"#,
        br#"ok 0 1
ok 1 2
ok
error 5 no-node
ok 3 2
error 8 is-root
error 10 bad-index
error 5 no-node
error 10 bad-index
error 5 no-node
ok 5 1
ok 6 1
box 0 div 0 0 640 0 640 0
box 5 div 0 0 640 0 640 0
box 3 div 0 0 640 0 640 0
box 4 div 0 0 640 0 640 0
box 6 div 0 0 640 0 640 0
ok
"#,
    ),
    // The script of the README.
    (
        br#"{"do":"dump"}
{"do":"load","width":800,"height":600,"doc":["div",["div"],["div",["div"]]]}
{"do":"dump"}
{"do":"insert","parent":2,"index":1,"tree":["div"]}
{"do":"remove","id":3}
{"do":"remove","id":3}
{"do":"load","width":800,"height":600,"doc":["div","text"]}"#,
        br#"error 4 not-loaded
ok 0 4
box 0 div 0 0 51200 0 51200 0
box 1 div 0 0 51200 0 51200 0
box 2 div 0 0 51200 0 51200 0
box 3 div 0 0 51200 0 51200 0
ok
ok 4 1
ok
error 5 no-node
error 21 not-built
"#,
    ),
    // The script of docs/protocol.md.
    (
        br#"{"do":"load","width":10,"height":20,"doc":["div",["div",{}]]}
{"do":"insert","parent":0,"index":0,"tree":["div",["div"]]}
{"do":"remove","id":2}
{"do":"remove","id":3}
{"do":"insert","parent":0,"index":1,"tree":["div"]}
{"do":"insert","parent":0,"index":9,"tree":["div"]}
{"do":"dump"}"#,
        br#"ok 0 2
ok 2 2
ok
error 5 no-node
ok 4 1
error 10 bad-index
box 0 div 0 0 640 0 640 0
box 1 div 0 0 640 0 640 0
box 4 div 0 0 640 0 640 0
ok
"#,
    ),
];

#[test]
fn each_script_has_its_replies(rt: HostRuntime) -> Result<(), Fail> {
    for (script, replies) in ROWS {
        expect_replies(&rt, rt.alloc(), script, replies)?;
    }
    Ok(())
}
