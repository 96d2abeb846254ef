//! Scripts with style sheets, and their replies.
use crate::tests::expect_replies;
use port_core::NoMemory;
use std::test::Fail;

/// Scripts with their replies, a row for each behaviour.
const ROWS: [(&[u8], &[u8]); 15] = [
    (br#"{"do":"rules"}"#, b"error 4 not-loaded\n"),
    (
        br#"{"do":"sheet","at":0,"css":""}"#,
        b"error 4 not-loaded\n",
    ),
    (br#"{"do":"rules","at":0}"#, b"error 2 bad-request\n"),
    (br#"{"do":"sheet","at":0}"#, b"error 2 bad-request\n"),
    (
        br#"{"do":"sheet","at":0,"css":1}"#,
        b"error 2 bad-request\n",
    ),
    (
        br#"{"do":"load","width":1,"height":1,"doc":["div"]}
{"do":"rules"}"#,
        b"ok 0 1\nok\n",
    ),
    // Rules stop where the text does.
    (
        br#"{"do":"load","width":1,"height":1,"doc":["div"],"sheets":["p{height:1px}@foo x{y}@container (width>1px){q{height:\"c"]}
{"do":"rules"}"#,
        br#"ok 0 1
rule 0 0 0 1 "p"
rule 0 1 1 1 "q"
ok
"#,
    ),
    // Comments are left out, and white space is one space.
    (
        br#"{"do":"load","width":1,"height":1,"doc":["div"],"sheets":["/*x*/ a , b{c:d;e}{f:g!important}}h{i:j"]}
{"do":"rules"}"#,
        br#"ok 0 1
rule 0 0 0 1 "a , b"
rule 0 1 0 1 ""
rule 0 2 0 1 "}h"
ok
"#,
    ),
    // Quotes and control characters are escaped.
    (
        br#"{"do":"load","width":1,"height":1,"doc":["div"],"sheets":["[a=\"\\\\\"]\n\tb\u0001\u001f \u00e9(x){a:b;c:d}"]}
{"do":"rules"}"#,
        b"ok 0 1\nrule 0 0 0 2 \"[a=\\\"\\\\\\\\\\\"] b\\u0001\\u001f \xc3\xa9(x)\"\nok\n",
    ),
    // Conditions are counted along the blocks around a rule.
    (
        br#"{"do":"load","width":1,"height":1,"doc":["div"],"sheets":["@media x{a{}@CONTAINER{b{}@supports y{c{}}}d{}}e{}","","f{}"]}
{"do":"rules"}"#,
        br#"ok 0 1
rule 0 0 1 0 "a"
rule 0 1 2 0 "b"
rule 0 2 1 0 "d"
rule 0 3 0 0 "e"
rule 2 0 0 0 "f"
ok
"#,
    ),
    // A sheet is replaced, appended, and taken out; later ones move down.
    (
        br#"{"do":"load","width":1,"height":1,"doc":["div"],"sheets":["a{}","b{}"]}
{"do":"sheet","at":2,"css":"c{}"}
{"do":"sheet","at":0,"css":"d{}"}
{"do":"rules"}
{"do":"sheet","at":1,"css":null}
{"do":"rules"}
{"do":"sheet","at":1,"css":null}
{"do":"sheet","at":0,"css":null}
{"do":"rules"}"#,
        br#"ok 0 1
ok
ok
rule 0 0 0 0 "d"
rule 1 0 0 0 "b"
rule 2 0 0 0 "c"
ok
ok
rule 0 0 0 0 "d"
rule 1 0 0 0 "c"
ok
ok
ok
ok
"#,
    ),
    // A place that has no sheet, and one past the end.
    (
        br#"{"do":"load","width":1,"height":1,"doc":["div"]}
{"do":"sheet","at":1,"css":""}
{"do":"sheet","at":0,"css":null}
{"do":"sheet","at":18446744073709551615,"css":"a{}"}
{"do":"sheet","at":0,"css":"a{}"}
{"do":"sheet","at":1,"css":null}
{"do":"rules"}"#,
        br#"ok 0 1
error 18 no-sheet
error 18 no-sheet
error 18 no-sheet
ok
error 18 no-sheet
rule 0 0 0 0 "a"
ok
"#,
    ),
    // Eight sheets and no more.
    (
        br#"{"do":"load","width":1,"height":1,"doc":["div"],"sheets":["","","","","","","",""]}
{"do":"sheet","at":9,"css":""}
{"do":"sheet","at":8,"css":""}
{"do":"sheet","at":7,"css":"a{}"}
{"do":"load","width":1,"height":1,"doc":["div"],"sheets":["","","","","","","","",""]}
{"do":"load","width":10001,"height":1,"doc":["div"],"sheets":["","","","","","","","",""]}
{"do":"rules"}"#,
        br#"ok 0 1
error 18 no-sheet
error 17 sheet-limit
ok
error 17 sheet-limit
error 16 viewport-range
rule 7 0 0 0 "a"
ok
"#,
    ),
    // A dump is built where no sheet has a style rule.
    (
        br#"{"do":"dump"}
{"do":"load","width":10,"height":1,"doc":["div"],"sheets":["@foo{}"]}
{"do":"dump"}
{"do":"sheet","at":1,"css":"a{}"}
{"do":"dump"}
{"do":"sheet","at":1,"css":null}
{"do":"dump"}"#,
        br#"error 4 not-loaded
ok 0 1
box 0 div 0 0 640 0 640 0
ok
ok
error 21 not-built
ok
box 0 div 0 0 640 0 640 0
ok
"#,
    ),
    // The script of docs/protocol.md.
    (
        br#"{"do":"load","width":1,"height":1,"doc":["div"],"sheets":["p{height:1px}@foo x{y}@container (width>1px){q{height:\"c"]}
{"do":"rules"}
{"do":"dump"}
{"do":"sheet","at":1,"css":"/*x*/ a , b{c:d;e}"}
{"do":"sheet","at":0,"css":null}
{"do":"rules"}
{"do":"sheet","at":3,"css":""}"#,
        br#"ok 0 1
rule 0 0 0 1 "p"
rule 0 1 1 1 "q"
ok
error 21 not-built
ok
ok
rule 0 0 0 1 "a , b"
ok
error 18 no-sheet
"#,
    ),
];

#[test]
fn each_script_of_sheets_has_its_replies(rt: HostRuntime) -> Result<(), Fail> {
    for (script, replies) in ROWS {
        expect_replies(&rt, rt.alloc(), script, replies)?;
    }
    Ok(())
}

/// Parts of which sheets at their limits are made, and how many of them a sheet has at most.
const SHEETS_AT_LIMITS: [(&[u8], usize); 3] = [(b" ", 1_048_576), (b"(", 64), (b"a{}", 2_000)];

/// Appends a request that puts a sheet of `count` such parts in the first place.
fn add_sheet(script: &mut Vec<u8>, part: &[u8], count: usize) -> Result<(), NoMemory> {
    script.extend_from_slice(br#"{"do":"sheet","at":0,"css":""#)?;
    for _ in 0..count {
        script.extend_from_slice(part)?;
    }
    script.extend_from_slice(b"\"}\n")
}

#[test]
fn limits_of_sheets_are_exact(rt: HostRuntime) -> Result<(), Fail> {
    let mut script = Vec::new(rt.alloc());
    script.extend_from_slice(br#"{"do":"load","width":1,"height":1,"doc":["div"]}"#)?;
    script.push(b'\n')?;
    for (part, most) in SHEETS_AT_LIMITS {
        add_sheet(&mut script, part, most)?;
        add_sheet(&mut script, part, most + 1)?;
    }
    expect_replies(
        &rt,
        rt.alloc(),
        script.as_slice(),
        br#"ok 0 1
ok
error 17 sheet-limit
ok
error 17 sheet-limit
ok
error 17 sheet-limit
"#,
    )?;
    Ok(())
}
