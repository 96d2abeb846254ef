//! Scripts that ask what a selector matches, and their replies.
use crate::tests::expect_replies;
use port_core::NoMemory;
use std::test::Fail;

/// Scripts with their replies, a row for each behaviour.
const ROWS: [(&[u8], &[u8]); 8] = [
    // The request has a selector, which is a string; it needs a page, and that is asked first.
    (
        br#"{"do":"match"}
{"do":"match","selector":null}
{"do":"match","selector":"a","id":0}
{"do":"match","selector":"a"}
{"do":"match","selector":","}"#,
        br#"error 2 bad-request
error 2 bad-request
error 2 bad-request
error 4 not-loaded
error 4 not-loaded
"#,
    ),
    // Positions; what is not in the grammar; a list that forgives.
    (
        br#"{"do":"load","width":1,"height":1,"doc":["ul",["li"],["li"],["li"]]}
{"do":"match","selector":"li:nth-child(2n+1):not(:last-child)"}
{"do":"match","selector":"li:has(a)"}
{"do":"match","selector":":is(li:zz, ul)"}"#,
        br#"ok 0 4
match 1
ok
error 20 bad-selector
match 0
ok
"#,
    ),
    // Each member of a list; pseudo-elements, which match nothing; a list that does not forgive.
    (
        br#"{"do":"load","width":1,"height":1,"doc":["div",["p",{"class":"a b"}],["p"],["q"]]}
{"do":"match","selector":".a ~ q, p:nth-last-of-type(1)"}
{"do":"match","selector":"::before"}
{"do":"match","selector":"p:not(:zz)"}"#,
        br#"ok 0 4
match 2
match 3
ok
ok
error 20 bad-selector
"#,
    ),
    // Elements stand in document order, each once, also where two members match it.
    (
        br#"{"do":"load","width":1,"height":1,"doc":["div",["p",["q"]]]}
{"do":"insert","parent":0,"index":0,"tree":["q",["p"]]}
{"do":"match","selector":"p, *"}
{"do":"remove","id":1}
{"do":"match","selector":"p, *"}
{"do":"match","selector":"p"}
{"do":"match","selector":"q > q"}"#,
        br#"ok 0 3
ok 3 2
match 0
match 3
match 4
match 1
match 2
ok
ok
match 0
match 3
match 4
ok
match 4
ok
ok
"#,
    ),
    // What is no selector list.
    (
        br#"{"do":"load","width":1,"height":1,"doc":["a"]}
{"do":"match","selector":""}
{"do":"match","selector":" /**/ "}
{"do":"match","selector":"a,"}
{"do":"match","selector":"a > > a"}
{"do":"match","selector":"a {"}
{"do":"match","selector":"[a"}
{"do":"match","selector":" a /**/ , b "}"#,
        br#"ok 0 1
error 20 bad-selector
error 20 bad-selector
error 20 bad-selector
error 20 bad-selector
error 20 bad-selector
ok
match 0
ok
"#,
    ),
    // Code points are read from JSON; names and values compare exactly.
    (
        br#"{"do":"load","width":1,"height":1,"doc":["\u00e9",["P",{"id":"x","title":"Y"}],["p"]]}
{"do":"match","selector":"\u00e9"}
{"do":"match","selector":"\u0023x"}
{"do":"match","selector":"\\50"}
{"do":"match","selector":"[title=y], [Title]"}
{"do":"match","selector":"[title=\"Y\"]"}"#,
        br#"ok 0 3
match 0
ok
match 1
ok
match 1
ok
ok
match 1
ok
"#,
    ),
    // A match changes nothing, and rules do not change it.
    (
        br#"{"do":"load","width":10,"height":1,"doc":["div"],"sheets":["p{}"]}
{"do":"match","selector":"div"}
{"do":"match","selector":":"}
{"do":"sheet","at":0,"css":null}
{"do":"dump"}
{"do":"insert","parent":0,"index":0,"tree":["p"]}
{"do":"match","selector":"div > p:first-child"}"#,
        br#"ok 0 1
match 0
ok
error 20 bad-selector
ok
box 0 div 0 0 640 0 640 0
ok
ok 1 1
match 1
ok
"#,
    ),
    // The script of docs/protocol.md.
    (
        br#"{"do":"load","width":800,"height":600,"doc":["ul",["li",{"class":"a b"}],["li"],["li"]]}
{"do":"match","selector":".a ~ li, ul"}
{"do":"match","selector":"li::before"}
{"do":"match","selector":"li:has(a)"}
{"do":"dump"}"#,
        br#"ok 0 4
match 0
match 2
match 3
ok
ok
error 20 bad-selector
error 21 not-built
"#,
    ),
];

#[test]
fn each_script_of_matches_has_its_replies(rt: HostRuntime) -> Result<(), Fail> {
    for (script, replies) in ROWS {
        expect_replies(&rt, rt.alloc(), script, replies)?;
    }
    Ok(())
}

/// Appends a match of `*` in so many functions in one another.
fn add_match(script: &mut Vec<u8>, levels: usize) -> Result<(), NoMemory> {
    script.extend_from_slice(br#"{"do":"match","selector":""#)?;
    for _ in 0..levels {
        script.extend_from_slice(b":is(")?;
    }
    script.push(b'*')?;
    for _ in 0..levels {
        script.push(b')')?;
    }
    script.extend_from_slice(b"\"}\n")
}

#[test]
fn selectors_nest_as_deep_as_they_may(rt: HostRuntime) -> Result<(), Fail> {
    let mut script = Vec::new(rt.alloc());
    script.extend_from_slice(br#"{"do":"load","width":1,"height":1,"doc":["div"]}"#)?;
    script.push(b'\n')?;
    add_match(&mut script, 64)?;
    add_match(&mut script, 65)?;
    expect_replies(
        &rt,
        rt.alloc(),
        script.as_slice(),
        b"ok 0 1\nmatch 0\nok\nerror 20 bad-selector\n",
    )?;
    Ok(())
}
