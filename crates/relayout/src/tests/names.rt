//! Scripts with names and attributes, and their replies.
use crate::tests::expect_replies;
use port_core::NoMemory;
use std::test::Fail;

/// Scripts with their replies, a row for each behaviour.
const ROWS: [(&[u8], &[u8]); 6] = [
    // Names and attributes of every kind are taken.
    (
        br#"{"do":"load","width":1,"height":1,"doc":["html",["p",{"class":"a b","":""}]]}
{"do":"load","width":1,"height":1,"doc":["html",["p",{"class":"a b"}],["\u00e9",{"b":"","a":""}]]}
{"do":"insert","parent":0,"index":2,"tree":["x-y:z.1",{"data-a":"\u0000"}]}"#,
        b"error 11 bad-name\nok 0 3\nok 3 1\n",
    ),
    // What no name has in it.
    (
        br#"{"do":"load","width":1,"height":1,"doc":[""]}
{"do":"load","width":1,"height":1,"doc":["div",["a b"]]}
{"do":"load","width":1,"height":1,"doc":["div",{"a=":""}]}
{"do":"load","width":1,"height":1,"doc":["div",{"a":"=<>\"' /"}]}
{"do":"insert","parent":0,"index":0,"tree":["a/"]}
{"do":"insert","parent":0,"index":0,"tree":["\u007f"]}
{"do":"insert","parent":0,"index":0,"tree":["\u0080"]}"#,
        br#"error 11 bad-name
error 11 bad-name
error 11 bad-name
ok 0 1
error 11 bad-name
error 11 bad-name
ok 1 1
"#,
    ),
    // Values are strings, and a text is not built.
    (
        br#"{"do":"load","width":1,"height":1,"doc":["div",{"a":1}]}
{"do":"load","width":1,"height":1,"doc":["div",{"a":null}]}
{"do":"load","width":10001,"height":1,"doc":["",["p","x"]]}
{"do":"insert","parent":0,"index":0,"tree":""}"#,
        br#"error 2 bad-request
error 2 bad-request
error 21 not-built
error 21 not-built
"#,
    ),
    // A name is asked after the place of an insert, and after the sides and the sheets of a load.
    (
        br#"{"do":"insert","parent":0,"index":0,"tree":[""]}
{"do":"load","width":10001,"height":1,"doc":[""]}
{"do":"load","width":1,"height":1,"doc":[""],"sheets":["","","","","","","","",""]}
{"do":"load","width":1,"height":1,"doc":["p"]}
{"do":"insert","parent":1,"index":1,"tree":[""]}
{"do":"insert","parent":0,"index":1,"tree":[""]}
{"do":"insert","parent":0,"index":0,"tree":[""]}"#,
        br#"error 4 not-loaded
error 16 viewport-range
error 17 sheet-limit
ok 0 1
error 5 no-node
error 10 bad-index
error 11 bad-name
"#,
    ),
    // A dump is of `div` elements alone, none of which has a `style` attribute.
    (
        br#"{"do":"load","width":10,"height":1,"doc":["div",{"class":"a"},["div",{"styles":""}]]}
{"do":"dump"}
{"do":"insert","parent":1,"index":0,"tree":["div",["Div"]]}
{"do":"dump"}
{"do":"remove","id":3}
{"do":"dump"}
{"do":"insert","parent":2,"index":0,"tree":["div",{"a":"","style":""}]}
{"do":"dump"}
{"do":"load","width":10,"height":1,"doc":["p"]}
{"do":"dump"}"#,
        br#"ok 0 2
box 0 div 0 0 640 0 640 0
box 1 div 0 0 640 0 640 0
ok
ok 2 2
error 21 not-built
ok
box 0 div 0 0 640 0 640 0
box 1 div 0 0 640 0 640 0
box 2 div 0 0 640 0 640 0
ok
ok 4 1
error 21 not-built
ok 0 1
error 21 not-built
"#,
    ),
    // A load that is refused for a name leaves the page as it was.
    (
        br#"{"do":"load","width":10,"height":1,"doc":["div"]}
{"do":"load","width":20,"height":1,"doc":["div",["p",{"a b":""}]]}
{"do":"insert","parent":0,"index":0,"tree":["div",["a b"]]}
{"do":"dump"}
{"do":"insert","parent":0,"index":0,"tree":["div"]}"#,
        br#"ok 0 1
error 11 bad-name
error 11 bad-name
box 0 div 0 0 640 0 640 0
ok
ok 1 1
"#,
    ),
];

#[test]
fn each_script_of_names_has_its_replies(rt: HostRuntime) -> Result<(), Fail> {
    for (script, replies) in ROWS {
        expect_replies(&rt, rt.alloc(), script, replies)?;
    }
    Ok(())
}

/// The digits of the names of attributes.
const DIGITS: &[u8] = b"01234567";

/// Appends `part` `times` times.
fn repeat(script: &mut Vec<u8>, part: &[u8], times: usize) -> Result<(), NoMemory> {
    for _ in 0..times {
        script.extend_from_slice(part)?;
    }
    Ok(())
}

/// Appends the load of an element with a name of `name` letters; with 64 attributes and one more,
/// which is named `last`; with a value of `value` letters; and with `levels` elements in one another.
fn add_load(
    script: &mut Vec<u8>,
    name: usize,
    last: &[u8],
    value: usize,
    levels: usize,
) -> Result<(), NoMemory> {
    script.extend_from_slice(br#"{"do":"load","width":1,"height":1,"doc":[""#)?;
    repeat(script, b"a", name)?;
    script.extend_from_slice(br#"",{""#)?;
    for tens in DIGITS {
        for ones in DIGITS {
            script.push(*tens)?;
            script.push(*ones)?;
            script.extend_from_slice(br#"":"","#)?;
            script.push(b'"')?;
        }
    }
    script.extend_from_slice(last)?;
    script.extend_from_slice(br#"":""#)?;
    repeat(script, b"a", value)?;
    script.extend_from_slice(br#""}"#)?;
    repeat(script, br#",["a""#, levels)?;
    repeat(script, b"]", levels)?;
    script.extend_from_slice(b"]}\n")
}

/// The parts of loads at the limits, as `add_load` takes them: of names, attributes and values, each
/// before the next, and then of levels. An attribute `77` is the last of the 64 others.
const LOADS_AT_LIMITS: [(usize, &[u8], usize, usize); 7] = [
    (64, b"77", 65_536, 0),
    (65, b"a", 65_537, 96),
    (64, b"a ", 65_537, 96),
    (64, b"a", 65_537, 96),
    (64, b"77", 65_537, 96),
    (64, b"77", 65_536, 96),
    (64, b"77", 65_536, 95),
];

#[test]
fn limits_of_names_and_attributes_are_exact(rt: HostRuntime) -> Result<(), Fail> {
    let mut script = Vec::new(rt.alloc());
    for (name, last, value, levels) in LOADS_AT_LIMITS {
        add_load(&mut script, name, last, value, levels)?;
    }
    expect_replies(
        &rt,
        rt.alloc(),
        script.as_slice(),
        br#"ok 0 1
error 11 bad-name
error 11 bad-name
error 19 attr-limit
error 14 text-limit
error 13 depth-limit
ok 0 96
"#,
    )?;
    Ok(())
}
