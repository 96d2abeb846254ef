//! Scripts that ask for the style of an element, and their replies.
use crate::tests::expect_replies;
use std::test::Fail;

/// Scripts with their replies, a row for each behaviour.
const ROWS: [(&[u8], &[u8]); 9] = [
    // The request has an id, which is an integer; it needs a page, and that is asked first.
    (
        br#"{"do":"style"}
{"do":"style","id":"0"}
{"do":"style","id":0,"at":0}
{"do":"style","id":0}"#,
        br#"error 2 bad-request
error 2 bad-request
error 2 bad-request
error 4 not-loaded
"#,
    ),
    // The initial values; the root is a block; a node that is not there.
    (
        br#"{"do":"load","width":800,"height":600,"doc":["div"]}
{"do":"style","id":0}
{"do":"style","id":1}"#,
        br#"ok 0 1
display: block
width: auto
height: auto
min-width: 0
min-height: 0
max-width: none
max-height: none
margin-top: 0
margin-right: 0
margin-bottom: 0
margin-left: 0
padding-top: 0
padding-right: 0
padding-bottom: 0
padding-left: 0
border-top-width: 0
border-right-width: 0
border-bottom-width: 0
border-left-width: 0
border-top-style: none
border-right-style: none
border-bottom-style: none
border-left-style: none
border-top-color: currentcolor
border-right-color: currentcolor
border-bottom-color: currentcolor
border-left-color: currentcolor
box-sizing: content-box
font-size: 1024
line-height: normal
color: #000000ff
background-color: #00000000
text-align: left
white-space: normal
overflow: visible
contain: none
container-type: normal
container-name: none
visibility: visible
opacity: 1000000
font-style: normal
font-weight: 400
z-index: auto
text-decoration-line: none
pointer-events: auto
ok
error 5 no-node
"#,
    ),
    // A `style` attribute, shorthands, and the sheet of the user agent.
    (
        br#"{"do":"load","width":800,"height":600,"doc":["h1",{"style":"color:RED;border:thin solid;width:10%"}]}
{"do":"style","id":0}"#,
        br#"ok 0 1
display: block
width: pct:10000000
height: auto
min-width: 0
min-height: 0
max-width: none
max-height: none
margin-top: 1372
margin-right: 0
margin-bottom: 1372
margin-left: 0
padding-top: 0
padding-right: 0
padding-bottom: 0
padding-left: 0
border-top-width: 64
border-right-width: 64
border-bottom-width: 64
border-left-width: 64
border-top-style: solid
border-right-style: solid
border-bottom-style: solid
border-left-style: solid
border-top-color: currentcolor
border-right-color: currentcolor
border-bottom-color: currentcolor
border-left-color: currentcolor
box-sizing: content-box
font-size: 2048
line-height: normal
color: #ff0000ff
background-color: #00000000
text-align: left
white-space: normal
overflow: visible
contain: none
container-type: normal
container-name: none
visibility: visible
opacity: 1000000
font-style: normal
font-weight: 700
z-index: auto
text-decoration-line: none
pointer-events: auto
ok
"#,
    ),
    // Importance, inheritance, font-relative lengths, `revert`.
    (
        br#"{"do":"load","width":800,"height":600,"doc":["div",["p"]],"sheets":["div{color:red!important;font-size:20px}p{margin:2em;margin-top:revert}#x{color:blue}"]}
{"do":"style","id":1}"#,
        br#"ok 0 2
display: block
width: auto
height: auto
min-width: 0
min-height: 0
max-width: none
max-height: none
margin-top: 1280
margin-right: 2560
margin-bottom: 2560
margin-left: 2560
padding-top: 0
padding-right: 0
padding-bottom: 0
padding-left: 0
border-top-width: 0
border-right-width: 0
border-bottom-width: 0
border-left-width: 0
border-top-style: none
border-right-style: none
border-bottom-style: none
border-left-style: none
border-top-color: currentcolor
border-right-color: currentcolor
border-bottom-color: currentcolor
border-left-color: currentcolor
box-sizing: content-box
font-size: 1280
line-height: normal
color: #ff0000ff
background-color: #00000000
text-align: left
white-space: normal
overflow: visible
contain: none
container-type: normal
container-name: none
visibility: visible
opacity: 1000000
font-style: normal
font-weight: 400
z-index: auto
text-decoration-line: none
pointer-events: auto
ok
"#,
    ),
    // Rules in `@media` blocks, that match and that do not.
    (
        br#"{"do":"load","width":800,"height":600,"doc":["div"],"sheets":["@media not (foo){div{width:1px}}@media (foo) or (width > 1px){div{height:1px}}@media screen{div{min-width:1px}}@media print{div{min-height:1px}}@media screen{@media (orientation: portrait){div{max-width:1px}}}@media (min-width: 800px){@media all{div{max-height:1px}}}@media print, (orientation: landscape){div{margin-top:1px}}@media and{div{margin-right:1px}}@media (a){div{margin-bottom:1px}}@media (width > 1px and (a){div{margin-left:1px}}"]}
{"do":"style","id":0}"#,
        br#"ok 0 1
display: block
width: auto
height: 64
min-width: 64
min-height: 0
max-width: none
max-height: 64
margin-top: 64
margin-right: 0
margin-bottom: 0
margin-left: 0
padding-top: 0
padding-right: 0
padding-bottom: 0
padding-left: 0
border-top-width: 0
border-right-width: 0
border-bottom-width: 0
border-left-width: 0
border-top-style: none
border-right-style: none
border-bottom-style: none
border-left-style: none
border-top-color: currentcolor
border-right-color: currentcolor
border-bottom-color: currentcolor
border-left-color: currentcolor
box-sizing: content-box
font-size: 1024
line-height: normal
color: #000000ff
background-color: #00000000
text-align: left
white-space: normal
overflow: visible
contain: none
container-type: normal
container-name: none
visibility: visible
opacity: 1000000
font-style: normal
font-weight: 400
z-index: auto
text-decoration-line: none
pointer-events: auto
ok
"#,
    ),
    // Names on a cycle have no value; where a reference is invalid by them, a property is as one that is
    // not declared.
    (
        br#"{"do":"load","width":800,"height":600,"doc":["div",{"style":"--a:var(--b);--b:var(--a);width:var(--a);height:var(--c,5px)"}]}
{"do":"style","id":0}"#,
        br#"ok 0 1
display: block
width: auto
height: 320
min-width: 0
min-height: 0
max-width: none
max-height: none
margin-top: 0
margin-right: 0
margin-bottom: 0
margin-left: 0
padding-top: 0
padding-right: 0
padding-bottom: 0
padding-left: 0
border-top-width: 0
border-right-width: 0
border-bottom-width: 0
border-left-width: 0
border-top-style: none
border-right-style: none
border-bottom-style: none
border-left-style: none
border-top-color: currentcolor
border-right-color: currentcolor
border-bottom-color: currentcolor
border-left-color: currentcolor
box-sizing: content-box
font-size: 1024
line-height: normal
color: #000000ff
background-color: #00000000
text-align: left
white-space: normal
overflow: visible
contain: none
container-type: normal
container-name: none
visibility: visible
opacity: 1000000
font-style: normal
font-weight: 400
z-index: auto
text-decoration-line: none
pointer-events: auto
ok
"#,
    ),
    // A reference in a calculation, mathematical functions, and the line of a custom property.
    (
        br#"{"do":"load","width":800,"height":600,"doc":["div",{"style":"--w: 8px ;width:calc(1px + 2*var(--w));height:max(1em, min(50px, 2vw));margin-left:clamp(1px, 10px, 5px)"}]}
{"do":"style","id":0}"#,
        br#"ok 0 1
display: block
width: 1088
height: 1024
min-width: 0
min-height: 0
max-width: none
max-height: none
margin-top: 0
margin-right: 0
margin-bottom: 0
margin-left: 320
padding-top: 0
padding-right: 0
padding-bottom: 0
padding-left: 0
border-top-width: 0
border-right-width: 0
border-bottom-width: 0
border-left-width: 0
border-top-style: none
border-right-style: none
border-bottom-style: none
border-left-style: none
border-top-color: currentcolor
border-right-color: currentcolor
border-bottom-color: currentcolor
border-left-color: currentcolor
box-sizing: content-box
font-size: 1024
line-height: normal
color: #000000ff
background-color: #00000000
text-align: left
white-space: normal
overflow: visible
contain: none
container-type: normal
container-name: none
visibility: visible
opacity: 1000000
font-style: normal
font-weight: 400
z-index: auto
text-decoration-line: none
pointer-events: auto
custom "--w" "8px"
ok
"#,
    ),
    // Custom properties of a sheet, of a parent and of a `style` attribute, in order of name; brackets, quotes,
    // white space and nothing in their values.
    (
        br#"{"do":"load","width":800,"height":600,"doc":["div",{"style":"--b:no;--B:f(1,[2]"},["p",{"style":"--d:var(--c)x  y;--q:\"a  b\\\\\";--b:initial;color:var(--n,red)"}]],"sheets":["p{margin:0}div{--c: ;--B:1;--e:var(--c)!important}"]}
{"do":"style","id":1}"#,
        br#"ok 0 2
display: block
width: auto
height: auto
min-width: 0
min-height: 0
max-width: none
max-height: none
margin-top: 0
margin-right: 0
margin-bottom: 0
margin-left: 0
padding-top: 0
padding-right: 0
padding-bottom: 0
padding-left: 0
border-top-width: 0
border-right-width: 0
border-bottom-width: 0
border-left-width: 0
border-top-style: none
border-right-style: none
border-bottom-style: none
border-left-style: none
border-top-color: currentcolor
border-right-color: currentcolor
border-bottom-color: currentcolor
border-left-color: currentcolor
box-sizing: content-box
font-size: 1024
line-height: normal
color: #ff0000ff
background-color: #00000000
text-align: left
white-space: normal
overflow: visible
contain: none
container-type: normal
container-name: none
visibility: visible
opacity: 1000000
font-style: normal
font-weight: 400
z-index: auto
text-decoration-line: none
pointer-events: auto
custom "--B" "f( 1 , [ 2 ]"
custom "--c" ""
custom "--d" "x y"
custom "--e" ""
custom "--q" "\"a  b\\\\\""
ok
"#,
    ),
    // What is not built: units of containers, in a fallback and in a custom property too, and conditions of
    // containers. A node that is not there is told first, and a sheet that is taken out does not count.
    (
        br#"{"do":"load","width":1,"height":1,"doc":["div",["p",{"style":"zz:f(var(--a,1CQW))"}]]}
{"do":"style","id":0}
{"do":"style","id":2}
{"do":"remove","id":1}
{"do":"sheet","at":0,"css":"q{--a:[1cqh]}"}
{"do":"style","id":0}
{"do":"sheet","at":0,"css":"q{width:1cqw}"}
{"do":"style","id":0}
{"do":"sheet","at":0,"css":"@media print{@container (width>1px){q{}}}"}
{"do":"style","id":0}
{"do":"sheet","at":0,"css":null}
{"do":"style","id":1}"#,
        br#"ok 0 2
error 21 not-built
error 5 no-node
ok
ok
error 21 not-built
ok
error 21 not-built
ok
error 21 not-built
ok
error 5 no-node
"#,
    ),
];

#[test]
fn each_script_of_styles_has_its_replies(rt: HostRuntime) -> Result<(), Fail> {
    for (script, replies) in ROWS {
        expect_replies(&rt, rt.alloc(), script, replies)?;
    }
    Ok(())
}
