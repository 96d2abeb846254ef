//! Rows of values of properties, with what they compute to.
use crate::printing::{components_of, print_value};
use port_core::Text;
use prop_table::{property_of_name, read_value};
use std::alloc::Global;
use std::process::Abort;
use std::test::Fail;

/// Values of each property (the modules of each property).
const VALUES: &str = r#"display:block => block
display:FLOW-ROOT => flow-root
display:grid => invalid
display:block block => invalid
width:auto => auto
width:10% => pct:10000000
width:-1px => invalid
width:calc(1px + 1em) => 704
width:calc(-5px) => -320
width:calc(2px + 10%) => calculated
width:calc(1) => invalid
width:/**/ 1px /**/ => 64
width:0 => 0
width:1 => invalid
height:2em => 1280
min-width:auto => 0
min-height:1px => 64
max-width:none => none
max-height:auto => invalid
margin-top:-1.5em => -960
margin-right:-5% => pct:-5000000
margin-bottom:auto => auto
margin-left:none => invalid
padding-top:-1px => invalid
padding-right:5% => pct:5000000
padding-bottom:3pt => 256
padding-left:auto => invalid
border-top-width:thin => 64
border-right-width:MEDIUM => 192
border-bottom-width:thick => 320
border-left-width:1% => invalid
border-top-style:none => none
border-right-style:dashed => dashed
border-bottom-style:outset => outset
border-left-style:wavy => invalid
border-top-color:currentColor => currentcolor
border-right-color:#1234 => #11223344
border-bottom-color:#12345678 => #12345678
border-left-color:#12345 => invalid
box-sizing:border-box => border-box
box-sizing:padding-box => invalid
font-size:medium => 1024
font-size:50% => 960
font-size:2rem => 2560
font-size:-1px => invalid
font-size:calc(1px - 2px) => 0
line-height:normal => normal
line-height:1.5 => num:1500000
line-height:150% => 960
line-height:-1 => invalid
line-height:calc(4 / 3) => invalid
color:RED => #ff0000ff
color:#abc => #aabbccff
color:transparent => #00000000
color:none => invalid
background-color:#0a0b0c => #0a0b0cff
background-color:none => invalid
text-align:start => left
text-align:end => right
text-align:center => center
text-align:justify => invalid
white-space:nowrap => nowrap
white-space:pre => invalid
overflow:scroll => scroll
overflow:clip => invalid
contain:none => 
contain:strict => size layout style paint 
contain:content => layout style paint 
contain:paint inline-size => inline-size paint 
contain:size inline-size => invalid
contain:layout layout => invalid
contain:strict paint => invalid
container-type:inline-size => inline-size
container-type:inline => invalid
container-name:none => 
container-name:a B a => a B a 
container-name:a and => invalid
container-name:"a" => invalid
visibility:collapse => collapse
visibility:none => invalid
opacity:0.5 => 500000
opacity:2 => 1000000
opacity:-1 => 0
opacity:50% => invalid
font-style:oblique => oblique
font-style:bold => invalid
font-weight:bold => 700
font-weight:normal => 400
font-weight:1000 => 1000
font-weight:1001 => invalid
font-weight:400.0 => invalid
z-index:auto => auto
z-index:-3 => -3
z-index:1.5 => invalid
text-decoration-line:line-through => line-through
text-decoration-line:blink => invalid
pointer-events:none => none
pointer-events:all => invalid
Width:INHERIT => inherit
color:initial => initial
opacity:unset => unset
contain:revert => revert
width:inherit inherit => invalid
width:revert-layer => invalid
width: => invalid"#;

/// Each unit (CSS Values 4, sections 6.1 and 6.2; CSS Conditional 5, section 7).
const UNITS: &str = r#"margin-top:1PX => 64
margin-top:1pc => 1024
margin-top:1in => 6144
margin-top:3pt => 256
margin-top:1cm => 2418
margin-top:1mm => 241
margin-top:4q => 241
margin-top:1em => 640
margin-top:1ex => 320
margin-top:1ch => 320
margin-top:1rem => 1280
margin-top:1vw => 640
margin-top:1vi => 640
margin-top:1svw => 640
margin-top:1lvw => 640
margin-top:1dvw => 640
margin-top:1vh => 320
margin-top:1vb => 320
margin-top:1svh => 320
margin-top:1lvh => 320
margin-top:1dvh => 320
margin-top:1vmin => 320
margin-top:1vmax => 640
margin-top:1cqw => 192
margin-top:1cqi => 192
margin-top:1cqh => 256
margin-top:1cqb => 256
margin-top:1cqmin => 192
margin-top:1cqmax => 256
margin-top:1e9px => 1073741824
margin-top:1xx => invalid"#;

fn check_row(alloc: Global, rt: &impl Abort, row: &str) -> Result<(), Fail> {
    let Some((name, rest)) = row.split_once(":") else {
        panic!(rt; "no name in {row}");
    };
    let Some((text, want)) = rest.split_once(" => ") else {
        panic!(rt; "nothing to compare in {row}");
    };
    let Some(prop) = property_of_name(&Text::new(alloc, name)?) else {
        panic!(rt; "no property in {row}");
    };
    let mut printed = String::new(alloc);
    match read_value(alloc, prop, &components_of(alloc, text)?)? {
        Some(value) => print_value(alloc, prop, &value.copy(alloc)?, &mut printed)?,
        None => printed.push_str("invalid")?,
    }
    assert_eq!(rt; printed.as_str(), want, "at {row}");
    Ok(())
}

#[test]
fn values(rt: HostRuntime) -> Result<(), Fail> {
    for row in VALUES.lines() {
        check_row(rt.alloc(), &rt, row)?;
    }
    Ok(())
}

#[test]
fn units(rt: HostRuntime) -> Result<(), Fail> {
    for row in UNITS.lines() {
        check_row(rt.alloc(), &rt, row)?;
    }
    Ok(())
}
