//! Rows of shorthands, with what they give their longhands.
use crate::printing::{components_of, print_value};
use prop_table::{expand_shorthand, prop_name};
use std::alloc::Global;
use std::process::Abort;
use std::test::Fail;

/// Shorthands (CSS Cascade 4, section 3; the modules of each).
const SHORTHANDS: &str =
    r#"margin:1px => margin-top 64;margin-right 64;margin-bottom 64;margin-left 64;
margin:1px 2px => margin-top 64;margin-right 128;margin-bottom 64;margin-left 128;
margin:1px 2px 3px => margin-top 64;margin-right 128;margin-bottom 192;margin-left 128;
Margin:1px/**/2px -3px auto => margin-top 64;margin-right 128;margin-bottom -192;margin-left auto;
margin:1px 2px 3px 4px 5px => invalid
margin: => invalid
padding:1% 2px => padding-top pct:1000000;padding-right 128;padding-bottom pct:1000000;padding-left 128;
padding:1px -2px => invalid
border-width:thin 2px => border-top-width 64;border-right-width 128;border-bottom-width 64;border-left-width 128;
border-style:none solid hidden => border-top-style none;border-right-style solid;border-bottom-style hidden;border-left-style solid;
border-color:red #0f0 => border-top-color #ff0000ff;border-right-color #00ff00ff;border-bottom-color #ff0000ff;border-left-color #00ff00ff;
border:red 1px solid => border-top-width 64;border-top-style solid;border-top-color #ff0000ff;border-right-width 64;border-right-style solid;border-right-color #ff0000ff;border-bottom-width 64;border-bottom-style solid;border-bottom-color #ff0000ff;border-left-width 64;border-left-style solid;border-left-color #ff0000ff;
border-top:dotted => border-top-width 192;border-top-style dotted;border-top-color currentcolor;
border-right:1px => border-right-width 64;border-right-style none;border-right-color currentcolor;
border-bottom:red => border-bottom-width 192;border-bottom-style none;border-bottom-color #ff0000ff;
border-left:solid thick => border-left-width 320;border-left-style solid;border-left-color currentcolor;
border:1px 2px => invalid
border:1px auto => invalid
border: => invalid
background:red => background-color #ff0000ff;
background:NONE => background-color #00000000;
background:none red => invalid
container:a b / size => container-name a b ;container-type size;
container:none/inline-size => container-name ;container-type inline-size;
container:a => container-name a ;container-type normal;
container:a / => invalid
container:/ size => invalid
margin-inline:1px 2px => margin-left 64;margin-right 128;
margin-block:1px => margin-top 64;margin-bottom 64;
padding-inline:1px => padding-left 64;padding-right 64;
padding-block:1px 2px => padding-top 64;padding-bottom 128;
padding-block:1px 2px 3px => invalid
border-left:inherit => border-left-width inherit;border-left-style inherit;border-left-color inherit;
padding-inline:UNSET => padding-left unset;padding-right unset;
container:revert => container-name revert;container-type revert;
background:initial => background-color initial;
margin:inherit 1px => invalid
all:red => invalid
font:red => invalid"#;

fn check_row(alloc: Global, rt: &impl Abort, row: &str) -> Result<(), Fail> {
    let Some((name, rest)) = row.split_once(":") else {
        panic!(rt; "no name in {row}");
    };
    let Some((text, want)) = rest.split_once(" => ") else {
        panic!(rt; "nothing to compare in {row}");
    };
    let mut printed = String::new(alloc);
    match expand_shorthand(alloc, name, &components_of(alloc, text)?)? {
        Some(pairs) => {
            for pair in pairs.as_slice() {
                printed.push_str(prop_name(pair.prop))?;
                printed.push(' ')?;
                print_value(alloc, pair.prop, &pair.value, &mut printed)?;
                printed.push(';')?;
            }
        }
        None => printed.push_str("invalid")?,
    }
    assert_eq!(rt; printed.as_str(), want, "at {row}");
    Ok(())
}

#[test]
fn shorthands(rt: HostRuntime) -> Result<(), Fail> {
    for row in SHORTHANDS.lines() {
        check_row(rt.alloc(), &rt, row)?;
    }
    Ok(())
}

#[test]
fn all_sets_every_property(rt: HostRuntime) -> Result<(), Fail> {
    let components = components_of(rt.alloc(), "inherit")?;
    match expand_shorthand(rt.alloc(), "all", &components)? {
        Some(pairs) => assert_eq!(rt; pairs.len(), 45),
        None => assert!(rt; false, "not a value of all"),
    }
    Ok(())
}
