//! Rows of properties in their order, with their initial values, and whether they are inherited.
use crate::printing::print_final;
use port_core::Text;
use prop_table::{all_props, inherits, initial, prop_name, prop_place, property_of_name};
use std::alloc::Global;
use std::process::Abort;
use std::test::Fail;

/// The properties in the order in which they are printed.
const INITIAL: &str = r#"display: inline
width: auto
height: auto
min-width: 0
min-height: 0
max-width: none
max-height: none
margin-top: 0
margin-right: 0
margin-bottom: 0
margin-left: 0
padding-top: 0
padding-right: 0
padding-bottom: 0
padding-left: 0
border-top-width: 192
border-right-width: 192
border-bottom-width: 192
border-left-width: 192
border-top-style: none
border-right-style: none
border-bottom-style: none
border-left-style: none
border-top-color: currentcolor
border-right-color: currentcolor
border-bottom-color: currentcolor
border-left-color: currentcolor
box-sizing: content-box
font-size: 1024 inherited
line-height: normal inherited
color: #000000ff inherited
background-color: #00000000
text-align: left inherited
white-space: normal inherited
overflow: visible
contain: 
container-type: normal
container-name: 
visibility: visible inherited
opacity: 1000000
font-style: normal inherited
font-weight: 400 inherited
z-index: auto
text-decoration-line: none
pointer-events: auto inherited"#;

#[test]
fn initial_values(rt: HostRuntime) -> Result<(), Fail> {
    let alloc = rt.alloc();
    let mut place = 0;
    for row in INITIAL.lines() {
        let prop = *all_props()
            .get(place)
            .expect(&rt, "a row for each property");
        let value = initial(alloc, prop);
        let mut printed = String::from_str(alloc, prop_name(prop))?;
        printed.push_str(": ")?;
        print_final(alloc, &value, &mut printed)?;
        if inherits(prop) {
            printed.push_str(" inherited")?;
        }
        assert_eq!(rt; printed.as_str(), row);
        assert_eq!(rt; prop_place(prop), place);
        assert!(rt; value.same(&value.copy(alloc)?), "at {row}");
        place += 1;
    }
    assert_eq!(rt; place, 45);
    Ok(())
}

/// Names of properties, and other names of them (CSS Logical 1, section 4).
const NAMES: [(&str, &str); 15] = [
    ("WIDTH", "width"),
    ("inline-size", "width"),
    ("block-size", "height"),
    ("min-inline-size", "min-width"),
    ("min-block-size", "min-height"),
    ("max-inline-size", "max-width"),
    ("max-block-size", "max-height"),
    ("margin-block-start", "margin-top"),
    ("margin-inline-end", "margin-right"),
    ("margin-block-end", "margin-bottom"),
    ("margin-inline-start", "margin-left"),
    ("padding-block-start", "padding-top"),
    ("padding-inline-end", "padding-right"),
    ("padding-block-end", "padding-bottom"),
    ("padding-inline-start", "padding-left"),
];

#[test]
fn other_names(rt: HostRuntime) -> Result<(), Fail> {
    for (name, want) in NAMES {
        match property_of_name(&Text::new(rt.alloc(), name)?) {
            Some(prop) => assert_eq!(rt; prop_name(prop), want),
            None => assert!(rt; false, "no property: {name}"),
        }
    }
    assert_eq!(rt; property_of_name(&Text::new(rt.alloc(), "margin")?), None);
    Ok(())
}
