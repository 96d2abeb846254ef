//! Rows of lengths, with what they compute to.
use crate::printing::{print_bases, print_number, print_tree};
use css_tokens::{Components, components, tokenize};
use port_core::NoMemory;
use query_units::{Bases, Length, length_from_zero_of, read_length};
use std::alloc::Global;
use std::process::Abort;
use std::test::Fail;
use units64::Units;

/// What lengths compute to, and what they are in millionths of a pixel where percentages refer to 300
/// pixels (CSS Values 4, sections 10.1 to 10.11).
const VALUES: &str = r#"2px => 128 2000000
-2px => -128 -2000000
50% => pct:50000000 150000000
0 => 0 0
1 => invalid
calc(1px + 2px) => 192 3000000
calc(1px+2px) => invalid
calc(1px +2px) => invalid
calc(1px+ 2px) => invalid
calc(1px - 3px) => -128 -2000000
calc(10px - 3px - 2px) => 320 5000000
calc(2px + 3px + 10%) => add(add(px:2000000,px:3000000),pct:10000000) 35000000
calc(10% - 1px) => add(pct:10000000,scale(px:1000000,-1000000)) 29000000
calc(1px + (2px + 10%)) => add(px:1000000,add(px:2000000,pct:10000000)) 33000000
calc(1px * 2px) => invalid
calc(2 * 3 * 10%) => scale(pct:10000000,6000000) 180000000
calc(10% * 2 * 3) => scale(scale(pct:10000000,2000000),3000000) 180000000
calc(10% / 4) => over(pct:10000000,4000000) 7500000
calc(10% / -4) => over(pct:10000000,-4000000) -7500000
calc(1px / 3 * 3) => 63 984375
calc(1px / 0) => invalid
calc(1px / 0.0000001) => invalid
calc(1px / (1 - 1)) => invalid
calc(3 / 1px) => invalid
calc(1 + 2) => invalid
calc((1 + 2) * 1px) => 192 3000000
calc(1px + 2) => invalid
calc(1px 2px) => invalid
calc() => invalid
calc(1px, 2px) => invalid
calc( 1px ) => 64 1000000
CALC(1PX) => 64 1000000
calc(1px * min(3, 1, 2)) => 64 1000000
min(10%) => min(pct:10000000) 30000000
min(1px, 10%, 2em) => min(px:1000000,pct:10000000,px:20000000) 1000000
max(1px, 10%, 2em) => max(px:1000000,pct:10000000,px:20000000) 30000000
min(0, 1px) => invalid
min(1px,) => invalid
min(,1px) => invalid
clamp(1px, 10px, 5px) => 320 5000000
clamp(10px, 1px, 5px) => 640 10000000
clamp(10%, 1px, 2px) => max(pct:10000000,min(px:1000000,px:2000000)) 30000000
clamp(1px, 2px) => invalid
clamp(1px, 2px, 3px, 4px) => invalid
max(1em, min(50px, 2vw)) => 1280 20000000
calc(1e9px + 1e9px - 1e9px) => 0 0
calc(1e9px + (1e9px - 1e9px)) => 1073741824 16777216000000
calc(1e9px * 2 / 2) => 1073741824 16777216000000
calc(-5px) => -320 -5000000
calc(calc(1px) + [2px]) => invalid
hypot(1px) => invalid
1px 2px => invalid
 => invalid"#;

/// The bases that lengths mention (CSS Values 4, section 6.1).
const MENTIONS: &str = r#"1px =>
1em => em
50% =>
calc(1em + 1vmin) => em vw vh
max(1px, 1rem, 2cqw) => rem cqw
min(1cqmax, calc(2 * 1ex)) => em cqw cqh
clamp(1vw, 2%, 1vh) => vw vh"#;

/// Font sizes of 10 and 20 pixels, a viewport of 1,000 by 500 pixels, and a container of 300 by
/// 400.
fn bases() -> Bases {
    Bases {
        em: Units::new(640),
        rem: Units::new(1280),
        vw: Units::new(64_000),
        vh: Units::new(32_000),
        cqw: Units::new(19_200),
        cqh: Units::new(25_600),
    }
}

fn components_of(alloc: Global, text: &str) -> Result<Components, Fail> {
    let tokens = tokenize(alloc, text)?;
    Ok(components(alloc, &tokens)?)
}

fn print_value(alloc: Global, length: &Length, printed: &mut String) -> Result<(), NoMemory> {
    let computed = length.copy(alloc)?.absolute(alloc, &bases())?;
    let copy = computed.copy(alloc)?;
    print_tree(alloc, &computed, printed)?;
    print_number(alloc, " ", computed.used(Units::new(19_200)).get(), printed)?;
    if !copy.same(&computed) {
        printed.push_str(" another")?;
    }
    if length.value_with(&bases(), Units::new(19_200)) != computed.used(Units::new(19_200))
        && length.has_percentage()
    {
        printed.push_str(" otherwise")?;
    }
    Ok(())
}

#[test]
fn values(rt: HostRuntime) -> Result<(), Fail> {
    for row in VALUES.lines() {
        check_value(rt.alloc(), &rt, row)?;
    }
    Ok(())
}

fn check_value(alloc: Global, rt: &impl Abort, row: &str) -> Result<(), Fail> {
    let Some((text, want)) = row.split_once(" => ") else {
        panic!(rt; "nothing to compare in {row}");
    };
    let mut printed = String::new(alloc);
    match read_length(alloc, &components_of(alloc, text)?, true)? {
        Some(length) => print_value(alloc, &length, &mut printed)?,
        None => printed.push_str("invalid")?,
    }
    assert_eq!(rt; printed.as_str(), want, "at {row}");
    Ok(())
}

#[test]
fn mentions(rt: HostRuntime) -> Result<(), Fail> {
    for row in MENTIONS.lines() {
        check_mentions(rt.alloc(), &rt, row)?;
    }
    Ok(())
}

fn check_mentions(alloc: Global, rt: &impl Abort, row: &str) -> Result<(), Fail> {
    let Some((text, want)) = row.split_once(" =>") else {
        panic!(rt; "nothing to compare in {row}");
    };
    let mut printed = String::new(alloc);
    match read_length(alloc, &components_of(alloc, text)?, true)? {
        Some(length) => print_bases(length.mentions(), &mut printed)?,
        None => printed.push_str("invalid")?,
    }
    assert_eq!(rt; printed.as_str(), want, "at {row}");
    Ok(())
}

/// A literal below 0 is none where a length may not be negative; a calculation is no literal.
#[test]
fn from_zero(rt: HostRuntime) -> Result<(), Fail> {
    let table: [(&str, bool, bool); 6] = [
        ("-5px", false, false),
        ("5px", false, true),
        ("calc(-5px)", false, true),
        ("-5%", true, false),
        ("5%", true, true),
        ("5%", false, false),
    ];
    for (text, percent, want) in table {
        let list = components_of(rt.alloc(), text)?;
        let Some(c) = list.get(0) else {
            panic!(&rt; "nothing in {text}");
        };
        let length = length_from_zero_of(rt.alloc(), c, percent)?;
        assert_eq!(rt; length.is_some(), want, "at {text}");
    }
    Ok(())
}
