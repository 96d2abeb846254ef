//! Specificities (Selectors 4, section 17), and rules that match.
use crate::matching::document;
use crate::reading::read;
use port_core::{Kind, Steps};
use selectors::{Matched, RuleList, match_rules, specificity};
use selectors_model::Spec;
use std::test::Fail;

/// The specificity with these counts.
fn spec(ids: u32, classes: u32, types: u32) -> Spec {
    Spec {
        ids,
        classes,
        types,
    }
}

#[test]
fn selectors_have_their_specificity(rt: HostRuntime) -> Result<(), Fail> {
    for (text, expected) in [
        ("*", spec(0, 0, 0)),
        ("LI", spec(0, 0, 1)),
        ("UL LI", spec(0, 0, 2)),
        ("UL OL+LI", spec(0, 0, 3)),
        ("H1 + *[REL=up]", spec(0, 1, 1)),
        ("UL OL LI.red", spec(0, 1, 3)),
        ("LI.red.level", spec(0, 2, 1)),
        ("#x34y", spec(1, 0, 0)),
        ("#s12:not(FOO)", spec(1, 0, 1)),
        (".foo :is(.bar, #baz)", spec(1, 1, 0)),
        (":is(em, #foo)", spec(1, 0, 0)),
        (":is()", spec(0, 0, 0)),
        (":not(em, strong#foo)", spec(1, 0, 1)),
        (".qux:where(em, #foo#bar#baz)", spec(0, 1, 0)),
        ("p:nth-child(even)::before", spec(0, 1, 2)),
        (":is(a b, .c):not(:hover)", spec(0, 2, 0)),
    ] {
        match read(rt.alloc(), text)? {
            Some(list) => match list.members.get(0) {
                Some(member) => assert_eq!(rt; specificity(member), expected, "at {text}"),
                None => assert!(rt; false, "empty: {text}"),
            },
            None => assert!(rt; false, "invalid: {text}"),
        }
    }
    Ok(())
}

#[test]
fn rules_match_in_their_order(rt: HostRuntime) -> Result<(), Fail> {
    let doc = document(&rt, rt.alloc(), r#"["p",["b",{"class":"k"}]]"#)?;
    let mut rules = RuleList::new(rt.alloc());
    let (Some(first), Some(second), Some(third)) = (
        read(rt.alloc(), "b, .k, p b")?,
        read(rt.alloc(), "p")?,
        read(rt.alloc(), ":where(.k), #x, *")?,
    ) else {
        panic!(rt; "an invalid list");
    };
    rules.push(3, first)?;
    rules.push(7, second)?;
    rules.push(8, third)?;
    let mut steps = Steps::new(());
    for (id, pairs) in [
        (
            1,
            [Some((3, spec(0, 1, 0))), Some((8, spec(0, 0, 0))), None],
        ),
        (
            0,
            [Some((7, spec(0, 0, 1))), Some((8, spec(0, 0, 0))), None],
        ),
    ] {
        let mut room: Matched<()> = Matched::with_room(rt.alloc(), rules.as_slice().len())?;
        if doc.tag(id).is_some() {
            match_rules(&doc, id, &rules, &mut room, &mut steps);
        }
        for i in 0..pairs.len() {
            assert_eq!(rt; room.get(i), pairs[i], "pair {i} of {id}");
        }
    }
    assert_eq!(rt; steps.count(Kind::Match), 2);
    Ok(())
}
