//! The calls of the cascade one after another, and what they log.
use crate::pages::{VIEWPORT, bases, medium, read_page, style_at};
use cascade_core::{Styled, answers, resolve, room_for, winning};
use conditions_model::Tri;
use port_core::{Kind, Seq, Steps};
use selectors::{Matched, match_rules};
use std::test::Fail;

#[test]
fn a_match_and_a_style_are_logged_for_each_element(rt: HostRuntime) -> Result<(), Fail> {
    let page = read_page(&rt, rt.alloc(), r#"["div",["p",["b"]]]"#, "b{color:red}")?;
    let mut steps = Steps::new(());
    let _styled = style_at(&rt, rt.alloc(), &page, 2, &mut steps)?;
    assert_eq!(rt; steps.count(Kind::Match), 3);
    assert_eq!(rt; steps.count(Kind::Style), 3);
    assert_eq!(rt; steps.count(Kind::Measure), 0);
    Ok(())
}

#[test]
fn the_calls_make_the_same_style(rt: HostRuntime) -> Result<(), Fail> {
    let alloc = rt.alloc();
    let page = read_page(
        &rt,
        alloc,
        r#"["p"]"#,
        "p{color:red}i{color:blue}@media print{p{color:lime}}|@media screen{p{margin:1px}}",
    )?;
    let mut steps = Steps::new(());
    let mut room: Matched<()> = room_for(alloc, &page.book)?;
    if page.doc.tag(0).is_none() {
        panic!(rt; "no element");
    }
    match_rules(&page.doc, 0, page.book.rules(), &mut room, &mut steps);
    let answers = answers(alloc, &page.book, &room, VIEWPORT)?;
    assert_eq!(rt; answers.len(), 5);
    assert_eq!(rt; answers.get(2), Some(&Tri::Yes));
    assert_eq!(rt; answers.get(3), Some(&Tri::No));
    assert_eq!(rt; answers.get(4), Some(&Tri::Yes));
    let winners = winning(alloc, &page.book, &room, &answers, &Seq::new(alloc))?;
    let b = bases(medium(), medium());
    let parent: Option<&Styled<()>> = None;
    let styled = resolve(alloc, 0, &winners, parent, &b, &answers, &mut steps)?;
    let whole = style_at(&rt, alloc, &page, 0, &mut steps)?;
    assert!(rt; styled.style().same(whole.style()));
    Ok(())
}
