//! Rows of pages with the styles of their elements.
use crate::pages::{read_page, style_at};
use crate::printing::print_final;
use crate::rows::{EXAMPLES, KEYWORDS, LENGTHS, MEDIA, ORDERS, REFERENCES};
use port_core::{Steps, Text};
use prop_table::{Final, Keyword, Prop, Style, all_props, initial, property_of_name};
use std::alloc::Global;
use std::process::Abort;
use std::test::Fail;

fn check_rows(rt: &impl Abort, alloc: Global, rows: &str) -> Result<(), Fail> {
    for row in rows.lines() {
        let Some((text, wants)) = row.split_once(" => ") else {
            panic!(rt; "nothing to compare in {row}");
        };
        let (doc, sheets) = match text.split_once("|") {
            Some(parts) => parts,
            None => (text, ""),
        };
        let page = read_page(rt, alloc, doc, sheets)?;
        let last = page.doc.next_id().saturating_sub(1);
        let styled = style_at(rt, alloc, &page, last, &mut Steps::new(()))?;
        for want in wants.split(' ') {
            check_value(rt, alloc, styled.style(), want, row)?;
        }
    }
    Ok(())
}

fn check_value(
    rt: &impl Abort,
    alloc: Global,
    style: &Style,
    want: &str,
    row: &str,
) -> Result<(), Fail> {
    let Some((name, value)) = want.split_once(":") else {
        panic!(rt; "no value in {want}");
    };
    let Some(prop) = property_of_name(&Text::new(alloc, name)?) else {
        panic!(rt; "no property: {name}");
    };
    let printed = print_final(alloc, style.get(prop))?;
    assert_eq!(rt; printed.as_str(), value, "{name} at {row}");
    Ok(())
}

#[test]
fn examples(rt: HostRuntime) -> Result<(), Fail> {
    check_rows(&rt, rt.alloc(), EXAMPLES)
}

#[test]
fn the_stronger_declaration_wins(rt: HostRuntime) -> Result<(), Fail> {
    check_rows(&rt, rt.alloc(), ORDERS)
}

#[test]
fn keywords_stand_for_values(rt: HostRuntime) -> Result<(), Fail> {
    check_rows(&rt, rt.alloc(), KEYWORDS)
}

#[test]
fn lengths_refer_to_fonts(rt: HostRuntime) -> Result<(), Fail> {
    check_rows(&rt, rt.alloc(), LENGTHS)
}

#[test]
fn references_are_replaced(rt: HostRuntime) -> Result<(), Fail> {
    check_rows(&rt, rt.alloc(), REFERENCES)
}

#[test]
fn rules_apply_where_media_queries_match(rt: HostRuntime) -> Result<(), Fail> {
    check_rows(&rt, rt.alloc(), MEDIA)
}

#[test]
fn an_environment_is_in_order_of_name(rt: HostRuntime) -> Result<(), Fail> {
    let alloc = rt.alloc();
    let page = read_page(
        &rt,
        alloc,
        r#"["div",["p"]]"#,
        "div{--b:2;--c:x}p{--B:1;--a: y  z ;--c:initial}",
    )?;
    let styled = style_at(&rt, alloc, &page, 1, &mut Steps::new(()))?;
    let env = styled.env();
    assert_eq!(rt; env.len(), 3);
    assert_eq!(rt; env.name_at(0), Some("--B"));
    assert_eq!(rt; env.name_at(1), Some("--a"));
    assert_eq!(rt; env.name_at(2), Some("--b"));
    Ok(())
}

#[test]
fn a_block_alone_has_initial_values(rt: HostRuntime) -> Result<(), Fail> {
    let page = read_page(&rt, rt.alloc(), r#"["div"]"#, "")?;
    let styled = style_at(&rt, rt.alloc(), &page, 0, &mut Steps::new(()))?;
    for prop in all_props() {
        let value = styled.style().get(*prop);
        match prop {
            Prop::Display => assert!(rt; value.same(&Final::Keyword(Keyword::Block))),
            Prop::BorderTopWidth
            | Prop::BorderRightWidth
            | Prop::BorderBottomWidth
            | Prop::BorderLeftWidth => {
                assert_eq!(rt; print_final(rt.alloc(), value)?.as_str(), "0", "{prop:?}");
            }
            _ => assert!(rt; value.same(&initial(rt.alloc(), *prop)), "{prop:?}"),
        }
    }
    Ok(())
}
