//! What lines ask for: each kind of answer once.
use dom_arena::Tree;
use page_model::Cause;
use port_core::{NoMemory, Text};
use relayout_requests::{Asked, Edit, Request, ask};
use request_model::Query;
use std::alloc::Global;
use std::process::Abort;
use std::test::Fail;

/// Checks that a line is refused with this cause.
fn expect_broken(
    rt: &impl Abort,
    alloc: Global,
    line: &[u8],
    cause: Cause,
) -> Result<(), NoMemory> {
    assert!(rt; line.len() < 1000);
    let asked = ask(alloc, line)?;
    assert!(rt; matches!(&asked, Asked::Broken(given) if *given == cause));
    Ok(())
}

/// Returns whether a load was asked for at 2 by 3 pixels, with two sheets.
fn is_load_of_two_sheets(edit: &Edit) -> bool {
    match edit {
        Edit::Load {
            width,
            height,
            sheets,
            ..
        } => {
            let two = matches!(sheets, Some(texts) if texts.len() == 2);
            *width == 2 && *height == 3 && two
        }
        _ => false,
    }
}

/// Returns whether an insert of a text was asked for, at index 3 of node 2.
fn is_insert_of_text(edit: &Edit) -> bool {
    match edit {
        Edit::Insert {
            parent,
            index,
            tree,
        } => *parent == 2 && *index == 3 && matches!(tree, Tree::Chars(_)),
        _ => false,
    }
}

/// Returns whether a remove of the node of the greatest number was asked for.
fn is_remove_of_last(edit: &Edit) -> bool {
    matches!(edit, Edit::Remove { id } if *id == u64::MAX)
}

/// Returns whether sheet 0 was asked to be `a{}`.
fn is_sheet_of_text(edit: &Edit) -> bool {
    matches!(edit, Edit::Sheet { at, css: Some(text) } if *at == 0 && text.as_str() == "a{}")
}

/// Returns whether sheet 7 was asked to be taken out.
fn is_sheet_of_null(edit: &Edit) -> bool {
    matches!(edit, Edit::Sheet { at, css: None } if *at == 7)
}

/// Returns what a line asks for.
fn name_of(asked: &Asked) -> &'static str {
    match asked {
        Asked::Nothing => "nothing",
        Asked::Broken(_) => "broken",
        Asked::Request(Request::Query(Query::Dump)) => "dump",
        Asked::Request(Request::Query(Query::Rules)) => "rules",
        Asked::Request(Request::Query(Query::Match(text))) => name_of_match(text),
        Asked::Request(Request::Query(Query::Style(id))) => name_of_style(*id),
        Asked::Request(Request::Edit(edit)) => name_of_edit(edit),
    }
}

/// Returns whether `a > b` is to be matched.
fn name_of_match(selector: &Text) -> &'static str {
    if selector.is("a > b") {
        "match of a > b"
    } else {
        "another match"
    }
}

/// Returns whether the style of node 7 is asked for.
fn name_of_style(id: u64) -> &'static str {
    if id == 7 {
        "style of 7"
    } else {
        "another style"
    }
}

/// Returns which of the edits that the rows ask for this is.
fn name_of_edit(edit: &Edit) -> &'static str {
    if is_load_of_two_sheets(edit) {
        "load of two sheets"
    } else if is_insert_of_text(edit) {
        "insert of a text"
    } else if is_remove_of_last(edit) {
        "remove of the last number"
    } else if is_sheet_of_text(edit) {
        "sheet of a text"
    } else if is_sheet_of_null(edit) {
        "sheet of null"
    } else {
        "another edit"
    }
}

/// Checks that a line asks for what has this name.
fn expect_asked(rt: &impl Abort, alloc: Global, line: &[u8], name: &str) -> Result<(), NoMemory> {
    assert!(rt; line.len() < 1000);
    let asked = ask(alloc, line)?;
    assert_eq!(rt; name_of(&asked), name);
    Ok(())
}

const LOAD: &[u8] = br#"{"do":"load","height":3,"width":2,"doc":["a"],"sheets":["p{}",""]}"#;

const INSERT: &[u8] = br#"{"do":"insert","tree":"","index":3,"parent":2}"#;

const REMOVE: &[u8] = br#"{"id":18446744073709551615,"do":"remove"}"#;

const SHEET: &[u8] = br#"{"css":"a{}","at":0,"do":"sheet"}"#;

const NO_SHEET: &[u8] = br#"{"do":"sheet","at":7,"css":null}"#;

const MATCH: &[u8] = br#"{"selector":"a \u003e b","do":"match"}"#;

#[test]
fn lines_ask(rt: HostRuntime) -> Result<(), Fail> {
    expect_asked(&rt, rt.alloc(), b" \t\r", "nothing")?;
    expect_asked(&rt, rt.alloc(), br#" { "d\u006f" : "dump" } "#, "dump")?;
    expect_asked(&rt, rt.alloc(), LOAD, "load of two sheets")?;
    expect_asked(&rt, rt.alloc(), INSERT, "insert of a text")?;
    expect_asked(&rt, rt.alloc(), REMOVE, "remove of the last number")?;
    expect_asked(&rt, rt.alloc(), SHEET, "sheet of a text")?;
    expect_asked(&rt, rt.alloc(), NO_SHEET, "sheet of null")?;
    expect_asked(&rt, rt.alloc(), br#"{"do":"rules"}"#, "rules")?;
    expect_asked(&rt, rt.alloc(), MATCH, "match of a > b")?;
    expect_asked(&rt, rt.alloc(), br#"{"id":7,"do":"style"}"#, "style of 7")?;
    Ok(())
}

#[test]
fn lines_are_refused(rt: HostRuntime) -> Result<(), Fail> {
    expect_broken(&rt, rt.alloc(), b"{", Cause::BadJson)?;
    expect_broken(&rt, rt.alloc(), b"\x0c", Cause::BadJson)?;
    expect_broken(&rt, rt.alloc(), br#"{"do":"fly"}"#, Cause::BadRequest)?;
    expect_broken(
        &rt,
        rt.alloc(),
        br#"{"do":"remove","id":1,"x":1}"#,
        Cause::BadRequest,
    )?;
    expect_broken(
        &rt,
        rt.alloc(),
        br#"{"do":"insert","parent":0,"index":0}"#,
        Cause::BadRequest,
    )?;
    expect_broken(
        &rt,
        rt.alloc(),
        br#"{"do":"sheet","at":0}"#,
        Cause::BadRequest,
    )?;
    expect_broken(&rt, rt.alloc(), br#"{"do":"match"}"#, Cause::BadRequest)?;
    expect_broken(&rt, rt.alloc(), br#"{"do":"style"}"#, Cause::BadRequest)?;
    expect_broken(
        &rt,
        rt.alloc(),
        br#"{"do":"counts","x":1}"#,
        Cause::NotBuilt,
    )?;
    Ok(())
}
