//! Selector lists, valid and not (Selectors 4, sections 3.9, 4 and 18).
use crate::rows::{INVALID, VALID};
use crate::spelling::spell;
use css_tokens::{components, tokenize};
use selectors::{SelectorList, read_list};
use std::alloc::Global;
use std::process::Abort;
use std::test::Fail;

/// A row: a text, and the selector list that it spells.
#[derive(Clone, Copy)]
struct Row<'a> {
    text: &'a str,
    list: &'a str,
}

fn row_of<'a>(rt: &impl Abort, line: &'a str) -> Row<'a> {
    let Some((text, list)) = line.split_once(" => ") else {
        panic!(rt; "no list in {line}");
    };
    Row { text, list }
}

/// Reads a text.
pub(crate) fn read(alloc: Global, text: &str) -> Result<Option<SelectorList>, Fail> {
    Ok(read_list(alloc, &components(alloc, &tokenize(alloc, text)?)?)?)
}

#[test]
fn valid_lists_are_read(rt: HostRuntime) -> Result<(), Fail> {
    for line in VALID.lines() {
        let row = row_of(&rt, line);
        match read(rt.alloc(), row.text)? {
            Some(list) => {
                assert_eq!(rt; spell(rt.alloc(), &list)?.as_str(), row.list, "at {line}")
            }
            None => assert!(rt; false, "invalid: {line}"),
        }
    }
    Ok(())
}

#[test]
fn invalid_lists_are_refused(rt: HostRuntime) -> Result<(), Fail> {
    for text in INVALID.lines() {
        assert!(rt; read(rt.alloc(), text)?.is_none(), "valid: {text}");
    }
    Ok(())
}
