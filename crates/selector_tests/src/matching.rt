//! Which elements a selector list matches (Selectors 4, sections 3.1, 5, 6, 14 and 15).
use crate::documents::MATCHED;
use crate::reading::read;
use dom_arena::{Doc, DocFault, Tree};
use jsonml_reader::{TreeFault, read_tree};
use port_core::{NoMemory, NodeId};
use selectors::{SelectorList, matches};
use serde_json::Value;
use std::alloc::Global;
use std::process::Abort;
use std::test::Fail;

/// The document of a JSON text.
pub(crate) fn document(rt: &impl Abort, alloc: Global, text: &str) -> Result<Doc, Fail> {
    let value = Value::from_str(alloc, text)?;
    let Ok(tree) = read_tree(alloc, &value) else {
        panic!(rt; "no tree: {text}");
    };
    if !matches!(&tree, Tree::Elem(_, _, _)) {
        panic!(rt; "no element: {text}");
    }
    match Doc::new(alloc, &tree) {
        Ok(doc) => Ok(doc),
        Err(_) => panic!(rt; "no document: {text}"),
    }
}

/// Whether a member of the list matches the node, if it is an element.
fn list_matches(doc: &Doc, id: NodeId, list: &SelectorList) -> bool {
    for member in list.members.as_slice() {
        if doc.tag(id).is_some() && matches(doc, id, member) {
            return true;
        }
    }
    false
}

/// The ids of the elements that the list matches, with a space before each.
fn matched(alloc: Global, doc: &Doc, list: &SelectorList) -> Result<String, NoMemory> {
    let mut ids = String::new(alloc);
    for id in 0..doc.next_id() {
        if list_matches(doc, id, list) {
            ids.push(' ')?;
            ids.push_str(id.to_string(alloc)?.as_str())?;
        }
    }
    Ok(ids)
}

#[test]
fn lists_match_their_elements(rt: HostRuntime) -> Result<(), Fail> {
    for line in MATCHED.lines() {
        let Some((text, row)) = line.split_once(" => ") else {
            panic!(rt; "no selector in {line}");
        };
        let Some((selectors, ids)) = row.split_once(" =>") else {
            panic!(rt; "no ids in {line}");
        };
        let doc = document(&rt, rt.alloc(), text)?;
        let Some(list) = read(rt.alloc(), selectors)? else {
            panic!(rt; "invalid: {selectors}");
        };
        assert_eq!(rt;
            matched(rt.alloc(), &doc, &list)?.as_str().trim_end(),
            ids.trim_end(),
            "at {line}"
        );
    }
    Ok(())
}
