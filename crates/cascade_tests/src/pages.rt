//! Documents with their rules, and the styles of their elements.
ghost use Rattle.cascade_core.specs.Books.{AreFew};
ghost use Rattle.std.specs.Prelude.{OnOk};

use cascade_core::{RuleBook, Styled, room_for, styled_element};
use css_rules::{Sheet, parse_sheet};
use dom_arena::{Doc, Tree};
use jsonml_reader::read_tree;
use page_model::Viewport;
use port_core::{NodeId, Seq, Steps};
use prop_table::{Bases, Computed, Final, Prop};
use rules_model::{MAX_SHEETS, MAX_STYLE_RULES};
use serde_json::Value;
use std::alloc::Global;
use std::process::Abort;
use std::test::Fail;
use units64::Units;

/// A document, and its rules.
#[derive(Drop)]
pub(crate) struct Page {
    pub(crate) doc: Doc,
    pub(crate) book: RuleBook,
}

/// The page of a JSON text and the texts of its sheets.
pub(crate) fn read_page(
    rt: &impl Abort,
    alloc: Global,
    doc: &str,
    sheets: &str,
) -> Result<Page, Fail> {
    Ok(Page {
        doc: document(rt, alloc, doc)?,
        book: book(rt, alloc, sheets)?,
    })
}

/// The document of a JSON text.
fn document(rt: &impl Abort, alloc: Global, text: &str) -> Result<Doc, Fail> {
    let value = Value::from_str(alloc, text)?;
    let tree = read_tree(alloc, &value)?;
    if !matches!(&tree, Tree::Elem(_, _, _)) {
        panic!(rt; "no element: {text}");
    }
    Ok(Doc::new(alloc, &tree)?)
}

/// The rules of sheets, which `|` separates.
fn book(rt: &impl Abort, alloc: Global, texts: &str) -> Result<RuleBook, Fail> {
    let mut sheets = Seq::new(alloc);
    for text in texts.split('|') {
        add_sheet(rt, alloc, &mut sheets, text)?;
    }
    Ok(RuleBook::read(alloc, &sheets)?)
}

fn add_sheet(
    rt: &impl Abort,
    alloc: Global,
    sheets: &mut Seq<Sheet>,
    text: &str,
) -> Result<(), Fail>
    requires { AreFew sheets.old }
    ensures { OnOk result (AreFew sheets.new) }
{
    let sheet = parse_sheet(alloc, text)?;
    if sheets.len() >= MAX_SHEETS || sheet.rules.len() > MAX_STYLE_RULES {
        panic!(rt; "too much: {text}");
    }
    sheets.push(sheet)?;
    Ok(())
}

/// The viewport of all tests.
pub(crate) const VIEWPORT: Viewport = Viewport {
    width: 800,
    height: 600,
};

/// What lengths refer to in this viewport.
pub(crate) fn bases(em: Units, rem: Units) -> Bases {
    Bases {
        em,
        rem,
        vw: Units::new(51_200),
        vh: Units::new(38_400),
        cqw: Units::new(51_200),
        cqh: Units::new(38_400),
    }
}

/// The initial font size.
pub(crate) fn medium() -> Units {
    Units::new(1024)
}

/// The style of an element of the page, below those of its ancestors.
pub(crate) fn style_at(
    rt: &impl Abort,
    alloc: Global,
    page: &Page,
    id: NodeId,
    steps: &mut Steps<()>,
) -> Result<Styled<()>, Fail> {
    let path = path_to(alloc, &page.doc, id)?;
    let mut styled: Option<Styled<()>> = None;
    let mut rem = medium();
    for i in (0..path.len()).rev() {
        let em = font_size(&styled);
        let next = element_style(
            rt,
            alloc,
            page,
            path.as_slice()[i],
            &styled,
            &bases(em, rem),
            steps,
        )?;
        styled = Some(next);
        if i + 1 == path.len() {
            rem = font_size(&styled);
        }
    }
    match styled {
        Some(styled) => Ok(styled),
        None => panic!(rt; "no element {id}"),
    }
}

fn element_style(
    rt: &impl Abort,
    alloc: Global,
    page: &Page,
    id: NodeId,
    parent: &Option<Styled<()>>,
    b: &Bases,
    steps: &mut Steps<()>,
) -> Result<Styled<()>, Fail> {
    if page.doc.tag(id).is_none() {
        panic!(rt; "no element {id}");
    }
    let mut room = room_for(alloc, &page.book)?;
    Ok(styled_element(
        alloc,
        &page.doc,
        id,
        &page.book,
        VIEWPORT,
        &mut room,
        parent.as_ref(),
        b,
        steps,
    )?)
}

/// The ids of an element and its ancestors, from the inside.
fn path_to(alloc: Global, doc: &Doc, id: NodeId) -> Result<Seq<NodeId>, Fail> {
    let mut path = Seq::new(alloc);
    let mut next = Some(id);
    for _ in 0..96 {
        if let Some(id) = next {
            path.push(id)?;
            next = doc.parent(id);
        }
    }
    Ok(path)
}

/// The font size of a style, or the initial one.
fn font_size(styled: &Option<Styled<()>>) -> Units {
    match styled {
        Some(styled) => match styled.style().get(Prop::FontSize) {
            Final::Length(Computed::Units(size)) => *size,
            _ => medium(),
        },
        None => medium(),
    }
}
