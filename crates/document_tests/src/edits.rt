ghost use Rattle.std.specs.Prelude.{◌≡◌, true, IfOk};
ghost use Rattle.page_model.specs.Trees.{is_elem};
ghost use Rattle.dom_arena.specs.Shape.{shape};

use dom_arena::{Attrs, Doc, DocFault, Tree};
use port_core::{NoMemory, NodeId, Seq, Text};
use std::alloc::Global;
use std::process::Abort;
use std::test::Fail;

/// An edit, where `Insert` puts in the tree that a test hands along.
#[derive(Clone, Copy)]
enum Step {
    Insert(NodeId, usize),
    Remove(NodeId),
    Move(NodeId, NodeId, usize),
    SetText(NodeId, &'static str),
    SetAttr(NodeId, &'static str, &'static str),
    DropAttr(NodeId, &'static str),
}

fn element(alloc: Global, name: &str, children: Seq<Tree>) -> Result<Tree, NoMemory>
    ensures { IfOk result (λ t. is_elem (shape t) ≡ true) }
{
    let name = Text::new(alloc, name)?;
    Ok(Tree::Elem(name, Attrs::new(alloc), children))
}

fn text(alloc: Global, content: &str) -> Result<Tree, NoMemory> {
    Ok(Tree::Chars(Text::new(alloc, content)?))
}

fn two(alloc: Global, first: Tree, second: Tree) -> Result<Seq<Tree>, NoMemory> {
    let mut trees = Seq::new(alloc);
    trees.push(first)?;
    trees.push(second)?;
    Ok(trees)
}

/// An element with two items, of which the first holds two texts.
fn list(alloc: Global) -> Result<Tree, NoMemory> {
    let texts = two(alloc, text(alloc, "x")?, text(alloc, "y")?)?;
    let first = element(alloc, "item", texts)?;
    let second = element(alloc, "item", Seq::new(alloc))?;
    element(alloc, "list", two(alloc, first, second)?)
}

/// A page with a list and a text: `0(1 6) 1(2 5) 2(3 4) 3'x' 4'y' 5() 6'z'`.
fn page(alloc: Global) -> Result<Doc, DocFault> {
    let children = two(alloc, list(alloc)?, text(alloc, "z")?)?;
    Doc::new(alloc, &element(alloc, "page", children)?)
}

/// Elements of which each is the only child of the one before.
fn chain(alloc: Global, length: u32) -> Result<Tree, NoMemory>
    ensures { IfOk result (λ t. is_elem (shape t) ≡ true) }
{
    let mut children = Seq::new(alloc);
    for _i in 1..length {
        let child = element(alloc, "div", children)?;
        children = Seq::new(alloc);
        children.push(child)?;
    }
    element(alloc, "div", children)
}

/// An element with so many texts.
fn texts(alloc: Global, count: u32, content: &str) -> Result<Tree, NoMemory>
    ensures { IfOk result (λ t. is_elem (shape t) ≡ true) }
{
    let mut trees = Seq::new(alloc);
    for _i in 0..count {
        trees.push(text(alloc, content)?)?;
    }
    element(alloc, "div", trees)
}

/// So many letters.
fn letters(alloc: Global, count: u32) -> Result<String, NoMemory> {
    let mut all = String::new(alloc);
    for _i in 0..count {
        all.push('t')?;
    }
    Ok(all)
}

fn push_id(spelled: &mut String, id: NodeId) -> Result<(), NoMemory> {
    if id > 9 {
        spelled.push((b'0' + (id / 10 % 10) as u8) as char)?;
    }
    spelled.push((b'0' + (id % 10) as u8) as char)
}

fn push_quoted(spelled: &mut String, content: &str) -> Result<(), NoMemory> {
    spelled.push('\'')?;
    spelled.push_str(content)?;
    spelled.push('\'')
}

fn push_children(spelled: &mut String, doc: &Doc, id: NodeId) -> Result<(), NoMemory> {
    for child in doc.children(id) {
        if doc.prev(child).is_some() {
            spelled.push(' ')?;
        }
        push_id(spelled, child)?;
    }
    Ok(())
}

/// Spells an element: the value of its attribute `k`, and the ids of its children.
fn push_element(spelled: &mut String, doc: &Doc, id: NodeId) -> Result<(), NoMemory> {
    if let Some(value) = doc.attr(id, "k") {
        push_quoted(spelled, value)?;
    }
    spelled.push('(')?;
    push_children(spelled, doc, id)?;
    spelled.push(')')
}

fn push_node(spelled: &mut String, doc: &Doc, id: NodeId) -> Result<(), NoMemory> {
    push_id(spelled, id)?;
    match doc.text(id) {
        Some(content) => push_quoted(spelled, content),
        None => push_element(spelled, doc, id),
    }
}

/// Spells the live nodes in the order of their ids.
fn spell(doc: &Doc, alloc: Global) -> Result<String, NoMemory> {
    let mut spelled = String::new(alloc);
    for id in 0..doc.next_id() {
        if doc.is_live(id) {
            push_node(&mut spelled, doc, id)?;
            spelled.push(' ')?;
        }
    }
    Ok(spelled)
}

fn insert(doc: &mut Doc, parent: NodeId, index: usize, tree: &Tree) -> Result<(), DocFault> {
    doc.insert(parent, index, tree)?;
    Ok(())
}

fn take(doc: &mut Doc, tree: &Tree, step: Step) -> Result<(), DocFault> {
    match step {
        Step::Insert(parent, index) => insert(doc, parent, index, tree),
        Step::Remove(id) => doc.remove(id),
        Step::Move(id, parent, index) => doc.move_to(id, parent, index),
        Step::SetText(id, content) => doc.set_text(id, content),
        Step::SetAttr(id, name, value) => doc.set_attr(id, name, value),
        Step::DropAttr(id, name) => doc.drop_attr(id, name),
    }
}

/// Takes steps; returns the first fault.
fn take_all(doc: &mut Doc, tree: &Tree, steps: &[Step]) -> Result<(), DocFault> {
    for step in steps {
        take(doc, tree, *step)?;
    }
    Ok(())
}

/// Asserts what a page is after steps.
fn expect(rt: &impl Abort, alloc: Global, steps: &[Step], want: &str) -> Result<(), Fail> {
    let mut doc = page(alloc)?;
    let tree = chain(alloc, 2)?;
    take_all(&mut doc, &tree, steps)?;
    assert_eq!(rt; spell(&doc, alloc)?.as_str(), want);
    Ok(())
}

/// Asserts that a page refuses a step, and that nothing has changed then.
fn refuse(rt: &impl Abort, alloc: Global, step: Step, fault: DocFault) -> Result<(), Fail> {
    let mut doc = page(alloc)?;
    let tree = chain(alloc, 2)?;
    assert_eq!(rt; take(&mut doc, &tree, step), Err(fault));
    let same = "0(1 6) 1(2 5) 2(3 4) 3'x' 4'y' 5() 6'z' ";
    assert_eq!(rt; spell(&doc, alloc)?.as_str(), same);
    Ok(())
}

/// Asserts what a step on a document returns.
fn expect_step(
    rt: &impl Abort,
    doc: &mut Doc,
    tree: &Tree,
    step: Step,
    answer: Result<(), DocFault>,
) {
    assert_eq!(rt; take(doc, tree, step), answer);
}

/// Asserts why no document is made of a tree.
fn expect_no_document(rt: &impl Abort, alloc: Global, tree: &Tree, fault: DocFault)
    requires { is_elem (shape tree.now) ≡ true }
{
    assert_eq!(rt; Doc::new(alloc, tree).err(), Some(fault));
}

#[test]
fn readers(rt: HostRuntime) -> Result<(), Fail> {
    let doc = page(rt.alloc())?;
    assert_eq!(rt; doc.root(), 0);
    assert_eq!(rt; doc.slots(), 7);
    assert_eq!(rt; doc.tag(5), Some("item"));
    assert_eq!(rt; doc.parent(5), Some(1));
    assert_eq!(rt; doc.first_child(1), Some(2));
    Ok(())
}

#[test]
fn siblings(rt: HostRuntime) -> Result<(), Fail> {
    let doc = page(rt.alloc())?;
    assert_eq!(rt; doc.next(2), Some(5));
    assert_eq!(rt; doc.next(5), None);
    assert_eq!(rt; doc.prev(5), Some(2));
    assert_eq!(rt; doc.next(7), None);
    Ok(())
}

#[test]
fn inserts(rt: HostRuntime) -> Result<(), Fail> {
    // At the front, in the middle, at the end, and in an empty element.
    for (parent, index, want) in [
        (1, 0, "0(1 6) 1(7 2 5) 2(3 4) 3'x' 4'y' 5() 6'z' 7(8) 8() "),
        (1, 1, "0(1 6) 1(2 7 5) 2(3 4) 3'x' 4'y' 5() 6'z' 7(8) 8() "),
        (1, 2, "0(1 6) 1(2 5 7) 2(3 4) 3'x' 4'y' 5() 6'z' 7(8) 8() "),
        (5, 0, "0(1 6) 1(2 5) 2(3 4) 3'x' 4'y' 5(7) 6'z' 7(8) 8() "),
    ] {
        expect(&rt, rt.alloc(), &[Step::Insert(parent, index)], want)?;
    }
    Ok(())
}

#[test]
fn removes(rt: HostRuntime) -> Result<(), Fail> {
    for (id, want) in [
        (3, "0(1 6) 1(2 5) 2(4) 4'y' 5() 6'z' "),
        (5, "0(1 6) 1(2) 2(3 4) 3'x' 4'y' 6'z' "),
        (1, "0(6) 6'z' "),
    ] {
        expect(&rt, rt.alloc(), &[Step::Remove(id)], want)?;
    }
    let steps = [Step::Remove(1), Step::Insert(0, 0)];
    expect(&rt, rt.alloc(), &steps, "0(7 6) 6'z' 7(8) 8() ")
}

#[test]
fn moves(rt: HostRuntime) -> Result<(), Fail> {
    // Before and behind itself, to where it stands, and to another parent.
    for (id, parent, index, want) in [
        (4, 2, 0, "0(1 6) 1(2 5) 2(4 3) 3'x' 4'y' 5() 6'z' "),
        (3, 2, 1, "0(1 6) 1(2 5) 2(4 3) 3'x' 4'y' 5() 6'z' "),
        (3, 2, 0, "0(1 6) 1(2 5) 2(3 4) 3'x' 4'y' 5() 6'z' "),
        (2, 0, 2, "0(1 6 2) 1(5) 2(3 4) 3'x' 4'y' 5() 6'z' "),
        (2, 5, 0, "0(1 6) 1(5) 2(3 4) 3'x' 4'y' 5(2) 6'z' "),
        (6, 1, 1, "0(1) 1(2 6 5) 2(3 4) 3'x' 4'y' 5() 6'z' "),
    ] {
        expect(&rt, rt.alloc(), &[Step::Move(id, parent, index)], want)?;
    }
    Ok(())
}

const SET_TWICE: &[Step] = &[
    Step::SetAttr(5, "k", "v"),
    Step::SetAttr(5, "a", "b"),
    Step::SetAttr(5, "k", "w"),
];

const DROPPED_TWICE: &[Step] = &[
    Step::SetAttr(5, "k", "v"),
    Step::DropAttr(5, "k"),
    Step::DropAttr(5, "k"),
];

#[test]
fn texts_and_attributes(rt: HostRuntime) -> Result<(), Fail> {
    for (steps, want) in [
        (
            &[Step::SetText(3, "ß")][..],
            "0(1 6) 1(2 5) 2(3 4) 3'ß' 4'y' 5() 6'z' ",
        ),
        (SET_TWICE, "0(1 6) 1(2 5) 2(3 4) 3'x' 4'y' 5'w'() 6'z' "),
        (DROPPED_TWICE, "0(1 6) 1(2 5) 2(3 4) 3'x' 4'y' 5() 6'z' "),
    ] {
        expect(&rt, rt.alloc(), steps, want)?;
    }
    Ok(())
}

#[test]
fn refused_inserts_and_removes(rt: HostRuntime) -> Result<(), Fail> {
    for (step, fault) in [
        (Step::Insert(7, 9), DocFault::NoNode),
        (Step::Insert(3, 9), DocFault::NotElement),
        (Step::Insert(2, 3), DocFault::BadIndex),
        (Step::Insert(5, usize::MAX), DocFault::BadIndex),
        (Step::Remove(7), DocFault::NoNode),
        (Step::Remove(0), DocFault::IsRoot),
    ] {
        refuse(&rt, rt.alloc(), step, fault)?;
    }
    Ok(())
}

#[test]
fn refused_moves(rt: HostRuntime) -> Result<(), Fail> {
    for (step, fault) in [
        (Step::Move(7, 3, 9), DocFault::NoNode),
        (Step::Move(0, 7, 9), DocFault::NoNode),
        (Step::Move(0, 3, 9), DocFault::IsRoot),
        (Step::Move(1, 3, 9), DocFault::NotElement),
        (Step::Move(1, 5, 9), DocFault::Cycle),
        (Step::Move(1, 1, 9), DocFault::Cycle),
        (Step::Move(3, 2, 2), DocFault::BadIndex),
    ] {
        refuse(&rt, rt.alloc(), step, fault)?;
    }
    Ok(())
}

#[test]
fn refused_texts_and_attributes(rt: HostRuntime) -> Result<(), Fail> {
    for (step, fault) in [
        (Step::SetText(7, ""), DocFault::NoNode),
        (Step::SetText(5, ""), DocFault::NotText),
        (Step::SetAttr(7, "<", ""), DocFault::NoNode),
        (Step::SetAttr(3, "<", ""), DocFault::NotElement),
        (Step::SetAttr(5, "<", ""), DocFault::BadName),
        (Step::DropAttr(7, "k"), DocFault::NoNode),
        (Step::DropAttr(3, "k"), DocFault::NotElement),
    ] {
        refuse(&rt, rt.alloc(), step, fault)?;
    }
    Ok(())
}

#[test]
fn the_deepest_level(rt: HostRuntime) -> Result<(), Fail> {
    let deepest = chain(rt.alloc(), 95)?;
    let mut doc = Doc::new(rt.alloc(), &deepest)?;
    let two = chain(rt.alloc(), 2)?;
    for (step, answer) in [
        (Step::Insert(94, 0), Err(DocFault::DepthLimit)),
        (Step::Insert(93, 0), Ok(())),
        (Step::Move(95, 94, 0), Err(DocFault::DepthLimit)),
        (Step::Move(96, 94, 0), Ok(())),
    ] {
        expect_step(&rt, &mut doc, &two, step, answer);
    }
    expect_no_document(
        &rt,
        rt.alloc(),
        &chain(rt.alloc(), 97)?,
        DocFault::DepthLimit,
    );
    Ok(())
}

#[test]
fn as_many_nodes_as_there_may_be(rt: HostRuntime) -> Result<(), Fail> {
    let most = texts(rt.alloc(), 19_999, "t")?;
    let mut doc = Doc::new(rt.alloc(), &most)?;
    let one = text(rt.alloc(), "t")?;
    for (step, answer) in [
        (Step::Insert(0, 0), Err(DocFault::NodeLimit)),
        (Step::Remove(1), Ok(())),
        (Step::Insert(0, 0), Ok(())),
    ] {
        expect_step(&rt, &mut doc, &one, step, answer);
    }
    let more = texts(rt.alloc(), 20_000, "t")?;
    expect_no_document(&rt, rt.alloc(), &more, DocFault::NodeLimit);
    Ok(())
}

/// Inserts and removes a tree so many times.
fn pass_through(doc: &mut Doc, tree: &Tree, times: u32) -> Result<(), DocFault> {
    for _i in 0..times {
        let id = doc.insert(0, 0, tree)?;
        doc.remove(id)?;
    }
    Ok(())
}

#[test]
fn as_many_ids_as_there_may_be(rt: HostRuntime) -> Result<(), Fail> {
    let mut doc = Doc::new(rt.alloc(), &chain(rt.alloc(), 1)?)?;
    pass_through(&mut doc, &texts(rt.alloc(), 19_998, "t")?, 5)?;
    assert_eq!(rt; doc.next_id(), 99_996);
    let five = chain(rt.alloc(), 5)?;
    expect_step(
        &rt,
        &mut doc,
        &five,
        Step::Insert(0, 0),
        Err(DocFault::IdLimit),
    );
    let four = chain(rt.alloc(), 4)?;
    expect_step(&rt, &mut doc, &four, Step::Insert(0, 0), Ok(()));
    Ok(())
}

#[test]
fn slots_are_taken_again(rt: HostRuntime) -> Result<(), Fail> {
    let mut doc = Doc::new(rt.alloc(), &chain(rt.alloc(), 1)?)?;
    pass_through(&mut doc, &texts(rt.alloc(), 99, "t")?, 900)?;
    assert_eq!(rt; doc.slots(), 101);
    assert_eq!(rt; doc.next_id(), 90_001);
    Ok(())
}

/// Asserts the results of a text and a value of so many letters.
fn expect_length(
    rt: &impl Abort,
    alloc: Global,
    doc: &mut Doc,
    length: u32,
    answer: Result<(), DocFault>,
) -> Result<(), Fail> {
    let long = letters(alloc, length)?;
    assert_eq!(rt; doc.set_text(3, long.as_str()), answer);
    assert_eq!(rt; doc.set_attr(5, "k", long.as_str()), answer);
    Ok(())
}

#[test]
fn the_longest_text(rt: HostRuntime) -> Result<(), Fail> {
    let mut doc = page(rt.alloc())?;
    expect_length(&rt, rt.alloc(), &mut doc, 65_536, Ok(()))?;
    expect_length(&rt, rt.alloc(), &mut doc, 65_537, Err(DocFault::TextLimit))
}

#[test]
fn as_much_text_as_there_may_be(rt: HostRuntime) -> Result<(), Fail> {
    let long = letters(rt.alloc(), 65_536)?;
    let most = texts(rt.alloc(), 256, long.as_str())?;
    let mut doc = Doc::new(rt.alloc(), &most)?;
    for (step, answer) in [
        (Step::SetAttr(0, "k", "v"), Err(DocFault::TextLimit)),
        (Step::Insert(0, 0), Err(DocFault::TextLimit)),
        (Step::SetText(1, ""), Ok(())),
        (Step::SetAttr(0, "k", "v"), Ok(())),
    ] {
        expect_step(&rt, &mut doc, &most, step, answer);
    }
    Ok(())
}

/// Sets so many attributes, the names of which are one letter and more.
fn set_many(alloc: Global, doc: &mut Doc, count: u32) -> Result<(), DocFault> {
    let mut name = String::new(alloc);
    for _i in 0..count {
        name.push('n')?;
        doc.set_attr(0, name.as_str(), "")?;
    }
    Ok(())
}

#[test]
fn as_many_attributes_as_there_may_be(rt: HostRuntime) -> Result<(), Fail> {
    let tree = chain(rt.alloc(), 1)?;
    let mut doc = Doc::new(rt.alloc(), &tree)?;
    set_many(rt.alloc(), &mut doc, 64)?;
    for (step, answer) in [
        (Step::SetAttr(0, "m", ""), Err(DocFault::AttrLimit)),
        (Step::SetAttr(0, "nn", "v"), Ok(())),
    ] {
        expect_step(&rt, &mut doc, &tree, step, answer);
    }
    Ok(())
}

#[test]
fn a_copy_is_a_document_of_its_own(rt: HostRuntime) -> Result<(), Fail> {
    let doc = page(rt.alloc())?;
    let mut copy = doc.copy(rt.alloc())?;
    copy.remove(1)?;
    assert_eq!(rt; spell(&copy, rt.alloc())?.as_str(), "0(6) 6'z' ");
    assert!(rt; doc.is_live(1));
    Ok(())
}

const LONG: &str = "a text that is too long to lie in place";

/// Takes a step; where memory runs out, asserts that the page is spelled as before.
fn take_or_change_nothing(
    rt: &impl Abort,
    alloc: Global,
    doc: &mut Doc,
    tree: &Tree,
    step: Step,
) -> Result<(), Fail> {
    let before = spell(doc, alloc)?;
    if let Err(fault) = take(doc, tree, step) {
        assert_eq!(rt; fault, DocFault::NoMemory);
        assert_eq!(rt; spell(doc, alloc)?.as_str(), before.as_str());
    }
    Ok(())
}

/// Each allocation can be refused, from outside the gate: `rt try --test --fail-alloc N`.
#[test]
fn want_of_memory_changes_nothing(rt: HostRuntime) -> Result<(), Fail> {
    let mut doc = page(rt.alloc())?;
    let tree = texts(rt.alloc(), 3, LONG)?;
    for step in [
        Step::Insert(1, 1),
        Step::SetText(3, LONG),
        Step::SetAttr(5, "k", LONG),
        Step::SetAttr(2, "k", LONG),
    ] {
        take_or_change_nothing(&rt, rt.alloc(), &mut doc, &tree, step)?;
    }
    let copy = doc.copy(rt.alloc())?;
    assert_eq!(rt;
        spell(&copy, rt.alloc())?.as_str(),
        spell(&doc, rt.alloc())?.as_str()
    );
    Ok(())
}
