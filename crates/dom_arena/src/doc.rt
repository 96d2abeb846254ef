//! The document (DOM sections 1.1 and 4.2.3).
ghost use Rattle.dom_arena.specs.Docs.{IsDocument};
ghost use Rattle.dom_arena.specs.Faults.{AnswersBy};
ghost use Rattle.dom_arena.specs.Found.{AreFound};
ghost use Rattle.dom_arena.specs.Shape.{shape};
ghost use Rattle.page_laws.specs.Limits.{KeepsLimits};
ghost use Rattle.page_model.specs.Document.{Node, child_ids, children_of, document, find, first_child_of, id_of, name_at, next_of, node_count, parent_of, prev_of, text_at, value_at};
ghost use Rattle.page_model.specs.Edits.{document_after_drop_attr, document_after_insert, document_after_move, document_after_remove, document_after_set_attr, document_after_set_text, drop_attr_causes, insert_causes, load_causes, move_causes, remove_causes, set_attr_causes, set_text_causes};
ghost use Rattle.page_model.specs.Trees.{is_elem};
ghost use Rattle.page_model.specs.declared.limits.TheConstants.{MAX_NODES};
ghost use Rattle.std.specs.Prelude.{IfErr, IfOk, OnErr, OnOk, encode_utf8_all, is_some, option_map, true, ◌≡◌, ◌≢◌, ◌≤◌};
ghost use Rattle.std.specs.Str.{chars};

use crate::build::build;
use crate::children::Children;
use crate::copies::copy_store;
use crate::fault::DocFault;
use crate::insert::{insert_slot, insert_tree};
use crate::limits::{self, Taken};
use crate::move_to::{check_move, move_tree};
use crate::remove::{inner_slot, remove_tree};
use crate::store::Store;
use crate::tree::Tree;
use crate::{contents, elements, reading};
use port_core::{NoMemory, NodeId};
use std::alloc::Global;
use std::marker::Model;

/// A document: a tree of elements and texts, each with an id of its own. An id is never given
/// again.
///
/// Nodes are kept in slots that name each other; the slot of a removed node is taken again.
#[derive(Debug, Drop)]
pub struct Doc {
    alloc: Global,
    store: Store,
    /// The slot of the root.
    root: u32,
}

impl Model for Doc {
    ghost use Rattle.dom_arena.specs.Docs.{Seen, IsDoc, document_in};
    ghost use Rattle.dom_arena.specs.SeenCode.{coded_seen};
    ghost use Rattle.dom_arena.specs.Views.{kept};

    ghost Value = { Seen };

    ghost coded = { coded_seen };

    ghost view = { λ d. record { document = document_in (kept d.store) d.root } };

    ghost invariant = { λ d. IsDoc (kept d.store) d.root };
}

impl Doc {
    /// Makes the document of a tree, the nodes of which get the ids from 0 on in document order
    /// (DOM section 1.1). Its time and memory are linear in the nodes and code points of the tree.
    ///
    /// # Errors
    ///
    /// The first limit that the tree would break, of `BadName`, `AttrLimit`, `TextLimit`,
    /// `DepthLimit`, `NodeLimit`, `IdLimit`; or `NoMemory`.
    pub fn new(alloc: Global, tree: &Tree) -> Result<Doc, DocFault>
        requires element { is_elem (shape tree.now) ≡ true }
        ensures document { IfOk result (λ doc. doc.document ≡ document (shape tree.now)) }
        ensures causes { AnswersBy (load_causes (shape tree.now)) result }
    {
        limits::check(tree, Taken::nothing())?;
        Ok(load(alloc, tree)?)
    }

    /// Returns the id of the root, in constant time (DOM section 1.1).
    pub fn root(&self) -> NodeId
        ensures value { result ≡ id_of self.now.document.root }
        ensures facts { IsDocument self.now.document }
    {
        self.store.id_in(self.root)
    }

    /// Returns the id that the next new node gets, which is the number of ids that were given, in
    /// constant time.
    pub fn next_id(&self) -> NodeId
        ensures value { result ≡ self.now.document.next_id }
        ensures facts { IsDocument self.now.document }
    {
        self.store.table.len() as NodeId
    }

    /// Returns how many slots are kept, live and free, in constant time.
    pub fn slots(&self) -> usize
        ensures few { result ≤ MAX_NODES }
        ensures live { node_count self.now.document.root ≤ result }
    {
        self.store.slots.len()
    }

    /// Whether the document has the node `id`; in constant time.
    pub fn is_live(&self, id: NodeId) -> bool
        ensures value { result ≡ is_some (find id self.now.document.root) }
        ensures facts { IsDocument self.now.document }
    {
        self.store.slot(id).is_some()
    }

    /// Returns the name of the element `id`, or `None` for another node, in constant time (DOM
    /// section 4.9, localName).
    pub fn tag(&self, id: NodeId) -> Option<&str>
        ensures { option_map (λ s. s.now) result
            ≡ option_map encode_utf8_all (name_at id self.now.document.root) }
    {
        reading::name(self.store.slot(id))
    }

    /// Returns the code points of the text `id`, or `None` for another node, in constant time (DOM
    /// section 4.10, data).
    pub fn text(&self, id: NodeId) -> Option<&str>
        ensures { option_map (λ s. s.now) result
            ≡ option_map encode_utf8_all (text_at id self.now.document.root) }
    {
        reading::text(self.store.slot(id))
    }

    /// Returns the value of the attribute `name` of the element `id` (DOM section 4.9,
    /// getAttribute). Its time is linear in the names of the element's attributes.
    pub fn attr(&self, id: NodeId, name: &str) -> Option<&str>
        ensures { option_map (λ s. s.now) result
            ≡ option_map encode_utf8_all (value_at (chars name.now) id self.now.document.root) }
    {
        reading::value(self.store.slot(id), name)
    }

    /// Returns the first child of the element `id`, in constant time (DOM section 4.4, firstChild).
    pub fn first_child(&self, id: NodeId) -> Option<NodeId>
        ensures { result ≡ first_child_of id self.now.document.root }
    {
        self.store.id_behind(reading::first(self.store.slot(id)))
    }

    /// Returns the element that has the node `id` among its children, in constant time (DOM section
    /// 4.4, parentNode).
    pub fn parent(&self, id: NodeId) -> Option<NodeId>
        ensures { result ≡ parent_of id self.now.document.root }
    {
        self.store.id_behind(reading::parent(self.store.slot(id)))
    }

    /// Returns the sibling right after the node `id`, in constant time (DOM section 4.4,
    /// nextSibling).
    pub fn next(&self, id: NodeId) -> Option<NodeId>
        ensures { result ≡ next_of id self.now.document.root }
    {
        self.store.id_behind(reading::next(self.store.slot(id)))
    }

    /// Returns the sibling right before the node `id`, in constant time (DOM section 4.4,
    /// previousSibling).
    pub fn prev(&self, id: NodeId) -> Option<NodeId>
        ensures { result ≡ prev_of id self.now.document.root }
    {
        self.store.id_behind(reading::prev(self.store.slot(id)))
    }

    /// Returns the ids of the children of the node `id`, in order (DOM section 4.4, childNodes). A
    /// text has none. The call and each step take constant time, and no memory.
    pub fn children(&self, id: NodeId) -> Children<'_>
        ensures children { result ≡ child_ids id self.now.document.root }
        ensures found { (n : Node) → find id self.now.document.root ≡ Some n
            → AreFound self.now.document.root (children_of n) }
    {
        let at = self.store.slot(id);
        Children::from(&self.store, reading::first(at), reading::count(at))
    }

    /// Puts a new tree below the element `parent`, as its child at `index`, and returns the id of
    /// its root. The new nodes get the next ids, in document order (DOM section 4.2.3, insert).
    ///
    /// The links take constant time, and the place of `index` is walked to from the nearer end;
    /// besides, the time is linear in the level of `parent` and in the nodes and code points of the
    /// tree. Free slots are taken before new ones; an id takes 4 bytes.
    ///
    /// # Errors
    ///
    /// The first of `NoNode`; `NotElement`; `BadIndex` where the element has fewer children than
    /// `index`; the limits that would be broken: `BadName`, `AttrLimit`, `TextLimit`, `DepthLimit`,
    /// `NodeLimit`, `IdLimit`; or `NoMemory`. Then nothing has changed.
    pub fn insert(&mut self, parent: NodeId, index: usize, tree: &Tree) -> Result<NodeId, DocFault>
        ensures inserted { OnOk result (self.new.document
            ≡ document_after_insert parent index (shape tree.now) self.old.document) }
        ensures number { IfOk result (λ id. id ≡ self.old.document.next_id) }
        ensures causes { AnswersBy (insert_causes parent index (shape tree.now)
            self.old.document) result }
        ensures kept { OnErr result (self.new ≡ self.old) }
    {
        let at = insert_slot(&self.store, parent, index, tree)?;
        let id = self.next_id();
        insert_tree(&mut self.store, self.alloc, at, index, tree)?;
        Ok(id)
    }

    /// Takes the node `id` out, with all below it (DOM section 4.2.3, remove).
    ///
    /// The links take constant time; the time is linear in the nodes that go. It takes no memory:
    /// their slots become free, and their ids are not given again.
    ///
    /// # Errors
    ///
    /// The first of `NoNode`; `IsRoot` for the root. Then nothing has changed.
    pub fn remove(&mut self, id: NodeId) -> Result<(), DocFault>
        ensures removed { OnOk result (self.new.document
            ≡ document_after_remove id self.old.document) }
        ensures causes { AnswersBy (remove_causes id self.old.document) result }
        ensures without_memory { IfErr result (λ e. e ≢ DocFault.NoMemory) }
        ensures kept { OnErr result (self.new ≡ self.old) }
    {
        let at = inner_slot(&self.store, self.root, id)?;
        remove_tree(&mut self.store, at);
        Ok(())
    }

    /// Makes the node `id` the child at `index` of `parent`; `index` counts the children without it
    /// (DOM section 4.2.3, remove and insert).
    ///
    /// The links take constant time, and the place of `index` is walked to from the nearer end;
    /// besides, the time is linear in the level of `parent` and in the nodes below `id`. It takes
    /// no memory.
    ///
    /// # Errors
    ///
    /// The first of `NoNode` for either node; `IsRoot` for the root; `NotElement` where `parent` is
    /// a text; `Cycle` where it is the node itself or stands below it; `BadIndex` where it has
    /// fewer other children than `index`; `DepthLimit`. Then nothing has changed.
    pub fn move_to(&mut self, id: NodeId, parent: NodeId, index: usize) -> Result<(), DocFault>
        ensures moved { OnOk result (self.new.document
            ≡ document_after_move id parent index self.old.document) }
        ensures causes { AnswersBy (move_causes id parent index self.old.document) result }
        ensures without_memory { IfErr result (λ e. e ≢ DocFault.NoMemory) }
        ensures kept { OnErr result (self.new ≡ self.old) }
    {
        let Some(at) = self.store.at(id) else {
            return Err(DocFault::NoNode);
        };
        let Some(up) = self.store.at(parent) else {
            return Err(DocFault::NoNode);
        };
        check_move(&self.store, self.root, at, up, index)?;
        move_tree(&mut self.store, at, up, index);
        Ok(())
    }

    /// Gives the element `id` the attribute `name` with this value, in place of one that is there
    /// (DOM section 4.9, setAttribute).
    ///
    /// Its time is linear in the code points of `name`, of `value`, of the value that was there and
    /// of the names of the element's attributes. It takes memory for a copy of `name` and `value`.
    ///
    /// # Errors
    ///
    /// The first of `NoNode`; `NotElement`; `BadName`; `TextLimit`; `AttrLimit`; or `NoMemory`.
    /// Then nothing has changed.
    pub fn set_attr(&mut self, id: NodeId, name: &str, value: &str) -> Result<(), DocFault>
        ensures set { OnOk result (self.new.document
            ≡ document_after_set_attr id (chars name.now) (chars value.now) self.old.document) }
        ensures causes { AnswersBy (set_attr_causes id (chars name.now) (chars value.now)
            self.old.document) result }
        ensures kept { OnErr result (self.new ≡ self.old) }
    {
        elements::set_attr(&mut self.store, self.alloc, id, name, value)
    }

    /// Takes the attribute `name` from the element `id`, if it is there (DOM section 4.9,
    /// removeAttribute).
    ///
    /// Its time is linear in the code points of the names of the element's attributes and of the
    /// value that goes. It takes no memory.
    ///
    /// # Errors
    ///
    /// The first of `NoNode`; `NotElement`. Then nothing has changed.
    pub fn drop_attr(&mut self, id: NodeId, name: &str) -> Result<(), DocFault>
        ensures dropped { OnOk result (self.new.document
            ≡ document_after_drop_attr id (chars name.now) self.old.document) }
        ensures causes { AnswersBy (drop_attr_causes id self.old.document) result }
        ensures without_memory { IfErr result (λ e. e ≢ DocFault.NoMemory) }
        ensures kept { OnErr result (self.new ≡ self.old) }
    {
        elements::drop_attr(&mut self.store, id, name)
    }

    /// Gives the text `id` these code points (DOM section 4.10, replace data).
    ///
    /// Its time is linear in the code points of `text`. It takes memory for a copy of them.
    ///
    /// # Errors
    ///
    /// The first of `NoNode`; `NotText`; `TextLimit`; or `NoMemory`. Then nothing has changed.
    pub fn set_text(&mut self, id: NodeId, text: &str) -> Result<(), DocFault>
        ensures set { OnOk result (self.new.document
            ≡ document_after_set_text id (chars text.now) self.old.document) }
        ensures causes { AnswersBy (set_text_causes id (chars text.now) self.old.document) result }
        ensures kept { OnErr result (self.new ≡ self.old) }
    {
        contents::set_text(&mut self.store, self.alloc, id, text)
    }

    /// Returns a document of its own with the same nodes, ids and next id.
    ///
    /// Its time and memory are linear in the slots, live and free, in the ids that were given and
    /// in the code points of all names, texts and attributes.
    ///
    /// # Errors
    ///
    /// `NoMemory` where there is none for the copy.
    pub fn copy(&self, alloc: Global) -> Result<Doc, NoMemory>
        ensures { IfOk result (λ doc. doc ≡ self.now) }
    {
        let store = copy_store(&self.store, alloc)?;
        Ok(Doc {
            alloc,
            store,
            root: self.root,
        })
    }
}

/// Loads a tree that breaks no limit.
fn load(alloc: Global, tree: &Tree) -> Result<Doc, NoMemory>
    requires element { is_elem (shape tree.now) ≡ true }
    requires limits { KeepsLimits (document (shape tree.now)) }
    ensures { IfOk result (λ doc. doc.document ≡ document (shape tree.now)) }
{
    let mut store = Store::new(alloc);
    let root = build(&mut store, alloc, tree)?;
    Ok(Doc { alloc, store, root })
}
