//! Laws of documents: ids, lists of children and siblings, and what a load, an insert and a remove do to a document.
ghost use Rattle.std.specs.Prelude.{List, None, Some, option_map, ℕ, ◌++◌, ◌+◌, ◌<◌, ◌∷◌, ◌≡◌, ◌≢◌, ◌≤◌};
ghost use Rattle.page_laws.specs.ChildLists.{TakesChildren, ids_with};
ghost use Rattle.page_laws.specs.Ids.{HasGivenIds, HasRun, count_up};
ghost use Rattle.page_model.specs.Document.{AreDistinct, Document, IsAmong, Node, after, before, by_itself, child_ids, document, find, first, first_child_of, ids, next_of, parent_of, prev_of, with_ids, without_ids};
ghost use Rattle.page_model.specs.Edits.{document_after_insert, document_after_remove};
ghost use Rattle.page_model.specs.Trees.{Tree, size};

/// The nodes of a tree get ids that count up in document order, so no two get the same.
pub fn ids_count_up()
    ensures { (n : ℕ) (t : Tree) → ids (with_ids n t) ≡ count_up n (size t) }
{}

/// A tree that gets ids is the tree: no name, attribute or text is lost.
pub fn without_ids()
    ensures { (n : ℕ) (t : Tree) → without_ids (with_ids n t) ≡ t }
{}

/// A node is in the list of children of its parent (DOM section 1.1).
pub fn child_is_listed()
    ensures { (root : Node) (j p : ℕ) → AreDistinct (ids root) → parent_of j root ≡ Some p
        → IsAmong j (child_ids p root) }
{}

/// A node is in no list of children but that of its parent (DOM section 1.1).
pub fn listed_once()
    ensures { (root : Node) (j p : ℕ) → AreDistinct (ids root) → IsAmong j (child_ids p root)
        → parent_of j root ≡ Some p }
{}

/// A node's first child is the first in its list of children (DOM section 1.1).
pub fn first_child()
    ensures { (root : Node) (j : ℕ) → first_child_of j root ≡ first (child_ids j root) }
{}

/// A node's next sibling is what comes after it in the list of its parent (DOM section 1.1).
pub fn next_in_list()
    ensures { (root : Node) (j p : ℕ) → AreDistinct (ids root) → parent_of j root ≡ Some p
        → next_of j root ≡ after j (child_ids p root) }
{}

/// A node's previous sibling is what comes before it in the list of its parent (DOM section 1.1).
pub fn previous_in_list()
    ensures { (root : Node) (j p : ℕ) → AreDistinct (ids root) → parent_of j root ≡ Some p
        → prev_of j root ≡ before j None (child_ids p root) }
{}

/// Of two children that stand side by side, the second is the next sibling of the first (DOM
/// section 1.1).
pub fn next_sibling()
    ensures { (root : Node) (p x y : ℕ) (xs ys : List ℕ) → AreDistinct (ids root)
        → child_ids p root ≡ xs ++ x ∷ y ∷ ys → next_of x root ≡ Some y }
{}

/// Of two children that stand side by side, the first is the previous sibling of the second (DOM
/// section 1.1).
pub fn previous_sibling()
    ensures { (root : Node) (p x y : ℕ) (xs ys : List ℕ) → AreDistinct (ids root)
        → child_ids p root ≡ xs ++ x ∷ y ∷ ys → prev_of y root ≡ Some x }
{}

/// After a load no two nodes have the same id, and each id is below the next.
pub fn ids_after_load()
    ensures { (t : Tree) → HasGivenIds (document t) }
{}

/// After an insert no two nodes have the same id, and each id is below the next.
pub fn ids_after_insert()
    ensures { (parent index : ℕ) (t : Tree) (d : Document) → HasGivenIds d
        → HasGivenIds (document_after_insert parent index t d) }
{}

/// After a remove no two nodes have the same id, and each id is below the next.
pub fn ids_after_remove()
    ensures { (i : ℕ) (d : Document) → HasGivenIds d → HasGivenIds (document_after_remove i d) }
{}

/// An insert gives as many ids as its tree has nodes.
pub fn insert_counts_on()
    ensures { (parent index : ℕ) (t : Tree) (d : Document)
        → (document_after_insert parent index t d).next_id ≡ d.next_id + size t }
{}

/// A remove gives no id.
pub fn remove_counts_on()
    ensures { (i : ℕ) (d : Document) → (document_after_remove i d).next_id ≡ d.next_id }
{}

/// An insert does not give the id of a removed node again.
pub fn insert_revives_none()
    ensures { (parent index : ℕ) (t : Tree) (d : Document) (j : ℕ) → HasGivenIds d → j < d.next_id
        → find j d.root ≡ None → find j (document_after_insert parent index t d).root ≡ None }
{}

/// A remove does not give the id of a removed node again.
pub fn remove_revives_none()
    ensures { (i : ℕ) (d : Document) (j : ℕ) → HasGivenIds d → find j d.root ≡ None
        → find j (document_after_remove i d).root ≡ None }
{}

/// The root of the tree of an insert gets the next id.
pub fn inserted_tree()
    ensures { (parent index : ℕ) (t : Tree) (d : Document) → TakesChildren parent d
        → find d.next_id (document_after_insert parent index t d).root
        ≡ Some (with_ids d.next_id t) }
{}

/// The nodes from the next id on are those of the tree of an insert.
pub fn inserted_nodes()
    ensures { (parent index : ℕ) (t : Tree) (d : Document) (j : ℕ) → TakesChildren parent d
        → d.next_id ≤ j
        → find j (document_after_insert parent index t d).root ≡ find j (with_ids d.next_id t) }
{}

/// The list of children of the parent has the next id at the index of an insert (DOM section
/// 4.2.3).
pub fn inserted_child()
    ensures { (parent index : ℕ) (t : Tree) (d : Document) → TakesChildren parent d
        → child_ids parent (document_after_insert parent index t d).root
        ≡ ids_with index d.next_id (child_ids parent d.root) }
{}

/// The parent of the root of the tree of an insert is the parent of the insert.
pub fn inserted_parent()
    ensures { (parent index : ℕ) (t : Tree) (d : Document) → TakesChildren parent d
        → parent_of d.next_id (document_after_insert parent index t d).root ≡ Some parent }
{}

/// An insert leaves each other list of children.
pub fn kept_child_lists()
    ensures { (parent index : ℕ) (t : Tree) (d : Document) (j : ℕ) → HasGivenIds d → j < d.next_id
        → j ≢ parent
        → child_ids j (document_after_insert parent index t d).root ≡ child_ids j d.root }
{}

/// An insert leaves the parent of each node that was there.
pub fn kept_parents()
    ensures { (parent index : ℕ) (t : Tree) (d : Document) (j : ℕ) → HasGivenIds d → j < d.next_id
        → parent_of j (document_after_insert parent index t d).root ≡ parent_of j d.root }
{}

/// An insert leaves each node by itself that was there.
pub fn kept_nodes()
    ensures { (parent index : ℕ) (t : Tree) (d : Document) (j : ℕ) → HasGivenIds d → j < d.next_id
        → option_map by_itself (find j (document_after_insert parent index t d).root)
        ≡ option_map by_itself (find j d.root) }
{}

/// The new ids stand together among the ids that were there, in document order.
pub fn inserted_order()
    ensures { (parent index : ℕ) (t : Tree) (d : Document) → TakesChildren parent d
        → HasRun (ids (document_after_insert parent index t d).root) (count_up d.next_id
        (size t)) (ids d.root) }
{}

/// To remove the tree of an insert gives back the tree from before.
pub fn remove_undoes_insert()
    ensures { (parent index : ℕ) (t : Tree) (d : Document) → HasGivenIds d
        → (document_after_remove d.next_id (document_after_insert parent index t d)).root ≡ d.root }
{}
