//! What an insert does to a tree: the new tree may be any that fits.
ghost use Rattle.std.specs.Prelude.{Some, max, option_map, ℕ, ◌+◌, ◌≡◌, ◌≢◌};
ghost use Rattle.page_laws.specs.ChildLists.{ids_with};
ghost use Rattle.page_laws.specs.Ids.{AreApart, FitsBelow, HasRun};
ghost use Rattle.page_model.specs.Document.{AreDistinct, IsAmong, Node, by_itself, child_ids, find, height, id_of, ids, node_count, parent_of, without_ids};
ghost use Rattle.page_model.specs.Edits.{level, tree_after_insert};
ghost use Rattle.page_model.specs.Trees.{text_size};

/// The list of children of the parent has the new node at the index (DOM section 4.2.3).
pub fn child_list()
    ensures { (parent index : ℕ) (new root : Node) → FitsBelow parent new root
        → child_ids parent (tree_after_insert parent index new root)
        ≡ ids_with index (id_of new) (child_ids parent root) }
{}

/// Each other list of children stays.
pub fn other_lists()
    ensures { (j parent index : ℕ) (new root : Node) → AreDistinct (ids root)
        → (IsAmong j (ids new) → ⊥) → j ≢ parent
        → child_ids j (tree_after_insert parent index new root) ≡ child_ids j root }
{}

/// The nodes of the new tree are found as they are in it.
pub fn new_nodes()
    ensures { (j parent index : ℕ) (new root : Node) → FitsBelow parent new root
        → IsAmong j (ids new)
        → find j (tree_after_insert parent index new root) ≡ find j new }
{}

/// The parent of the root of the new tree is the parent.
pub fn new_parent()
    ensures { (parent index : ℕ) (new root : Node) → FitsBelow parent new root
        → parent_of (id_of new) (tree_after_insert parent index new root) ≡ Some parent }
{}

/// The parent of each node that was there stays.
pub fn parents()
    ensures { (j parent index : ℕ) (new root : Node) → AreDistinct (ids root)
        → AreDistinct (ids new) → AreApart (ids new) (ids root) → (IsAmong j (ids new) → ⊥)
        → parent_of j (tree_after_insert parent index new root) ≡ parent_of j root }
{}

/// Each node by itself that was there stays.
pub fn nodes()
    ensures { (j parent index : ℕ) (new root : Node) → AreDistinct (ids root)
        → (IsAmong j (ids new) → ⊥)
        → option_map by_itself (find j (tree_after_insert parent index new root))
        ≡ option_map by_itself (find j root) }
{}

/// The ids of the new tree stand together among those that were there, in document order.
pub fn document_order()
    ensures { (parent index : ℕ) (new root : Node) → FitsBelow parent new root
        → HasRun (ids (tree_after_insert parent index new root)) (ids new) (ids root) }
{}

/// There are as many more nodes as the new tree has.
pub fn node_count()
    ensures { (parent index : ℕ) (new root : Node) → FitsBelow parent new root
        → node_count (tree_after_insert parent index new root) ≡ node_count root + node_count new }
{}

/// There are as many more code points as the new tree has.
pub fn text_size()
    ensures { (parent index : ℕ) (new root : Node) → FitsBelow parent new root
        → text_size (without_ids (tree_after_insert parent index new root))
        ≡ text_size (without_ids root) + text_size (without_ids new) }
{}

/// The new tree stands one level below its parent.
pub fn height()
    ensures { (parent index l : ℕ) (new root : Node) → FitsBelow parent new root
        → level parent root ≡ Some l
        → height (tree_after_insert parent index new root) ≡ max (height root) (l + height new) }
{}
