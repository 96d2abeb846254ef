//! What a remove does to a tree.
ghost use Rattle.std.specs.Prelude.{IsSome, None, Some, max, option_map, suc, ℕ, ◌+◌, ◌≡◌, ◌≢◌};
ghost use Rattle.page_laws.specs.ChildLists.{ids_without};
ghost use Rattle.page_laws.specs.Ids.{FitsBelow, HasRun};
ghost use Rattle.page_model.specs.Document.{AreDistinct, IsAmong, Node, by_itself, child_ids, find, height, id_of, ids, node_count, parent_of, without_ids};
ghost use Rattle.page_model.specs.Edits.{level, tree_after_insert, tree_after_remove};
ghost use Rattle.page_model.specs.Trees.{text_size};

/// The ids of the node and of all below it stood together, and the others are left in their
/// order.
pub fn document_order()
    ensures { (i : ℕ) (root n : Node) → AreDistinct (ids root) → find i root ≡ Some n
        → i ≢ id_of root → HasRun (ids root) (ids n) (ids (tree_after_remove i root)) }
{}

/// No node of the removed tree is found.
pub fn gone()
    ensures { (i j : ℕ) (root n : Node) → AreDistinct (ids root) → find i root ≡ Some n
        → i ≢ id_of root → IsAmong j (ids n) → find j (tree_after_remove i root) ≡ None }
{}

/// Each other node is found.
pub fn kept()
    ensures { (i j : ℕ) (root n : Node) → AreDistinct (ids root) → find i root ≡ Some n
        → i ≢ id_of root → IsSome (find j root) → (IsAmong j (ids n) → ⊥)
        → IsSome (find j (tree_after_remove i root)) }
{}

/// Each list of children that is left is without the node (DOM section 4.2.3).
pub fn child_lists()
    ensures { (i j : ℕ) (root : Node) → AreDistinct (ids root)
        → IsSome (find j (tree_after_remove i root))
        → child_ids j (tree_after_remove i root) ≡ ids_without i (child_ids j root) }
{}

/// The parent of each node that is left stays.
pub fn parents()
    ensures { (i j : ℕ) (root : Node) → AreDistinct (ids root)
        → IsSome (find j (tree_after_remove i root))
        → parent_of j (tree_after_remove i root) ≡ parent_of j root }
{}

/// Each node by itself that is left stays.
pub fn nodes()
    ensures { (i j : ℕ) (root : Node) → AreDistinct (ids root)
        → IsSome (find j (tree_after_remove i root))
        → option_map by_itself (find j (tree_after_remove i root))
        ≡ option_map by_itself (find j root) }
{}

/// There are as many fewer nodes as the removed tree has.
pub fn node_count()
    ensures { (i : ℕ) (root n : Node) → AreDistinct (ids root) → find i root ≡ Some n
        → i ≢ id_of root
        → node_count root ≡ node_count (tree_after_remove i root) + node_count n }
{}

/// There are as many fewer code points as the removed tree has.
pub fn text_size()
    ensures { (i : ℕ) (root n : Node) → AreDistinct (ids root) → find i root ≡ Some n
        → i ≢ id_of root
        → text_size (without_ids root)
        ≡ text_size (without_ids (tree_after_remove i root)) + text_size (without_ids n) }
{}

/// The height was that of what is left, or the removed tree reached deeper.
pub fn height()
    ensures { (i l : ℕ) (root n : Node) → AreDistinct (ids root) → find i root ≡ Some n
        → i ≢ id_of root → level i root ≡ Some (suc l)
        → height root ≡ max (height (tree_after_remove i root)) (l + height n) }
{}

/// To remove a new tree gives back the tree from before.
pub fn undoes_insert()
    ensures { (parent index : ℕ) (new root : Node) → FitsBelow parent new root
        → tree_after_remove (id_of new) (tree_after_insert parent index new root) ≡ root }
{}
