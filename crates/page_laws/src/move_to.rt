//! What a move does to a tree.
ghost use Rattle.std.specs.Prelude.{Some, option_map, ℕ, ◌↔◌, ◌≡◌, ◌≢◌};
ghost use Rattle.page_laws.specs.ChildLists.{ids_with, ids_without};
ghost use Rattle.page_laws.specs.Ids.{CanMove};
ghost use Rattle.page_model.specs.Document.{IsAmong, Node, by_itself, child_ids, find, ids, node_count, parent_of, without_ids};
ghost use Rattle.page_model.specs.Edits.{tree_after_move};
ghost use Rattle.page_model.specs.Trees.{text_size};

/// A move keeps the set of ids.
pub fn ids()
    ensures { (i j parent index : ℕ) (n root : Node) → CanMove i parent n root
        → IsAmong j (ids root) ↔ IsAmong j (ids (tree_after_move i parent index root)) }
{}

/// The list of children of the new parent has the node at the index, counted without it (DOM
/// section 4.2.3).
pub fn child_list()
    ensures { (i parent index : ℕ) (n root : Node) → CanMove i parent n root
        → child_ids parent (tree_after_move i parent index root)
        ≡ ids_with index i (ids_without i (child_ids parent root)) }
{}

/// Each other list of children is without the node.
pub fn other_lists()
    ensures { (i j parent index : ℕ) (n root : Node) → CanMove i parent n root → j ≢ parent
        → child_ids j (tree_after_move i parent index root) ≡ ids_without i (child_ids j root) }
{}

/// The parent of the node is the new parent.
pub fn new_parent()
    ensures { (i parent index : ℕ) (n root : Node) → CanMove i parent n root
        → parent_of i (tree_after_move i parent index root) ≡ Some parent }
{}

/// The parent of each other node stays.
pub fn parents()
    ensures { (i j parent index : ℕ) (n root : Node) → CanMove i parent n root → j ≢ i
        → parent_of j (tree_after_move i parent index root) ≡ parent_of j root }
{}

/// Each node by itself stays.
pub fn nodes()
    ensures { (i j parent index : ℕ) (n root : Node) → CanMove i parent n root
        → option_map by_itself (find j (tree_after_move i parent index root))
        ≡ option_map by_itself (find j root) }
{}

/// A move keeps the number of nodes.
pub fn node_count()
    ensures { (i parent index : ℕ) (n root : Node) → CanMove i parent n root
        → node_count (tree_after_move i parent index root) ≡ node_count root }
{}

/// A move keeps the number of code points.
pub fn text_size()
    ensures { (i parent index : ℕ) (n root : Node) → CanMove i parent n root
        → text_size (without_ids (tree_after_move i parent index root))
        ≡ text_size (without_ids root) }
{}
