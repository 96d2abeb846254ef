//! The levels of nodes.
ghost use Rattle.std.specs.Prelude.{Some, option_map, suc, ℕ, ◌≡◌};
ghost use Rattle.page_model.specs.Document.{AreDistinct, Node, id_of, ids, parent_of};
ghost use Rattle.page_model.specs.Edits.{level};

/// The root stands at level 1.
pub fn of_root()
    ensures { (root : Node) → level (id_of root) root ≡ Some 1 }
{}

/// A child stands one level below its parent.
pub fn of_child()
    ensures { (root : Node) (i parent : ℕ) → AreDistinct (ids root)
        → parent_of i root ≡ Some parent
        → level i root ≡ option_map (λ l. suc l) (level parent root) }
{}
