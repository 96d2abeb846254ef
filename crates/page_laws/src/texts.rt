//! What it does to a tree to set a text.
ghost use Rattle.std.specs.Prelude.{IsSome, List, Some, ℕ, ◌+◌, ◌≡◌};
ghost use Rattle.page_laws.specs.Limits.{own_text_size};
ghost use Rattle.page_model.specs.Document.{AreDistinct, Node, attributes_at, find, ids, name_at, text_at, without_ids};
ghost use Rattle.page_model.specs.Edits.{tree_after_change, tree_after_set_text};
ghost use Rattle.page_model.specs.Trees.{Attribute, Text, text_size};

/// The text that is set has the code points.
pub fn text_set()
    ensures { (i : ℕ) (cs : Text) (root : Node) → IsSome (text_at i root)
        → text_at i (tree_after_set_text i cs root) ≡ Some cs }
{}

/// To set or drop an attribute keeps each text.
pub fn texts_kept()
    ensures { (i : ℕ) (as_after : List Attribute → List Attribute) (root : Node)
        → text_at i (tree_after_change i as_after (λ cs. cs) root) ≡ text_at i root }
{}

/// To set a text keeps the attributes of each element.
pub fn attributes_kept()
    ensures { (i : ℕ) (cs : Text) (root : Node) → IsSome (name_at i root)
        → attributes_at i (tree_after_set_text i cs root) ≡ attributes_at i root }
{}

/// The code points after a change are those before without those of the old node, and with those
/// of the new.
pub fn text_size()
    ensures { (i : ℕ) (as_after : List Attribute → List Attribute) (text_after : Text → Text)
        (root n : Node)
        → AreDistinct (ids root) → find i root ≡ Some n
        → text_size (without_ids
        (tree_after_change i as_after text_after root)) + own_text_size n
        ≡ text_size (without_ids root) + own_text_size
        (tree_after_change i as_after text_after n) }
{}
