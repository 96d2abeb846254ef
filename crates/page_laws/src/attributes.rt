//! What it does to a tree to set and to drop an attribute.
ghost use Rattle.std.specs.Prelude.{IsSome, List, None, Some, option_map, true, ℕ, ◌≡◌, ◌≢◌};
ghost use Rattle.page_model.specs.Attributes.{are_in_order, with_attribute, without_attribute};
ghost use Rattle.page_model.specs.Document.{AreDistinct, Node, by_itself, child_ids, find, height, ids, name_at, parent_of, value_at};
ghost use Rattle.page_model.specs.Edits.{tree_after_change, tree_after_drop_attr, tree_after_set_attr};
ghost use Rattle.page_model.specs.Trees.{Attribute, Text};

/// The attribute that is set has the value.
pub fn value_set()
    ensures { (i : ℕ) (name value : Text) (root : Node) → IsSome (name_at i root)
        → value_at name i (tree_after_set_attr i name value root) ≡ Some value }
{}

/// Each other attribute of the element stays when one is set.
pub fn other_values()
    ensures { (i : ℕ) (name value other : Text) (root : Node) → IsSome (name_at i root)
        → other ≢ name
        → value_at other i (tree_after_set_attr i name value root) ≡ value_at other i root }
{}

/// The attribute that is dropped is absent.
pub fn value_dropped()
    ensures { (i : ℕ) (name : Text) (root : Node) → IsSome (name_at i root)
        → value_at name i (tree_after_drop_attr i name root) ≡ None }
{}

/// Each other attribute of the element stays when one is dropped.
pub fn values_left()
    ensures { (i : ℕ) (name other : Text) (root : Node) → IsSome (name_at i root) → other ≢ name
        → value_at other i (tree_after_drop_attr i name root) ≡ value_at other i root }
{}

/// Attributes in order are in order after one is set.
pub fn order_after_set()
    ensures { (name value : Text) (attributes : List Attribute) → are_in_order attributes ≡ true
        → are_in_order (with_attribute name value attributes) ≡ true }
{}

/// Attributes in order are in order after one is dropped.
pub fn order_after_drop()
    ensures { (name : Text) (attributes : List Attribute) → are_in_order attributes ≡ true
        → are_in_order (without_attribute name attributes) ≡ true }
{}

/// To set or drop an attribute, or to set a text, keeps all ids in their order.
pub fn ids()
    ensures { (i : ℕ) (as_after : List Attribute → List Attribute) (text_after : Text → Text)
        (root : Node)
        → ids (tree_after_change i as_after text_after root) ≡ ids root }
{}

/// To set or drop an attribute, or to set a text, keeps each list of children.
pub fn child_lists()
    ensures { (i j : ℕ) (as_after : List Attribute → List Attribute) (text_after : Text → Text)
        (root : Node)
        → child_ids j (tree_after_change i as_after text_after root) ≡ child_ids j root }
{}

/// To set or drop an attribute, or to set a text, keeps each parent.
pub fn parents()
    ensures { (i j : ℕ) (as_after : List Attribute → List Attribute) (text_after : Text → Text)
        (root : Node)
        → AreDistinct (ids root)
        → parent_of j (tree_after_change i as_after text_after root) ≡ parent_of j root }
{}

/// To set or drop an attribute, or to set a text, keeps each other node by itself.
pub fn other_nodes()
    ensures { (i j : ℕ) (as_after : List Attribute → List Attribute) (text_after : Text → Text)
        (root : Node)
        → j ≢ i
        → option_map by_itself (find j (tree_after_change i as_after text_after root))
        ≡ option_map by_itself (find j root) }
{}

/// To set or drop an attribute, or to set a text, keeps the name of each element.
pub fn names()
    ensures { (i j : ℕ) (as_after : List Attribute → List Attribute) (text_after : Text → Text)
        (root : Node)
        → name_at j (tree_after_change i as_after text_after root) ≡ name_at j root }
{}

/// To set or drop an attribute, or to set a text, keeps the height.
pub fn height()
    ensures { (i : ℕ) (as_after : List Attribute → List Attribute) (text_after : Text → Text)
        (root : Node)
        → height (tree_after_change i as_after text_after root) ≡ height root }
{}
