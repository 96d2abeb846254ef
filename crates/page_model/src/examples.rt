//! The numbers, names and order of causes, as replies have them, and trees in JsonML.
ghost use Rattle.std.specs.Prelude.{◌≡◌, ℕ, List, [], ◌∷◌, Some, None, true, false, map, codes};
ghost use Rattle.std.specs.Str.{chars};
ghost use Rattle.serde_json.specs.Data.{string, number, unsigned, array, object, item, no_items, member, no_members};
ghost use Rattle.page_model.specs.Refusals.{cause_number, cause_name, first_of, IsFirstCause, IsRefusedBy};
ghost use Rattle.page_model.specs.Trees.{elem, characters, no_trees, tree};
ghost use Rattle.page_model.specs.Attributes.{with_attribute};
ghost use Rattle.page_model.specs.Jsonml.{tree_of};
ghost use Rattle.page_model.specs.declared.refusal.Refusal.TheVariants as refusal;
ghost use Rattle.page_model.specs.declared.cause.Cause.TheVariants.{BadJson, BadRequest, LineTooLong, NotLoaded, NoNode, NotElement, NotText, IsRoot, Cycle, BadIndex, BadName, NodeLimit, DepthLimit, TextLimit, IdLimit, ViewportRange, SheetLimit, NoSheet, AttrLimit, BadSelector, NotBuilt};

/// The causes that are numbered 1 to 21 have these names, and the first of a list that holds is
/// answered.
pub fn examples_of_causes()
    ensures numbers { map cause_number
        (BadJson ∷ BadRequest ∷ LineTooLong ∷ NotLoaded ∷ NoNode ∷ NotElement ∷ NotText ∷ IsRoot
        ∷ Cycle ∷ BadIndex ∷ BadName ∷ NodeLimit ∷ DepthLimit ∷ TextLimit ∷ IdLimit
        ∷ ViewportRange ∷ SheetLimit ∷ NoSheet ∷ AttrLimit ∷ BadSelector ∷ NotBuilt ∷ [])
        ≡ 1 ∷ 2 ∷ 3 ∷ 4 ∷ 5 ∷ 6 ∷ 7 ∷ 8 ∷ 9 ∷ 10 ∷ 11 ∷ 12 ∷ 13 ∷ 14 ∷ 15 ∷ 16 ∷ 17 ∷ 18 ∷ 19
        ∷ 20 ∷ 21 ∷ [] }
    ensures names { map cause_name
        (BadJson ∷ BadRequest ∷ LineTooLong ∷ NotLoaded ∷ NoNode ∷ NotElement ∷ NotText ∷ IsRoot
        ∷ Cycle ∷ BadIndex ∷ BadName ∷ NodeLimit ∷ DepthLimit ∷ TextLimit ∷ IdLimit
        ∷ ViewportRange ∷ SheetLimit ∷ NoSheet ∷ AttrLimit ∷ BadSelector ∷ NotBuilt ∷ [])
        ≡ codes "bad-json" ∷ codes "bad-request" ∷ codes "line-too-long" ∷ codes "not-loaded"
        ∷ codes "no-node" ∷ codes "not-element" ∷ codes "not-text" ∷ codes "is-root"
        ∷ codes "cycle" ∷ codes "bad-index" ∷ codes "bad-name" ∷ codes "node-limit"
        ∷ codes "depth-limit" ∷ codes "text-limit" ∷ codes "id-limit" ∷ codes "viewport-range"
        ∷ codes "sheet-limit" ∷ codes "no-sheet" ∷ codes "attr-limit" ∷ codes "bad-selector"
        ∷ codes "not-built" ∷ [] }
    ensures first { first_of ((false, NotBuilt) ∷ (true, IsRoot) ∷ (true, NoNode) ∷ []) ≡ Some IsRoot }
    ensures none { first_of ((false, NotBuilt) ∷ (false, IsRoot) ∷ []) ≡ None }
    ensures first_only { IsFirstCause ((true, NoNode) ∷ (true, IsRoot) ∷ []) (Some IsRoot) → ⊥ }
    ensures memory_is_free { IsFirstCause ((true, NoNode) ∷ []) None }
    ensures refused_by_the_first { IsRefusedBy ((false, NoNode) ∷ (true, IsRoot) ∷ []) refusal.IsRoot }
{}

/// Values in JsonML: a name, then attributes in an object, then children.
pub fn examples_of_jsonml()
    ensures attributes_and_children { tree_of (array (item (string (codes "p"))
        (item (object (member (codes "a") (string (codes "b")) no_members))
        (item (string (codes "t")) (item (array (item (string (codes "q")) no_items)) no_items)))))
        ≡ Some (elem (chars (codes "p")) ((chars (codes "a"), chars (codes "b")) ∷ [])
        (tree (characters (chars (codes "t"))) (tree (elem (chars (codes "q")) [] no_trees) no_trees))) }
    ensures late_object { tree_of (array (item (string (codes "p"))
        (item (string (codes "t")) (item (object no_members) no_items)))) ≡ None }
    ensures attribute_is_a_string { tree_of (array (item (string (codes "p"))
        (item (object (member (codes "a") (number (unsigned 1)) no_members)) no_items))) ≡ None }
    ensures one_after_another { (a b x y : List ℕ)
        → tree_of (array (item (string (codes "p"))
        (item (object (member a (string x) (member b (string y) no_members))) no_items)))
        ≡ Some (elem (chars (codes "p"))
        (with_attribute (chars b) (chars y) ((chars a, chars x) ∷ [])) no_trees) }
    ensures no_name { tree_of (array no_items) ≡ None }
{}
