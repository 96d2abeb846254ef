//! Edits of documents and the causes of their refusals, on small trees.
ghost use Rattle.std.specs.Prelude.{◌≡◌, ◌∷◌, ◌++◌, [], Some, None, true, codes, replicate, nat_lt};
ghost use Rattle.page_model.specs.Trees.{Tree, elem, characters, no_trees, tree, text_size};
ghost use Rattle.page_model.specs.Document.{Document, Node, element, text, no_nodes, node, without_ids};
ghost use Rattle.page_model.specs.Edits.{tree_after_insert, tree_after_remove, tree_after_move, tree_after_set_attr, tree_after_drop_attr, tree_after_set_text, document_after_insert, document_after_remove, Taken, taken_below, tree_causes, load_causes, insert_causes, remove_causes, move_causes, set_attr_causes, drop_attr_causes, set_text_causes, is_over_text_limit};
ghost use Rattle.page_model.specs.Refusals.{first_of};
ghost use Rattle.page_model.specs.declared.cause.Cause.TheVariants.{NoNode, NotElement, NotText, IsRoot, Cycle, BadIndex, BadName, NodeLimit, DepthLimit, TextLimit, IdLimit, AttrLimit};

/// An edit changes one node or one list of children, here of `<a>x<b>y</b></a>`.
pub fn examples_of_trees_after_edits()
    ensures insert { document_after_insert 0 1 (elem (codes "c") [] (tree (characters (codes "z")) no_trees))
        (record {
          root = element 0 (codes "a") [] (node (text 1 (codes "x")) (node (element 2 (codes "b") []
              (node (text 3 (codes "y")) no_nodes)) no_nodes));
          next_id = 7;
        })
        ≡ record {
          root = element 0 (codes "a") [] (node (text 1 (codes "x")) (node (element 7 (codes "c") []
              (node (text 8 (codes "z")) no_nodes)) (node (element 2 (codes "b") []
              (node (text 3 (codes "y")) no_nodes)) no_nodes)));
          next_id = 9;
        } }
    ensures remove { document_after_remove 2
        (record {
          root = element 0 (codes "a") [] (node (text 1 (codes "x")) (node (element 2 (codes "b") []
              (node (text 3 (codes "y")) no_nodes)) no_nodes));
          next_id = 7;
        })
        ≡ record { root = element 0 (codes "a") [] (node (text 1 (codes "x")) no_nodes); next_id = 7 } }
    ensures move_behind_itself { tree_after_move 1 0 1
        (element 0 (codes "a") [] (node (text 1 (codes "x")) (node (element 2 (codes "b") []
        (node (text 3 (codes "y")) no_nodes)) no_nodes)))
        ≡ element 0 (codes "a") [] (node (element 2 (codes "b") [] (node (text 3 (codes "y")) no_nodes))
        (node (text 1 (codes "x")) no_nodes)) }
    ensures move_to_another_parent { tree_after_move 1 2 0
        (element 0 (codes "a") [] (node (text 1 (codes "x")) (node (element 2 (codes "b") []
        (node (text 3 (codes "y")) no_nodes)) no_nodes)))
        ≡ element 0 (codes "a") [] (node (element 2 (codes "b") []
        (node (text 1 (codes "x")) (node (text 3 (codes "y")) no_nodes))) no_nodes) }
    ensures set_attr { tree_after_set_attr 2 (codes "k") (codes "v")
        (element 0 (codes "a") []
        (node (text 1 (codes "x")) (node (element 2 (codes "b") [] no_nodes) no_nodes)))
        ≡ element 0 (codes "a") []
        (node (text 1 (codes "x"))
        (node (element 2 (codes "b") ((codes "k", codes "v") ∷ []) no_nodes) no_nodes)) }
    ensures drop_attr { tree_after_drop_attr 0 (codes "k")
        (element 0 (codes "a") ((codes "k", codes "v") ∷ []) no_nodes)
        ≡ element 0 (codes "a") [] no_nodes }
    ensures set_text { tree_after_set_text 1 (codes "zz")
        (element 0 (codes "a") [] (node (text 1 (codes "x")) (node (text 2 (codes "y")) no_nodes)))
        ≡ element 0 (codes "a") [] (node (text 1 (codes "zz")) (node (text 2 (codes "y")) no_nodes)) }
{}

/// A new tree may reach each limit and not go past it; of several causes the first in the order is told.
pub fn examples_of_tree_causes()
    ensures at_each_limit { first_of (tree_causes
        (record { level = 95; nodes = 19999; ids = 99999; code_points = 16777215 })
        (elem (codes "a") ((codes "k", codes "v") ∷ []) no_trees)) ≡ None }
    ensures id_limit { first_of (tree_causes
        (record { level = 95; nodes = 19999; ids = 100000; code_points = 0 })
        (elem (codes "a") ((codes "k", codes "v") ∷ []) no_trees)) ≡ Some IdLimit }
    ensures node_limit { first_of (tree_causes
        (record { level = 95; nodes = 20000; ids = 100000; code_points = 0 })
        (elem (codes "a") ((codes "k", codes "v") ∷ []) no_trees)) ≡ Some NodeLimit }
    ensures depth_limit { first_of (tree_causes
        (record { level = 96; nodes = 20000; ids = 100000; code_points = 0 })
        (elem (codes "a") ((codes "k", codes "v") ∷ []) no_trees)) ≡ Some DepthLimit }
    ensures text_limit { first_of (tree_causes
        (record { level = 96; nodes = 20000; ids = 100000; code_points = 16777216 })
        (elem (codes "a") ((codes "k", codes "v") ∷ []) no_trees)) ≡ Some TextLimit }
    ensures attr_limit { first_of (tree_causes
        (record { level = 96; nodes = 0; ids = 0; code_points = 16777216 })
        (elem (codes "a") (replicate 65 (codes "k", codes "v")) no_trees)) ≡ Some AttrLimit }
    ensures bad_name { first_of (tree_causes
        (record { level = 96; nodes = 0; ids = 0; code_points = 16777216 })
        (elem (codes "<") (replicate 65 (codes "k", codes "v")) no_trees)) ≡ Some BadName }
    ensures load { first_of (load_causes (elem (codes "a") [] no_trees)) ≡ None }
    ensures taken { taken_below 2 (record {
      root = element 0 (codes "a") ((codes "k", codes "vw") ∷ [])
          (node (text 1 (codes "x")) (node (element 2 (codes "b") [] no_nodes) no_nodes));
      next_id = 7;
    })
        ≡ record { level = 2; nodes = 3; ids = 7; code_points = 3 } }
    ensures all_texts { (root : Node)
        → is_over_text_limit root ≡ nat_lt 16777216 (text_size (without_ids root)) }
{}

/// Of several causes the first in the order is told, here of edits of `<a>x<b>y</b></a>`.
pub fn examples_of_edit_causes()
    ensures insert { let d : Document = record {
      root = element 0 (codes "a") [] (node (text 1 (codes "x"))
          (node (element 2 (codes "b") [] (node (text 3 (codes "y")) no_nodes)) no_nodes));
      next_id = 7;
    }
        in let bad : Tree = elem [] [] no_trees
        in (first_of (insert_causes 9 9 bad d) ≡ Some NoNode)
        × (first_of (insert_causes 1 9 bad d) ≡ Some NotElement)
        × (first_of (insert_causes 0 3 bad d) ≡ Some BadIndex)
        × (first_of (insert_causes 0 2 bad d) ≡ Some BadName)
        × (first_of (insert_causes 0 2 (characters []) d) ≡ None) }
    ensures remove { let d : Document = record {
      root = element 0 (codes "a") []
          (node (text 1 (codes "x")) no_nodes);
      next_id = 7;
    }
        in (first_of (remove_causes 2 d) ≡ Some NoNode) × (first_of (remove_causes 0 d) ≡ Some IsRoot)
        × (first_of (remove_causes 1 d) ≡ None) }
    ensures move_to { let d : Document = record {
      root = element 0 (codes "a") [] (node (text 1 (codes "x"))
          (node (element 2 (codes "b") [] (node (text 3 (codes "y")) no_nodes)) no_nodes));
      next_id = 7;
    }
        in (first_of (move_causes 9 0 0 d) ≡ Some NoNode) × (first_of (move_causes 0 9 0 d) ≡ Some NoNode)
        × (first_of (move_causes 0 1 9 d) ≡ Some IsRoot) × (first_of (move_causes 2 3 9 d) ≡ Some NotElement)
        × (first_of (move_causes 2 2 9 d) ≡ Some Cycle) × (first_of (move_causes 1 0 2 d) ≡ Some BadIndex)
        × (first_of (move_causes 1 0 1 d) ≡ None) × (first_of (move_causes 1 2 1 d) ≡ None) }
    ensures move_below_itself { let d : Document = record {
      root = element 0 (codes "a") []
          (node (element 1 (codes "b") [] (node (element 2 (codes "c") [] no_nodes) no_nodes)) no_nodes);
      next_id = 3;
    }
        in (first_of (move_causes 1 2 9 d) ≡ Some Cycle) × (first_of (move_causes 2 0 1 d) ≡ None) }
    ensures set_attr { let d : Document = record {
      root = element 0 (codes "a") []
          (node (text 1 (codes "x")) no_nodes);
      next_id = 7;
    }
        in (first_of (set_attr_causes 9 [] [] d) ≡ Some NoNode)
        × (first_of (set_attr_causes 1 [] [] d) ≡ Some NotElement)
        × (first_of (set_attr_causes 0 [] [] d) ≡ Some BadName)
        × (first_of (set_attr_causes 0 (codes "k") [] d) ≡ None) }
    ensures most_attributes { let d : Document = record {
      root = element 0 (codes "a")
          (replicate 64 (codes "k", [])) no_nodes;
      next_id = 1;
    }
        in (first_of (set_attr_causes 0 (codes "j") [] d) ≡ Some AttrLimit)
        × (first_of (set_attr_causes 0 (codes "k") [] d) ≡ None) }
    ensures drop_attr { let d : Document = record {
      root = element 0 (codes "a") []
          (node (text 1 (codes "x")) no_nodes);
      next_id = 7;
    }
        in (first_of (drop_attr_causes 9 d) ≡ Some NoNode)
        × (first_of (drop_attr_causes 1 d) ≡ Some NotElement)
        × (first_of (drop_attr_causes 0 d) ≡ None) }
    ensures set_text { let d : Document = record {
      root = element 0 (codes "a") []
          (node (text 1 (codes "x")) no_nodes);
      next_id = 7;
    }
        in (first_of (set_text_causes 9 [] d) ≡ Some NoNode)
        × (first_of (set_text_causes 0 [] d) ≡ Some NotText)
        × (first_of (set_text_causes 1 [] d) ≡ None) }
{}
