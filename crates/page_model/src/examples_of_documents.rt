//! Documents, names and attributes, on small trees.
ghost use Rattle.std.specs.Prelude.{◌≡◌, ◌∷◌, [], Some, None, true, false, codes, map, replicate, nat_lt, length};
ghost use Rattle.page_model.specs.Trees.{Text, elem, characters, no_trees, tree, size, depth, text_size, is_long, has_bad_name, has_many_attributes, has_long_text};
ghost use Rattle.page_model.specs.Names.{is_name};
ghost use Rattle.page_model.specs.Attributes.{value_of, with_attribute, without_attribute, are_in_order};
ghost use Rattle.page_model.specs.Document.{element, text, no_nodes, node, document, without_ids, child_ids, parent_of, next_of, prev_of, first_child_of, name_at, text_at, value_at, ids, node_count, height};

/// A name has 1 to 64 code points; none is U+0000 to U+0020, U+007F or one of `"'<>/=`.
pub fn examples_of_names()
    ensures shortest { is_name (codes "a") ≡ true }
    ensures empty { is_name [] ≡ false }
    ensures longest { is_name (replicate 64 97) ≡ true }
    ensures too_long { is_name (replicate 65 97) ≡ false }
    ensures spaces { map (λ c. is_name (c ∷ [])) (0 ∷ 31 ∷ 32 ∷ 127 ∷ [])
        ≡ false ∷ false ∷ false ∷ false ∷ [] }
    ensures marks { map (λ c. is_name (c ∷ [])) (34 ∷ 39 ∷ 60 ∷ 62 ∷ 47 ∷ 61 ∷ [])
        ≡ false ∷ false ∷ false ∷ false ∷ false ∷ false ∷ [] }
    ensures others { map (λ c. is_name (c ∷ [])) (33 ∷ 35 ∷ 46 ∷ 126 ∷ 128 ∷ 233 ∷ 65279 ∷ [])
        ≡ true ∷ true ∷ true ∷ true ∷ true ∷ true ∷ true ∷ [] }
    ensures later_code_point { is_name (codes "a=") ≡ false }
{}

/// Attributes stand in the order of their names by code points, each name once.
pub fn examples_of_attributes()
    ensures first { with_attribute (codes "b") (codes "1") [] ≡ (codes "b", codes "1") ∷ [] }
    ensures before { with_attribute (codes "a") (codes "2") ((codes "b", codes "1") ∷ [])
        ≡ (codes "a", codes "2") ∷ (codes "b", codes "1") ∷ [] }
    ensures behind { with_attribute (codes "ba") (codes "2") ((codes "b", codes "1") ∷ [])
        ≡ (codes "b", codes "1") ∷ (codes "ba", codes "2") ∷ [] }
    ensures replaced { with_attribute (codes "b") (codes "2")
        ((codes "b", codes "1") ∷ (codes "c", codes "3") ∷ [])
        ≡ (codes "b", codes "2") ∷ (codes "c", codes "3") ∷ [] }
    ensures by_code_point { are_in_order ((codes "Z", []) ∷ (codes "a", []) ∷ (codes "é", []) ∷ [])
        ≡ true }
    ensures not_twice { are_in_order ((codes "a", []) ∷ (codes "a", []) ∷ []) ≡ false }
    ensures dropped { without_attribute (codes "b")
        ((codes "a", codes "1") ∷ (codes "b", codes "2") ∷ (codes "c", codes "3") ∷ [])
        ≡ (codes "a", codes "1") ∷ (codes "c", codes "3") ∷ [] }
    ensures absent { without_attribute (codes "b") ((codes "a", codes "1") ∷ [])
        ≡ (codes "a", codes "1") ∷ [] }
    ensures value { value_of (codes "b") ((codes "a", codes "1") ∷ (codes "b", codes "2") ∷ [])
        ≡ Some (codes "2") }
    ensures no_value { value_of (codes "c") ((codes "a", codes "1") ∷ []) ≡ None }
{}

/// `<a>x<b k="vw">y</b><c></c></a>` has five nodes, which get the ids 0 to 4 in document order.
pub fn examples_of_readers()
    ensures loaded { document (elem (codes "a") []
        (tree (characters (codes "x"))
        (tree (elem (codes "b") ((codes "k", codes "vw") ∷ []) (tree (characters (codes "y")) no_trees))
        (tree (elem (codes "c") [] no_trees) no_trees))))
        ≡ record {
          root = element 0 (codes "a") []
              (node (text 1 (codes "x"))
              (node (element 2 (codes "b") ((codes "k", codes "vw") ∷ [])
              (node (text 3 (codes "y")) no_nodes))
              (node (element 4 (codes "c") [] no_nodes) no_nodes)));
          next_id = 5;
        } }
    ensures sizes { let t = elem (codes "a") []
        (tree (characters (codes "x"))
        (tree (elem (codes "b") ((codes "k", codes "vw") ∷ []) (tree (characters (codes "y")) no_trees))
        (tree (elem (codes "c") [] no_trees) no_trees)))
        in (size t ≡ 5) × (depth t ≡ 3) × (text_size t ≡ 4) }
    ensures readers { let r = element 0 (codes "a") []
        (node (text 1 (codes "x"))
        (node (element 2 (codes "b") ((codes "k", codes "vw") ∷ []) (node (text 3 (codes "y")) no_nodes))
        (node (element 4 (codes "c") [] no_nodes) no_nodes)))
        in (ids r ≡ 0 ∷ 1 ∷ 2 ∷ 3 ∷ 4 ∷ []) × (node_count r ≡ 5) × (height r ≡ 3)
        × (child_ids 0 r ≡ 1 ∷ 2 ∷ 4 ∷ []) × (first_child_of 0 r ≡ Some 1) × (first_child_of 4 r ≡ None)
        × (parent_of 3 r ≡ Some 2) × (parent_of 0 r ≡ None)
        × (next_of 1 r ≡ Some 2) × (next_of 4 r ≡ None) × (prev_of 4 r ≡ Some 2) × (prev_of 1 r ≡ None)
        × (name_at 2 r ≡ Some (codes "b")) × (name_at 1 r ≡ None) × (name_at 9 r ≡ None)
        × (text_at 3 r ≡ Some (codes "y")) × (text_at 2 r ≡ None)
        × (value_at (codes "k") 2 r ≡ Some (codes "vw")) × (value_at (codes "k") 0 r ≡ None) }
{}

/// What is not in the grammar of names or above a limit is found at each depth.
pub fn examples_of_limits()
    ensures names { has_bad_name (elem (codes "a") ((codes "k", []) ∷ []) no_trees) ≡ false }
    ensures bad_element { has_bad_name (elem (codes "a") [] (tree (elem [] [] no_trees) no_trees)) ≡ true }
    ensures bad_attribute { has_bad_name (elem (codes "a") ((codes "<", []) ∷ []) no_trees) ≡ true }
    ensures few_attributes { has_many_attributes (elem (codes "a") (replicate 64 ([], [])) no_trees)
        ≡ false }
    ensures many_attributes { has_many_attributes
        (elem (codes "a") [] (tree (elem (codes "b") (replicate 65 ([], [])) no_trees) no_trees)) ≡ true }
    ensures long { (cs : Text) → is_long cs ≡ nat_lt 65536 (length cs) }
    ensures long_text { (cs : Text) → has_long_text (characters cs) ≡ is_long cs }
    ensures long_value { (cs : Text) → is_long cs ≡ true
        → has_long_text (elem (codes "a") (([], cs) ∷ []) no_trees) ≡ true }
{}
