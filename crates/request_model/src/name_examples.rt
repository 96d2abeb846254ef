//! Documents with names and attributes: why they are refused, and when their dump is not built.
ghost use Rattle.std.specs.Prelude.{◌≡◌, [], ◌∷◌, Some, None, true, false, codes, replicate};
ghost use Rattle.page_model.specs.Document.{Document, document, element, no_nodes, node, text};
ghost use Rattle.page_model.specs.Refusals.{first_of};
ghost use Rattle.page_model.specs.Trees.{Attribute, Text, characters, elem, is_long, no_trees, tree};
ghost use Rattle.page_model.specs.declared.cause.Cause.TheVariants.{AttrLimit, BadIndex, BadName, NoNode, NotBuilt, NotLoaded, TextLimit, ViewportRange};
ghost use Rattle.page_model.specs.declared.viewport.Viewport.{Viewport};
ghost use Rattle.request_model.specs.declared.query.Query.TheVariants.{Dump};
ghost use Rattle.request_model.specs.Requests.{edit, insert, load, query};
ghost use Rattle.request_model.specs.States.{edit_causes, is_styled_page, refusal_of, state_after_edit};

/// Every name and attribute is taken that is in the grammar and within the limits; this is asked
/// after what is not built, the sides of the viewport, and what an insert is put into.
#[tactic(auto, unfolding(crate::specs::States::refusal_of))]
pub fn examples_of_names()
    ensures taken { refusal_of None (edit (load 1 1 (elem (codes "p") ((codes "a", []) ∷ [])
        (tree (elem (233 ∷ []) [] no_trees) no_trees)) None)) ≡ None }
    ensures name { refusal_of None (edit (load 1 1 (elem [] [] no_trees) None)) ≡ Some BadName }
    ensures attribute_name { refusal_of None (edit (load 1 1
        (elem (codes "p") ((codes "a b", []) ∷ []) no_trees) None)) ≡ Some BadName }
    ensures most_attributes { refusal_of None (edit (load 1 1
        (elem (codes "p") (replicate 64 (codes "a", [])) no_trees) None)) ≡ None }
    ensures attributes { refusal_of None (edit (load 1 1
        (elem (codes "p") (replicate 65 (codes "a", [])) no_trees) None)) ≡ Some AttrLimit }
    ensures value { (long : Text) → is_long long ≡ true
        → first_of (edit_causes None (load 1 1 (elem (codes "p") ((codes "a", long) ∷ []) no_trees) None))
        ≡ Some TextLimit }
    ensures name_before_attributes { refusal_of None (edit (load 1 1
        (elem (codes "p") (replicate 65 ([], [])) no_trees) None)) ≡ Some BadName }
    ensures not_built_before_name { refusal_of None (edit (load 1 1
        (elem [] [] (tree (characters []) no_trees)) None)) ≡ Some NotBuilt }
    ensures side_before_name { refusal_of None (edit (load 10001 1 (elem [] [] no_trees) None))
        ≡ Some ViewportRange }
    ensures insert_takes { refusal_of (state_after_edit None (load 1 1 (elem (codes "p") [] no_trees) None))
        (edit (insert 0 0 (elem (codes "q") ((codes "a", []) ∷ []) no_trees))) ≡ None }
    ensures insert_name { refusal_of (state_after_edit None (load 1 1 (elem (codes "p") [] no_trees) None))
        (edit (insert 0 0 (elem [] [] no_trees))) ≡ Some BadName }
    ensures not_loaded_before_name { refusal_of None (edit (insert 0 0 (elem [] [] no_trees)))
        ≡ Some NotLoaded }
    ensures no_node_before_name { refusal_of
        (state_after_edit None (load 1 1 (elem (codes "p") [] no_trees) None))
        (edit (insert 1 0 (elem [] [] no_trees))) ≡ Some NoNode }
    ensures index_before_name { refusal_of
        (state_after_edit None (load 1 1 (elem (codes "p") [] no_trees) None))
        (edit (insert 0 1 (elem [] [] no_trees))) ≡ Some BadIndex }
{}

/// A dump is not built where an element is not a `div`, or has a `style` attribute.
#[tactic(auto, unfolding(crate::specs::States::refusal_of))]
pub fn examples_of_dumps_with_names()
    ensures another_name { refusal_of
        (state_after_edit None (load 1 1 (elem (codes "p") [] no_trees) None)) (query Dump)
        ≡ Some NotBuilt }
    ensures case { refusal_of
        (state_after_edit None (load 1 1 (elem (codes "Div") [] no_trees) None)) (query Dump)
        ≡ Some NotBuilt }
    ensures style { refusal_of (state_after_edit None
        (load 1 1 (elem (codes "div") ((codes "style", []) ∷ []) no_trees) None)) (query Dump)
        ≡ Some NotBuilt }
    ensures other_attributes { refusal_of (state_after_edit None (load 1 1
        (elem (codes "div") ((codes "a", codes "style") ∷ (codes "styles", []) ∷ []) no_trees) None))
        (query Dump) ≡ None }
    ensures below { refusal_of (state_after_edit None (load 1 1 (elem (codes "div") []
        (tree (elem (codes "div") [] no_trees)
        (tree (elem (codes "div") [] (tree (elem (codes "p") [] no_trees) no_trees)) no_trees))) None))
        (query Dump) ≡ Some NotBuilt }
    ensures texts { (viewport : Viewport) → is_styled_page (record {
      document = document (elem (codes "div") [] (tree (characters (codes "p")) no_trees));
      sheets = [];
      viewport = viewport;
    }) ≡ false }
{}
