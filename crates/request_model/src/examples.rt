//! What lines ask for, why requests are refused and what they leave, on small cases.
ghost use Rattle.std.specs.Prelude.{◌≡◌, ℕ, List, [], ◌∷◌, Some, None, true, false, codes};
ghost use Rattle.std.specs.Str.{chars, is_utf8};
ghost use Rattle.serde_json.specs.Read.{read};
ghost use Rattle.page_model.specs.Trees.{Text, Tree, elem, characters, no_trees, tree};
ghost use Rattle.page_model.specs.Document.{element, text, node, no_nodes};
ghost use Rattle.page_model.specs.declared.cause.Cause.TheVariants.{LineTooLong, NotElement, BadJson, BadRequest, NotLoaded, NoNode, IsRoot, BadIndex, ViewportRange, NotBuilt};
ghost use Rattle.request_model.specs.declared.query.Query.TheVariants.{Dump, Match, Rules, Style};
ghost use Rattle.request_model.specs.Requests.{load, insert, remove, edit, query, nothing, broken, request, asked_of, asked_of_line, value_of, is_name_not_built, Edit, Request};
ghost use Rattle.request_model.specs.States.{silent, brings_tree, edit_causes, refusal_of, answer_to, accepted, refused, state_after_edit, accepted_by, next_id, logs_of, logs_of_asked};
ghost use Rattle.std.specs.List.{list_all, list_any};
ghost use Rattle.stream_model.specs.Lines.{is_blank, is_too_long};
ghost use Rattle.page_model.specs.Refusals.{first_of};
ghost use Rattle.serde_json.specs.Data.{string, array, object, number, item, no_items, member, no_members, null, unsigned};

/// Causes are asked in their order: what is not built before what is loaded is looked at, and a
/// side of the viewport before the document.
#[tactic(auto, unfolding(crate::specs::States::refusal_of))]
pub fn examples_of_causes()
    ensures not_built_before_side { refusal_of None
        (edit (load 10001 1 (elem (codes "div") [] (tree (characters []) no_trees)) None))
        ≡ Some NotBuilt }
    ensures text_not_built { refusal_of None
        (edit (load 1 1 (elem (codes "div") [] (tree (characters []) no_trees)) None))
        ≡ Some NotBuilt }
    ensures side { refusal_of None (edit (load 1 10001 (elem (codes "div") [] no_trees) None))
        ≡ Some ViewportRange }
    ensures other_side { refusal_of None (edit (load 10001 1 (elem (codes "div") [] no_trees) None))
        ≡ Some ViewportRange }
    ensures greatest_sides { refusal_of None
        (edit (load 10000 10000 (elem (codes "div") [] no_trees) None)) ≡ None }
    ensures not_built_before_not_loaded { refusal_of None (edit (insert 0 0 (characters [])))
        ≡ Some NotBuilt }
    ensures insert_not_loaded { refusal_of None (edit (insert 0 0 (elem (codes "div") [] no_trees)))
        ≡ Some NotLoaded }
    ensures remove_not_loaded { refusal_of None (edit (remove 0)) ≡ Some NotLoaded }
    ensures dump_not_loaded { refusal_of None (query Dump) ≡ Some NotLoaded }
    ensures dump_loaded { refusal_of (state_after_edit None
        (load 1 1 (elem (codes "div") [] no_trees) None)) (query Dump)
        ≡ None }
    ensures no_node { refusal_of (state_after_edit None (load 1 1 (elem (codes "div") [] no_trees)
        None)) (edit (remove 1))
        ≡ Some NoNode }
    ensures is_root { refusal_of (state_after_edit None (load 1 1 (elem (codes "div") [] no_trees)
        None)) (edit (remove 0))
        ≡ Some IsRoot }
    ensures bad_index { refusal_of (state_after_edit None (load 1 1 (elem (codes "div") [] no_trees) None))
        (edit (insert 0 1 (elem (codes "div") [] no_trees)))
        ≡ Some BadIndex }
    ensures deeper_text_not_built { refusal_of None (edit (load 1 1 (elem (codes "div") []
        (tree (elem (codes "p") [] no_trees)
        (tree (elem (codes "p") [] (tree (characters []) no_trees)) no_trees))) None))
        ≡ Some NotBuilt }
    ensures side_before_limits { (doc : Tree)
        → first_of (edit_causes None (load 10001 1 doc None)) ≡ Some ViewportRange }
{}

/// A request has exactly the members of its kind; a name that is known and not built is refused
/// before its members are looked at (RFC 8259 section 4).
#[tactic(auto, unfolding(crate::specs::Requests::asked_of, crate::specs::Requests::is_name_not_built, crate::specs::Requests::request_named, crate::specs::Requests::load_of, crate::specs::Requests::insert_of, crate::specs::Requests::remove_of, crate::specs::Requests::dump_of))]
pub fn examples_of_requests()
    ensures bad_json { asked_of None ≡ broken BadJson }
    ensures not_an_object { asked_of (Some (array no_items)) ≡ broken BadRequest }
    ensures no_do { asked_of (Some (object no_members)) ≡ broken BadRequest }
    ensures do_is_null { asked_of (Some (object (member (codes "do") null no_members))) ≡ broken BadRequest }
    ensures unknown { asked_of (Some (object (member (codes "do") (string (codes "fly"))
        no_members))) ≡ broken BadRequest }
    ensures not_built { asked_of (Some (object (member (codes "do") (string (codes "resize"))
        no_members))) ≡ broken NotBuilt }
    ensures not_built_with_others { asked_of (Some (object (member (codes "a") null
        (member (codes "do") (string (codes "set-attr")) no_members))))
        ≡ broken NotBuilt }
    ensures dump { asked_of (Some (object (member (codes "do") (string (codes "dump")) no_members)))
        ≡ request (query Dump) }
    ensures dump_with_another { asked_of (Some (object (member (codes "do") (string (codes "dump"))
        (member (codes "id") null no_members))))
        ≡ broken BadRequest }
    ensures removes { asked_of (Some (object (member (codes "do") (string (codes "remove"))
        (member (codes "id") (number (unsigned 7)) no_members))))
        ≡ request (edit (remove 7)) }
    ensures remove_without_id { asked_of (Some (object (member (codes "do")
        (string (codes "remove")) no_members))) ≡ broken BadRequest }
    ensures inserts { asked_of (Some (object (member (codes "do") (string (codes "insert"))
        (member (codes "index") (number (unsigned 2)) (member (codes "parent") (number (unsigned 1))
        (member (codes "tree") (string (codes "x")) no_members))))))
        ≡ request (edit (insert 1 2 (characters (chars (codes "x"))))) }
    ensures text_is_no_document { asked_of (Some (object (member (codes "do")
        (string (codes "load")) (member (codes "doc") (string (codes "x"))
        (member (codes "height") (number (unsigned 2)) (member (codes "width") (number (unsigned 1))
        no_members))))))
        ≡ broken BadRequest }
    ensures loads { asked_of (Some (object (member (codes "do") (string (codes "load"))
        (member (codes "doc") (array (item (string (codes "a")) no_items))
        (member (codes "height") (number (unsigned 2)) (member (codes "width") (number (unsigned 1))
        no_members))))))
        ≡ request (edit (load 1 2 (elem (chars (codes "a")) [] no_trees) None)) }
    ensures loads_sheets { asked_of (Some (object (member (codes "do") (string (codes "load"))
        (member (codes "doc") (array (item (string (codes "a")) no_items))
        (member (codes "height") (number (unsigned 2))
        (member (codes "sheets") (array (item (string (codes "s")) no_items))
        (member (codes "width") (number (unsigned 1)) no_members)))))))
        ≡ request (edit (load 1 2 (elem (chars (codes "a")) [] no_trees) (Some (chars (codes "s") ∷ [])))) }
    ensures sheets_are_strings { asked_of (Some (object (member (codes "do") (string (codes "load"))
        (member (codes "doc") (array (item (string (codes "a")) no_items))
        (member (codes "height") (number (unsigned 2))
        (member (codes "sheets") (array (item null no_items))
        (member (codes "width") (number (unsigned 1)) no_members)))))))
        ≡ broken BadRequest }
    ensures null_is_no_list_of_sheets { asked_of (Some (object (member (codes "do") (string (codes "load"))
        (member (codes "doc") (array (item (string (codes "a")) no_items))
        (member (codes "height") (number (unsigned 2)) (member (codes "sheets") null
        (member (codes "width") (number (unsigned 1)) no_members)))))))
        ≡ broken BadRequest }
    ensures names_not_built { list_all is_name_not_built
        (codes "resize" ∷ codes "move" ∷ codes "set-attr" ∷ codes "drop-attr" ∷ codes "set-text"
        ∷ codes "counts" ∷ [])
        ≡ true }
    ensures names_built { list_any is_name_not_built
        (codes "load" ∷ codes "insert" ∷ codes "remove" ∷ codes "sheet" ∷ codes "dump" ∷ codes "rules"
        ∷ codes "match" ∷ codes "style" ∷ [])
        ≡ false }
    ensures insert_with_another { asked_of (Some (object (member (codes "a") null
        (member (codes "do") (string (codes "insert"))
        (member (codes "index") (number (unsigned 2)) (member (codes "parent") (number (unsigned 1))
        (member (codes "tree") (string (codes "x")) no_members)))))))
        ≡ broken BadRequest }
    ensures remove_with_another { asked_of (Some (object (member (codes "a") null
        (member (codes "do") (string (codes "remove"))
        (member (codes "id") (number (unsigned 7)) no_members)))))
        ≡ broken BadRequest }
    ensures load_with_another { asked_of (Some (object (member (codes "a") null
        (member (codes "do") (string (codes "load"))
        (member (codes "doc") (array (item (string (codes "a")) no_items))
        (member (codes "height") (number (unsigned 2)) (member (codes "width") (number (unsigned 1))
        no_members)))))))
        ≡ broken BadRequest }
    ensures loads_two_sheets { asked_of (Some (object (member (codes "do") (string (codes "load"))
        (member (codes "doc") (array (item (string (codes "a")) no_items))
        (member (codes "height") (number (unsigned 2))
        (member (codes "sheets") (array (item (string (codes "s")) (item (string (codes "t")) no_items)))
        (member (codes "width") (number (unsigned 1)) no_members)))))))
        ≡ request (edit (load 1 2 (elem (chars (codes "a")) [] no_trees) (Some (chars (codes "s")
        ∷ chars (codes "t") ∷ [])))) }
{}

/// What lines leave: a load replaces all, its sheets included; a refused request and a query leave
/// the state as it was; new ids are counted from the load on; an edit, a dump and a style begin
/// a log, be they refused or not.
#[tactic(auto, unfolding(crate::specs::States::refusal_of))]
pub fn examples_of_states()
    ensures loaded { state_after_edit None (load 3 4 (elem (codes "a") [] no_trees) (Some (codes "s" ∷ [])))
        ≡ Some (record {
          document = record { root = element 0 (codes "a") [] no_nodes; next_id = 1 };
          sheets = codes "s" ∷ [];
          viewport = record { width = 3; height = 4 };
        }) }
    ensures before_a_load { next_id None ≡ 0 }
    ensures load_gives { accepted_by None
        (load 3 4 (elem (codes "a") [] (tree (characters []) no_trees)) None)
        ≡ record { first = 0; count = 2 } }
    ensures insert_gives { accepted_by (state_after_edit None (load 3 4 (elem (codes "a") [] no_trees) None))
        (insert 0 0 (elem (codes "a") [] (tree (characters []) no_trees)))
        ≡ record { first = 1; count = 2 } }
    ensures remove_gives { accepted_by None (remove 5) ≡ record { first = 0; count = 0 } }
    ensures refused_remove { answer_to (state_after_edit None
        (load 3 4 (elem (codes "a") [] no_trees) None)) (request (edit (remove 0)))
        ≡ refused IsRoot }
    ensures blank_is_silent { answer_to None nothing ≡ silent }
    ensures broken_is_refused { answer_to None (broken BadJson) ≡ refused BadJson }
    ensures accepts { answer_to None (request (edit (load 1 1 (elem (codes "div") [] no_trees) None)))
        ≡ accepted (edit (load 1 1 (elem (codes "div") [] no_trees) None)) }
    ensures load_brings { brings_tree (load 1 1 (characters []) None) ≡ true }
    ensures insert_brings { brings_tree (insert 0 0 (characters [])) ≡ true }
    ensures remove_brings_none { brings_tree (remove 0) ≡ false }
    ensures load_replaces { state_after_edit
        (state_after_edit None (load 3 4 (elem (codes "a") [] (tree (characters []) no_trees))
        (Some (codes "s" ∷ []))))
        (load 5 6 (elem (codes "b") [] no_trees) None)
        ≡ Some (record {
          document = record { root = element 0 (codes "b") [] no_nodes; next_id = 1 };
          sheets = [];
          viewport = record { width = 5; height = 6 };
        }) }
    ensures load_counts_anew { accepted_by (state_after_edit None
        (load 3 4 (elem (codes "a") [] no_trees) None))
        (load 5 6 (elem (codes "b") [] no_trees) None)
        ≡ record { first = 0; count = 1 } }
    ensures inserted_between { state_after_edit
        (state_after_edit None (load 3 4 (elem (codes "a") []
        (tree (elem (codes "b") [] (tree (characters []) no_trees))
        (tree (elem (codes "c") [] no_trees) no_trees)))
        (Some (codes "s" ∷ []))))
        (insert 0 1 (elem (codes "d") [] (tree (characters []) no_trees)))
        ≡ Some (record {
          document = record {
            root = element 0 (codes "a") []
                (node (element 1 (codes "b") [] (node (text 2 []) no_nodes))
                (node (element 4 (codes "d") [] (node (text 5 []) no_nodes))
                (node (element 3 (codes "c") [] no_nodes) no_nodes)));
            next_id = 6;
          };
          sheets = codes "s" ∷ [];
          viewport = record { width = 3; height = 4 };
        }) }
    ensures removed_below { state_after_edit
        (state_after_edit None (load 3 4 (elem (codes "a") []
        (tree (elem (codes "b") [] (tree (characters []) no_trees))
        (tree (elem (codes "c") [] no_trees) no_trees)))
        (Some (codes "s" ∷ []))))
        (remove 2)
        ≡ Some (record {
          document = record {
            root = element 0 (codes "a") []
                (node (element 1 (codes "b") [] no_nodes)
                (node (element 3 (codes "c") [] no_nodes) no_nodes));
            next_id = 4;
          };
          sheets = codes "s" ∷ [];
          viewport = record { width = 3; height = 4 };
        }) }
    ensures edit_begins { (e : Edit) → logs_of (edit e) ≡ 1 }
    ensures dump_begins { logs_of (query Dump) ≡ 1 }
    ensures style_begins { (i : ℕ) → logs_of (query (Style i)) ≡ 1 }
    ensures rules_begin_none { logs_of (query Rules) ≡ 0 }
    ensures match_begins_none { (selector : Text) → logs_of (query (Match selector)) ≡ 0 }
    ensures blank_begins_none { logs_of_asked nothing ≡ 0 }
    ensures broken_begins_none { logs_of_asked (broken NotBuilt) ≡ 0 }
    ensures asked_begins { (q : Request) → logs_of_asked (request q) ≡ logs_of q }
{}

/// A line is looked at by its length first, and then whether it is blank (RFC 8259 section 8.1).
#[tactic(auto, unfolding(crate::specs::Requests::asked_of_line, crate::specs::Requests::value_of))]
pub fn examples_of_asking()
    ensures too_long { (line : List ℕ) → is_too_long line ≡ true → asked_of_line line ≡ broken LineTooLong }
    ensures empty { asked_of_line [] ≡ nothing }
    ensures blank { asked_of_line (32 ∷ 9 ∷ 13 ∷ []) ≡ nothing }
    ensures neither { (line : List ℕ) → is_too_long line ≡ false → is_blank line ≡ false
        → asked_of_line line ≡ asked_of (value_of line) }
    ensures no_utf8 { (line : List ℕ) → is_utf8 line ≡ false → value_of line ≡ None }
    ensures utf8 { (line : List ℕ) → is_utf8 line ≡ true → value_of line ≡ read line }
{}
