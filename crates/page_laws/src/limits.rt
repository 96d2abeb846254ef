//! The limits that an edit breaks.
ghost use Rattle.std.specs.Prelude.{None, Some, max, nat_lt, ℕ, ◌+◌, ◌≡◌, ◌≤◌};
ghost use Rattle.page_laws.specs.ChildLists.{IsPlace, TakesChildren};
ghost use Rattle.page_laws.specs.Ids.{HasGivenIds};
ghost use Rattle.page_laws.specs.Limits.{KeepsGrammar, KeepsLimits, broken_grammar, broken_limits};
ghost use Rattle.page_model.specs.Document.{Document, document, height, node_count, without_ids};
ghost use Rattle.page_model.specs.Edits.{document_after_drop_attr, document_after_insert, document_after_move, document_after_remove, document_after_set_attr, document_after_set_text, grammar_causes, insert_causes, level, load_causes, move_causes, nothing_taken, set_attr_causes, set_text_causes, taken_below};
ghost use Rattle.page_model.specs.Refusals.{first_of};
ghost use Rattle.page_model.specs.Trees.{Text, Tree, depth, size, text_size};
ghost use Rattle.page_model.specs.declared.limits.TheConstants.{MAX_DEPTH};

/// The new tree stands one level below its parent.
pub fn height_after_insert()
    ensures { (parent index : ℕ) (t : Tree) (d : Document) (l : ℕ) → TakesChildren parent d
        → level parent d.root ≡ Some l
        → height (document_after_insert parent index t d).root ≡ max (height d.root) (l + depth t) }
{}

/// An insert adds the nodes of its tree.
pub fn nodes_after_insert()
    ensures { (parent index : ℕ) (t : Tree) (d : Document) → TakesChildren parent d
        → node_count (document_after_insert parent index t d).root ≡ node_count d.root + size t }
{}

/// An insert adds the code points of its tree.
pub fn code_points_after_insert()
    ensures { (parent index : ℕ) (t : Tree) (d : Document) → TakesChildren parent d
        → text_size (without_ids (document_after_insert parent index t d).root)
        ≡ text_size (without_ids d.root) + text_size t }
{}

/// An insert is too deep exactly where the document after it is, if the document was not.
pub fn depth_of_insert()
    ensures { (parent index : ℕ) (t : Tree) (d : Document) (l : ℕ) → TakesChildren parent d
        → level parent d.root ≡ Some l → height d.root ≤ MAX_DEPTH
        → nat_lt MAX_DEPTH (l + depth t)
        ≡ nat_lt MAX_DEPTH (height (document_after_insert parent index t d).root) }
{}

/// The limit that refuses an insert is the first that the document after it would break, if the
/// document breaks none.
pub fn of_insert()
    ensures { (parent index : ℕ) (t : Tree) (d : Document) → IsPlace parent index d
        → KeepsLimits d
        → first_of (insert_causes parent index t d)
        ≡ first_of (broken_limits (document_after_insert parent index t d)) }
{}

/// A new tree breaks the limits on names, attributes and texts that the document after its insert
/// would, if the document breaks none.
pub fn grammar_of_insert()
    ensures { (parent index : ℕ) (t : Tree) (d : Document) → TakesChildren parent d
        → KeepsGrammar d.root
        → grammar_causes (taken_below parent d) t
        ≡ broken_grammar (document_after_insert parent index t d) }
{}

/// A loaded tree breaks the limits on names, attributes and texts that the document after the
/// load would.
pub fn grammar_of_load()
    ensures { (t : Tree) → grammar_causes nothing_taken t ≡ broken_grammar (document t) }
{}

/// The limit that refuses a load is the first that the document after it would break.
pub fn of_load()
    ensures { (t : Tree) → first_of (load_causes t) ≡ first_of (broken_limits (document t)) }
{}

/// A document after a load that is not refused breaks no limit.
pub fn kept_by_load()
    ensures { (t : Tree) → first_of (load_causes t) ≡ None → KeepsLimits (document t) }
{}

/// A document after an insert that is not refused breaks no limit, if it broke none before.
pub fn kept_by_insert()
    ensures { (parent index : ℕ) (t : Tree) (d : Document) → HasGivenIds d → KeepsLimits d
        → first_of (insert_causes parent index t d) ≡ None
        → KeepsLimits (document_after_insert parent index t d) }
{}

/// A document after a remove breaks no limit, if it broke none before.
pub fn kept_by_remove()
    ensures { (i : ℕ) (d : Document) → KeepsLimits d → KeepsLimits (document_after_remove i d) }
{}

/// A document after a move that is not refused breaks no limit, if it broke none before.
pub fn kept_by_move()
    ensures { (i parent index : ℕ) (d : Document) → HasGivenIds d → KeepsLimits d
        → first_of (move_causes i parent index d) ≡ None
        → KeepsLimits (document_after_move i parent index d) }
{}

/// A document after an attribute was set, where that is not refused, breaks no limit, if it broke none
/// before.
pub fn kept_by_set_attr()
    ensures { (i : ℕ) (name value : Text) (d : Document) → HasGivenIds d → KeepsLimits d
        → first_of (set_attr_causes i name value d) ≡ None
        → KeepsLimits (document_after_set_attr i name value d) }
{}

/// A document after an attribute was dropped breaks no limit, if it broke none before.
pub fn kept_by_drop_attr()
    ensures { (i : ℕ) (name : Text) (d : Document) → KeepsLimits d
        → KeepsLimits (document_after_drop_attr i name d) }
{}

/// A document after a text was set, where that is not refused, breaks no limit, if it broke none
/// before.
pub fn kept_by_set_text()
    ensures { (i : ℕ) (cs : Text) (d : Document) → KeepsLimits d
        → first_of (set_text_causes i cs d) ≡ None
        → KeepsLimits (document_after_set_text i cs d) }
{}
