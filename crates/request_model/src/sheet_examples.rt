//! What is asked of style sheets, why it is refused, and what it leaves.
ghost use Rattle.std.specs.Prelude.{◌≡◌, ℕ, List, [], ◌∷◌, Some, None, true, false, codes, replicate};
ghost use Rattle.std.specs.Str.{chars};
ghost use Rattle.serde_json.specs.Data.{string, array, object, number, item, no_items, member, no_members, null, unsigned};
ghost use Rattle.page_model.specs.Document.{document};
ghost use Rattle.page_model.specs.Pages.{Page};
ghost use Rattle.page_model.specs.Refusals.{first_of};
ghost use Rattle.page_model.specs.Trees.{Text, Tree, elem, no_trees};
ghost use Rattle.page_model.specs.declared.viewport.Viewport.{Viewport};
ghost use Rattle.page_model.specs.declared.cause.Cause.TheVariants.{BadRequest, NoSheet, NotBuilt, NotLoaded, SheetLimit, ViewportRange};
ghost use Rattle.request_model.specs.declared.query.Query.TheVariants.{Dump, Rules};
ghost use Rattle.request_model.specs.Requests.{asked_of, broken, edit, load, query, request, sheet};
ghost use Rattle.request_model.specs.States.{are_over_sheet_limits, brings_tree, edit_causes, has_style_rule, is_over_sheet_limit, query_causes, sheet_causes, sheets_after, state_after_edit};

/// `sheet` has a place, and a text or null; `rules` has nothing.
#[tactic(auto, unfolding(crate::specs::Requests::asked_of, crate::specs::Requests::request_named, crate::specs::Requests::sheet_of, crate::specs::Requests::rules_of, crate::specs::Requests::is_name_not_built))]
pub fn examples_of_asking_for_sheets()
    ensures text { asked_of (Some (object (member (codes "at") (number (unsigned 1))
        (member (codes "css") (string (codes "p{}")) (member (codes "do") (string (codes "sheet")) no_members)))))
        ≡ request (edit (sheet 1 (Some (chars (codes "p{}"))))) }
    ensures null { asked_of (Some (object (member (codes "at") (number (unsigned 1))
        (member (codes "css") null (member (codes "do") (string (codes "sheet")) no_members)))))
        ≡ request (edit (sheet 1 None)) }
    ensures neither { asked_of (Some (object (member (codes "at") (number (unsigned 1))
        (member (codes "css") (number (unsigned 1)) (member (codes "do") (string (codes "sheet")) no_members)))))
        ≡ broken BadRequest }
    ensures missing { asked_of (Some (object (member (codes "at") (number (unsigned 1))
        (member (codes "do") (string (codes "sheet")) no_members))))
        ≡ broken BadRequest }
    ensures another { asked_of (Some (object (member (codes "at") (number (unsigned 1))
        (member (codes "css") null (member (codes "do") (string (codes "sheet"))
        (member (codes "z") null no_members))))))
        ≡ broken BadRequest }
    ensures rules { asked_of (Some (object (member (codes "do") (string (codes "rules")) no_members)))
        ≡ request (query Rules) }
    ensures rules_with_another { asked_of (Some (object (member (codes "do") (string (codes "rules"))
        (member (codes "z") null no_members))))
        ≡ broken BadRequest }
{}

/// A sheet may be put where one is, or behind all; it may be taken out where one is. The place is asked
/// first, and then how many sheets there are and what the text is.
pub fn examples_of_sheet_causes()
    ensures behind_all { (css : Text) → is_over_sheet_limit css ≡ false
        → first_of (sheet_causes 1 (Some css) ([] ∷ [])) ≡ None }
    ensures past_the_end { (css : Text) → first_of (sheet_causes 2 (Some css) ([] ∷ [])) ≡ Some NoSheet }
    ensures eighth { (css : Text) → is_over_sheet_limit css ≡ false
        → first_of (sheet_causes 7 (Some css) (replicate 7 [])) ≡ None }
    ensures instead_of_the_eighth { (css : Text) → is_over_sheet_limit css ≡ false
        → first_of (sheet_causes 7 (Some css) (replicate 8 [])) ≡ None }
    ensures ninth { (css : Text) → first_of (sheet_causes 8 (Some css) (replicate 8 [])) ≡ Some SheetLimit }
    ensures place_first { (css : Text) → first_of (sheet_causes 9 (Some css) (replicate 8 [])) ≡ Some NoSheet }
    ensures over_a_limit { (css : Text) → is_over_sheet_limit css ≡ true
        → first_of (sheet_causes 0 (Some css) []) ≡ Some SheetLimit }
    ensures taken_out { first_of (sheet_causes 0 None ([] ∷ [])) ≡ None }
    ensures none_to_take_out { first_of (sheet_causes 1 None ([] ∷ [])) ≡ Some NoSheet }
    ensures none_at_all { first_of (sheet_causes 0 None []) ≡ Some NoSheet }
    ensures not_loaded { (css : Text) → first_of (edit_causes None (sheet 0 (Some css))) ≡ Some NotLoaded }
{}

/// A load brings at most eight sheets, each within the limits; this is asked after the sides of the
/// viewport and before the tree.
pub fn examples_of_loaded_sheets()
    ensures eight { are_over_sheet_limits (replicate 9 []) ≡ true }
    ensures one_over { (css : Text) → is_over_sheet_limit css ≡ true
        → are_over_sheet_limits (css ∷ []) ≡ true }
    ensures later_over { (css : Text) → is_over_sheet_limit [] ≡ false → is_over_sheet_limit css ≡ true
        → are_over_sheet_limits ([] ∷ css ∷ []) ≡ true }
    ensures within { (a b : Text) → is_over_sheet_limit a ≡ false → is_over_sheet_limit b ≡ false
        → are_over_sheet_limits (a ∷ b ∷ []) ≡ false }
    ensures none { are_over_sheet_limits [] ≡ false }
    ensures sides_first { (doc : Tree) → first_of (edit_causes None (load 10001 1 doc (Some (replicate 9 []))))
        ≡ Some ViewportRange }
    ensures before_the_tree { first_of (edit_causes None (load 1 1 (elem [] [] no_trees)
        (Some (replicate 9 [])))) ≡ Some SheetLimit }
{}

/// Where a sheet is put there was one, or it is the last; later ones move down where one is taken out.
pub fn examples_of_sheets()
    ensures replaced { sheets_after 1 (Some (codes "x")) (codes "a" ∷ codes "b" ∷ codes "c" ∷ [])
        ≡ codes "a" ∷ codes "x" ∷ codes "c" ∷ [] }
    ensures appended { sheets_after 2 (Some (codes "x")) (codes "a" ∷ codes "b" ∷ [])
        ≡ codes "a" ∷ codes "b" ∷ codes "x" ∷ [] }
    ensures taken_out { sheets_after 1 None (codes "a" ∷ codes "b" ∷ codes "c" ∷ [])
        ≡ codes "a" ∷ codes "c" ∷ [] }
    ensures first_taken_out { sheets_after 0 None (codes "a" ∷ codes "b" ∷ []) ≡ codes "b" ∷ [] }
    ensures the_rest_stays { (page : Page) (css : Text) → state_after_edit (Some page) (sheet 0 (Some css))
        ≡ Some (record page { sheets = sheets_after 0 (Some css) page.sheets }) }
    ensures no_tree { (css : Text) → brings_tree (sheet 0 (Some css)) ≡ false }
{}

/// A dump is not built while a sheet has a style rule.
pub fn examples_of_dumps_with_sheets()
    ensures rule { (page : Page) (css : Text) → has_style_rule css ≡ true
        → first_of (query_causes (Some (record page { sheets = css ∷ [] })) Dump) ≡ Some NotBuilt }
    ensures no_rule { (viewport : Viewport) (css : Text) → has_style_rule css ≡ false
        → first_of (query_causes (Some (record {
          document = document (elem (codes "div") [] no_trees);
          sheets = css ∷ [];
          viewport = viewport;
        })) Dump) ≡ None }
    ensures rules_of_any { (page : Page) → first_of (query_causes (Some page) Rules) ≡ None }
    ensures rules_not_loaded { first_of (query_causes None Rules) ≡ Some NotLoaded }
{}

/// Whether a text has a style rule.
#[tactic(auto, unfolding(css_model::specs::inner::Nesting::levels_of, css_model::specs::inner::Pieces::pieces_after, css_model::specs::inner::Fronts::parts_after))]
pub fn examples_of_style_rules()
    ensures rule { has_style_rule (codes "p{}") ≡ true }
    ensures at_rule { has_style_rule (codes "@foo{}") ≡ false }
    ensures nothing { has_style_rule [] ≡ false }
{}
