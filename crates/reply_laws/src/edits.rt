//! Laws of the ids that accepted edits give.
ghost use Rattle.std.specs.Prelude.{◌≡◌, ℕ, List, None, Option};
ghost use Rattle.page_laws.specs.Ids.{HasRun};
ghost use Rattle.page_model.specs.Pages.{State};
ghost use Rattle.page_model.specs.Trees.{Text, Tree};
ghost use Rattle.reply_laws.specs.States.{StateHasGivenIds, ids_of_state, new_ids};
ghost use Rattle.request_model.specs.Requests.{edit, insert, load};
ghost use Rattle.request_model.specs.States.{accepted_by, refusal_of, state_after_edit};

/// What a load replies are the ids of all nodes.
pub fn loads_name_all_ids()
    ensures { (s : State) (width height : ℕ) (doc : Tree) (sheets : Option (List Text))
        → ids_of_state (state_after_edit s (load width height doc sheets))
        ≡ new_ids (accepted_by s (load width height doc sheets)) }
{}

/// What an insert replies are the ids of the new nodes: they stand together among those that were
/// there, in document order.
pub fn inserts_name_new_ids()
    ensures { (s : State) (parent index : ℕ) (new : Tree) → StateHasGivenIds s
        → refusal_of s (edit (insert parent index new)) ≡ None
        → HasRun (ids_of_state (state_after_edit s (insert parent index new)))
        (new_ids (accepted_by s (insert parent index new))) (ids_of_state s) }
{}
