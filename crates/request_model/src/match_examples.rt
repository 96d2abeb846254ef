//! What `match` asks, and why it is refused.
ghost use Rattle.std.specs.Prelude.{◌≡◌, [], ◌∷◌, Some, None, codes};
ghost use Rattle.std.specs.Str.{chars};
ghost use Rattle.page_model.specs.Pages.{Page};
ghost use Rattle.page_model.specs.Refusals.{first_of};
ghost use Rattle.page_model.specs.Trees.{Text};
ghost use Rattle.page_model.specs.declared.cause.Cause.TheVariants.{BadRequest, BadSelector, NotLoaded};
ghost use Rattle.request_model.specs.declared.query.Query.TheVariants.{Match};
ghost use Rattle.request_model.specs.Requests.{asked_of, broken, query, request};
ghost use Rattle.request_model.specs.States.{logs_of, query_causes, refusal_of};
ghost use Rattle.selectors_model.specs.SelectorTexts.{selector_list_of_text};
ghost use Rattle.selectors_model.specs.Selectors.{SelectorList};
ghost use Rattle.serde_json.specs.Data.{string, object, member, no_members, null};

/// `match` has a selector, which is a string.
#[tactic(auto, unfolding(crate::specs::Requests::asked_of, crate::specs::Requests::request_named, crate::specs::Requests::match_of, crate::specs::Requests::is_name_not_built))]
pub fn examples_of_asking_for_matches()
    ensures selector { asked_of (Some (object (member (codes "do") (string (codes "match"))
        (member (codes "selector") (string (codes "a b")) no_members))))
        ≡ request (query (Match (chars (codes "a b")))) }
    ensures missing { asked_of (Some (object (member (codes "do") (string (codes "match")) no_members)))
        ≡ broken BadRequest }
    ensures not_a_string { asked_of (Some (object (member (codes "do") (string (codes "match"))
        (member (codes "selector") null no_members))))
        ≡ broken BadRequest }
    ensures another { asked_of (Some (object (member (codes "do") (string (codes "match"))
        (member (codes "selector") (string (codes "a")) (member (codes "z") null no_members)))))
        ≡ broken BadRequest }
{}

/// A match is refused where nothing is loaded, and then where its text is no selector list. It logs
/// nothing.
#[tactic(auto, unfolding(crate::specs::States::refusal_of))]
pub fn examples_of_match_causes()
    ensures not_loaded { (text : Text) → refusal_of None (query (Match text)) ≡ Some NotLoaded }
    ensures none { (page : Page) (text : Text) → selector_list_of_text text ≡ None
        → refusal_of (Some page) (query (Match text)) ≡ Some BadSelector }
    ensures some { (page : Page) (text : Text) (list : SelectorList)
        → selector_list_of_text text ≡ Some list → refusal_of (Some page) (query (Match text)) ≡ None }
    ensures whatever_is_loaded { (page : Page) (text : Text)
        → first_of (query_causes (Some page) (Match text)) ≡ refusal_of (Some page) (query (Match text)) }
    ensures no_log { (text : Text) → logs_of (query (Match text)) ≡ 0 }
{}
