//! Laws of the replies to a script.
ghost use Rattle.std.specs.Prelude.{◌≡◌, ℕ, List, [], ◌∷◌, None};
ghost use Rattle.reply_laws.specs.Scripts.{IsEditThenDump};
ghost use Rattle.reply_model.specs.Replies.{AreReplies, Course, Replies};
ghost use Rattle.request_model.specs.Requests.{Edit, asked_of_line, edit, query, request};
ghost use Rattle.request_model.specs.States.{refusal_of, state_after_edit};
ghost use Rattle.request_model.specs.declared.query.Query.TheVariants.{Dump};
ghost use Rattle.stream_model.specs.Ledger.{Log};
ghost use Rattle.layout_model.specs.Setting.{Setting};

/// Each script has replies.
pub fn have_replies()
    ensures { (setting : Setting) (lines : List (List ℕ))
        → (logs : List Log) × ((text : List ℕ) × Replies setting lines logs text) }
{}

/// By its logs, a script has one text of replies.
pub fn have_one_text()
    ensures { (setting : Setting) (lines : List (List ℕ)) (logs : List Log) (text text' : List ℕ)
        → Replies setting lines logs text → Replies setting lines logs text' → text ≡ text' }
{}

/// Lines are answered in their order: where an edit that is not refused stands before a dump, the
/// dump is of the state after the edit, and its reply and logs come after those of the edit.
pub fn dump_what_edits_leave()
    ensures { (setting : Setting) (from : Course) (first second : List ℕ) (e : Edit)
        (logs : List Log) (text : List ℕ)
        → asked_of_line first ≡ request (edit e) → asked_of_line second ≡ request (query Dump)
        → refusal_of from.state (edit e) ≡ None
        → refusal_of (state_after_edit from.state e) (query Dump) ≡ None
        → AreReplies setting from (first ∷ second ∷ []) logs text
        → IsEditThenDump setting from e logs text }
{}
