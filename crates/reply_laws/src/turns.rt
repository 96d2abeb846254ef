//! Laws of turns: one line is answered, and leads from one place of a script to the next.
ghost use Rattle.std.specs.Prelude.{◌≡◌, ◌++◌, ℕ, List, [], length, IsSome, None, Some};
ghost use Rattle.cascade_model.specs.DocumentStyles.{Styles};
ghost use Rattle.reply_laws.specs.Logs.{AreAllDistinct};
ghost use Rattle.reply_laws.specs.States.{StateHasGivenIds};
ghost use Rattle.reply_model.specs.DumpText.{dump_text};
ghost use Rattle.reply_model.specs.Replies.{Course, IsTurn, dump_causes, newest, text_unless};
ghost use Rattle.reply_model.specs.Spelling.{error_line, ok_line};
ghost use Rattle.reply_model.specs.StyleText.{AreStylesOf, style_text};
ghost use Rattle.request_model.specs.Requests.{Asked, Edit, broken, edit, nothing, query, request};
ghost use Rattle.request_model.specs.States.{answer_to, logs_of_asked, refusal_of, refused, state_after_edit};
ghost use Rattle.request_model.specs.declared.query.Query.{Query};
ghost use Rattle.request_model.specs.declared.query.Query.TheVariants.{Dump, Match, Rules, Style};
ghost use Rattle.page_model.specs.Pages.{Page};
ghost use Rattle.page_model.specs.Refusals.{first_of};
ghost use Rattle.page_model.specs.Trees.{Text};
ghost use Rattle.page_model.specs.declared.cause.Cause.{Cause};
ghost use Rattle.stream_model.specs.Ledger.{Log};
ghost use Rattle.layout_model.specs.Consistent.{Assignment, Consistent};
ghost use Rattle.layout_model.specs.Setting.{Setting};

/// Whatever a line asks for has an answer, where no id stands twice on what is loaded.
pub fn exist()
    ensures { (setting : Setting) (from : Course) (asked : Asked) → StateHasGivenIds from.state
        → (own : List Log) × ((reply : List ℕ) × ((to : Course) × IsTurn setting from asked own reply to)) }
{}

/// With the same logs, what a line asks for has one reply, and leads to one place.
pub fn are_unique()
    ensures { (setting : Setting) (from to to' : Course) (asked : Asked) (own : List Log)
        (reply reply' : List ℕ)
        → IsTurn setting from asked own reply to → IsTurn setting from asked own reply' to'
        → (reply ≡ reply') × (to ≡ to') }
{}

/// A refused line is answered by its cause. It leaves what is loaded, and the log of the last
/// accepted edit.
pub fn refused_change_nothing()
    ensures { (setting : Setting) (from to : Course) (asked : Asked) (own : List Log)
        (reply : List ℕ) (c : Cause)
        → answer_to from.state asked ≡ refused c → IsTurn setting from asked own reply to
        → (reply ≡ error_line c) × (to ≡ from) }
{}

/// A query leaves what is loaded, and the log of the last accepted edit.
pub fn queries_change_nothing()
    ensures { (setting : Setting) (from to : Course) (q : Query) (own : List Log) (reply : List ℕ)
        → IsTurn setting from (request (query q)) own reply to → to ≡ from }
{}

/// A dump that is not refused before is the text of the consistent assignment: of every one, as there are
/// not two.
pub fn dumps_show_the_assignment()
    ensures { (setting : Setting) (from to : Course) (page : Page) (a : Assignment) (own : List Log)
        (reply : List ℕ)
        → from.state ≡ Some page → refusal_of from.state (query Dump) ≡ None
        → Consistent setting page a → IsTurn setting from (request (query Dump)) own reply to
        → reply ≡ text_unless (first_of (dump_causes page a)) (dump_text page.document.root a ++ ok_line) }
{}

/// A style that is not refused is the lines of the style that the element has by the cascade: in any
/// styles of the page, as an element has not two.
pub fn styles_show_the_cascade()
    ensures has_a_style { (page : Page) (i : ℕ) (styles : Styles)
        → refusal_of (Some page) (query (Style i)) ≡ None → AreStylesOf page styles → IsSome (styles i) }
    ensures text { (setting : Setting) (from to : Course) (page : Page) (i : ℕ) (styles : Styles)
        (own : List Log) (reply : List ℕ)
        → from.state ≡ Some page → refusal_of from.state (query (Style i)) ≡ None
        → AreStylesOf page styles → IsTurn setting from (request (query (Style i))) own reply to
        → reply ≡ style_text (styles i) ++ ok_line }
{}

/// An accepted edit leads to the state after it, and what it logs is the last log.
pub fn accepted_edits_lead_on()
    ensures { (setting : Setting) (from to : Course) (e : Edit) (own : List Log) (reply : List ℕ)
        → refusal_of from.state (edit e) ≡ None → IsTurn setting from (request (edit e)) own reply to
        → (to.state ≡ state_after_edit from.state e) × (to.last ≡ newest own from.last) }
{}

/// What a line asks for begins so many logs, however it is answered: an edit, a dump and a style one, be
/// they accepted or refused, and nothing else one.
pub fn begin_logs()
    ensures each { (setting : Setting) (from to : Course) (asked : Asked) (own : List Log) (reply : List ℕ)
        → IsTurn setting from asked own reply to → length own ≡ logs_of_asked asked }
    ensures edits { (setting : Setting) (from to : Course) (e : Edit) (own : List Log) (reply : List ℕ)
        → IsTurn setting from (request (edit e)) own reply to → length own ≡ 1 }
    ensures dumps { (setting : Setting) (from to : Course) (own : List Log) (reply : List ℕ)
        → IsTurn setting from (request (query Dump)) own reply to → length own ≡ 1 }
    ensures styles { (setting : Setting) (from to : Course) (i : ℕ) (own : List Log) (reply : List ℕ)
        → IsTurn setting from (request (query (Style i))) own reply to → length own ≡ 1 }
    ensures rules { (setting : Setting) (from to : Course) (own : List Log) (reply : List ℕ)
        → IsTurn setting from (request (query Rules)) own reply to → own ≡ [] }
    ensures matches { (setting : Setting) (from to : Course) (selector : Text) (own : List Log)
        (reply : List ℕ)
        → IsTurn setting from (request (query (Match selector))) own reply to → own ≡ [] }
    ensures broken_lines { (setting : Setting) (from to : Course) (c : Cause) (own : List Log)
        (reply : List ℕ)
        → IsTurn setting from (broken c) own reply to → own ≡ [] }
    ensures blank_lines { (setting : Setting) (from to : Course) (own : List Log) (reply : List ℕ)
        → IsTurn setting from nothing own reply to → own ≡ [] }
{}

/// No log of a line has a pair twice.
pub fn log_each_pair_once()
    ensures { (setting : Setting) (from to : Course) (asked : Asked) (own : List Log) (reply : List ℕ)
        → IsTurn setting from asked own reply to → AreAllDistinct own }
{}
