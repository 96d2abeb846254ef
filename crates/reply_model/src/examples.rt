//! Replies to small requests, and where they lead.
ghost use Rattle.std.specs.Prelude.{◌≡◌, ℕ, List, ℤ, pos, negsuc, [], ◌∷◌, ◌++◌, codes, encode_utf8_all, Option, Some, None, true, false};
ghost use Rattle.std.specs.Fmt.{decimal};
ghost use Rattle.stream_model.specs.Ledger.{Log};
ghost use Rattle.stream_model.specs.declared.kind.Kind.TheVariants.{Match, Style};
ghost use Rattle.page_model.specs.Document.{element, text, no_nodes, node};
ghost use Rattle.page_model.specs.declared.cause.Cause.{Cause};
ghost use Rattle.page_model.specs.declared.cause.Cause.TheVariants.{BadJson, ViewportRange, NotBuilt};
ghost use Rattle.request_model.specs.declared.query.Query.{Query};
ghost use Rattle.request_model.specs.Requests.{Asked, Edit, Request, edit, query, request, nothing, broken, asked_of_line, load};
ghost use Rattle.request_model.specs.declared.query.Query.TheVariants.{Dump};
ghost use Rattle.page_model.specs.Pages.{Page};
ghost use Rattle.page_model.specs.Trees.{elem, no_trees};
ghost use Rattle.layout_model.specs.Consistent.{Assignment, Consistent};
ghost use Rattle.request_model.specs.States.{refusal_of, silent, refused, accepted, brings_tree, accepted_by, state_after_edit};
ghost use Rattle.layout_model.specs.Boxes.{Box};
ghost use Rattle.layout_model.specs.Consistent.{Entry};
ghost use Rattle.layout_model.specs.Setting.{Setting};
ghost use Rattle.reply_model.specs.Spelling.{ok_line, ok_nodes_line, error_line};
ghost use Rattle.reply_model.specs.DumpText.{box_line, entry_line, box_lines, dump_text};
ghost use Rattle.reply_model.specs.Replies.{Course, edit_text, newest, text_unless, start, IsAnswered, IsTurn, IsLogOf, AreReplies, Replies};

/// The lines of replies, each with its newline.
#[tactic(auto, unfolding(crate::specs::Spelling::ok_line, crate::specs::Spelling::ok_nodes_line, crate::specs::Spelling::error_line, crate::specs::DumpText::box_line))]
pub fn examples_of_lines()
    ensures ok { ok_line ≡ codes "ok\n" }
    ensures nodes { ok_nodes_line 10 2
        ≡ codes "ok " ++ (decimal 10 ++ (codes " " ++ (decimal 2 ++ codes "\n"))) }
    ensures error { error_line ViewportRange ≡ codes "error " ++ (decimal 16 ++ codes " viewport-range\n") }
    ensures last_error { error_line NotBuilt ≡ codes "error " ++ (decimal 21 ++ codes " not-built\n") }
    ensures a_box { box_line 7 (codes "div") (pos 1) (negsuc 1) (record {
      left = pos 3;
      top = pos 4;
      width = pos 5;
      height = pos 6;
      content_left = pos 7;
      content_top = pos 8;
      content_width = pos 9;
      content_height = pos 10;
    })
        ≡ codes "box " ++ (decimal 7 ++ (codes " div " ++ (decimal 1 ++ (codes " -" ++ (decimal 2
        ++ (codes " " ++ (decimal 5 ++ (codes " " ++ (decimal 6 ++ (codes " " ++ (decimal 9
        ++ (codes " " ++ (decimal 10 ++ codes "\n"))))))))))))) }
    ensures edit_with_a_tree { edit_text true (record { first = 3; count = 4 }) ≡ ok_nodes_line 3 4 }
    ensures edit_without_a_tree { edit_text false (record { first = 0; count = 0 }) ≡ ok_line }
    ensures no_cause { text_unless None (codes "x") ≡ codes "x" }
    ensures cause { text_unless (Some NotBuilt) (codes "x") ≡ error_line NotBuilt }
{}

/// A dump sums the distances from the viewport's corner, over border and content edges; a text and
/// an id that is given nothing have no line.
pub fn examples_of_dumps()
    ensures nested { box_lines
        (λ _. Some (record {
          box = record {
            left = pos 3;
            top = pos 50;
            width = pos 7;
            height = pos 11;
            content_left = pos 100;
            content_top = pos 2000;
            content_width = pos 13;
            content_height = pos 17;
          };
        }))
        (pos 10000) (pos 400000)
        (element 0 (codes "a") []
        (node (text 1 (codes "t")) (node (element 2 (codes "b") [] no_nodes)
        (node (element 3 (codes "c") [] no_nodes) no_nodes))))
        ≡ box_line 0 (encode_utf8_all (codes "a")) (pos 10003) (pos 400050) (record {
          left = pos 3;
          top = pos 50;
          width = pos 7;
          height = pos 11;
          content_left = pos 100;
          content_top = pos 2000;
          content_width = pos 13;
          content_height = pos 17;
        })
        ++ (box_line 2 (encode_utf8_all (codes "b")) (pos 10106) (pos 402100) (record {
          left = pos 3;
          top = pos 50;
          width = pos 7;
          height = pos 11;
          content_left = pos 100;
          content_top = pos 2000;
          content_width = pos 13;
          content_height = pos 17;
        })
        ++ box_line 3 (encode_utf8_all (codes "c")) (pos 10106) (pos 402100) (record {
          left = pos 3;
          top = pos 50;
          width = pos 7;
          height = pos 11;
          content_left = pos 100;
          content_top = pos 2000;
          content_width = pos 13;
          content_height = pos 17;
        })) }
    ensures nothing_given { box_lines (λ _. None) (pos 0) (pos 0) (element 0 (codes "a") [] no_nodes) ≡ [] }
    ensures dump_at_the_corner { dump_text (element 0 (codes "a") [] no_nodes)
        (λ _. Some (record {
          box = record {
            left = pos 3;
            top = pos 50;
            width = pos 7;
            height = pos 11;
            content_left = pos 100;
            content_top = pos 2000;
            content_width = pos 13;
            content_height = pos 17;
          };
        }))
        ≡ box_line 0 (encode_utf8_all (codes "a")) (pos 3) (pos 50) (record {
          left = pos 3;
          top = pos 50;
          width = pos 7;
          height = pos 11;
          content_left = pos 100;
          content_top = pos 2000;
          content_width = pos 13;
          content_height = pos 17;
        }) }
    ensures name_in_utf8 { entry_line 7 (233 ∷ []) (pos 1) (pos 2) (Some (record {
      box = record {
        left = pos 3;
        top = pos 4;
        width = pos 5;
        height = pos 6;
        content_left = pos 7;
        content_top = pos 8;
        content_width = pos 9;
        content_height = pos 10;
      };
    }))
        ≡ box_line 7 (encode_utf8_all (233 ∷ [])) (pos 4) (pos 6) (record {
          left = pos 3;
          top = pos 4;
          width = pos 5;
          height = pos 6;
          content_left = pos 7;
          content_top = pos 8;
          content_width = pos 9;
          content_height = pos 10;
        }) }
    ensures below_nothing_given { box_lines (λ _. None) (pos 0) (pos 0)
        (element 0 (codes "a") [] (node (element 1 (codes "b") [] no_nodes) no_nodes)) ≡ [] }
{}

/// What the last accepted edit logged is kept until the next one; what is refused or passed over
/// leaves the course as it was.
pub fn examples_of_turns()
    ensures at_the_start { start ≡ record { state = None; last = [] } }
    ensures newest_log { newest (((Match, 1) ∷ []) ∷ ((Style, 2) ∷ []) ∷ []) [] ≡ (Style, 2) ∷ [] }
    ensures no_log { newest [] ((Style, 2) ∷ []) ≡ (Style, 2) ∷ [] }
    ensures blank_leaves { (setting : Setting) (from to : Course) (asked : Asked) (own : List Log)
        (reply : List ℕ)
        → IsAnswered silent setting from asked own reply to → (to ≡ from) × (own ≡ []) × (reply ≡ []) }
    ensures refused_leaves { (setting : Setting) (from to : Course) (asked : Asked) (own : List Log)
        (reply : List ℕ) (c : Cause)
        → IsAnswered (refused c) setting from asked own reply to → (to ≡ from) × (reply ≡ error_line c) }
    ensures query_leaves { (setting : Setting) (from to : Course) (asked : Asked) (own : List Log)
        (reply : List ℕ) (q : Query)
        → IsAnswered (accepted (query q)) setting from asked own reply to → to ≡ from }
    ensures edit_is_the_last { (setting : Setting) (from to : Course) (asked : Asked) (log : Log)
        (reply : List ℕ) (e : Edit)
        → IsAnswered (accepted (edit e)) setting from asked (log ∷ []) reply to → to.last ≡ log }
    ensures refused_edit_logs_nothing { (setting : Setting) (from to : Course) (own : List Log)
        (reply : List ℕ) (c : Cause) (e : Edit)
        → IsAnswered (refused c) setting from (request (edit e)) own reply to → own ≡ [] ∷ [] }
    ensures nothing_is_counted { (setting : Setting) (from : Course) (q : Request) (a : Option Assignment)
        → IsLogOf setting from q a [] }
    ensures edits_count_nothing { (setting : Setting) (from : Course) (e : Edit)
        (a : Option Assignment) (log : Log)
        → IsLogOf setting from (edit e) a log → log ≡ [] }
    ensures dumps_count_nothing { (setting : Setting) (from : Course) (a : Option Assignment) (log : Log)
        → IsLogOf setting from (query Dump) a log → log ≡ [] }
    ensures edit_leads { (setting : Setting) (from to : Course) (asked : Asked) (own : List Log)
        (reply : List ℕ) (e : Edit)
        → IsAnswered (accepted (edit e)) setting from asked own reply to
        → to.state ≡ state_after_edit from.state e }
    ensures edit_says { (setting : Setting) (from to : Course) (asked : Asked) (own : List Log)
        (reply : List ℕ) (e : Edit)
        → IsAnswered (accepted (edit e)) setting from asked own reply to
        → reply ≡ edit_text (brings_tree e) (accepted_by from.state e) }
    ensures edit_logs_once { (setting : Setting) (from to : Course) (asked : Asked) (own : List Log)
        (reply : List ℕ) (e : Edit)
        → IsAnswered (accepted (edit e)) setting from asked own reply to → own ≡ [] ∷ [] }
    ensures dump_logs_once { (setting : Setting) (page : Page) (to : Course) (asked : Asked)
        (own : List Log) (reply : List ℕ)
        → IsAnswered (accepted (query Dump)) setting (record { state = Some page; last = [] })
        asked own reply to → own ≡ [] ∷ [] }
    ensures dump_says { (setting : Setting) (page : Page) (to : Course) (asked : Asked)
        (own : List Log) (reply : List ℕ)
        → IsAnswered (accepted (query Dump)) setting (record { state = Some page; last = [] })
        asked own reply to
        → (a : Assignment) × Consistent setting page a × (reply ≡ dump_text page.document.root a ++ ok_line) }
    ensures no_query_of_nothing { (setting : Setting) (from to : Course) (asked : Asked)
        (own : List Log) (reply : List ℕ) (q : Query)
        → from.state ≡ None → IsAnswered (accepted (query q)) setting from asked own reply to → ⊥ }
{}

/// The replies to a script: each line goes on from where the line before it leads.
#[tactic(auto, unfolding(crate::specs::Replies::IsTurn, crate::specs::Replies::AreReplies))]
pub fn examples_of_scripts()
    ensures no_lines { (setting : Setting) (logs : List Log) (text : List ℕ)
        → Replies setting [] logs text → (logs ≡ []) × (text ≡ []) }
    ensures nothing_is_said_of_nothing { (setting : Setting) → Replies setting [] [] [] }
    ensures turn_of_a_remove { (setting : Setting) (to : Course) (own : List Log) (reply : List ℕ)
        → IsTurn setting start (broken NotBuilt) own reply to → reply ≡ error_line NotBuilt }
    ensures two_lines { (setting : Setting) (from : Course) (first second : List ℕ)
        (logs : List Log) (text : List ℕ)
        → asked_of_line first ≡ broken BadJson → asked_of_line second ≡ broken NotBuilt
        → AreReplies setting from (first ∷ second ∷ []) logs text
        → text ≡ error_line BadJson ++ error_line NotBuilt }
    ensures turn_by_the_state { (setting : Setting) (page : Page) (to : Course) (own : List Log)
        (reply : List ℕ)
        → refusal_of (Some page) (query Dump) ≡ None
        → IsTurn setting (record { state = Some page; last = [] }) (request (query Dump)) own reply to
        → (a : Assignment) × (reply ≡ dump_text page.document.root a ++ ok_line) }
{}
