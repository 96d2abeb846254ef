//! Lines of `match`.
ghost use Rattle.std.specs.Prelude.{◌≡◌, ℕ, List, [], ◌∷◌, ◌++◌, codes, Some};
ghost use Rattle.std.specs.Fmt.{decimal};
ghost use Rattle.page_model.specs.Pages.{Page};
ghost use Rattle.page_model.specs.Trees.{Text};
ghost use Rattle.request_model.specs.Requests.{Asked, query};
ghost use Rattle.request_model.specs.States.{accepted};
ghost use Rattle.request_model.specs.declared.query.Query.TheVariants.{Match};
ghost use Rattle.layout_model.specs.Setting.{Setting};
ghost use Rattle.stream_model.specs.Ledger.{Log};
ghost use Rattle.reply_model.specs.MatchText.{match_line, match_text};
ghost use Rattle.reply_model.specs.Replies.{Course, IsAnswered};
ghost use Rattle.reply_model.specs.Spelling.{ok_line};
ghost use Rattle.reply_model.specs.inner.Examples.{other_order, paragraphs};

/// A line has the id of an element, and lines stand in document order, each once.
#[tactic(auto, unfolding(crate::specs::MatchText::match_line, css_model::specs::inner::Nesting::levels_of, css_model::specs::inner::Pieces::pieces_after, css_model::specs::inner::Fronts::parts_after))]
pub fn examples_of_match_lines()
    ensures line { match_line 10 ≡ codes "match " ++ (decimal 10 ++ codes "\n") }
    ensures two { match_text (codes ".a ~ q, p:nth-last-of-type(1)") paragraphs
        ≡ match_line 2 ++ match_line 3 }
    ensures pseudo_element { match_text (codes "::before") paragraphs ≡ [] }
    ensures root { match_text (codes ":root") paragraphs ≡ match_line 0 }
    ensures all { match_text (codes "*") other_order
        ≡ match_line 7 ++ (match_line 5 ++ (match_line 3 ++ match_line 4)) }
    ensures both_members { match_text (codes "b, a > b, b") other_order ≡ match_line 5 ++ match_line 4 }
    ensures no_list { match_text (codes "p:not(:zz)") paragraphs ≡ [] }
{}

/// The reply is the lines and then `ok`; nothing is logged, and what is loaded stays.
pub fn examples_of_match_replies()
    ensures says { (setting : Setting) (page : Page) (to : Course) (asked : Asked) (own : List Log)
        (reply : List ℕ) (text : Text)
        → IsAnswered (accepted (query (Match text))) setting (record { state = Some page; last = [] })
        asked own reply to → reply ≡ match_text text page.document.root ++ ok_line }
    ensures logs_nothing { (setting : Setting) (page : Page) (to : Course) (asked : Asked) (own : List Log)
        (reply : List ℕ) (text : Text)
        → IsAnswered (accepted (query (Match text))) setting (record { state = Some page; last = [] })
        asked own reply to → own ≡ [] }
{}
