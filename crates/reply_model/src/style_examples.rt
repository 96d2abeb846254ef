//! Lines of `style`, and what styles log.
ghost use Rattle.std.specs.Prelude.{◌≡◌, ℕ, List, Option, ℤ, pos, negsuc, [], ◌∷◌, ◌++◌, codes, map, Some, None, true, false};
ghost use Rattle.std.specs.Fmt.{signed_decimal};
ghost use Rattle.stream_model.specs.Ledger.{Log};
ghost use Rattle.stream_model.specs.declared.kind.Kind.TheVariants.{Match, Style as styling, Measure, Size, Place};
ghost use Rattle.page_model.specs.Document.{element, no_nodes};
ghost use Rattle.page_model.specs.Pages.{Page};
ghost use Rattle.page_model.specs.Trees.{Text};
ghost use Rattle.page_model.specs.declared.cause.Cause.{Cause};
ghost use Rattle.layout_model.specs.Consistent.{Assignment};
ghost use Rattle.page_model.specs.declared.viewport.Viewport.{Viewport};
ghost use Rattle.request_model.specs.Requests.{Asked, query, request};
ghost use Rattle.request_model.specs.States.{accepted, refused};
ghost use Rattle.request_model.specs.declared.query.Query.TheVariants.{Style};
ghost use Rattle.layout_model.specs.Setting.{Setting};
ghost use Rattle.cascade_model.specs.DocumentStyles.{Styles};
ghost use Rattle.cascade_model.specs.inner.Examples.{without_custom};
ghost use Rattle.custom_model.specs.inner.Examples.{values_of};
ghost use Rattle.cascade_model.specs.Books.{book_rules, user_agent_rules};
ghost use Rattle.cascade_model.specs.declared.origin.Origin.TheVariants.{Author};
ghost use Rattle.rules_model.specs.Sheets.{style_rules_of};
ghost use Rattle.reply_model.specs.Replies.{Course, IsAnswered, IsLogOf, IsStyleLog};
ghost use Rattle.reply_model.specs.Spelling.{ok_line};
ghost use Rattle.reply_model.specs.StyleText.{AreStylesOf, custom_lines, style_lines, style_text, styled_page, value_line};
ghost use Rattle.reply_model.specs.ValueTexts.{final_text};
ghost use Rattle.reply_model.specs.inner.Examples.{custom_line_of, environment_of_style, initial_lines, other_order, page_of_sheets};
ghost use Rattle.value_model.specs.declared.color.Color.TheVariants.{CurrentColor, Rgba as AnRgba};
ghost use Rattle.value_model.specs.declared.keyword.Keyword.TheVariants.{InlineBlock, None as NoneKeyword};
ghost use Rattle.value_model.specs.declared.prop.Prop.TheVariants.{BorderTopColor, LineHeight, Width};
ghost use Rattle.value_model.specs.Colors.{rgba};
ghost use Rattle.value_model.specs.Calculations.{in_percent, in_units, leaf};
ghost use Rattle.value_model.specs.Properties.{properties, property};
ghost use Rattle.value_model.specs.Values.{keyword, length, number, alpha, integer, color, containment, names};

/// The texts of values of each form.
#[tactic(auto, unfolding(crate::specs::Spelling::quoted))]
pub fn examples_of_value_texts()
    ensures keyword { final_text (keyword InlineBlock) ≡ codes "inline-block" }
    ensures none { final_text (keyword NoneKeyword) ≡ codes "none" }
    ensures units { final_text (length (leaf (in_units (pos 64)))) ≡ signed_decimal (pos 64) }
    ensures negative_units { final_text (length (leaf (in_units (negsuc 63)))) ≡ signed_decimal (negsuc 63) }
    ensures percent { final_text (length (leaf (in_percent (pos 10000000))))
        ≡ codes "pct:" ++ signed_decimal (pos 10000000) }
    ensures number { final_text (number (pos 1250000)) ≡ codes "num:" ++ signed_decimal (pos 1250000) }
    ensures alpha { final_text (alpha (pos 1000000)) ≡ signed_decimal (pos 1000000) }
    ensures integer { final_text (integer (negsuc 0)) ≡ signed_decimal (negsuc 0) }
    ensures color { final_text (color (AnRgba (rgba 255 165 0 16))) ≡ codes "#ffa50010" }
    ensures black { final_text (color (AnRgba (rgba 0 0 0 255))) ≡ codes "#000000ff" }
    ensures current_color { final_text (color CurrentColor) ≡ codes "currentcolor" }
    ensures no_containment { final_text (containment (record {
      size = false;
      inline_size = false;
      layout = false;
      style = false;
      paint = false;
    })) ≡ codes "none" }
    ensures strict { final_text (containment (record {
      size = true;
      inline_size = false;
      layout = true;
      style = true;
      paint = true;
    })) ≡ codes "size layout style paint" }
    ensures inline_size { final_text (containment (record {
      size = false;
      inline_size = true;
      layout = false;
      style = false;
      paint = true;
    })) ≡ codes "inline-size paint" }
    ensures no_names { final_text (names []) ≡ codes "none" }
    ensures one_name { final_text (names (codes "a" ∷ [])) ≡ codes "\"a\"" }
    ensures two_names { final_text (names (codes "a" ∷ codes "\"" ∷ [])) ≡ codes "\"a\" \"\\\"\"" }
{}

/// A line has the name of a property and its value; there is one for each property, in their order.
#[tactic(auto, unfolding(crate::specs::StyleText::value_line, crate::specs::StyleText::style_lines, crate::specs::StyleText::custom_lines))]
pub fn examples_of_style_texts()
    ensures width { value_line Width (length (leaf (in_percent (pos 1))))
        ≡ codes "width: pct:" ++ (signed_decimal (pos 1) ++ codes "\n") }
    ensures side { value_line BorderTopColor (color CurrentColor) ≡ codes "border-top-color: currentcolor\n" }
    ensures number { value_line LineHeight (number (pos 2))
        ≡ codes "line-height: num:" ++ (signed_decimal (pos 2) ++ codes "\n") }
    ensures initial { style_lines (map (λ p. (property p).initial) properties) ≡ initial_lines }
    ensures no_style { style_text None ≡ [] }
    ensures a_style { style_text (Some (without_custom [])) ≡ style_lines [] }
{}

/// The line of a custom property has its name and its value in quotes: the spellings of its tokens,
/// with one space between each two.
#[tactic(auto, unfolding(crate::specs::Spelling::quoted, crate::specs::StyleText::custom_line, std::specs::Prelude::encode_utf8, css_model::specs::inner::Nesting::levels_of, css_model::specs::inner::Pieces::pieces_after, css_model::specs::inner::Fronts::parts_after))]
pub fn examples_of_custom_lines()
    ensures token { custom_line_of (codes "--a:1px") ≡ codes "custom \"--a\" \"1px\"\n" }
    ensures white_space { custom_line_of (codes "--a:  b\n c/**/d ") ≡ codes "custom \"--a\" \"b c d\"\n" }
    ensures no_white_space { custom_line_of (codes "--a:f(1,2)") ≡ codes "custom \"--a\" \"f( 1 , 2 )\"\n" }
    ensures block { custom_line_of (codes "--a:{b:c}") ≡ codes "custom \"--a\" \"{ b : c }\"\n" }
    ensures left_open { custom_line_of (codes "--a:[b") ≡ codes "custom \"--a\" \"[ b\"\n" }
    ensures quotes { custom_line_of (codes "--a:\"b  c\"") ≡ codes "custom \"--a\" \"\\\"b  c\\\"\"\n" }
    ensures backslash { custom_line_of (codes "--\\41:\\42") ≡ codes "custom \"--A\" \"\\\\42\"\n" }
    ensures control { custom_line_of (codes "--a:" ++ 34 ∷ 1 ∷ 34 ∷ [])
        ≡ codes "custom \"--a\" \"\\\"\\u0001\\\"\"\n" }
    ensures empty { custom_line_of (codes "--a:") ≡ codes "custom \"--a\" \"\"\n" }
    ensures empty_within { custom_line_of (codes "--a: /**/ ") ≡ codes "custom \"--a\" \"\"\n" }
{}

/// The lines of custom properties stand behind those of all properties, in order of name.
#[tactic(auto, unfolding(crate::specs::Spelling::quoted, crate::specs::StyleText::value_line, crate::specs::StyleText::style_lines, crate::specs::StyleText::custom_line, crate::specs::StyleText::custom_lines, std::specs::Prelude::encode_utf8, css_model::specs::inner::Nesting::levels_of, css_model::specs::inner::Pieces::pieces_after, css_model::specs::inner::Fronts::parts_after))]
pub fn examples_of_styles_with_custom_lines()
    ensures none { style_text (Some (record { style = []; environment = [] })) ≡ initial_lines }
    ensures behind { style_text (Some (record { style = []; environment = values_of (codes "--a:1;--b:2") }))
        ≡ initial_lines ++ codes "custom \"--a\" \"1\"\ncustom \"--b\" \"2\"\n" }
    ensures in_order { custom_lines (environment_of_style (codes "--b:1;--a:2;--B:3;--b:4"))
        ≡ codes "custom \"--B\" \"3\"\ncustom \"--a\" \"2\"\ncustom \"--b\" \"4\"\n" }
    ensures substituted { custom_lines (environment_of_style (codes "--a:var(--b) c;--b: d"))
        ≡ codes "custom \"--a\" \"d c\"\ncustom \"--b\" \"d\"\n" }
    ensures on_a_cycle { custom_lines (environment_of_style (codes "--a:var(--b);--b:var(--a)")) ≡ [] }
    ensures initial_value { custom_lines (environment_of_style (codes "--a:initial")) ≡ [] }
{}

/// A style logs that elements are matched and styled, each at most once.
pub fn examples_of_style_logs()
    ensures nothing { (page : Page) → IsStyleLog (Some page) [] }
    ensures elements { (viewport : Viewport) → IsStyleLog (Some (record {
      document = record { root = other_order; next_id = 8 };
      sheets = [];
      viewport = viewport;
    })) ((Match, 7) ∷ (styling, 7) ∷ (Match, 3) ∷ (styling, 3) ∷ []) }
    ensures twice { (page : Page)
        → IsStyleLog (Some page) ((Match, 0) ∷ (styling, 0) ∷ (Match, 0) ∷ []) → ⊥ }
    ensures a_text { (viewport : Viewport) → IsStyleLog (Some (record {
      document = record { root = other_order; next_id = 8 };
      sheets = [];
      viewport = viewport;
    })) ((Match, 2) ∷ []) → ⊥ }
    ensures measured { (page : Page) → IsStyleLog (Some page) ((Measure, 0) ∷ []) → ⊥ }
    ensures sized { (page : Page) → IsStyleLog (Some page) ((Size, 0) ∷ []) → ⊥ }
    ensures placed { (page : Page) → IsStyleLog (Some page) ((Place, 0) ∷ []) → ⊥ }
    ensures of_a_style { (setting : Setting) (from : Course) (i : ℕ) (a : Option Assignment) (log : Log)
        → IsStyleLog from.state log → IsLogOf setting from (query (Style i)) a log }
    ensures nothing_loaded { IsStyleLog None ((Match, 0) ∷ []) → ⊥ }
{}

/// The reply is the lines of the element's style and then `ok`; one log is begun, and what is loaded
/// stays.
pub fn examples_of_style_replies()
    ensures says { (setting : Setting) (page : Page) (to : Course) (asked : Asked) (own : List Log)
        (reply : List ℕ) (i : ℕ)
        → IsAnswered (accepted (query (Style i))) setting (record { state = Some page; last = [] })
        asked own reply to
        → (styles : Styles) × AreStylesOf page styles × (reply ≡ style_text (styles i) ++ ok_line) }
    ensures logs { (setting : Setting) (page : Page) (to : Course) (asked : Asked) (own : List Log)
        (reply : List ℕ) (i : ℕ)
        → IsAnswered (accepted (query (Style i))) setting (record { state = Some page; last = [] })
        asked own reply to
        → (log : Log) × IsStyleLog (Some page) log × (own ≡ log ∷ []) }
    ensures refused_logs_nothing { (setting : Setting) (from to : Course) (own : List Log)
        (reply : List ℕ) (c : Cause) (i : ℕ)
        → IsAnswered (refused c) setting from (request (query (Style i))) own reply to → own ≡ [] ∷ [] }
{}

/// Styles are made from the rules of the user agent and of the page's sheets, its viewport and its
/// document.
pub fn examples_of_styled_pages()
    ensures book { (first second : Text) → (styled_page (page_of_sheets (first ∷ second ∷ []))).book
        ≡ user_agent_rules ++ (book_rules Author (style_rules_of first)
        ++ (book_rules Author (style_rules_of second) ++ [])) }
    ensures viewport { (sheets : List Text) → (styled_page (page_of_sheets sheets)).viewport
        ≡ record { width = 800; height = 600 } }
    ensures root { (sheets : List Text) → (styled_page (page_of_sheets sheets)).root
        ≡ element 0 (codes "div") [] no_nodes }
{}
