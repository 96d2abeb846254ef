//! Rule lines, and strings in quotes.
ghost use Rattle.std.specs.Prelude.{◌≡◌, [], ◌∷◌, ◌++◌, codes};
ghost use Rattle.reply_model.specs.RulesText.{rules_text};
ghost use Rattle.reply_model.specs.inner.Examples.{line};
ghost use Rattle.reply_model.specs.Spelling.{quoted};

/// Quotes, backslashes and the code points below U+0020 are escaped; all else is in UTF-8.
#[tactic(auto, unfolding(crate::specs::Spelling::quoted, std::specs::Prelude::encode_utf8))]
pub fn examples_of_quoted_strings()
    ensures nothing { quoted [] ≡ codes "\"\"" }
    ensures letters { quoted (codes "a b") ≡ codes "\"a b\"" }
    ensures quote { quoted (34 ∷ []) ≡ codes "\"\\\"\"" }
    ensures backslash { quoted (92 ∷ []) ≡ codes "\"\\\\\"" }
    ensures null { quoted (0 ∷ []) ≡ codes "\"\\u0000\"" }
    ensures newline { quoted (10 ∷ []) ≡ codes "\"\\u000a\"" }
    ensures last_control { quoted (31 ∷ []) ≡ codes "\"\\u001f\"" }
    ensures space { quoted (32 ∷ []) ≡ codes "\" \"" }
    ensures delete { quoted (127 ∷ []) ≡ 34 ∷ 127 ∷ 34 ∷ [] }
    ensures two_bytes { quoted (223 ∷ []) ≡ 34 ∷ 195 ∷ 159 ∷ 34 ∷ [] }
    ensures apostrophe { quoted (codes "'") ≡ codes "\"'\"" }
{}

/// Rules stand in order of sheet and place, each with the number of its conditions and declarations.
#[tactic(auto, unfolding(crate::specs::Spelling::quoted, crate::specs::RulesText::rule_line, std::specs::Prelude::encode_utf8, css_model::specs::inner::Nesting::levels_of, css_model::specs::inner::Pieces::pieces_after, css_model::specs::inner::Fronts::parts_after))]
pub fn examples_of_rule_lines()
    ensures none { rules_text [] ≡ [] }
    ensures dropped { rules_text (codes "@foo x{y}" ∷ []) ≡ [] }
    ensures conditions { rules_text (codes "@media a{p{b:c}}" ∷ [])
        ≡ line 0 0 1 1 (codes "\"p\"") }
    ensures comments { rules_text (codes "/**/ a , b{}" ∷ [])
        ≡ line 0 0 0 0 (codes "\"a , b\"") }
    ensures later_sheets { rules_text (codes "a{}" ∷ [] ∷ codes "b{}c{}" ∷ [])
        ≡ line 0 0 0 0 (codes "\"a\"") ++ (line 2 0 0 0 (codes "\"b\"") ++ line 2 1 0 0 (codes "\"c\"")) }
{}
