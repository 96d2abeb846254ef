//! Declarations (CSS Syntax 3, sections 5.4.4 to 5.4.6).
ghost use Rattle.rules_model.specs.inner.Examples.{block};
ghost use Rattle.std.specs.Prelude.{◌≡◌, ◌∷◌, [], codes, true, false};

/// A declaration is an identifier, perhaps white space, `:` and a value, up to the next `;`.
#[tactic(auto, unfolding(css_model::specs::inner::Nesting::levels_of, css_model::specs::inner::Pieces::pieces_after, css_model::specs::inner::Fronts::parts_after))]
pub fn forms()
    ensures one { block (codes "a:b") ≡ (codes "a", (codes "b", false)) ∷ [] }
    ensures ended { block (codes "a:b;") ≡ (codes "a", (codes "b", false)) ∷ [] }
    ensures two { block (codes "a:b;c:d")
        ≡ (codes "a", (codes "b", false)) ∷ (codes "c", (codes "d", false)) ∷ [] }
    ensures the_same_name_twice { block (codes "a:b;a:c")
        ≡ (codes "a", (codes "b", false)) ∷ (codes "a", (codes "c", false)) ∷ [] }
    ensures whitespace_before_the_colon { block (codes "a :b")
        ≡ (codes "a", (codes "b", false)) ∷ [] }
    ensures newline_before_the_colon { block (codes "a\n:b")
        ≡ (codes "a", (codes "b", false)) ∷ [] }
    ensures comments { block (codes "/**/a/**/:/**/b/**/") ≡ (codes "a", (codes "b", false)) ∷ [] }
    ensures in_its_case { block (codes "Ab:Cd") ≡ (codes "Ab", (codes "Cd", false)) ∷ [] }
    ensures custom_property { block (codes "--x:{a}") ≡ (codes "--x", (codes "{a}", false)) ∷ [] }
    ensures two_hyphens { block (codes "--:a") ≡ (codes "--", (codes "a", false)) ∷ [] }
    ensures escape_in_the_name { block (codes "\\61:b") ≡ (codes "a", (codes "b", false)) ∷ [] }
    ensures none { block (codes "") ≡ [] }
    ensures whitespace_and_semicolons { block (codes " ; ;; ") ≡ [] }
    ensures semicolons_between { block (codes ";a:b;; c:d;")
        ≡ (codes "a", (codes "b", false)) ∷ (codes "c", (codes "d", false)) ∷ [] }
{}

/// A value goes up to the next `;` of its level, without white space at its ends; it may be empty.
#[tactic(auto, unfolding(css_model::specs::inner::Nesting::levels_of, css_model::specs::inner::Pieces::pieces_after, css_model::specs::inner::Fronts::parts_after))]
pub fn values()
    ensures whitespace_at_the_ends { block (codes "a: b c ;")
        ≡ (codes "a", (codes "b c", false)) ∷ [] }
    ensures whitespace_inside { block (codes "a:b  c") ≡ (codes "a", (codes "b  c", false)) ∷ [] }
    ensures whitespace_round_a_comment { block (codes "a: /**/ b /**/ ")
        ≡ (codes "a", (codes "b", false)) ∷ [] }
    ensures empty { block (codes "a:;c:d")
        ≡ (codes "a", ([], false)) ∷ (codes "c", (codes "d", false)) ∷ [] }
    ensures empty_at_the_end { block (codes "a:") ≡ (codes "a", ([], false)) ∷ [] }
    ensures whitespace_alone { block (codes "a: ;") ≡ (codes "a", ([], false)) ∷ [] }
    ensures another_colon { block (codes "a::b") ≡ (codes "a", (codes ":b", false)) ∷ [] }
    ensures at_keyword_inside { block (codes "a:b@c") ≡ (codes "a", (codes "b@c", false)) ∷ [] }
    ensures semicolon_in_a_block { block (codes "a:(b;c);d:e")
        ≡ (codes "a", (codes "(b;c)", false)) ∷ (codes "d", (codes "e", false)) ∷ [] }
    ensures semicolon_in_a_function { block (codes "a:f(b;c);d:e")
        ≡ (codes "a", (codes "f(b;c)", false)) ∷ (codes "d", (codes "e", false)) ∷ [] }
    ensures semicolon_in_a_string { block (codes "a:\";\";d:e")
        ≡ (codes "a", (codes "\";\"", false)) ∷ (codes "d", (codes "e", false)) ∷ [] }
    ensures a_block_ends_no_declaration { block (codes "a:{b}c:d;e:f")
        ≡ (codes "a", (codes "{b}c:d", false)) ∷ (codes "e", (codes "f", false)) ∷ [] }
    ensures open_string { block (codes "a:\"b") ≡ (codes "a", (codes "\"b", false)) ∷ [] }
    ensures open_block { block (codes "a:(b;c:d") ≡ (codes "a", (codes "(b;c:d", false)) ∷ [] }
    ensures open_comment { block (codes "a:b/*c;d:e") ≡ (codes "a", (codes "b", false)) ∷ [] }
    ensures bad_string { block (codes "a:\"b\nc;d:e")
        ≡ (codes "a", (codes "\"b\nc", false)) ∷ (codes "d", (codes "e", false)) ∷ [] }
    ensures cdo { block (codes "a:<!--") ≡ (codes "a", (codes "<!--", false)) ∷ [] }
{}

/// `!` and `important`, in any case, at the end of the value: the declaration is important.
#[tactic(auto, unfolding(css_model::specs::inner::Nesting::levels_of, css_model::specs::inner::Pieces::pieces_after, css_model::specs::inner::Fronts::parts_after))]
pub fn important()
    ensures joined { block (codes "a:b!important") ≡ (codes "a", (codes "b", true)) ∷ [] }
    ensures whitespace_between { block (codes "a:b! important")
        ≡ (codes "a", (codes "b", true)) ∷ [] }
    ensures whitespace_around { block (codes "a: b ! important ;")
        ≡ (codes "a", (codes "b", true)) ∷ [] }
    ensures comment_between { block (codes "a:b!/**/important")
        ≡ (codes "a", (codes "b", true)) ∷ [] }
    ensures in_capitals { block (codes "a:b!IMPORTANT") ≡ (codes "a", (codes "b", true)) ∷ [] }
    ensures escape { block (codes "a:b!\\69mportant") ≡ (codes "a", (codes "b", true)) ∷ [] }
    ensures ended { block (codes "a:b!important;c:d")
        ≡ (codes "a", (codes "b", true)) ∷ (codes "c", (codes "d", false)) ∷ [] }
    ensures alone { block (codes "a:!important") ≡ (codes "a", ([], true)) ∷ [] }
    ensures twice { block (codes "a:b!important!important")
        ≡ (codes "a", (codes "b!important", true)) ∷ [] }
    ensures not_at_the_end { block (codes "a:b!important c")
        ≡ (codes "a", (codes "b!important c", false)) ∷ [] }
    ensures nothing_before_it { block (codes "a:b important")
        ≡ (codes "a", (codes "b important", false)) ∷ [] }
    ensures in_a_block { block (codes "a:(!important)")
        ≡ (codes "a", (codes "(!important)", false)) ∷ [] }
    ensures something_between { block (codes "a:b!c important")
        ≡ (codes "a", (codes "b!c important", false)) ∷ [] }
    ensures another_word { block (codes "a:b!importan")
        ≡ (codes "a", (codes "b!importan", false)) ∷ [] }
    ensures function { block (codes "a:b!important()")
        ≡ (codes "a", (codes "b!important()", false)) ∷ [] }
    ensures string { block (codes "a:b!\"important\"")
        ≡ (codes "a", (codes "b!\"important\"", false)) ∷ [] }
    ensures exclamation_mark_alone { block (codes "a:b!") ≡ (codes "a", (codes "b!", false)) ∷ [] }
    ensures before_the_colon { block (codes "a!important:b") ≡ [] }
{}

/// What begins otherwise, or has no `:`, is dropped up to the next `;` of its level.
#[tactic(auto, unfolding(css_model::specs::inner::Nesting::levels_of, css_model::specs::inner::Pieces::pieces_after, css_model::specs::inner::Fronts::parts_after))]
pub fn bad()
    ensures no_colon { block (codes "c d;e:f") ≡ (codes "e", (codes "f", false)) ∷ [] }
    ensures no_colon_at_the_end { block (codes "e:f;c") ≡ (codes "e", (codes "f", false)) ∷ [] }
    ensures a_late_colon { block (codes "c d:e;f:g") ≡ (codes "f", (codes "g", false)) ∷ [] }
    ensures a_colon_first { block (codes ":a;b:c") ≡ (codes "b", (codes "c", false)) ∷ [] }
    ensures a_number_first { block (codes "1a:b;c:d") ≡ (codes "c", (codes "d", false)) ∷ [] }
    ensures a_star_first { block (codes "*a:b;c:d") ≡ (codes "c", (codes "d", false)) ∷ [] }
    ensures a_hash_first { block (codes "#a:b;c:d") ≡ (codes "c", (codes "d", false)) ∷ [] }
    ensures a_string_first { block (codes "\"a\":b;c:d") ≡ (codes "c", (codes "d", false)) ∷ [] }
    ensures an_ampersand_first { block (codes "&a{b:c}d:e;f:g")
        ≡ (codes "f", (codes "g", false)) ∷ [] }
    ensures a_function_first { block (codes "f():b;c:d") ≡ (codes "c", (codes "d", false)) ∷ [] }
    ensures a_block_first { block (codes "{a:b}c:d;e:f") ≡ (codes "e", (codes "f", false)) ∷ [] }
    ensures a_nested_rule { block (codes "p{a:b;c:d}e:f;g:h")
        ≡ (codes "g", (codes "h", false)) ∷ [] }
    ensures a_closing_bracket { block (codes ")a:b;c:d") ≡ (codes "c", (codes "d", false)) ∷ [] }
    ensures cdo_first { block (codes "<!--a:b;c:d") ≡ (codes "c", (codes "d", false)) ∷ [] }
    ensures a_block_before_the_colon { block (codes "a(b):c;d:e")
        ≡ (codes "d", (codes "e", false)) ∷ [] }
    ensures semicolon_in_a_block { block (codes "a[b;c:d];e:f")
        ≡ (codes "e", (codes "f", false)) ∷ [] }
{}

/// At-rules among declarations are dropped, up to their `;` or with their `{}` block.
#[tactic(auto, unfolding(css_model::specs::inner::Nesting::levels_of, css_model::specs::inner::Pieces::pieces_after, css_model::specs::inner::Fronts::parts_after))]
pub fn at_rules()
    ensures with_semicolon { block (codes "@x y;a:b") ≡ (codes "a", (codes "b", false)) ∷ [] }
    ensures with_block { block (codes "@x y{c:d}a:b") ≡ (codes "a", (codes "b", false)) ∷ [] }
    ensures with_block_and_semicolon { block (codes "@x{c:d};a:b")
        ≡ (codes "a", (codes "b", false)) ∷ [] }
    ensures without_either { block (codes "a:b;@x c:d") ≡ (codes "a", (codes "b", false)) ∷ [] }
    ensures of_a_kept_name { block (codes "@media x{c:d}a:b")
        ≡ (codes "a", (codes "b", false)) ∷ [] }
    ensures another_block { block (codes "@x(y){c:d}a:b") ≡ (codes "a", (codes "b", false)) ∷ [] }
    ensures semicolon_in_its_prelude { block (codes "@x(y;c:d);a:b")
        ≡ (codes "a", (codes "b", false)) ∷ [] }
    ensures two { block (codes "@x;@y{}a:b") ≡ (codes "a", (codes "b", false)) ∷ [] }
    ensures after_a_declaration { block (codes "a:b;@x{c:d}e:f")
        ≡ (codes "a", (codes "b", false)) ∷ (codes "e", (codes "f", false)) ∷ [] }
{}
