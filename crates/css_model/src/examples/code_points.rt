//! Preprocessing, classes of code points, and escapes (CSS Syntax 3, sections 3.3, 4.2 and 4.3.7).
ghost use Rattle.css_model.specs.declared.token.Bracket.TheVariants.{Round, Square, Curly};
ghost use Rattle.css_model.specs.declared.token.TokenType.TheVariants.{Ident, Hash, String, BadString, Url, BadUrl, Delim, Dimension, Whitespace, Colon, Semicolon, Comma, Opening, Closing};
ghost use Rattle.css_model.specs.inner.Examples.{integer};
ghost use Rattle.css_model.specs.inner.Pieces.{token_types};
ghost use Rattle.std.specs.Prelude.{◌≡◌, ◌∷◌, [], codes, pos, true};

/// Preprocessing (section 3.3): CR, CR LF and FF are one newline each, and U+0000 is U+FFFD.
#[tactic(auto, unfolding(crate::specs::inner::Pieces::pieces_after, crate::specs::inner::Fronts::parts_after))]
pub fn preprocessing()
    ensures carriage_return { token_types (13 ∷ []) ≡ Whitespace ∷ [] }
    ensures ends_a_string { token_types (39 ∷ 13 ∷ 39 ∷ [])
        ≡ BadString ∷ Whitespace ∷ String [] ∷ [] }
    ensures form_feed { token_types (39 ∷ 12 ∷ 39 ∷ []) ≡ BadString ∷ Whitespace ∷ String [] ∷ [] }
    ensures line_feed_alone { token_types (39 ∷ 97 ∷ 10 ∷ 98 ∷ [])
        ≡ BadString ∷ Whitespace ∷ Ident (codes "b") ∷ [] }
    ensures one_newline_after_an_escape { token_types (92 ∷ 52 ∷ 49 ∷ 13 ∷ 10 ∷ 98 ∷ [])
        ≡ Ident (codes "Ab") ∷ [] }
    ensures two_newlines_after_an_escape { token_types (92 ∷ 52 ∷ 49 ∷ 10 ∷ 13 ∷ 98 ∷ [])
        ≡ Ident (codes "A") ∷ Whitespace ∷ Ident (codes "b") ∷ [] }
    ensures null { token_types (0 ∷ []) ≡ Ident (65533 ∷ []) ∷ [] }
    ensures null_in_a_url { token_types (117 ∷ 114 ∷ 108 ∷ 40 ∷ 0 ∷ 41 ∷ [])
        ≡ Url (65533 ∷ []) ∷ [] }
    ensures line_tabulation_stays { token_types (97 ∷ 11 ∷ 98 ∷ [])
        ≡ Ident (codes "a") ∷ Delim 11 ∷ Ident (codes "b") ∷ [] }
{}

/// Classes of code points (section 4.2), at their ends.
#[tactic(auto, unfolding(crate::specs::inner::Pieces::pieces_after, crate::specs::inner::Fronts::parts_after))]
pub fn classes()
    ensures name { token_types (codes "AZ_az09-") ≡ Ident (codes "AZ_az09-") ∷ [] }
    ensures start_of_a_name { token_types (codes "_-") ≡ Ident (codes "_-") ∷ [] }
    ensures next_to_letters { token_types (codes "@[`{")
        ≡ Delim 64 ∷ Opening Square ∷ Delim 96 ∷ Opening Curly ∷ [] }
    ensures next_to_digits { token_types (codes "/:") ≡ Delim 47 ∷ Colon ∷ [] }
    ensures first_beyond_ascii { token_types (128 ∷ []) ≡ Ident (128 ∷ []) ∷ [] }
    ensures no_break_space { token_types (160 ∷ []) ≡ Ident (160 ∷ []) ∷ [] }
    ensures last_code_point { token_types (97 ∷ 1114111 ∷ []) ≡ Ident (97 ∷ 1114111 ∷ []) ∷ [] }
    ensures delete { token_types (127 ∷ []) ≡ Delim 127 ∷ [] }
    ensures controls { token_types (1 ∷ 8 ∷ 11 ∷ 14 ∷ 31 ∷ [])
        ≡ Delim 1 ∷ Delim 8 ∷ Delim 11 ∷ Delim 14 ∷ Delim 31 ∷ [] }
    ensures whitespace { token_types (codes "\t\n a") ≡ Whitespace ∷ Ident (codes "a") ∷ [] }
    ensures singles { token_types (codes ":;,()[]{}")
        ≡ Colon ∷ Semicolon ∷ Comma ∷ Opening Round ∷ Closing Round ∷ Opening Square
        ∷ Closing Square ∷ Opening Curly ∷ Closing Curly ∷ [] }
    ensures delimiters { token_types (codes "!$%&*+-./<=>?^|~")
        ≡ Delim 33 ∷ Delim 36 ∷ Delim 37 ∷ Delim 38 ∷ Delim 42 ∷ Delim 43 ∷ Delim 45 ∷ Delim 46
        ∷ Delim 47 ∷ Delim 60 ∷ Delim 61 ∷ Delim 62 ∷ Delim 63 ∷ Delim 94 ∷ Delim 124 ∷ Delim 126
        ∷ [] }
{}

/// Escapes (section 4.3.7): a hex escape of six digits ends by itself, a shorter one by one whitespace
/// code point or by what is not a hex digit.
#[tactic(auto, unfolding(crate::specs::inner::Pieces::pieces_after, crate::specs::inner::Fronts::parts_after))]
pub fn escapes()
    ensures six_digits { token_types (codes "\\000041b") ≡ Ident (codes "Ab") ∷ [] }
    ensures six_digits_and_blank { token_types (codes "\\000041 b") ≡ Ident (codes "Ab") ∷ [] }
    ensures seven_digits { token_types (codes "\\0000411") ≡ Ident (codes "A1") ∷ [] }
    ensures five_digits { token_types (codes "\\00041g") ≡ Ident (codes "Ag") ∷ [] }
    ensures two_digits_and_blank { token_types (codes "\\41 b") ≡ Ident (codes "Ab") ∷ [] }
    ensures two_digits_and_tab { token_types (codes "\\41\tb") ≡ Ident (codes "Ab") ∷ [] }
    ensures two_blanks { token_types (codes "\\41  b")
        ≡ Ident (codes "A") ∷ Whitespace ∷ Ident (codes "b") ∷ [] }
    ensures two_digits { token_types (codes "\\4Az") ≡ Ident (codes "Jz") ∷ [] }
    ensures hex_digits { token_types (codes "\\9\\A\\F\\a\\f")
        ≡ Ident (9 ∷ 10 ∷ 15 ∷ 10 ∷ 15 ∷ []) ∷ [] }
    ensures next_to_hex_digits { token_types (codes "\\/\\:\\@\\G\\`\\g")
        ≡ Ident (codes "/:@G`g") ∷ [] }
    ensures zero { token_types (codes "\\0") ≡ Ident (65533 ∷ []) ∷ [] }
    ensures before_surrogates { token_types (codes "\\d7ff") ≡ Ident (55295 ∷ []) ∷ [] }
    ensures first_surrogate { token_types (codes "\\D800") ≡ Ident (65533 ∷ []) ∷ [] }
    ensures last_surrogate { token_types (codes "\\dfff") ≡ Ident (65533 ∷ []) ∷ [] }
    ensures after_surrogates { token_types (codes "\\e000") ≡ Ident (57344 ∷ []) ∷ [] }
    ensures last_code_point { token_types (codes "\\10FFFF") ≡ Ident (1114111 ∷ []) ∷ [] }
    ensures past_the_last_code_point { token_types (codes "\\110000") ≡ Ident (65533 ∷ []) ∷ [] }
    ensures not_hex { token_types (codes "a\\,\\g") ≡ Ident (codes "a,g") ∷ [] }
    ensures end_of_text { token_types (codes "\\") ≡ Ident (65533 ∷ []) ∷ [] }
    ensures end_of_name { token_types (codes "a\\") ≡ Ident (97 ∷ 65533 ∷ []) ∷ [] }
    ensures end_of_hash { token_types (codes "#\\") ≡ Hash (65533 ∷ []) true ∷ [] }
    ensures end_of_unit { token_types (codes "1\\")
        ≡ Dimension (integer (pos 1000000)) (65533 ∷ []) ∷ [] }
    ensures end_of_string { token_types (codes "'a\\") ≡ String (codes "a") ∷ [] }
    ensures end_of_url { token_types (codes "url(a\\") ≡ Url (97 ∷ 65533 ∷ []) ∷ [] }
    ensures newline { token_types (codes "\\\n") ≡ Delim 92 ∷ Whitespace ∷ [] }
    ensures newline_in_a_string { token_types (codes "'a\\\nb'") ≡ String (codes "ab") ∷ [] }
    ensures newline_in_a_url { token_types (codes "url(a\\\n)b") ≡ BadUrl ∷ Ident (codes "b") ∷ [] }
{}
