//! Names, strings, comments and urls, and the places of tokens (CSS Syntax 3, section 4.3).
ghost use Rattle.css_model.specs.declared.token.Bracket.TheVariants.{Round};
ghost use Rattle.css_model.specs.declared.token.TokenType.TheVariants.{Ident, Function, AtKeyword, Hash, String, BadString, Url, BadUrl, Delim, Number, Whitespace, Cdo, Cdc, Colon, Opening, Closing};
ghost use Rattle.css_model.specs.inner.Examples.{integer};
ghost use Rattle.css_model.specs.inner.Pieces.{tokens, token_types};
ghost use Rattle.std.specs.Prelude.{◌≡◌, ◌∷◌, [], codes, pos, true, false};

/// Identifiers, at-keywords and hashes (sections 4.3.1, 4.3.9 and 4.3.11), and what begins with `-` or
/// `<`.
#[tactic(auto, unfolding(crate::specs::inner::Pieces::pieces_after, crate::specs::inner::Fronts::parts_after))]
pub fn names()
    ensures letters_and_hyphens { token_types (codes "-a--") ≡ Ident (codes "-a--") ∷ [] }
    ensures two_hyphens { token_types (codes "--") ≡ Ident (codes "--") ∷ [] }
    ensures two_hyphens_and_digit { token_types (codes "--1") ≡ Ident (codes "--1") ∷ [] }
    ensures one_hyphen { token_types (codes "-") ≡ Delim 45 ∷ [] }
    ensures hyphen_and_escape { token_types (codes "-\\41") ≡ Ident (codes "-A") ∷ [] }
    ensures hyphen_and_no_escape { token_types (codes "-\\\n")
        ≡ Delim 45 ∷ Delim 92 ∷ Whitespace ∷ [] }
    ensures escaped_hyphen { token_types (codes "\\2d") ≡ Ident (codes "-") ∷ [] }
    ensures hyphen_and_end { token_types (codes "-\\") ≡ Ident (45 ∷ 65533 ∷ []) ∷ [] }
    ensures functions { token_types (codes "a(-b(--(")
        ≡ Function (codes "a") ∷ Function (codes "-b") ∷ Function (codes "--") ∷ [] }
    ensures space_before_a_bracket { token_types (codes "a (")
        ≡ Ident (codes "a") ∷ Whitespace ∷ Opening Round ∷ [] }
    ensures hash_is_id { token_types (codes "#a") ≡ Hash (codes "a") true ∷ [] }
    ensures hash_of_digit { token_types (codes "#1a") ≡ Hash (codes "1a") false ∷ [] }
    ensures hash_of_hyphen { token_types (codes "#-") ≡ Hash (codes "-") false ∷ [] }
    ensures hash_of_hyphen_and_digit { token_types (codes "#-1") ≡ Hash (codes "-1") false ∷ [] }
    ensures hash_of_two_hyphens { token_types (codes "#--") ≡ Hash (codes "--") true ∷ [] }
    ensures hash_of_escape { token_types (codes "#\\41") ≡ Hash (codes "A") true ∷ [] }
    ensures hash_alone { token_types (codes "# #\\\n")
        ≡ Delim 35 ∷ Whitespace ∷ Delim 35 ∷ Delim 92 ∷ Whitespace ∷ [] }
    ensures at_keyword { token_types (codes "@a") ≡ AtKeyword (codes "a") ∷ [] }
    ensures at_two_hyphens { token_types (codes "@--") ≡ AtKeyword (codes "--") ∷ [] }
    ensures at_hyphen { token_types (codes "@-") ≡ Delim 64 ∷ Delim 45 ∷ [] }
    ensures at_escape { token_types (codes "@\\41") ≡ AtKeyword (codes "A") ∷ [] }
    ensures at_digit { token_types (codes "@1") ≡ Delim 64 ∷ Number (integer (pos 1000000)) ∷ [] }
    ensures arrows { token_types (codes "<!---->") ≡ Cdo ∷ Cdc ∷ [] }
    ensures less { token_types (codes "<!-") ≡ Delim 60 ∷ Delim 33 ∷ Delim 45 ∷ [] }
    ensures hyphen_and_greater { token_types (codes "->") ≡ Delim 45 ∷ Delim 62 ∷ [] }
    ensures arrow_after_a_name { token_types (codes "a-->") ≡ Ident (codes "a--") ∷ Delim 62 ∷ [] }
{}

/// Strings (section 4.3.5) and comments (section 4.3.2), which are not tokens.
#[tactic(auto, unfolding(crate::specs::inner::Pieces::pieces_after, crate::specs::inner::Fronts::parts_after))]
pub fn strings()
    ensures double_quotes { token_types (codes "\"a'b\"") ≡ String (codes "a'b") ∷ [] }
    ensures single_quotes { token_types (codes "'a\"b'") ≡ String (codes "a\"b") ∷ [] }
    ensures empty { token_types (codes "''") ≡ String (codes "") ∷ [] }
    ensures open { token_types (codes "\"a'") ≡ String (codes "a'") ∷ [] }
    ensures quote_alone { token_types (codes "\"") ≡ String (codes "") ∷ [] }
    ensures escaped_quote { token_types (codes "'a\\'b'") ≡ String (codes "a'b") ∷ [] }
    ensures hex_escape { token_types (codes "'\\41 b'") ≡ String (codes "Ab") ∷ [] }
    ensures newline { token_types (codes "'a\nb")
        ≡ BadString ∷ Whitespace ∷ Ident (codes "b") ∷ [] }
    ensures newline_after_an_escaped_one { token_types (codes "'a\\\n\nb")
        ≡ BadString ∷ Whitespace ∷ Ident (codes "b") ∷ [] }
    ensures two { token_types (codes "'a''b'") ≡ String (codes "a") ∷ String (codes "b") ∷ [] }
    ensures comments { token_types (codes "a/*b*/c/*")
        ≡ Ident (codes "a") ∷ Ident (codes "c") ∷ [] }
    ensures comment_closed_at_once { token_types (codes "/**/a") ≡ Ident (codes "a") ∷ [] }
    ensures comment_of_one_asterisk { token_types (codes "/***/a") ≡ Ident (codes "a") ∷ [] }
    ensures comment_not_closed_by_its_own_asterisk { token_types (codes "/*/a") ≡ [] }
    ensures comment_with_a_comment_in_it { token_types (codes "/*/**/a*/")
        ≡ Ident (codes "a") ∷ Delim 42 ∷ Delim 47 ∷ [] }
    ensures comment_in_a_string { token_types (codes "'/**/'") ≡ String (codes "/**/") ∷ [] }
    ensures solidus { token_types (codes "/ /") ≡ Delim 47 ∷ Whitespace ∷ Delim 47 ∷ [] }
{}

/// Urls (sections 4.3.4, 4.3.6 and 4.3.14).
#[tactic(auto, unfolding(crate::specs::inner::Pieces::pieces_after, crate::specs::inner::Fronts::parts_after))]
pub fn urls()
    ensures url { token_types (codes "URL( a )") ≡ Url (codes "a") ∷ [] }
    ensures empty { token_types (codes "url()") ≡ Url (codes "") ∷ [] }
    ensures blank { token_types (codes "url( \n\t)") ≡ Url (codes "") ∷ [] }
    ensures open { token_types (codes "url(a ") ≡ Url (codes "a") ∷ [] }
    ensures open_at_once { token_types (codes "url(") ≡ Url (codes "") ∷ [] }
    ensures escaped_name { token_types (codes "u\\72l(a") ≡ Url (codes "a") ∷ [] }
    ensures another_name { token_types (codes "curl(a)")
        ≡ Function (codes "curl") ∷ Ident (codes "a") ∷ Closing Round ∷ [] }
    ensures escaped_bracket { token_types (codes "url\\28 a)")
        ≡ Ident (codes "url(a") ∷ Closing Round ∷ [] }
    ensures space_before_the_bracket { token_types (codes "url (a)")
        ≡ Ident (codes "url") ∷ Whitespace ∷ Opening Round ∷ Ident (codes "a") ∷ Closing Round ∷ [] }
    ensures quote { token_types (codes "url('a')")
        ≡ Function (codes "url") ∷ String (codes "a") ∷ Closing Round ∷ [] }
    ensures space_and_quote { token_types (codes "url( 'a')")
        ≡ Function (codes "url") ∷ Whitespace ∷ String (codes "a") ∷ Closing Round ∷ [] }
    ensures newline_and_double_quote { token_types (codes "url(\n\"a\")")
        ≡ Function (codes "url") ∷ Whitespace ∷ String (codes "a") ∷ Closing Round ∷ [] }
    ensures escaped_quote { token_types (codes "url(\\'a)") ≡ Url (codes "'a") ∷ [] }
    ensures escaped_end { token_types (codes "url(\\29)a")
        ≡ Url (codes ")") ∷ Ident (codes "a") ∷ [] }
    ensures escaped_space { token_types (codes "url(a\\ b)") ≡ Url (codes "a b") ∷ [] }
    ensures code_points { token_types (codes "url(!#$%&*+,-./:;<=>?@[]^_`{|}~)")
        ≡ Url (codes "!#$%&*+,-./:;<=>?@[]^_`{|}~") ∷ [] }
    ensures beyond_ascii { token_types (117 ∷ 114 ∷ 108 ∷ 40 ∷ 128 ∷ 41 ∷ [])
        ≡ Url (128 ∷ []) ∷ [] }
    ensures start_of_heading { token_types (117 ∷ 114 ∷ 108 ∷ 40 ∷ 1 ∷ 41 ∷ []) ≡ BadUrl ∷ [] }
    ensures backspace { token_types (117 ∷ 114 ∷ 108 ∷ 40 ∷ 8 ∷ 41 ∷ []) ≡ BadUrl ∷ [] }
    ensures line_tabulation { token_types (117 ∷ 114 ∷ 108 ∷ 40 ∷ 11 ∷ 41 ∷ []) ≡ BadUrl ∷ [] }
    ensures shift_out { token_types (117 ∷ 114 ∷ 108 ∷ 40 ∷ 14 ∷ 41 ∷ []) ≡ BadUrl ∷ [] }
    ensures unit_separator { token_types (117 ∷ 114 ∷ 108 ∷ 40 ∷ 31 ∷ 41 ∷ []) ≡ BadUrl ∷ [] }
    ensures delete { token_types (117 ∷ 114 ∷ 108 ∷ 40 ∷ 127 ∷ 41 ∷ []) ≡ BadUrl ∷ [] }
    ensures space_within { token_types (codes "url(a b)c") ≡ BadUrl ∷ Ident (codes "c") ∷ [] }
    ensures single_quote_within { token_types (codes "url(a'b)c")
        ≡ BadUrl ∷ Ident (codes "c") ∷ [] }
    ensures double_quote_within { token_types (codes "url(a\"b)c")
        ≡ BadUrl ∷ Ident (codes "c") ∷ [] }
    ensures bracket_within { token_types (codes "url(a(b)c)")
        ≡ BadUrl ∷ Ident (codes "c") ∷ Closing Round ∷ [] }
    ensures escaped_end_of_a_bad_url { token_types (codes "url(a b\\))c")
        ≡ BadUrl ∷ Ident (codes "c") ∷ [] }
    ensures escaped_newline_in_a_bad_url { token_types (codes "url(a b\\\nc)d")
        ≡ BadUrl ∷ Ident (codes "d") ∷ [] }
    ensures open_bad_url { token_types (codes "url(a b") ≡ BadUrl ∷ [] }
{}

/// Where tokens stand in the preprocessed text, and how they are spelled there (sections 3.3 and 4).
#[tactic(auto, unfolding(crate::specs::inner::Pieces::pieces_after, crate::specs::inner::Fronts::parts_after))]
pub fn places()
    ensures after_a_comment { tokens (codes "\t/**/a")
        ≡ record { token_type = Whitespace; start = 0; end = 1; spelling = codes "\t" }
        ∷ record { token_type = Ident (codes "a"); start = 5; end = 6; spelling = codes "a" } ∷ [] }
    ensures after_an_escape { tokens (codes "\\41 b:")
        ≡ record { token_type = Ident (codes "Ab"); start = 0; end = 5; spelling = codes "\\41 b" }
        ∷ record { token_type = Colon; start = 5; end = 6; spelling = codes ":" } ∷ [] }
    ensures preprocessed { tokens (13 ∷ 10 ∷ 12 ∷ 13 ∷ 13 ∷ 0 ∷ [])
        ≡ record { token_type = Whitespace; start = 0; end = 4; spelling = codes "\n\n\n\n" }
        ∷ record { token_type = Ident (65533 ∷ []); start = 4; end = 5; spelling = 65533 ∷ [] } ∷ [] }
    ensures beyond_ascii { tokens (128512 ∷ 58 ∷ [])
        ≡ record { token_type = Ident (128512 ∷ []); start = 0; end = 1; spelling = 128512 ∷ [] }
        ∷ record { token_type = Colon; start = 1; end = 2; spelling = codes ":" } ∷ [] }
    ensures with_quotes_and_brackets { tokens (codes "'a'#b url( c )")
        ≡ record { token_type = String (codes "a"); start = 0; end = 3; spelling = codes "'a'" }
        ∷ record { token_type = Hash (codes "b") true; start = 3; end = 5; spelling = codes "#b" }
        ∷ record { token_type = Whitespace; start = 5; end = 6; spelling = codes " " }
        ∷ record { token_type = Url (codes "c"); start = 6; end = 14; spelling = codes "url( c )" } ∷ [] }
{}
