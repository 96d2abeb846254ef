//! References (CSS Custom Properties 1, sections 2 and 3).
ghost use Rattle.custom_model.specs.inner.Examples.{customs, is_custom, is_kept, is_right, is_var, names};
ghost use Rattle.std.specs.Prelude.{◌≡◌, ◌∷◌, [], codes, true, false};

/// The right form: a name, and perhaps a comma and a fallback.
#[tactic(auto, unfolding(css_model::specs::inner::Nesting::levels_of, css_model::specs::inner::Pieces::pieces_after, css_model::specs::inner::Fronts::parts_after))]
pub fn forms()
    ensures name { is_right (codes "var(--a)") ≡ true }
    ensures whitespace { is_right (codes "var( --a )") ≡ true }
    ensures comments { is_right (codes "var(/**/--a/**/)") ≡ true }
    ensures three_hyphens { is_right (codes "var(---)") ≡ true }
    ensures escape_in_the_name { is_right (codes "var(\\2d-a)") ≡ true }
    ensures fallback { is_right (codes "var(--a,b)") ≡ true }
    ensures whitespace_before_the_comma { is_right (codes "var(--a ,b)") ≡ true }
    ensures empty_fallback { is_right (codes "var(--a,)") ≡ true }
    ensures whitespace_as_fallback { is_right (codes "var(--a, )") ≡ true }
    ensures more_commas { is_right (codes "var(--a,b,c)") ≡ true }
    ensures name_as_fallback { is_right (codes "var(--a,--b)") ≡ true }
    ensures semicolon_in_a_block { is_right (codes "var(--a,{b;c})") ≡ true }
    ensures exclamation_mark_in_a_block { is_right (codes "var(--a,(!))") ≡ true }
    ensures open { is_right (codes "var(--a") ≡ true }
    ensures open_fallback { is_right (codes "var(--a,(b") ≡ true }
    ensures open_string { is_right (codes "var(--a,\"b") ≡ true }
    ensures another_inside { is_right (codes "var(--a,var(--b))") ≡ true }
    ensures side_by_side { is_right (codes "var(--a)var(--b)") ≡ true }
    ensures without_one { is_right (codes "a(b)") ≡ true }
{}

/// What has no name, or something else beside it.
#[tactic(auto, unfolding(css_model::specs::inner::Nesting::levels_of, css_model::specs::inner::Pieces::pieces_after, css_model::specs::inner::Fronts::parts_after))]
pub fn bad_names()
    ensures none { is_right (codes "var()") ≡ false }
    ensures whitespace_alone { is_right (codes "var( )") ≡ false }
    ensures open { is_right (codes "var(") ≡ false }
    ensures two_hyphens { is_right (codes "var(--)") ≡ false }
    ensures one_hyphen { is_right (codes "var(-a)") ≡ false }
    ensures one_hyphen_and_more { is_right (codes "var(-ab)") ≡ false }
    ensures no_hyphen { is_right (codes "var(a)") ≡ false }
    ensures string { is_right (codes "var(\"--a\")") ≡ false }
    ensures function { is_right (codes "var(--a())") ≡ false }
    ensures hash { is_right (codes "var(#--a)") ≡ false }
    ensures two_names { is_right (codes "var(--a --b)") ≡ false }
    ensures a_word_after_it { is_right (codes "var(--a b)") ≡ false }
    ensures a_word_before_it { is_right (codes "var(b --a)") ≡ false }
    ensures a_comma_first { is_right (codes "var(,--a)") ≡ false }
    ensures no_comma { is_right (codes "var(--a;b)") ≡ false }
    ensures block_after_it { is_right (codes "var(--a{})") ≡ false }
    ensures in_capitals { is_right (codes "VAR(a)") ≡ false }
    ensures escape { is_right (codes "v\\61r(a)") ≡ false }
{}

/// A fallback has no bad string, bad url or unmatched closing bracket at any depth, and neither `;` nor
/// `!` at its top level.
#[tactic(auto, unfolding(css_model::specs::inner::Nesting::levels_of, css_model::specs::inner::Pieces::pieces_after, css_model::specs::inner::Fronts::parts_after))]
pub fn bad_fallbacks()
    ensures semicolon { is_right (codes "var(--a,;)") ≡ false }
    ensures semicolon_after_a_word { is_right (codes "var(--a,b;c)") ≡ false }
    ensures exclamation_mark { is_right (codes "var(--a,!)") ≡ false }
    ensures important { is_right (codes "var(--a,b!important)") ≡ false }
    ensures bad_string { is_right (codes "var(--a,\"b\n)") ≡ false }
    ensures bad_string_in_a_block { is_right (codes "var(--a,(\"b\n))") ≡ false }
    ensures bad_url { is_right (codes "var(--a,url(b c))") ≡ false }
    ensures bad_url_in_a_function { is_right (codes "var(--a,f(url(b c)))") ≡ false }
    ensures closing_bracket { is_right (codes "var(--a,])") ≡ false }
    ensures closing_bracket_in_a_block { is_right (codes "var(--a,[}])") ≡ false }
    ensures semicolon_of_another_inside { is_right (codes "var(--a,var(--b,;))") ≡ false }
{}

/// Each `var()` is asked, at any depth.
#[tactic(auto, unfolding(css_model::specs::inner::Nesting::levels_of, css_model::specs::inner::Pieces::pieces_after, css_model::specs::inner::Fronts::parts_after))]
pub fn at_any_depth()
    ensures block { is_right (codes "(var(a))") ≡ false }
    ensures function { is_right (codes "f(var(a))") ≡ false }
    ensures deeper { is_right (codes "{[f(var(--))]}") ≡ false }
    ensures fallback { is_right (codes "var(--a,var(b))") ≡ false }
    ensures block_in_a_fallback { is_right (codes "var(--a,(var(b)))") ≡ false }
    ensures name_of_another { is_right (codes "var(var(--a))") ≡ false }
    ensures first_of_two { is_right (codes "var(a) var(--b)") ≡ false }
    ensures second_of_two { is_right (codes "var(--a) var(b)") ≡ false }
    ensures all_of_them { is_right (codes "[var(--a)f(var(--b,var(--c)))]") ≡ true }
{}

/// What is a `var()`.
#[tactic(auto, unfolding(css_model::specs::inner::Nesting::levels_of, css_model::specs::inner::Pieces::pieces_after, css_model::specs::inner::Fronts::parts_after))]
pub fn vars()
    ensures by_itself { is_var (codes "var(--a)") ≡ true }
    ensures bad { is_var (codes "var()") ≡ true }
    ensures in_capitals { is_var (codes "VAR(--a)") ≡ true }
    ensures escape { is_var (codes "v\\61r(--a)") ≡ true }
    ensures beside_others { is_var (codes "a var(--a) b") ≡ true }
    ensures in_a_function { is_var (codes "f(var(--a))") ≡ true }
    ensures in_blocks { is_var (codes "[({var(--a)})]") ≡ true }
    ensures none { is_var (codes "a") ≡ false }
    ensures nothing { is_var (codes "") ≡ false }
    ensures word { is_var (codes "var") ≡ false }
    ensures word_and_block { is_var (codes "var (--a)") ≡ false }
    ensures longer_name { is_var (codes "vars(--a)") ≡ false }
    ensures hyphens { is_var (codes "--var(--a)") ≡ false }
    ensures hash { is_var (codes "#var(--a)") ≡ false }
    ensures at_keyword { is_var (codes "@var(--a)") ≡ false }
    ensures string { is_var (codes "\"var(--a)\"") ≡ false }
    ensures comment { is_var (codes "/*var(--a)*/") ≡ false }
    ensures bad_url { is_var (codes "url(var(--a))") ≡ false }
    ensures url_in_quotes { is_var (codes "url(\"var(--a)\")") ≡ false }
{}

/// A value with a `var()` of the right form is kept, whatever else stands in it.
#[tactic(auto, unfolding(css_model::specs::inner::Nesting::levels_of, css_model::specs::inner::Pieces::pieces_after, css_model::specs::inner::Fronts::parts_after))]
pub fn kept_whole()
    ensures one { is_kept (codes "var(--a)") ≡ true }
    ensures closing_bracket { is_kept (codes "var(--a) )") ≡ true }
    ensures exclamation_mark { is_kept (codes "var(--a) !") ≡ true }
    ensures bad_string { is_kept (codes "var(--a) \"b\n") ≡ true }
    ensures semicolon { is_kept (codes "var(--a);") ≡ true }
    ensures one_that_is_bad { is_kept (codes "var(--a) var(a)") ≡ false }
    ensures none { is_kept (codes "a") ≡ false }
{}

/// Values of custom properties.
#[tactic(auto, unfolding(css_model::specs::inner::Nesting::levels_of, css_model::specs::inner::Pieces::pieces_after, css_model::specs::inner::Fronts::parts_after))]
pub fn custom_values()
    ensures nothing { is_custom (codes "") ≡ true }
    ensures whitespace { is_custom (codes " ") ≡ true }
    ensures word { is_custom (codes "a") ≡ true }
    ensures keyword { is_custom (codes "inherit") ≡ true }
    ensures numbers_and_marks { is_custom (codes "1px,2%:<!--") ≡ true }
    ensures block_with_a_semicolon { is_custom (codes "{a;b}") ≡ true }
    ensures exclamation_mark_in_a_block { is_custom (codes "(!)") ≡ true }
    ensures open_block { is_custom (codes "(a") ≡ true }
    ensures string { is_custom (codes "\"a\"") ≡ true }
    ensures url { is_custom (codes "url(a)") ≡ true }
    ensures reference { is_custom (codes "var(--a)") ≡ true }
    ensures reference_in_a_block { is_custom (codes "{a:var(--a)}") ≡ true }
    ensures exclamation_mark { is_custom (codes "!") ≡ false }
    ensures important { is_custom (codes "a!important") ≡ false }
    ensures semicolon { is_custom (codes "a;b") ≡ false }
    ensures bad_string { is_custom (codes "\"a\n") ≡ false }
    ensures bad_string_in_a_block { is_custom (codes "(\"a\n)") ≡ false }
    ensures bad_url { is_custom (codes "url(a b)") ≡ false }
    ensures bad_url_in_a_function { is_custom (codes "f(url(a b))") ≡ false }
    ensures closing_bracket { is_custom (codes ")") ≡ false }
    ensures closing_bracket_in_a_block { is_custom (codes "(])") ≡ false }
    ensures bad_reference { is_custom (codes "var(a)") ≡ false }
    ensures bad_reference_in_a_block { is_custom (codes "({var(a)})") ≡ false }
{}

/// Declarations of custom properties.
#[tactic(auto, unfolding(css_model::specs::inner::Nesting::levels_of, css_model::specs::inner::Pieces::pieces_after, css_model::specs::inner::Fronts::parts_after))]
pub fn custom_declarations()
    ensures one { customs (codes "--a:b") ≡ true ∷ [] }
    ensures empty { customs (codes "--a:") ≡ true ∷ [] }
    ensures two_hyphens { customs (codes "--:b") ≡ false ∷ [] }
    ensures one_hyphen { customs (codes "-a:b") ≡ false ∷ [] }
    ensures another { customs (codes "a:b") ≡ false ∷ [] }
    ensures exclamation_mark { customs (codes "--a:b!c") ≡ false ∷ [] }
    ensures important { customs (codes "--a:b!important") ≡ true ∷ [] }
    ensures bad_reference { customs (codes "--a:var(b)") ≡ false ∷ [] }
    ensures escape_in_the_name { customs (codes "\\2d-a:b") ≡ true ∷ [] }
    ensures some_of_them { customs (codes "--a:b;--:c;--d:)") ≡ true ∷ false ∷ false ∷ [] }
{}

/// The names to which a value refers; they compare by value, and exactly.
#[tactic(auto, unfolding(css_model::specs::inner::Nesting::levels_of, css_model::specs::inner::Pieces::pieces_after, css_model::specs::inner::Fronts::parts_after))]
pub fn referred()
    ensures none { names (codes "a --a") ≡ [] }
    ensures one { names (codes "var(--a)") ≡ codes "--a" ∷ [] }
    ensures two { names (codes "var(--a) var(--b)") ≡ codes "--a" ∷ codes "--b" ∷ [] }
    ensures twice { names (codes "var(--a)var(--a)") ≡ codes "--a" ∷ codes "--a" ∷ [] }
    ensures case_counts { names (codes "var(--A)") ≡ codes "--A" ∷ [] }
    ensures escape { names (codes "var(--\\61)") ≡ codes "--a" ∷ [] }
    ensures fallback { names (codes "var(--a,var(--b))") ≡ codes "--a" ∷ codes "--b" ∷ [] }
    ensures word_in_a_fallback { names (codes "var(--a,--b)") ≡ codes "--a" ∷ [] }
    ensures deeper { names (codes "f(var(--a,[var(--b,x var(--c))]))")
        ≡ codes "--a" ∷ codes "--b" ∷ codes "--c" ∷ [] }
    ensures blocks { names (codes "(var(--a)){var(--b)}") ≡ codes "--a" ∷ codes "--b" ∷ [] }
{}
