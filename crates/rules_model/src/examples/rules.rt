//! Rules (CSS Syntax 3, sections 5.4.1 to 5.4.3).
ghost use Rattle.css_model.specs.Components.{component, no_components, preserved, simple_block};
ghost use Rattle.css_model.specs.TokenList.{token_at};
ghost use Rattle.css_model.specs.declared.token.Bracket.TheVariants.{Round};
ghost use Rattle.css_model.specs.declared.token.TokenType.TheVariants.{Closing, Delim, Ident, Opening};
ghost use Rattle.rules_model.specs.Sheets.{style_rules_of};
ghost use Rattle.rules_model.specs.declared.conditional_rule.ConditionalRule.TheVariants.{Media, Container};
ghost use Rattle.rules_model.specs.inner.Examples.{conditions, preludes, printed_preludes, sheet};
ghost use Rattle.std.specs.Prelude.{◌≡◌, ◌∷◌, [], Some, codes, true, false};

/// A qualified rule goes up to its first `{}` block; without one it is dropped.
#[tactic(auto, unfolding(css_model::specs::inner::Nesting::levels_of, css_model::specs::inner::Pieces::pieces_after, css_model::specs::inner::Fronts::parts_after))]
pub fn qualified()
    ensures one { preludes (codes "p{}") ≡ codes "p" ∷ [] }
    ensures two { preludes (codes "p{}q{}") ≡ codes "p" ∷ codes "q" ∷ [] }
    ensures the_same_twice { preludes (codes "p{}p{}") ≡ codes "p" ∷ codes "p" ∷ [] }
    ensures whitespace_at_the_ends { preludes (codes " p {} q\n{}") ≡ codes "p" ∷ codes "q" ∷ [] }
    ensures whitespace_inside { preludes (codes "a , b{}") ≡ codes "a , b" ∷ [] }
    ensures empty_prelude { preludes (codes "{}") ≡ [] ∷ [] }
    ensures two_blocks { preludes (codes "p{}{}") ≡ codes "p" ∷ [] ∷ [] }
    ensures open_block { preludes (codes "p{") ≡ codes "p" ∷ [] }
    ensures open_comment { preludes (codes "p{}/*q{}") ≡ codes "p" ∷ [] }
    ensures without_block { preludes (codes "p") ≡ [] }
    ensures without_block_at_the_end { preludes (codes "p{}q r") ≡ codes "p" ∷ [] }
    ensures semicolon_in_the_prelude { preludes (codes "a;b{}") ≡ codes "a;b" ∷ [] }
    ensures declaration_in_the_prelude { preludes (codes "a:b;c{}") ≡ codes "a:b;c" ∷ [] }
    ensures another_block { preludes (codes "a[b]{}") ≡ codes "a[b]" ∷ [] }
    ensures curly_in_another_block { preludes (codes "a({}){}") ≡ codes "a({})" ∷ [] }
    ensures a_closing_bracket { preludes (codes "}h{}") ≡ codes "}h" ∷ [] }
    ensures an_open_bracket { preludes (codes "a(b{}c{}") ≡ [] }
    ensures a_string { preludes (codes "\"{}\"{}") ≡ codes "\"{}\"" ∷ [] }
    ensures at_keyword_inside { preludes (codes "a@media b{}") ≡ codes "a@media b" ∷ [] }
    ensures a_function_first { preludes (codes "f(){}") ≡ codes "f()" ∷ [] }
    ensures none { preludes (codes "") ≡ [] }
    ensures whitespace_alone { preludes (codes " \n") ≡ [] }
{}

/// `<!--` and `-->` are passed over where a rule would begin at the top level, and nowhere else.
#[tactic(auto, unfolding(css_model::specs::inner::Nesting::levels_of, css_model::specs::inner::Pieces::pieces_after, css_model::specs::inner::Fronts::parts_after))]
pub fn cdo_and_cdc()
    ensures before_rules { preludes (codes "<!--p{}-->q{}") ≡ codes "p" ∷ codes "q" ∷ [] }
    ensures whitespace_around { preludes (codes " <!-- p{} --> ") ≡ codes "p" ∷ [] }
    ensures alone { preludes (codes "<!-- -->") ≡ [] }
    ensures in_a_prelude { preludes (codes "a --> b{}") ≡ codes "a --> b" ∷ [] }
    ensures in_a_prelude_cdo { preludes (codes "a<!--b{}") ≡ codes "a<!--b" ∷ [] }
    ensures in_a_block { preludes (codes "@media x{<!-- p{}}") ≡ codes "<!-- p" ∷ [] }
    ensures in_a_block_cdc { preludes (codes "@container x{--> p{}}") ≡ codes "--> p" ∷ [] }
    ensures in_a_block_after_a_rule { preludes (codes "@media x{p{}-->q{}}")
        ≡ codes "p" ∷ codes "-->q" ∷ [] }
    ensures in_a_block_without_a_rule { preludes (codes "@media x{<!--}p{}") ≡ codes "p" ∷ [] }
    ensures after_a_block { preludes (codes "@media x{}-->p{}") ≡ codes "p" ∷ [] }
    ensures before_an_at_rule { preludes (codes "<!--@media x{p{}}") ≡ codes "p" ∷ [] }
{}

/// An at-rule goes up to its `;`, its `{}` block or the end. Those other than `@media` and
/// `@container` are dropped, and so are these without a block.
#[tactic(auto, unfolding(css_model::specs::inner::Nesting::levels_of, css_model::specs::inner::Pieces::pieces_after, css_model::specs::inner::Fronts::parts_after))]
pub fn at_rules()
    ensures of_another_name { preludes (codes "@foo x{y{}}p{}") ≡ codes "p" ∷ [] }
    ensures supports { preludes (codes "@supports(a:b){p{}}q{}") ≡ codes "q" ∷ [] }
    ensures of_another_name_with_semicolon { preludes (codes "@import \"a\";p{}") ≡ codes "p" ∷ [] }
    ensures semicolon_before_the_block { preludes (codes "@foo x;y{}") ≡ codes "y" ∷ [] }
    ensures media_with_semicolon { preludes (codes "@media x;p{}") ≡ codes "p" ∷ [] }
    ensures container_with_semicolon { preludes (codes "@container x;p{}") ≡ codes "p" ∷ [] }
    ensures media_without_block { preludes (codes "p{}@media x") ≡ codes "p" ∷ [] }
    ensures up_to_its_first_block { preludes (codes "@foo{}p{}") ≡ codes "p" ∷ [] }
    ensures after_a_block { preludes (codes "@media x{p{}}q{}") ≡ codes "p" ∷ codes "q" ∷ [] }
    ensures another_block_in_its_prelude { preludes (codes "@foo(a;{b}){}p{}") ≡ codes "p" ∷ [] }
    ensures an_open_bracket_takes_the_block { preludes (codes "@media(width>1px{p{}}") ≡ [] }
    ensures no_name { preludes (codes "@ media x{p{}}") ≡ codes "@ media x" ∷ [] }
    ensures a_longer_name { preludes (codes "@mediax{p{}}q{}") ≡ codes "q" ∷ [] }
    ensures another_prefix { preludes (codes "@-x-media y{p{}}q{}") ≡ codes "q" ∷ [] }
    ensures inside_a_block { preludes (codes "@media x{@foo{p{}}q{}@foo;r{}}")
        ≡ codes "q" ∷ codes "r" ∷ [] }
{}

/// The blocks of `@media` and `@container` hold rules, and each is a condition around them.
#[tactic(auto, unfolding(css_model::specs::inner::Nesting::levels_of, css_model::specs::inner::Pieces::pieces_after, css_model::specs::inner::Fronts::parts_after))]
pub fn conditional()
    ensures media { conditions (codes "@media x{p{}}") ≡ ((Media, codes "x") ∷ []) ∷ [] }
    ensures container { conditions (codes "@container x{p{}}")
        ≡ ((Container, codes "x") ∷ []) ∷ [] }
    ensures in_capitals { conditions (codes "@MeDiA X{p{}}@CONTAINER Y{q{}}")
        ≡ ((Media, codes "X") ∷ []) ∷ ((Container, codes "Y") ∷ []) ∷ [] }
    ensures escape { conditions (codes "@\\6d edia x{p{}}") ≡ ((Media, codes "x") ∷ []) ∷ [] }
    ensures whitespace_at_the_ends { conditions (codes "@media  x  y {p{}}")
        ≡ ((Media, codes "x  y") ∷ []) ∷ [] }
    ensures empty_prelude { conditions (codes "@container{p{}}") ≡ ((Container, []) ∷ []) ∷ [] }
    ensures whitespace_alone { conditions (codes "@media {p{}}") ≡ ((Media, []) ∷ []) ∷ [] }
    ensures no_whitespace { conditions (codes "@media(a){p{}}") ≡ ((Media, codes "(a)") ∷ []) ∷ [] }
    ensures a_list { conditions (codes "@media x,y{p{}}") ≡ ((Media, codes "x,y") ∷ []) ∷ [] }
    ensures outermost_first { conditions (codes "@media x{@container y{p{}}}")
        ≡ ((Media, codes "x") ∷ (Container, codes "y") ∷ []) ∷ [] }
    ensures three { conditions (codes "@media x{@media y{@container z{p{}}}}")
        ≡ ((Media, codes "x") ∷ (Media, codes "y") ∷ (Container, codes "z") ∷ []) ∷ [] }
    ensures all_rules_of_a_block { conditions (codes "@media x{p{}q{}}")
        ≡ ((Media, codes "x") ∷ []) ∷ ((Media, codes "x") ∷ []) ∷ [] }
    ensures after_a_block_inside { conditions (codes "@media x{@container y{p{}}q{}}r{}")
        ≡ ((Media, codes "x") ∷ (Container, codes "y") ∷ []) ∷ ((Media, codes "x") ∷ []) ∷ [] ∷ [] }
    ensures before_a_block_inside { conditions (codes "@media x{p{}@media y{q{}}}")
        ≡ ((Media, codes "x") ∷ []) ∷ ((Media, codes "x") ∷ (Media, codes "y") ∷ []) ∷ [] }
    ensures side_by_side { conditions (codes "@media x{p{}}@media y{q{}}")
        ≡ ((Media, codes "x") ∷ []) ∷ ((Media, codes "y") ∷ []) ∷ [] }
    ensures open_block { conditions (codes "@media x{p{}q{")
        ≡ ((Media, codes "x") ∷ []) ∷ ((Media, codes "x") ∷ []) ∷ [] }
    ensures no_rule { conditions (codes "@media x{}") ≡ [] }
    ensures a_rule_without_block { conditions (codes "@media x{p}q{}") ≡ [] ∷ [] }
    ensures a_rule_without_block_after_one { conditions (codes "@media x{p{}q}r{}")
        ≡ ((Media, codes "x") ∷ []) ∷ [] ∷ [] }
{}

/// The text of a prelude has the spellings of its tokens, and one space for each token of white space.
#[tactic(auto, unfolding(css_model::specs::inner::Nesting::levels_of, css_model::specs::inner::Pieces::pieces_after, css_model::specs::inner::Fronts::parts_after))]
pub fn prelude_texts()
    ensures spaces { printed_preludes (codes "a   >\n b{}") ≡ codes "a > b" ∷ [] }
    ensures at_the_ends { printed_preludes (codes "  a  {}") ≡ codes "a" ∷ [] }
    ensures a_comment { printed_preludes (codes "a/**/b{}") ≡ codes "ab" ∷ [] }
    ensures whitespace_round_a_comment { printed_preludes (codes "a /**/ b{}") ≡ codes "a  b" ∷ [] }
    ensures a_comment_at_the_ends { printed_preludes (codes " /**/ a /**/ {}") ≡ codes "a" ∷ [] }
    ensures in_a_block { printed_preludes (codes "a[ b  = \"c  d\" ]{}")
        ≡ codes "a[ b = \"c  d\" ]" ∷ [] }
    ensures in_a_function { printed_preludes (codes ":is(  a,b  ){}") ≡ codes ":is( a,b )" ∷ [] }
    ensures as_it_is_written { printed_preludes (codes "\\61 B#\\63{}") ≡ codes "\\61 B#\\63" ∷ [] }
    ensures empty { printed_preludes (codes " {}") ≡ [] ∷ [] }
{}

/// Whole sheets: a string and blocks that end with the text, and a `}` that closes nothing.
#[tactic(auto, unfolding(css_model::specs::inner::Nesting::levels_of, css_model::specs::inner::Pieces::pieces_after, css_model::specs::inner::Fronts::parts_after))]
pub fn whole()
    ensures open_string { sheet (codes "p{height:1px}@foo x{y}@container (width>1px){q{height:\"c")
        ≡ record {
          prelude = codes "p";
          conditions = [];
          declarations = (codes "height", (codes "1px", false)) ∷ [];
        }
        ∷ record {
          prelude = codes "q";
          conditions = (Container, codes "(width>1px)") ∷ [];
          declarations = (codes "height", (codes "\"c", false)) ∷ [];
        }
        ∷ [] }
    ensures closing_bracket { sheet (codes "/*x*/ a , b{c:d;e}{f:g!important}}h{i:j")
        ≡ record {
          prelude = codes "a , b";
          conditions = [];
          declarations = (codes "c", (codes "d", false)) ∷ [];
        }
        ∷ record {
          prelude = [];
          conditions = [];
          declarations = (codes "f", (codes "g", true)) ∷ [];
        }
        ∷ record {
          prelude = codes "}h";
          conditions = [];
          declarations = (codes "i", (codes "j", false)) ∷ [];
        }
        ∷ [] }
    ensures preludes { printed_preludes (codes "/*x*/ a , b{c:d;e}{f:g!important}}h{i:j")
        ≡ codes "a , b" ∷ [] ∷ codes "}h" ∷ [] }
{}

/// A rule has the component values themselves.
#[tactic(auto, unfolding(css_model::specs::inner::Nesting::levels_of, css_model::specs::inner::Pieces::pieces_after, css_model::specs::inner::Fronts::parts_after))]
pub fn structure()
    ensures { style_rules_of (codes "@media x{a{b:(!)!important}}")
        ≡ record {
          prelude = component (preserved (token_at 9 (Ident (codes "a")) (codes "a"))) no_components;
          conditions = record {
            at_rule = Media;
            prelude = component (preserved (token_at 7 (Ident (codes "x")) (codes "x"))) no_components;
          } ∷ [];
          declarations = record {
            name = codes "b";
            value = component (simple_block (token_at 13 (Opening Round) (codes "("))
                (component (preserved (token_at 14 (Delim 33) (codes "!"))) no_components)
                (Some (token_at 15 (Closing Round) (codes ")")))) no_components;
            important = true;
          } ∷ [];
        } ∷ [] }
{}
