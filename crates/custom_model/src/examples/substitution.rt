//! Substitution (CSS Custom Properties 1, sections 3, 3.1 and 3.3). The entries are those of declarations.
ghost use Rattle.css_model.specs.declared.token.TheConstants.{MAX_NESTING};
ghost use Rattle.custom_model.specs.declared.limits.TheConstants.{MAX_SUBSTITUTED_TOKENS};
ghost use Rattle.custom_model.specs.inner.Examples.{after, after_within, many, of_many};
ghost use Rattle.std.specs.List.{repeat};
ghost use Rattle.std.specs.Prelude.{◌≡◌, ◌++◌, codes, Some, None};

/// A `var()` is replaced by the entry of its name.
#[tactic(auto, unfolding(css_model::specs::inner::Nesting::levels_of, css_model::specs::inner::Pieces::pieces_after, css_model::specs::inner::Fronts::parts_after))]
pub fn entries()
    ensures one { after (codes "--a:x") (codes "var(--a)") ≡ Some (codes "x") }
    ensures capitals { after (codes "--a:x") (codes "VAR(--a)") ≡ Some (codes "x") }
    ensures many_tokens { after (codes "--a:x y(z)") (codes "var(--a)") ≡ Some (codes "x y(z)") }
    ensures empty { after (codes "--a:") (codes "var(--a)") ≡ Some (codes "") }
    ensures beside_others { after (codes "--a:x") (codes " b var(--a),c ")
        ≡ Some (codes " b x,c ") }
    ensures two { after (codes "--a:x;--b:y") (codes "var(--b) var(--a)") ≡ Some (codes "y x") }
    ensures twice { after (codes "--a:x") (codes "var(--a)var(--a)") ≡ Some (codes "xx") }
    ensures function { after (codes "--a:x") (codes "f(var(--a))") ≡ Some (codes "f(x)") }
    ensures block { after (codes "--a:x") (codes "[{var(--a)}]") ≡ Some (codes "[{x}]") }
    ensures open_block { after (codes "--a:x") (codes "(var(--a)") ≡ Some (codes "(x") }
    ensures entry_with_an_open_block { after (codes "--a:(x") (codes "var(--a) y")
        ≡ Some (codes "(x y") }
    ensures first_of_a_name { after (codes "--a:x;--a:y") (codes "var(--a)") ≡ Some (codes "x") }
    ensures not_again { after (codes "--a:var(--b);--b:x") (codes "var(--a)")
        ≡ Some (codes "var(--b)") }
    ensures fallback_that_is_not_used { after (codes "--a:x") (codes "var(--a,y)")
        ≡ Some (codes "x") }
    ensures fallback_without_an_entry_that_is_not_used { after (codes "--a:x") (codes "var(--a,var(--z))")
        ≡ Some (codes "x") }
    ensures whitespace_in_it { after (codes "--a:x") (codes "var( --a )") ≡ Some (codes "x") }
    ensures without_one { after (codes "--a:x") (codes " --a f(a) ") ≡ Some (codes " --a f(a) ") }
{}

/// Where there is no entry it is replaced by its fallback, where its own `var()` are replaced.
#[tactic(auto, unfolding(css_model::specs::inner::Nesting::levels_of, css_model::specs::inner::Pieces::pieces_after, css_model::specs::inner::Fronts::parts_after))]
pub fn fallbacks()
    ensures one { after (codes "") (codes "var(--z,y)") ≡ Some (codes "y") }
    ensures empty { after (codes "") (codes "var(--z,)") ≡ Some (codes "") }
    ensures whitespace { after (codes "") (codes "var(--z, )") ≡ Some (codes " ") }
    ensures whitespace_at_the_ends { after (codes "") (codes "var(--z, y )") ≡ Some (codes " y ") }
    ensures commas { after (codes "") (codes "var(--z,x,y)") ≡ Some (codes "x,y") }
    ensures more_tokens { after (codes "") (codes "a var(--z,f(x) y) b")
        ≡ Some (codes "a f(x) y b") }
    ensures with_an_entry { after (codes "--a:x") (codes "var(--z,var(--a))") ≡ Some (codes "x") }
    ensures entry_deeper { after (codes "--a:x") (codes "var(--z,f(y var(--a)))")
        ≡ Some (codes "f(y x)") }
    ensures fallback_of_a_fallback { after (codes "") (codes "var(--z,var(--w,y))")
        ≡ Some (codes "y") }
    ensures another_case { after (codes "--a:x") (codes "var(--A,y)") ≡ Some (codes "y") }
    ensures escape { after (codes "--a:x") (codes "var(--\\61,y)") ≡ Some (codes "x") }
    ensures open { after (codes "") (codes "var(--z,y") ≡ Some (codes "y") }
    ensures in_a_block { after (codes "") (codes "(var(--z,y))") ≡ Some (codes "(y)") }
{}

/// Where there is neither it is invalid, wherever it stands.
#[tactic(auto, unfolding(css_model::specs::inner::Nesting::levels_of, css_model::specs::inner::Pieces::pieces_after, css_model::specs::inner::Fronts::parts_after))]
pub fn invalid()
    ensures no_entry { after (codes "") (codes "var(--z)") ≡ None }
    ensures another_name { after (codes "--a:x") (codes "var(--aa)") ≡ None }
    ensures in_a_block { after (codes "") (codes "(var(--z))") ≡ None }
    ensures in_a_function { after (codes "") (codes "f(var(--z))") ≡ None }
    ensures first_of_two { after (codes "--a:x") (codes "var(--z) var(--a)") ≡ None }
    ensures second_of_two { after (codes "--a:x") (codes "var(--a) var(--z)") ≡ None }
    ensures in_a_fallback { after (codes "") (codes "var(--z,var(--w))") ≡ None }
    ensures beside_a_fallback { after (codes "") (codes "var(--z,x var(--w))") ≡ None }
{}

/// Each token counts towards the limit: white space, brackets that are written, the white space of a
/// fallback.
#[tactic(auto, unfolding(css_model::specs::inner::Nesting::levels_of, css_model::specs::inner::Pieces::pieces_after, css_model::specs::inner::Fronts::parts_after))]
pub fn tokens()
    ensures at_it { after_within 3 9 (codes "--a:x y") (codes "var(--a)") ≡ Some (codes "x y") }
    ensures above_it { after_within 2 9 (codes "--a:x y") (codes "var(--a)") ≡ None }
    ensures none { after_within 0 9 (codes "--a:") (codes "var(--a)") ≡ Some (codes "") }
    ensures others_count { after_within 3 9 (codes "--a:x") (codes "b var(--a)")
        ≡ Some (codes "b x") }
    ensures others_above_it { after_within 2 9 (codes "--a:x") (codes "b var(--a)") ≡ None }
    ensures whitespace_at_the_ends { after_within 2 9 (codes "--a:x") (codes " var(--a) ") ≡ None }
    ensures the_same_within { after_within 3 9 (codes "--a:x") (codes " var(--a) ")
        ≡ Some (codes " x ") }
    ensures whitespace_before_a_fallback { after_within 1 9 (codes "") (codes "var(--z, y)")
        ≡ None }
    ensures the_same_before_within { after_within 2 9 (codes "") (codes "var(--z, y)")
        ≡ Some (codes " y") }
    ensures whitespace_after_a_fallback { after_within 1 9 (codes "") (codes "var(--z,y )") ≡ None }
    ensures block { after_within 3 9 (codes "--a:x") (codes "(var(--a))") ≡ Some (codes "(x)") }
    ensures block_above_it { after_within 2 9 (codes "--a:x") (codes "(var(--a))") ≡ None }
    ensures function { after_within 3 9 (codes "--a:x") (codes "f(var(--a))")
        ≡ Some (codes "f(x)") }
    ensures function_above_it { after_within 2 9 (codes "--a:x") (codes "f(var(--a))") ≡ None }
    ensures open_block { after_within 2 9 (codes "--a:x") (codes "(var(--a)") ≡ Some (codes "(x") }
    ensures open_block_above_it { after_within 1 9 (codes "--a:x") (codes "(var(--a)") ≡ None }
    ensures fallback_that_is_not_used { after_within 1 9 (codes "--a:x") (codes "var(--a,y z)")
        ≡ Some (codes "x") }
    ensures the_reference_does_not_count { after_within 1 9 (codes "--a:x") (codes "var( --a )")
        ≡ Some (codes "x") }
    ensures without_a_reference { after_within 0 9 (codes "") (codes "x (y)")
        ≡ Some (codes "x (y)") }
{}

/// How deep a value may nest after substitution.
#[tactic(auto, unfolding(css_model::specs::inner::Nesting::levels_of, css_model::specs::inner::Pieces::pieces_after, css_model::specs::inner::Fronts::parts_after))]
pub fn levels()
    ensures none { after_within 9 0 (codes "--a:x") (codes "var(--a)") ≡ Some (codes "x") }
    ensures block { after_within 9 1 (codes "--a:(x)") (codes "var(--a)") ≡ Some (codes "(x)") }
    ensures block_above_it { after_within 9 0 (codes "--a:(x)") (codes "var(--a)") ≡ None }
    ensures function_above_it { after_within 9 0 (codes "--a:x") (codes "f(var(--a))") ≡ None }
    ensures empty_block { after_within 9 0 (codes "--a:()") (codes "var(--a)") ≡ None }
    ensures both { after_within 9 2 (codes "--a:(x)") (codes "f(var(--a))")
        ≡ Some (codes "f((x))") }
    ensures both_above_it { after_within 9 1 (codes "--a:(x)") (codes "f(var(--a))") ≡ None }
    ensures fallback { after_within 9 1 (codes "") (codes "var(--z,(x))") ≡ Some (codes "(x)") }
    ensures fallback_above_it { after_within 9 0 (codes "") (codes "var(--z,(x))") ≡ None }
    ensures fallback_that_is_not_used { after_within 9 0 (codes "--a:x") (codes "var(--a,((y)))")
        ≡ Some (codes "x") }
    ensures beside_it { after_within 9 1 (codes "--a:x") (codes "((y)) var(--a)") ≡ None }
    ensures without_a_reference { after_within 9 0 (codes "") (codes "((x))")
        ≡ Some (codes "((x))") }
{}

/// The limits themselves.
#[tactic(auto, unfolding(css_model::specs::inner::Nesting::levels_of, css_model::specs::inner::Pieces::pieces_after, css_model::specs::inner::Fronts::parts_after))]
pub fn limits()
    ensures limit_of_tokens { MAX_SUBSTITUTED_TOKENS ≡ 4096 }
    ensures limit_of_levels { MAX_NESTING ≡ 64 }
    ensures tokens { of_many 4096 (codes "var(--a)") ≡ Some 4096 }
    ensures tokens_above_it { of_many 4097 (codes "var(--a)") ≡ None }
    ensures tokens_without_a_reference { of_many 4097 (codes "a") ≡ Some 1 }
    ensures levels { after (codes "--a:") (repeat 64 (codes "(") ++ codes "var(--a)")
        ≡ Some (repeat 64 (codes "(")) }
    ensures levels_above_it { after (codes "--a:") (repeat 65 (codes "(") ++ codes "var(--a)")
        ≡ None }
    ensures levels_without_a_reference { after (codes "--a:") (repeat 65 (codes "("))
        ≡ Some (repeat 65 (codes "(")) }
{}
