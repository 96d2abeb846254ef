//! How values of custom properties are printed.
ghost use Rattle.custom_model.specs.inner.Examples.{printed};
ghost use Rattle.std.specs.Prelude.{◌≡◌, codes};

/// The tokens as they are spelled, one space between each two.
#[tactic(auto, unfolding(css_model::specs::inner::Nesting::levels_of, css_model::specs::inner::Pieces::pieces_after, css_model::specs::inner::Fronts::parts_after))]
pub fn spellings()
    ensures one { printed (codes "8px") ≡ codes "8px" }
    ensures whitespace { printed (codes "  a   b ") ≡ codes "a b" }
    ensures no_whitespace { printed (codes "a,b") ≡ codes "a , b" }
    ensures function { printed (codes "f( a,b)") ≡ codes "f( a , b )" }
    ensures blocks { printed (codes "[{a}]") ≡ codes "[ { a } ]" }
    ensures open_block { printed (codes "(a") ≡ codes "( a" }
    ensures open_function { printed (codes "f(a [") ≡ codes "f( a [" }
    ensures comment { printed (codes "a/**/b") ≡ codes "a b" }
    ensures string { printed (codes "\"a  b\"") ≡ codes "\"a  b\"" }
    ensures open_string { printed (codes "\"a") ≡ codes "\"a" }
    ensures escape { printed (codes "\\61 b") ≡ codes "\\61 b" }
    ensures number { printed (codes "+1.50") ≡ codes "+1.50" }
    ensures newline { printed (codes "a\nb") ≡ codes "a b" }
    ensures nothing { printed (codes "") ≡ codes "" }
    ensures whitespace_alone { printed (codes " ") ≡ codes "" }
    ensures marks { printed (codes "a:b;<!--") ≡ codes "a : b ; <!--" }
{}
