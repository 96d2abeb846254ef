//! Component values and how deep they nest (CSS Syntax 3, sections 5.4.7 to 5.4.9).
ghost use Rattle.css_model.specs.Components.{preserved, simple_block, function_block, no_components, component, depths};
ghost use Rattle.css_model.specs.TokenList.{token_at};
ghost use Rattle.css_model.specs.declared.token.Bracket.TheVariants.{Round, Square, Curly};
ghost use Rattle.css_model.specs.declared.token.TheConstants.{MAX_NESTING};
ghost use Rattle.css_model.specs.declared.token.TokenType.TheVariants.{Ident, Function, Url, Colon, Opening, Closing};
ghost use Rattle.css_model.specs.inner.Examples.{nesting_of};
ghost use Rattle.std.specs.List.{repeat};
ghost use Rattle.std.specs.Prelude.{◌≡◌, ◌∷◌, [], codes, Some, None};

/// Component values (sections 5.4.7 to 5.4.9): a bracket is closed by its match alone, and ends with the
/// text where there is none.
#[tactic(auto, unfolding(crate::specs::inner::Nesting::levels_of, crate::specs::inner::Pieces::pieces_after, crate::specs::inner::Fronts::parts_after))]
pub fn nested()
    ensures preserved { nesting_of (codes "a:")
        ≡ component (preserved (token_at 0 (Ident (codes "a")) (codes "a")))
        (component (preserved (token_at 1 Colon (codes ":"))) no_components) }
    ensures simple_block { nesting_of (codes "[a]")
        ≡ component (simple_block (token_at 0 (Opening Square) (codes "["))
        (component (preserved (token_at 1 (Ident (codes "a")) (codes "a"))) no_components)
        (Some (token_at 2 (Closing Square) (codes "]")))) no_components }
    ensures function { nesting_of (codes "f()a")
        ≡ component (function_block (token_at 0 (Function (codes "f")) (codes "f("))
        no_components (Some (token_at 2 (Closing Round) (codes ")"))))
        (component (preserved (token_at 3 (Ident (codes "a")) (codes "a"))) no_components) }
    ensures open_block { nesting_of (codes "{a")
        ≡ component (simple_block (token_at 0 (Opening Curly) (codes "{"))
        (component (preserved (token_at 1 (Ident (codes "a")) (codes "a"))) no_components) None) no_components }
    ensures closing_alone { nesting_of (codes ")")
        ≡ component (preserved (token_at 0 (Closing Round) (codes ")"))) no_components }
    ensures another_bracket { nesting_of (codes "(]")
        ≡ component (simple_block (token_at 0 (Opening Round) (codes "("))
        (component (preserved (token_at 1 (Closing Square) (codes "]"))) no_components) None) no_components }
    ensures function_and_another_bracket { nesting_of (codes "f(}")
        ≡ component (function_block (token_at 0 (Function (codes "f")) (codes "f("))
        (component (preserved (token_at 2 (Closing Curly) (codes "}"))) no_components) None) no_components }
    ensures crossed { nesting_of (codes "([)]")
        ≡ component (simple_block (token_at 0 (Opening Round) (codes "("))
        (component (simple_block (token_at 1 (Opening Square) (codes "["))
        (component (preserved (token_at 2 (Closing Round) (codes ")"))) no_components)
        (Some (token_at 3 (Closing Square) (codes "]"))))
        no_components) None) no_components }
    ensures a_url_is_not_a_function { nesting_of (codes "url(a)")
        ≡ component (preserved (token_at 0 (Url (codes "a")) (codes "url(a)"))) no_components }
{}

/// How deep blocks and functions nest, and the limit: 64 levels are within it.
#[tactic(auto, unfolding(crate::specs::inner::Nesting::levels_of, crate::specs::inner::Pieces::pieces_after, crate::specs::inner::Fronts::parts_after))]
pub fn depths()
    ensures none { depths (nesting_of (codes "a b")) ≡ 0 }
    ensures block { depths (nesting_of (codes "()")) ≡ 1 }
    ensures function { depths (nesting_of (codes "f()")) ≡ 1 }
    ensures open_function { depths (nesting_of (codes "f(")) ≡ 1 }
    ensures function_and_block { depths (nesting_of (codes "f(())")) ≡ 2 }
    ensures functions { depths (nesting_of (codes "f(g(h()))")) ≡ 3 }
    ensures side_by_side { depths (nesting_of (codes "()[]{}")) ≡ 1 }
    ensures deepest { depths (nesting_of (codes "()([{}])(())")) ≡ 3 }
    ensures not_closed_by_another { depths (nesting_of (codes "(](")) ≡ 2 }
    ensures closed_within { depths (nesting_of (codes "([)]{}")) ≡ 2 }
    ensures limit { MAX_NESTING ≡ 64 }
    ensures limit_of_blocks { depths (nesting_of (repeat 64 (codes "("))) ≡ 64 }
    ensures past_the_limit { depths (nesting_of (repeat 65 (codes "{"))) ≡ 65 }
{}
