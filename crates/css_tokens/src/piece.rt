//! What is consumed at the front of a text (CSS Syntax 3, section 4.3).
ghost use Rattle.std.specs.Prelude.{◌≡◌, Some, None};

use css_model::TokenType;

/// What is in front of a text: a token, or a comment.
#[derive(Debug, Drop)]
pub struct Piece<'a> {
    /// The type of the token; a comment has none.
    pub token_type: Option<TokenType>,
    /// The text after it.
    pub rest: &'a str,
}

impl<'a> Piece<'a> {
    /// A token of this type, before `rest`.
    pub fn token(token_type: TokenType, rest: &'a str) -> Piece<'a>
        ensures token_type { result.token_type ≡ Some token_type }
        ensures rest { result.rest.now ≡ rest.now }
    {
        Piece {
            token_type: Some(token_type),
            rest,
        }
    }

    /// A comment, before `rest`.
    pub fn comment(rest: &'a str) -> Piece<'a>
        ensures token_type { result.token_type ≡ None }
        ensures rest { result.rest.now ≡ rest.now }
    {
        Piece {
            token_type: None,
            rest,
        }
    }
}
