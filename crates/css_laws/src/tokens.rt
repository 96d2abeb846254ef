//! Laws of token lists (CSS Syntax 3, section 4.3).
ghost use Rattle.css_model.specs.Classes.{Text};
ghost use Rattle.css_model.specs.TokenList.{IsTokenList};
ghost use Rattle.css_model.specs.declared.token.Token.{Token};
ghost use Rattle.css_model.specs.inner.Pieces.{tokens};
ghost use Rattle.std.specs.Prelude.{◌≡◌, List};

/// Each text has a token list: the tokens that are computed of it.
pub fn exist()
    ensures { (text : Text) → IsTokenList text (tokens text) }
{}

/// No text has two token lists.
pub fn are_unique()
    ensures { (text : Text) (these those : List Token) →
        IsTokenList text these → IsTokenList text those → these ≡ those }
{}
