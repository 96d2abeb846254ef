//! Keywords of values (CSS Values 4, section 2.1).
ghost use Rattle.css_tokens.specs.Nested.{component_view};
ghost use Rattle.std.specs.List.{find};
ghost use Rattle.std.specs.Prelude.{◌≡◌};
ghost use Rattle.std.specs.Str.{str_eq_ignore_ascii_case};
ghost use Rattle.value_model.specs.Forms as forms;
ghost use Rattle.value_model.specs.Keywords.{keyword_text as text_of};

use crate::keyword_texts::keyword_text;
use css_tokens::{Component, is_word};
use port_core::Text;
use value_model::Keyword;
use value_parts::ident_of;

/// The one of `keywords` that `c` is, in any case.
pub(crate) fn keyword_among(keywords: &[Keyword], c: &Component) -> Option<Keyword>
    ensures { result ≡ forms.keyword_among keywords.now (component_view c.now) }
{
    find_keyword(keywords, ident_of(c)?)
}

fn find_keyword(keywords: &[Keyword], name: &Text) -> Option<Keyword>
    ensures { result ≡ find (λ k. str_eq_ignore_ascii_case name.now (text_of k)) keywords.now }
{
    for keyword in keywords {
        if is_word(name, keyword_text(*keyword)) {
            return Some(*keyword);
        }
    }
    None
}
