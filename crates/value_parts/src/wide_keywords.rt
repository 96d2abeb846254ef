//! CSS-wide keywords (CSS Cascade 4, section 7.3).
ghost use Rattle.css_tokens.specs.Nested.{component_view, components_view};
ghost use Rattle.rules_model.specs.ComponentLists as lists;
ghost use Rattle.std.specs.Map.{lookup};
ghost use Rattle.std.specs.Prelude.{◌≡◌, option_and_then};
ghost use Rattle.std.specs.Str.{str_eq_ignore_ascii_case};
ghost use Rattle.value_model.specs.Grammar as grammar;
ghost use Rattle.value_model.specs.Words.{words_of};

use crate::idents::ident_of;
use crate::words::{find_word, only_word};
use css_tokens::Component;
use port_core::Text;
use value_model::WideKeyword;

/// Returns the CSS-wide keyword that stands alone, in any case.
pub fn wide_keyword_of(components: &[Component]) -> Option<WideKeyword>
    ensures { result ≡ grammar.wide_keyword_of (words_of (components_view components.now)) }
{
    wide_keyword_of_word(only_word(components)?)
}

/// The CSS-wide keyword that `c` is, in any case.
fn wide_keyword_of_word(c: &Component) -> Option<WideKeyword>
    ensures { result ≡ option_and_then
        (λ name. lookup (str_eq_ignore_ascii_case name) grammar.wide_keywords)
        (lists.ident_of (component_view c.now)) }
{
    find_wide_keyword(ident_of(c)?)
}

fn find_wide_keyword(name: &Text) -> Option<WideKeyword>
    ensures { result ≡ lookup (str_eq_ignore_ascii_case name.now) grammar.wide_keywords }
{
    find_word(name, &WIDE_KEYWORDS)
}

const WIDE_KEYWORDS: [(&str, WideKeyword); 4] = [
    ("inherit", WideKeyword::Inherit),
    ("initial", WideKeyword::Initial),
    ("unset", WideKeyword::Unset),
    ("revert", WideKeyword::Revert),
];
