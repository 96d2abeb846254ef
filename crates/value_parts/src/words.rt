//! Component values without the white space between them, and tables by names.
ghost use Rattle.css_tokens.specs.Nested.{component_view, components_view};
ghost use Rattle.css_tokens.specs.Words.{is_ascii_word};
ghost use Rattle.value_parts.specs.Words.{words_seen};
ghost use Rattle.rules_model.specs.ComponentLists as lists;
ghost use Rattle.std.specs.List.{list_all};
ghost use Rattle.std.specs.Map.{lookup};
ghost use Rattle.std.specs.Option.{option_copied};
ghost use Rattle.std.specs.Prelude.{◌≡◌, IfSome, IsTrue, map, option_map, false};
ghost use Rattle.std.specs.Str.{str_eq_ignore_ascii_case};
ghost use Rattle.value_model.specs.Words.{only_of, words_of};

use css_tokens::{Component, TokenType, is_word};
use port_core::Text;

/// Returns the value beside the first word of `table` that `name` is, in any case.
pub fn find_word<T: Copy>(name: &Text, table: &[(&str, T)]) -> Option<T>
    requires { IsTrue (list_all (λ row. is_ascii_word row.0.now) table.now) }
    ensures { result ≡ lookup (str_eq_ignore_ascii_case name.now)
        (map (λ row. (row.0.now, row.1)) table.now) }
{
    for (word, value) in table {
        if is_word(name, word) {
            return Some(*value);
        }
    }
    None
}

/// A component value that is not white space, and what is after it.
#[derive(Clone, Copy, Debug)]
pub struct FirstWord<'a> {
    /// The component value.
    pub word: &'a Component,
    /// What is after it.
    pub rest: &'a [Component],
}

/// Returns the first component value that is not white space.
pub fn first_word(components: &[Component]) -> Option<FirstWord<'_>>
    ensures words { words_seen result ≡ words_of (components_view components.now) }
    ensures no_space { IfSome result
        (λ f. lists.is_whitespace (component_view f.word.now) ≡ false) }
{
    for place in 0..components.len() {
        if !is_whitespace(&components[place]) {
            return Some(FirstWord {
                word: &components[place],
                rest: &components[place + 1..],
            });
        }
    }
    None
}

/// Returns whether `c` is white space.
pub fn is_whitespace(c: &Component) -> bool
    ensures { result ≡ lists.is_whitespace (component_view c.now) }
{
    match c {
        Component::One(token) => matches!(&token.token_type, TokenType::Whitespace),
        _ => false,
    }
}

/// Returns the component value that stands alone but for white space.
pub fn only_word(components: &[Component]) -> Option<&Component>
    ensures { option_map component_view (option_copied result)
        ≡ only_of (words_of (components_view components.now)) }
{
    let first = first_word(components)?;
    match first_word(first.rest) {
        None => Some(first.word),
        Some(_) => None,
    }
}
