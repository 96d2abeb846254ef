//! What stands in a `var()` (CSS Custom Properties 1, section 3).
ghost use Rattle.css_model.specs.Classes.{has_front};
ghost use Rattle.css_model.specs.Components.{component};
ghost use Rattle.css_tokens.specs.Nested.{component_view, components_view};
ghost use Rattle.custom_model.specs.References as model;
ghost use Rattle.custom_props.specs.inner.Reading.{after_comma, named_before};
ghost use Rattle.std.specs.Option.{option_copied};
ghost use Rattle.std.specs.Prelude.{◌≡◌, ◌&&◌, ◌≤◌, IfSome, codes, drop, length, nat_lt, option_map, if◌then◌else◌, Some, None, false};
ghost use Rattle.std.specs.Str.{chars};
ghost use Rattle.css_model.specs.Classes.{Text as model_text};
ghost use Rattle.rules_model.specs.ComponentLists as lists;

use crate::values::is_declaration_value;
use css_tokens::{Component, TokenType, is_word};
use port_core::Text;
use value_parts::{ident_of, is_whitespace};

/// Whether this is `var(`, in any case.
pub(crate) fn is_var_type(token_type: &TokenType) -> bool
    ensures { result ≡ model.is_var_type token_type.now }
{
    match token_type {
        TokenType::Function(name) => is_word(name, "var"),
        _ => false,
    }
}

/// Whether this is `,`.
pub(crate) fn is_comma(c: &Component) -> bool
    ensures { result ≡ model.is_comma (component_view c.now) }
{
    match c {
        Component::One(token) => matches!(&token.token_type, TokenType::Comma),
        _ => false,
    }
}

/// Whether `name` is that of a custom property: `--` and more.
pub fn is_custom_name(name: &str) -> bool
    ensures { result ≡ model.is_custom_name (chars name.now) }
{
    is_custom_name_in(name.as_bytes())
}

/// Whether these bytes are `--` and more.
fn is_custom_name_in(bytes: &[u8]) -> bool
    ensures { result ≡ (nat_lt 2 (length bytes.now) && has_front (codes "--") bytes.now) }
{
    bytes.len() > 2 && bytes[0] == b'-' && bytes[1] == b'-'
}

/// The name of the custom property that `c` is, if it is one.
fn custom_name_of(c: &Component) -> Option<&Text>
    ensures { option_copied result ≡ model.custom_name_of (component_view c.now) }
{
    let name = ident_of(c)?;
    if is_custom_name(name.as_str()) {
        Some(name)
    } else {
        None
    }
}

/// Whether the reference whose name is before `rest` is of the right form.
fn ends_reference(rest: &[Component]) -> bool
    ensures { (name : model_text)
        → named_before name (components_view rest.now) ≡ if result then Some name else None }
{
    for place in 0..rest.len() {
        if !is_whitespace(&rest[place]) {
            return is_comma(&rest[place]) && is_declaration_value(&rest[place + 1..]);
        }
    }
    true
}

/// The name in a `var()` with these contents, if they are of the right form.
pub(crate) fn name_in(contents: &[Component]) -> Option<&Text>
    ensures { option_copied result
        ≡ option_map (λ r. r.name) (model.reference_in (components_view contents.now)) }
{
    for place in 0..contents.len() {
        if !is_whitespace(&contents[place]) {
            return name_before(&contents[place], &contents[place + 1..]);
        }
    }
    None
}

/// The name that `c` is, if it makes a reference of the right form with what is after it.
fn name_before<'a>(c: &'a Component, rest: &[Component]) -> Option<&'a Text>
    requires { lists.is_whitespace (component_view c.now) ≡ false }
    ensures { option_copied result ≡ option_map (λ r. r.name)
        (model.reference_in (component (component_view c.entry.now) (components_view rest.now))) }
{
    let name = custom_name_of(c)?;
    if ends_reference(rest) {
        Some(name)
    } else {
        None
    }
}

/// The place after the first comma.
pub(crate) fn place_after_comma(contents: &[Component]) -> Option<usize>
    ensures after { option_map (λ place. components_view (drop place contents.now)) result
        ≡ after_comma (components_view contents.now) }
    ensures within { IfSome result (λ place. place ≤ length contents.now) }
{
    for place in 0..contents.len() {
        if is_comma(&contents[place]) {
            return Some(place + 1);
        }
    }
    None
}
