//! How the value of an attribute is compared (Selectors 4, sections 6.1 and 6.2).
ghost use Rattle.css_model.specs.Classes.{hyphen, is_empty};
ghost use Rattle.page_model.specs.Attributes.{is_same_text};
ghost use Rattle.selectors_model.specs.Values as model;
ghost use Rattle.std.specs.List as lists;
ghost use Rattle.std.specs.Prelude.{[], nat_eq, ◌++◌, ◌∷◌, ◌≡◌, ◌≢◌};
ghost use Rattle.std.specs.Str.{chars};

use selectors_model::AttributeMatcher;

/// Whether `actual`, the value of an attribute, compares with `value`, the one of a selector, as the
/// matcher has it (Selectors 4, sections 6.1 and 6.2). Takes no memory.
pub(crate) fn value_matches(matcher: AttributeMatcher, actual: &str, value: &str) -> bool
    ensures { result ≡ model.value_matches matcher (chars actual.now) (chars value.now) }
{
    match matcher {
        AttributeMatcher::Equals => is_same(actual, value),
        AttributeMatcher::Includes => has_word(actual, value),
        AttributeMatcher::DashMatch => is_same(actual, value) || has_dash_after(actual, value),
        AttributeMatcher::Prefix => !is_empty(value) && starts_with(actual, value),
        AttributeMatcher::Suffix => !is_empty(value) && ends_with(actual, value),
        AttributeMatcher::Substring => !is_empty(value) && has_inside(actual, value),
    }
}

/// Whether two texts have the same code points.
pub(crate) fn is_same(a: &str, b: &str) -> bool
    ensures { result ≡ is_same_text (chars a.now) (chars b.now) }
{
    a == b
}

/// Whether a text has no code point.
fn is_empty(s: &str) -> bool
    ensures { result ≡ is_empty (chars s.now) }
{
    s.is_empty()
}

/// Whether one of the words of `actual`, between ASCII white space, is `value`.
fn has_word(actual: &str, value: &str) -> bool
    ensures { result ≡ model.has_word (chars actual.now) (chars value.now) }
{
    let mut words = actual.split_ascii_whitespace();
    while let Some(word) = words.next() {
        if is_same(value, word) {
            return true;
        }
    }
    false
}

/// Whether `actual` begins with `value` and a hyphen.
fn has_dash_after(actual: &str, value: &str) -> bool
    ensures { result ≡ lists.starts_with nat_eq (chars actual.now) (chars value.now ++ hyphen ∷ []) }
{
    match actual.strip_prefix(value) {
        Some(rest) => starts_with(rest, "-"),
        None => false,
    }
}

/// Whether `actual` begins with `value`.
fn starts_with(actual: &str, value: &str) -> bool
    ensures { result ≡ lists.starts_with nat_eq (chars actual.now) (chars value.now) }
{
    actual.starts_with(value)
}

/// Whether `actual` ends with `value`.
fn ends_with(actual: &str, value: &str) -> bool
    ensures { result ≡ lists.ends_with nat_eq (chars actual.now) (chars value.now) }
{
    actual.ends_with(value)
}

/// Whether `actual` has `value`, which is not empty, in it.
fn has_inside(actual: &str, value: &str) -> bool
    requires { chars value.now ≢ [] }
    ensures { result ≡ model.has_inside (chars actual.now) (chars value.now) }
{
    actual.contains(value)
}
