//! The names of elements and attributes, and what an element may have.
ghost use Rattle.std.specs.Prelude.{◌≡◌, ◌||◌, not};
ghost use Rattle.std.specs.List.{list_all, list_any};
ghost use Rattle.std.specs.Str.{chars};
ghost use Rattle.page_model.specs.Names as names;
ghost use Rattle.page_model.specs.Trees.{Attribute as attribute, is_long};

use crate::attrs::Attribute;
use crate::counts::code_points;
use page_model::{MAX_NAME, MAX_TEXT};

/// Whether `c` may stand in a name.
fn is_name_code_point(c: char) -> bool
    ensures { result ≡ names.is_name_code_point c }
{
    c > ' '
        && c != '\u{7f}'
        && c != '"'
        && c != '\''
        && c != '<'
        && c != '>'
        && c != '/'
        && c != '='
}

fn are_name_code_points(name: &str) -> bool
    ensures { result ≡ list_all names.is_name_code_point (chars name.now) }
{
    let mut all = true;
    for c in name.chars() {
        all = all && is_name_code_point(c);
    }
    all
}

/// Whether `name` is a name of an element or attribute.
pub fn is_name(name: &str) -> bool
    ensures { result ≡ names.is_name (chars name.now) }
{
    let length = code_points(name);
    0 < length && length <= MAX_NAME as usize && are_name_code_points(name)
}

/// Whether `text` has too many code points.
pub fn is_long(text: &str) -> bool
    ensures { result ≡ is_long (chars text.now) }
{
    code_points(text) > MAX_TEXT as usize
}

/// Whether the name of one of `attributes` is not a name.
pub fn has_bad_name(attributes: &[Attribute]) -> bool
    ensures { result ≡ list_any (λ (a : attribute). not (names.is_name a.0)) attributes.now }
{
    let mut found = false;
    for (key, _) in attributes {
        found = found || !is_name(key.as_str());
    }
    found
}

/// Whether one of the values of `attributes` has too many code points.
pub fn has_long_value(attributes: &[Attribute]) -> bool
    ensures { result ≡ list_any (λ (a : attribute). is_long a.1) attributes.now }
{
    let mut found = false;
    for (_, value) in attributes {
        found = found || is_long(value.as_str());
    }
    found
}
