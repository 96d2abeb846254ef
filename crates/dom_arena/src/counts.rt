//! How many code points texts have.
ghost use Rattle.std.specs.Prelude.{◌≡◌, ◌^◌, ◌-◌, min, length};
ghost use Rattle.std.specs.Str.{chars};
ghost use Rattle.page_model.specs.Trees.{value_size};

use crate::attrs::Attribute;

/// Returns the number of code points of `text`.
pub fn code_points(text: &str) -> usize
    ensures { result ≡ length (chars text.now) }
{
    text.chars().count()
}

/// Returns the number of code points of the values of `attributes` together, or 2^64 - 1 where it is greater.
pub fn value_code_points(attributes: &[Attribute]) -> u64
    ensures { result ≡ min (value_size attributes.now) (2 ^ 64 - 1) }
{
    let mut total: u64 = 0;
    for (_, value) in attributes {
        total = total.saturating_add(code_points(value.as_str()) as u64);
    }
    total
}
