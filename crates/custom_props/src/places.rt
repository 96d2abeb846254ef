//! Where a name stands in names in order.
ghost use Rattle.custom_model.specs.NamedValues.{are_in_order, names_of};
ghost use Rattle.custom_props.specs.Views.{values_view};
ghost use Rattle.custom_props.specs.inner.Places.{place_of};
ghost use Rattle.std.specs.Prelude.{◌≡◌, ◌<◌, drop, suc, take, true, length, IfSome};
ghost use Rattle.std.specs.Str.{chars};

use crate::named_value::NamedValue;
use crate::names::compare;
use std::cmp::Ordering;

/// Returns the place of `name`.
pub(crate) fn place_of(values: &[NamedValue], name: &str) -> Option<usize>
    requires { are_in_order (names_of (values_view values.now)) ≡ true }
    ensures place { result ≡ place_of (chars name.now) (names_of (values_view values.now)) }
    ensures within { IfSome result (λ i. i < length values.now) }
{
    let mut start = 0;
    let mut rest = values;
    while !rest.is_empty() {
        let middle = rest.len() / 2;
        match compare(name, rest[middle].name.as_str()) {
            Ordering::Equal => return Some(start + middle),
            Ordering::Less => rest = front_half(rest, middle),
            Ordering::Greater => {
                start += middle + 1;
                rest = back_half(rest, middle);
            }
        }
    }
    None
}

/// The values before the one in this place.
fn front_half(values: &[NamedValue], place: usize) -> &[NamedValue]
    requires { place < length values.now }
    ensures { result.now ≡ take place values.now }
{
    &values[..place]
}

/// The values after the one in this place.
fn back_half(values: &[NamedValue], place: usize) -> &[NamedValue]
    requires { place < length values.now }
    ensures { result.now ≡ drop (suc place) values.now }
{
    &values[place + 1..]
}
