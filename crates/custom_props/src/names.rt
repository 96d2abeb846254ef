//! The order of names, by code points.
ghost use Rattle.custom_props.specs.inner.Places.{order_of};
ghost use Rattle.std.specs.Prelude.{◌≡◌, if◌then◌else◌, nat_lt};
ghost use Rattle.std.specs.Str.{chars};
ghost use Rattle.std.specs.declared.cmp.Ordering.TheVariants.{Greater, Less};

use std::cmp::Ordering;

/// Returns how `c` stands to `d`, which is another code point.
fn order_of_two(c: char, d: char) -> Ordering
    ensures { result ≡ (if nat_lt c d then Less else Greater) }
{
    if c < d {
        Ordering::Less
    } else {
        Ordering::Greater
    }
}

/// Returns how `a` stands to `b` in the order by code points.
pub fn compare(a: &str, b: &str) -> Ordering
    ensures { result ≡ order_of (chars a.now) (chars b.now) }
{
    let mut left = a.chars();
    let mut right = b.chars();
    while let Some(c) = left.next() {
        let Some(d) = right.next() else {
            return Ordering::Greater;
        };
        if c != d {
            return order_of_two(c, d);
        }
    }
    if right.next().is_some() {
        Ordering::Less
    } else {
        Ordering::Equal
    }
}
