//! The ends of lists of component values.
ghost use Rattle.css_rules.specs.inner.Reading.{ends_with, DropsLast};
ghost use Rattle.css_tokens.specs.Nested.{components_view};
ghost use Rattle.rules_model.specs.ComponentLists as lists;
ghost use Rattle.std.specs.Prelude.{◌≡◌, take};

use crate::classes::is_whitespace;
use css_tokens::{Component, Components};

fn ends_with_whitespace(components: &[Component]) -> bool
    ensures { result ≡ ends_with lists.is_whitespace (components_view components.now) }
{
    match components {
        [.., last] => is_whitespace(last),
        [] => false,
    }
}

/// Drops the last one.
fn drop_last(components: &mut Components)
    ensures { DropsLast components.old components.new }
{
    let _ = components.pop();
}

/// Drops white space at the end.
pub(crate) fn trim_end(components: &mut Components)
    ensures { components_view components.new
        ≡ lists.without_end_whitespace (components_view components.old) }
{
    while ends_with_whitespace(components.as_slice()) {
        drop_last(components);
    }
}

/// Keeps the first `count`.
pub(crate) fn shorten(components: &mut Components, count: usize)
    ensures { components.new ≡ take count components.old }
{
    while components.len() > count {
        drop_last(components);
    }
}
