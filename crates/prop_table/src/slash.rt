//! Component values before and after a `/` (CSS Conditional 5, section 4.3).
ghost use Rattle.css_tokens.specs.Nested.{components_view};
ghost use Rattle.prop_table.specs.inner.Slashes.{words_after, words_before};
ghost use Rattle.std.specs.Prelude.{◌≡◌};
ghost use Rattle.value_model.specs.Shorthands as shorthands;
ghost use Rattle.value_model.specs.Words.{words_of};

use crate::tokens::is_slash;
use css_tokens::Component;

/// Component values before the first `/`, and those after it, if there is one.
#[derive(Clone, Copy, Debug)]
pub(crate) struct Slashed<'a> {
    /// Those before it.
    pub before: &'a [Component],
    /// Those after it.
    pub after: Option<&'a [Component]>,
}

/// Splits component values at the first `/`.
pub(crate) fn split_at_slash(components: &[Component]) -> Slashed<'_>
    ensures before { words_before result
        ≡ shorthands.before_slash (words_of (components_view components.now)) }
    ensures after { words_after result
        ≡ shorthands.after_slash (words_of (components_view components.now)) }
{
    for place in 0..components.len() {
        if is_slash(&components[place]) {
            return Slashed {
                before: &components[..place],
                after: Some(&components[place + 1..]),
            };
        }
    }
    Slashed {
        before: components,
        after: None,
    }
}
