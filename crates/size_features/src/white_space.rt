//! Component values without the white space at their ends.
ghost use Rattle.conditions_model.specs.SizeFeatures as model;
ghost use Rattle.css_tokens.specs.Nested.{component_view, components_view};
ghost use Rattle.rules_model.specs.ComponentLists as lists;
ghost use Rattle.std.specs.Option.{option_copied};
ghost use Rattle.std.specs.Prelude.{◌≡◌, if◌then◌else◌, option_map};

use css_tokens::Component;
use value_parts::is_whitespace;

/// Without the white space at both ends.
pub(crate) fn trimmed(components: &[Component]) -> &[Component]
    ensures { components_view result.now ≡ lists.trimmed (components_view components.now) }
{
    trim_end(trim_front(components))
}

fn trim_front(components: &[Component]) -> &[Component]
    ensures { components_view result.now
        ≡ lists.without_front_whitespace (components_view components.now) }
{
    for place in 0..components.len() {
        if !is_whitespace(&components[place]) {
            return &components[place..];
        }
    }
    &components[components.len()..]
}

fn trim_end(components: &[Component]) -> &[Component]
    ensures { components_view result.now
        ≡ lists.without_end_whitespace (components_view components.now) }
{
    let mut end = 0;
    for place in 0..components.len() {
        end = end_after(&components[place], end, place + 1);
    }
    &components[..end]
}

/// Where component values end before `next`, the place after `c`, but for white space.
fn end_after(c: &Component, end: usize, next: usize) -> usize
    ensures { result ≡ (if lists.is_whitespace (component_view c.now) then end else next) }
{
    if is_whitespace(c) { end } else { next }
}

/// The one that stands alone but for white space at both ends.
pub(crate) fn only_trimmed(components: &[Component]) -> Option<&Component>
    ensures { option_map component_view (option_copied result)
        ≡ model.only_component (lists.trimmed (components_view components.now)) }
{
    only_component(trimmed(components))
}

/// The one of a list of one.
pub(crate) fn only_component(components: &[Component]) -> Option<&Component>
    ensures { option_map component_view (option_copied result)
        ≡ model.only_component (components_view components.now) }
{
    match components {
        [] => None,
        [only] => Some(only),
        [_first, _second, _rest @ ..] => None,
    }
}
