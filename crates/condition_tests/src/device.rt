//! A device: which features there are, and which of them it has.
ghost use Rattle.css_tokens.specs.Nested.{component_view, components_view};
ghost use Rattle.condition_tests.specs.Names.{is_name, name_of, only_ident, value_of};
ghost use Rattle.rules_model.specs.ComponentLists.{ident_of};
ghost use Rattle.std.specs.Option.{option_copied};
ghost use Rattle.std.specs.Prelude.{◌≡◌, Some};

use css_model::TokenType;
use css_tokens::{Component, Components};
use port_core::{NoMemory, Text};
use std::alloc::Global;
use tri_conditions::{Judge, ReadFeature, Tri};

/// A device that has `hover`, but neither `color` nor `pointer`. A feature is one identifier in
/// round brackets.
pub(crate) struct Device;

/// A reader to which everything is a feature.
pub(crate) struct Anything;

fn ident(c: &Component) -> Option<&Text>
    ensures { option_copied result ≡ ident_of (component_view c.now) }
{
    match c {
        Component::One(token) => match &token.token_type {
            TokenType::Ident(name) => Some(name),
            _ => None,
        },
        _ => None,
    }
}

fn only_ident(components: &Components) -> Option<&Text>
    ensures { option_copied result ≡ only_ident (components_view components.now) }
{
    match components.as_slice() {
        [] => None,
        [only] => ident(only),
        [_first, _second, _rest @ ..] => None,
    }
}

fn is_named(name: &Text, word: &str) -> bool
    ensures { result ≡ is_name word.now name.now }
{
    name.is(word)
}

impl ReadFeature<Text> for Device {
    ghost reads = { λ _. λ c. name_of c };

    fn read(&self, alloc: Global, c: &Component) -> Result<Option<Text>, NoMemory> {
        let Component::Block(_, contents, _) = c else {
            return Ok(None);
        };
        match only_ident(contents) {
            Some(name) => Ok(Some(name.copy(alloc)?)),
            None => Ok(None),
        }
    }
}

impl Judge<Text> for Device {
    ghost judges = { λ _. λ name. value_of name };

    fn judge(&self, name: &Text) -> Tri {
        if is_named(name, "hover") {
            Tri::Yes
        } else if is_named(name, "color") {
            Tri::No
        } else if is_named(name, "pointer") {
            Tri::No
        } else {
            Tri::Unknown
        }
    }
}

impl ReadFeature<()> for Anything {
    ghost reads = { λ _. λ _. Some tt };

    fn read(&self, _alloc: Global, _c: &Component) -> Result<Option<()>, NoMemory> {
        Ok(Some(()))
    }
}
