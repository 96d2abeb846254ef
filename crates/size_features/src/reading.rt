//! Features of a size, read from component values (Media Queries 4, section 2.4).
ghost use Rattle.conditions_model.specs.Conditions.{is_round_type};
ghost use Rattle.conditions_model.specs.SizeFeatures as model;
ghost use Rattle.css_tokens.specs.Nested.{component_view, components_view};
ghost use Rattle.size_features.specs.Views.{form_view, names_of};
ghost use Rattle.std.specs.Prelude.{◌≡◌, IfOk, option_map};

use crate::feature::{Form, SizeFeature};
use crate::names::FeatureNames;
use crate::plain::{boolean_form, plain_form};
use crate::range::range_form;
use crate::white_space::trimmed;
use css_tokens::{Bracket, Component, TokenType};
use port_core::NoMemory;
use std::alloc::Global;

/// Returns the feature of a size that `c` is, if it is one; `names` says which names it may have.
/// Fails only if memory runs out.
pub fn read_size_feature(
    alloc: Global,
    names: FeatureNames,
    c: &Component,
) -> Result<Option<SizeFeature>, NoMemory>
    ensures { IfOk result (λ f. f ≡ model.size_feature (names_of names) (component_view c.now)) }
{
    match c {
        Component::Block(head, contents, _) => {
            if !is_round(&head.token_type) {
                return Ok(None);
            }
            let form = form_of(alloc, names, trimmed(contents.as_slice()))?;
            Ok(feature_of_form(form))
        }
        _ => Ok(None),
    }
}

fn feature_of_form(form: Option<Form>) -> Option<SizeFeature>
    ensures { result ≡ option_map form_view form }
{
    let form = form?;
    Some(SizeFeature { form })
}

fn form_of(
    alloc: Global,
    names: FeatureNames,
    components: &[Component],
) -> Result<Option<Form>, NoMemory>
    ensures { IfOk result (λ form. option_map form_view form
        ≡ model.feature_of (names_of names) (components_view components.now)) }
{
    if let Some(form) = boolean_form(names, components) {
        return Ok(Some(form));
    }
    match plain_form(alloc, names, components)? {
        Some(form) => Ok(Some(form)),
        None => range_form(alloc, names, components),
    }
}

/// Whether this is `(`.
fn is_round(token_type: &TokenType) -> bool
    ensures { result ≡ is_round_type token_type.now }
{
    match token_type {
        TokenType::Opening(bracket) => *bracket == Bracket::Round,
        _ => false,
    }
}
