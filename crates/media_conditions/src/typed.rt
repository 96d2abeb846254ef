//! Media queries with a type (Media Queries 4, section 3).
ghost use Rattle.conditions_model.specs.ConditionWords.{condition_without_or, ident, is_keyword};
ghost use Rattle.conditions_model.specs.MediaQueries as model;
ghost use Rattle.css_tokens.specs.Nested.{components_view};
ghost use Rattle.media_conditions.specs.Views.{query_view};
ghost use Rattle.media_conditions.specs.inner.Words.{after_view, media_words};
ghost use Rattle.std.specs.List.{list_any};
ghost use Rattle.std.specs.Option.{option_or};
ghost use Rattle.std.specs.Prelude.{◌≡◌, ◌∷◌, IfOk, Some, option_map, false};
ghost use Rattle.tri_conditions.specs.Views.{condition_view};

use crate::features::MediaFeatures;
use crate::query::{MediaQuery, TypedQuery};
use crate::words::{Front, front_of, has_or};
use conditions_model::MediaType;
use css_tokens::{Component, is_word};
use port_core::{NoMemory, Text};
use size_features::SizeFeature;
use std::alloc::Global;
use tri_conditions::{Condition, read_condition_slice};

/// What is after a media type.
#[derive(Drop)]
pub(crate) enum AfterType {
    /// Nothing.
    Alone,
    /// `and` and this condition.
    Also(Condition<SizeFeature>),
    /// What is neither.
    Invalid,
}

/// A query with a type, perhaps with `not` or `only` in front.
pub(crate) fn query_with_type(
    alloc: Global,
    components: &[Component],
) -> Result<Option<MediaQuery>, NoMemory>
    ensures { IfOk result (λ q. option_map query_view q
        ≡ option_or (model.modified_query (media_words (components_view components.now)))
        (model.typed_query false (media_words (components_view components.now)))) }
{
    match modified_query(alloc, components)? {
        Some(query) => Ok(Some(query)),
        None => typed_query(alloc, false, components),
    }
}

/// `not` or `only`, and a query with a type.
fn modified_query(alloc: Global, components: &[Component]) -> Result<Option<MediaQuery>, NoMemory>
    ensures { IfOk result (λ q. option_map query_view q
        ≡ model.modified_query (media_words (components_view components.now))) }
{
    match front_of(components) {
        Front::Name(name, rest) => {
            if is_word(name, "not") {
                typed_query(alloc, true, rest)
            } else if is_word(name, "only") {
                typed_query(alloc, false, rest)
            } else {
                Ok(None)
            }
        }
        _ => Ok(None),
    }
}

/// `<media-type> [ and <media-condition-without-or> ]?`.
fn typed_query(
    alloc: Global,
    negated: bool,
    components: &[Component],
) -> Result<Option<MediaQuery>, NoMemory>
    ensures { IfOk result (λ q. option_map query_view q
        ≡ model.typed_query negated (media_words (components_view components.now))) }
{
    match front_of(components) {
        Front::Name(name, rest) => match media_type_of(name) {
            Some(media_type) => query_of_type(alloc, negated, media_type, rest),
            None => Ok(None),
        },
        _ => Ok(None),
    }
}

/// The query of a type and what is after it.
fn query_of_type(
    alloc: Global,
    negated: bool,
    media_type: MediaType,
    rest: &[Component],
) -> Result<Option<MediaQuery>, NoMemory>
    ensures { IfOk result (λ q. option_map query_view q
        ≡ model.typed_from negated (Some media_type)
        (model.after_type (media_words (components_view rest.now)))) }
{
    let also = match after_type(alloc, rest)? {
        AfterType::Alone => None,
        AfterType::Also(condition) => Some(condition),
        AfterType::Invalid => return Ok(None),
    };
    Ok(Some(MediaQuery::Typed(TypedQuery {
        negated,
        media_type,
        also,
    })))
}

fn after_type(alloc: Global, rest: &[Component]) -> Result<AfterType, NoMemory>
    ensures { IfOk result (λ a. after_view a
        ≡ model.after_type (media_words (components_view rest.now))) }
{
    match front_of(rest) {
        Front::Nothing => Ok(AfterType::Alone),
        Front::Name(name, rest) => after_name(alloc, name, rest),
        Front::Another => Ok(AfterType::Invalid),
    }
}

fn after_name(alloc: Global, name: &Text, rest: &[Component]) -> Result<AfterType, NoMemory>
    ensures { IfOk result (λ a. after_view a
        ≡ model.after_type (ident name.now ∷ media_words (components_view rest.now))) }
{
    if !is_word(name, "and") {
        return Ok(AfterType::Invalid);
    }
    match read_without_or(alloc, rest)? {
        Some(condition) => Ok(AfterType::Also(condition)),
        None => Ok(AfterType::Invalid),
    }
}

/// A condition without `or` between its parts.
fn read_without_or(
    alloc: Global,
    components: &[Component],
) -> Result<Option<Condition<SizeFeature>>, NoMemory>
    ensures { IfOk result (λ c. option_map condition_view c
        ≡ condition_without_or (media_words (components_view components.now))) }
{
    if has_or(components) {
        return Ok(None);
    }
    read_condition_slice(alloc, components, &MediaFeatures)
}

/// The media type of this name, in any case.
fn media_type_of(name: &Text) -> Option<MediaType>
    ensures { result ≡ model.media_type_of name.now }
{
    if is_reserved(name) {
        None
    } else if is_word(name, "all") {
        Some(MediaType::All)
    } else if is_word(name, "screen") {
        Some(MediaType::Screen)
    } else {
        Some(MediaType::Other)
    }
}

/// Whether an identifier is no media type.
fn is_reserved(name: &Text) -> bool
    ensures { result ≡ list_any (λ word. is_keyword word name.now) model.reserved }
{
    is_word(name, "not")
        || is_word(name, "and")
        || is_word(name, "or")
        || is_word(name, "only")
        || is_word(name, "layer")
}
