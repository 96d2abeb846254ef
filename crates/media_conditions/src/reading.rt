//! Media queries, read from component values (Media Queries 4, sections 2.1 and 3).
ghost use Rattle.conditions_model.specs.MediaQueries as model;
ghost use Rattle.css_tokens.specs.Nested.{components_view};
ghost use Rattle.media_conditions.specs.Views.{queries_view, query_view};
ghost use Rattle.rules_model.specs.ComponentLists as lists;
ghost use Rattle.std.specs.Prelude.{◌≡◌, IfOk, map};

use crate::commas::split_at_comma;
use crate::features::MediaFeatures;
use crate::query::{MediaList, MediaQuery, TypedQuery};
use crate::typed::query_with_type;
use conditions_model::MediaType;
use css_tokens::{Component, Components};
use port_core::{NoMemory, Seq};
use std::alloc::Global;
use tri_conditions::read_condition_slice;
use value_parts::is_whitespace;

/// Returns the list of media queries that `c` is; a query that does not parse is `not all`.
///
/// Fails only if memory runs out. Time grows with the number of component values; the calls are as
/// deep as brackets nest.
pub fn read_media(alloc: Global, c: &Components) -> Result<MediaList, NoMemory>
    ensures { IfOk result (λ m. queries_view m ≡ model.queries_of (components_view c.now)) }
{
    let queries = if are_whitespace(c.as_slice()) {
        Seq::new(alloc)
    } else {
        read_queries(alloc, c.as_slice())?
    };
    Ok(MediaList { queries })
}

fn are_whitespace(components: &[Component]) -> bool
    ensures { result ≡ lists.are_whitespace (components_view components.now) }
{
    for component in components {
        if !is_whitespace(component) {
            return false;
        }
    }
    true
}

/// The queries between commas.
fn read_queries(alloc: Global, components: &[Component]) -> Result<Seq<MediaQuery>, NoMemory>
    ensures { IfOk result (λ qs. map query_view qs
        ≡ map model.query_of (model.between_commas (components_view components.now))) }
{
    let mut queries = Seq::new(alloc);
    let mut rest = components;
    while let Some(split) = split_at_comma(rest) {
        queries.push(read_query(alloc, split.before)?)?;
        rest = split.after;
    }
    queries.push(read_query(alloc, rest)?)?;
    Ok(queries)
}

/// The query that component values are, or else `not all`.
fn read_query(alloc: Global, components: &[Component]) -> Result<MediaQuery, NoMemory>
    ensures { IfOk result (λ q. query_view q
        ≡ model.query_of (components_view components.now)) }
{
    if let Some(condition) = read_condition_slice(alloc, components, &MediaFeatures)? {
        return Ok(MediaQuery::Condition(condition));
    }
    match query_with_type(alloc, components)? {
        Some(query) => Ok(query),
        None => Ok(not_all()),
    }
}

/// `not all`.
fn not_all() -> MediaQuery
    ensures { query_view result ≡ model.not_all }
{
    MediaQuery::Typed(TypedQuery {
        negated: true,
        media_type: MediaType::All,
        also: None,
    })
}
