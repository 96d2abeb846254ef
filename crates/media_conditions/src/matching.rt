//! Values of media queries (Media Queries 4, sections 2.1 and 3.1).
ghost use Rattle.conditions_model.specs.MediaQueries as model;
ghost use Rattle.conditions_model.specs.TriTables as tables;
ghost use Rattle.media_conditions.specs.Views.{queries_view, query_view, typed_view};
ghost use Rattle.page_model.specs.declared.limits.TheConstants.{MAX_SIDE};
ghost use Rattle.std.specs.List.{list_any};
ghost use Rattle.std.specs.Prelude.{◌≡◌, ◌≤◌, map, option_map};
ghost use Rattle.tri_conditions.specs.Views.{condition_view};

use crate::features::{ViewportJudge, judge_on};
use crate::query::{MediaList, MediaQuery, TypedQuery};
use conditions_model::{MediaType, Tri};
use page_model::Viewport;
use tri_conditions::eval;

/// Returns whether the list `m` matches on the viewport `v`: where one of its queries is Yes, or
/// where it has none.
///
/// It takes no memory. Time grows with the length of the list; the calls are as deep as its
/// conditions nest.
pub fn media_matches(m: &MediaList, v: Viewport) -> bool
    requires width { v.width ≤ MAX_SIDE }
    requires height { v.height ≤ MAX_SIDE }
    ensures { result ≡ model.media_matches v (queries_view m.now) }
{
    let queries = m.queries.as_slice();
    queries.is_empty() || any_is_yes(queries, &judge_on(v))
}

fn any_is_yes(queries: &[MediaQuery], judge: &ViewportJudge) -> bool
    ensures { result ≡ list_any (λ q. tables.is_yes (model.query_value judge.now.viewport q))
        (map query_view queries.now) }
{
    for query in queries {
        if is_yes(query_value(query, judge)) {
            return true;
        }
    }
    false
}

fn is_yes(value: Tri) -> bool
    ensures { result ≡ tables.is_yes value }
{
    match value {
        Tri::Yes => true,
        Tri::No => false,
        Tri::Unknown => false,
    }
}

fn query_value(query: &MediaQuery, judge: &ViewportJudge) -> Tri
    ensures { result ≡ model.query_value judge.now.viewport (query_view query.now) }
{
    match query {
        MediaQuery::Condition(condition) => eval(condition, judge),
        MediaQuery::Typed(query) => typed_value(query, judge),
    }
}

fn typed_value(query: &TypedQuery, judge: &ViewportJudge) -> Tri
    ensures { result ≡ model.query_value judge.now.viewport (typed_view query.now) }
{
    let value = if type_matches(query.media_type) {
        also_value(query, judge)
    } else {
        Tri::No
    };
    if query.negated { not(value) } else { value }
}

/// The value of the condition after a type; without one, the type alone counts.
fn also_value(query: &TypedQuery, judge: &ViewportJudge) -> Tri
    ensures { result
        ≡ model.also_value judge.now.viewport (option_map condition_view query.now.also) }
{
    match &query.also {
        Some(condition) => eval(condition, judge),
        None => Tri::Yes,
    }
}

fn type_matches(media_type: MediaType) -> bool
    ensures { result ≡ model.type_matches media_type }
{
    match media_type {
        MediaType::All | MediaType::Screen => true,
        MediaType::Other => false,
    }
}

fn not(value: Tri) -> Tri
    ensures { result ≡ tables.tri_not value }
{
    match value {
        Tri::Yes => Tri::No,
        Tri::No => Tri::Yes,
        Tri::Unknown => Tri::Unknown,
    }
}
