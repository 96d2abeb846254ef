//! The media queries around rules (CSS Conditional 3, section 2; Media Queries 4, section 2).
ghost use Rattle.cascade_core.specs.Views.{media_view};
ghost use Rattle.cascade_core.specs.inner.Media.{media_at};
ghost use Rattle.cascade_model.specs.Books.{media_among};
ghost use Rattle.conditions_model.specs.MediaQueries as model;
ghost use Rattle.css_rules.specs.Views.{condition_lists, condition_view};
ghost use Rattle.css_tokens.specs.Nested.{components_view};
ghost use Rattle.std.specs.Prelude.{◌≡◌, ◌∷◌, [], ◌++◌, IfOk, map};

use crate::shared::shared;
use css_rules::Condition;
use css_tokens::Components;
use media_conditions::{MediaList, read_media};
use port_core::{NoMemory, Seq};
use rules_model::ConditionalRule;
use std::alloc::Global;
use std::rc::Rc;

/// An `@media` block.
#[derive(Debug, Drop)]
pub(crate) struct MediaBlock {
    /// Its media queries, which all rules in it share.
    pub(crate) queries: Rc<MediaList>,
}

/// The `@media` blocks around a rule, the outermost first.
pub(crate) type MediaBlocks = Seq<MediaBlock>;

/// For each condition of a sheet, the `@media` blocks around it and then its own. Each prelude is
/// read once.
pub(crate) fn blocks_of(
    alloc: Global,
    conditions: &[Condition],
) -> Result<Seq<MediaBlocks>, NoMemory>
    ensures { IfOk result (λ places. map media_view places
        ≡ map media_among (condition_lists conditions.now)) }
{
    let mut places = Seq::new(alloc);
    for condition in conditions {
        let outside = blocks_at(alloc, places.as_slice(), condition.around)?;
        places.push(inside(alloc, outside, condition)?)?;
    }
    Ok(places)
}

/// The blocks up to the condition in a place, if there is one, where these are those up to each.
pub(crate) fn blocks_at(
    alloc: Global,
    places: &[MediaBlocks],
    place: Option<usize>,
) -> Result<MediaBlocks, NoMemory>
    ensures { IfOk result (λ blocks. media_view blocks
        ≡ media_at (map media_view places.now) place) }
{
    match place {
        Some(place) => match places.get(place) {
            Some(blocks) => copied(alloc, blocks.as_slice()),
            None => Ok(Seq::new(alloc)),
        },
        None => Ok(Seq::new(alloc)),
    }
}

/// The same blocks, which share their queries with these.
fn copied(alloc: Global, blocks: &[MediaBlock]) -> Result<MediaBlocks, NoMemory>
    ensures { IfOk result (λ copies. media_view copies ≡ media_view blocks.now) }
{
    let mut copies = Seq::new(alloc);
    for block in blocks {
        copies.push(MediaBlock {
            queries: block.queries.clone()?,
        })?;
    }
    Ok(copies)
}

/// The blocks around what is inside a condition, where these are around it.
fn inside(
    alloc: Global,
    outside: MediaBlocks,
    condition: &Condition,
) -> Result<MediaBlocks, NoMemory>
    ensures { IfOk result (λ blocks. media_view blocks
        ≡ media_view outside ++ media_among (condition_view condition.now ∷ [])) }
{
    match condition.at_rule {
        ConditionalRule::Media => with_queries(alloc, outside, &condition.prelude),
        ConditionalRule::Container => Ok(outside),
    }
}

/// These blocks, and then the one with this prelude.
fn with_queries(
    alloc: Global,
    outside: MediaBlocks,
    prelude: &Components,
) -> Result<MediaBlocks, NoMemory>
    ensures { IfOk result (λ blocks. media_view blocks
        ≡ media_view outside ++ model.queries_of (components_view prelude.now) ∷ []) }
{
    let queries = shared(alloc, read_media(alloc, prelude)?)?;
    let mut blocks = outside;
    blocks.push(MediaBlock { queries })?;
    Ok(blocks)
}
