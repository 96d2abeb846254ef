//! Conditions, read from component values (Media Queries 4, section 3).
ghost use Rattle.conditions_model.specs.ConditionWords.{part};
ghost use Rattle.conditions_model.specs.Conditions.{condition_of, feature_or_enclosed, words_of};
ghost use Rattle.css_tokens.specs.Nested.{component_view, components_view};
ghost use Rattle.std.specs.Prelude.{◌≡◌, [], ◌∷◌, IfOk, option_map};
ghost use Rattle.tri_conditions.specs.Views.{condition_view};
ghost use Rattle.tri_conditions.specs.inner.Words.{words_seen};

use crate::condition::Condition;
use crate::drafts::Draft;
use crate::read_feature::ReadFeature;
use crate::words::{Word, is_round, token_word};
use css_tokens::{Component, Components};
use port_core::NoMemory;
use std::alloc::Global;

/// Returns the condition that `c` is, if it is one, where `r` knows features.
///
/// `r` is asked for functions, and for pairs of round brackets without a condition in them; where
/// it knows no feature, the component value is `Enclosed`. Fails only if memory runs out.
/// Time grows with the number of component values, and with what `r` takes; the calls are as deep
/// as brackets nest.
pub fn read_condition<Q: Drop, R: ReadFeature<Q>>(
    alloc: Global,
    c: &Components,
    r: &R,
) -> Result<Option<Condition<Q>>, NoMemory>
    ensures { IfOk result (λ read. option_map condition_view read
        ≡ condition_of (R.reads r.now) (components_view c.now)) }
{
    read_condition_slice(alloc, c.as_slice(), r)
}

/// Returns the condition that `c`, a part of a list, is, if it is one, as `read_condition` does.
#[cycle(reading)]
pub fn read_condition_slice<Q: Drop, R: ReadFeature<Q>>(
    alloc: Global,
    c: &[Component],
    r: &R,
) -> Result<Option<Condition<Q>>, NoMemory>
    ensures { IfOk result (λ read. option_map condition_view read
        ≡ condition_of (R.reads r.now) (components_view c.now)) }
{
    let mut draft = Draft::Empty;
    for component in c {
        let word = word_of(alloc, component, r)?;
        draft = draft.take(alloc, word)?;
    }
    Ok(draft.finish())
}

/// What a component value is in a condition.
#[cycle(reading)]
fn word_of<'a, Q: Drop, R: ReadFeature<Q>>(
    alloc: Global,
    c: &'a Component,
    r: &R,
) -> Result<Word<'a, Q>, NoMemory>
    ensures { IfOk result (λ w. words_seen w
        ≡ words_of (R.reads r.now) (component_view c.entry.now)) }
{
    match c {
        Component::One(token) => Ok(token_word(&token.token_type)),
        Component::Block(head, contents, _) => {
            if !is_round(&head.token_type) {
                return Ok(Word::Other);
            }
            match read_condition_slice(alloc, contents.as_slice(), r)? {
                Some(condition) => Ok(Word::Part(condition)),
                None => feature_word(alloc, c, r),
            }
        }
        Component::Function(_, _, _) => feature_word(alloc, c, r),
    }
}

/// A feature, or else an enclosed part.
fn feature_word<'a, Q: Drop, R: ReadFeature<Q>>(
    alloc: Global,
    c: &Component,
    r: &R,
) -> Result<Word<'a, Q>, NoMemory>
    ensures { IfOk result (λ w. words_seen w
        ≡ part (feature_or_enclosed (R.reads r.now (component_view c.now))) ∷ []) }
{
    match r.read(alloc, c)? {
        Some(feature) => Ok(Word::Part(Condition::Feature(feature))),
        None => Ok(Word::Part(Condition::Enclosed)),
    }
}
