//! The ledger of counted work.
ghost use Rattle.std.specs.Prelude.{◌≡◌, ℕ, ◌+◌, min, [], ◌∷◌, ◌++◌};
ghost use Rattle.stream_model.specs.Streams.{last_count};
ghost use Rattle.stream_model.specs.Ledger.{pair, mark, count_since_mark};
ghost use Rattle.port_core.specs.inner.Past.{count_of, counts_after_pair};
ghost use Rattle.port_core.specs.declared.steps.Past.TheVariants.{Start};

use std::marker::Model;
use std::mem;
use std::snapshot::Snapshot;
use stream_model::Kind;

/// The id of a node.
pub type NodeId = u32;

/// What was logged, for contracts alone.
#[derive(Drop)]
enum Past {
    Start,
    Noted(Snapshot<Past>, Kind, NodeId),
    Marked(Snapshot<Past>),
}

/// How many pairs of each kind were logged since the last mark, up to `u64::MAX`.
#[derive(Clone, Copy, Debug, PartialEq, Eq)]
struct Counts {
    matches: u64,
    styles: u64,
    measures: u64,
    sizes: u64,
    places: u64,
}

impl Counts {
    fn none() -> Counts
        ensures { result ≡ record { matches = 0; styles = 0; measures = 0; sizes = 0; places = 0 } }
    {
        Counts {
            matches: 0,
            styles: 0,
            measures: 0,
            sizes: 0,
            places: 0,
        }
    }

    fn of(&self, kind: Kind) -> u64
        ensures { result ≡ count_of self.now kind }
    {
        match kind {
            Kind::Match => self.matches,
            Kind::Style => self.styles,
            Kind::Measure => self.measures,
            Kind::Size => self.sizes,
            Kind::Place => self.places,
        }
    }

    fn raise(&mut self, kind: Kind)
        ensures { self.new ≡ counts_after_pair self.old kind }
    {
        match kind {
            Kind::Match => self.matches = self.matches.saturating_add(1),
            Kind::Style => self.styles = self.styles.saturating_add(1),
            Kind::Measure => self.measures = self.measures.saturating_add(1),
            Kind::Size => self.sizes = self.sizes.saturating_add(1),
            Kind::Place => self.places = self.places.saturating_add(1),
        }
    }
}

/// The ledger of counted work, which contracts see as a list of pairs and marks.
/// It allocates nothing: it keeps the number of pairs of each kind since the last mark.
#[derive(Drop)]
pub struct Steps<L> {
    past: Snapshot<Past>,
    counts: Counts,
    key: L,
}

impl<L> Model for Steps<L> {
    ghost use Rattle.std.specs.Prelude.{List};
    ghost use Rattle.stream_model.specs.Ledger.{Event};
    ghost use Rattle.port_core.specs.inner.Past.{events_of, CountsSinceMark};

    ghost Value = { List Event };

    ghost view = { λ s. events_of s.past.value };

    ghost invariant = { λ s. CountsSinceMark s.counts (events_of s.past.value) };
}

impl<L: Drop> Steps<L> {
    /// An empty ledger under `key`, which it never gives back.
    pub fn new(key: L) -> Steps<L>
        ensures { result ≡ [] }
    {
        Steps {
            past: start(),
            counts: Counts::none(),
            key,
        }
    }

    /// Marks the start of a load or an edit. The counts start from 0.
    pub fn mark(&mut self)
        ensures { self.new ≡ self.old ++ mark ∷ [] }
    {
        let before = mem::replace(&mut self.past, start());
        let entry = Past::Marked(before);
        self.past = Snapshot::of(&entry);
        self.counts = Counts::none();
    }

    /// Logs that work of `kind` was done for the node `id`.
    pub fn tick(&mut self, kind: Kind, id: NodeId)
        ensures { self.new ≡ self.old ++ pair kind id ∷ [] }
    {
        let before = mem::replace(&mut self.past, start());
        let entry = Past::Noted(before, kind, id);
        self.past = Snapshot::of(&entry);
        self.counts.raise(kind);
    }

    /// How many pairs of `kind` were logged since the last mark, up to `u64::MAX`.
    pub fn count(&self, kind: Kind) -> u64
        ensures { result ≡ min (count_since_mark kind self.now) last_count }
    {
        self.counts.of(kind)
    }
}

fn start() -> Snapshot<Past>
    ensures { result.value ≡ Start }
{
    Snapshot::of(&Past::Start)
}

#[cfg(test)]
mod tests {
    use crate::{Kind, Steps};

    #[test]
    fn counts_since_the_last_mark(rt: HostRuntime) {
        let mut steps = Steps::new(());
        steps.tick(Kind::Match, 1);
        steps.tick(Kind::Match, 2);
        steps.tick(Kind::Style, 1);
        assert_eq!(rt; steps.count(Kind::Match), 2);
        assert_eq!(rt; steps.count(Kind::Style), 1);
        steps.mark();
        steps.tick(Kind::Place, 3);
        assert_eq!(rt; steps.count(Kind::Match), 0);
        assert_eq!(rt; steps.count(Kind::Place), 1);
    }
}
