//! The rules that match an element.
ghost use Rattle.selectors.specs.Rooms.{empty_room, with_pair};
ghost use Rattle.std.specs.Prelude.{IfOk, [], length, slice_get, ◌<◌, ◌≡◌};

use port_core::NoMemory;
use selectors_model::Spec;
use std::alloc::Global;
use std::marker::Model;

/// The numbers of the rules that match an element, each with its specificity for it, and room for
/// more. It takes memory when it is made, and never again.
///
/// Contracts see a record of the pairs and of how many there is room for. The ledger's key `L` names
/// the ledger that a match was logged in.
#[derive(Drop)]
pub struct Matched<L> {
    pairs: Vec<(u32, Spec)>,
    room: usize,
    /// It stays `None`.
    key: Option<L>,
}

impl<L> Model for Matched<L> {
    ghost use Rattle.selectors.specs.Rooms.{IsRoom, Room};
    ghost use Rattle.std.specs.Prelude.{vec_capacity};

    ghost Value = { Room };

    ghost view = { λ m. record { pairs = m.pairs.items; room = m.room } };

    ghost invariant = { λ m. IsRoom m.pairs.items m.room (vec_capacity m.pairs) };
}

impl<L: Drop> Matched<L> {
    /// Returns room for `n` rules, and no pair.
    ///
    /// # Errors
    ///
    /// `NoMemory` where there is none for so many.
    pub fn with_room(alloc: Global, n: usize) -> Result<Matched<L>, NoMemory>
        ensures { IfOk result (λ m. m ≡ empty_room n) }
    {
        Ok(Matched {
            pairs: Vec::with_capacity(alloc, n)?,
            room: n,
            key: None,
        })
    }

    /// Returns the number and the specificity of the rule at index `i`, or `None` past the end.
    pub fn get(&self, i: usize) -> Option<(u32, Spec)>
        ensures { result ≡ slice_get self.now.pairs i }
    {
        self.pairs.get(i).copied()
    }

    /// Takes all pairs out, and keeps the room.
    pub(crate) fn clear(&mut self)
        ensures { self.new ≡ empty_room self.old.room }
    {
        self.pairs.clear();
    }

    /// Appends a pair, for which there is room.
    pub(crate) fn push(&mut self, number: u32, spec: Spec)
        requires { length self.old.pairs < self.old.room }
        ensures { self.new ≡ with_pair self.old number spec }
    {
        let _ = self.pairs.push((number, spec));
    }
}
