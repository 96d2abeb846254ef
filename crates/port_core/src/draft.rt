//! What is kept of a line while it is read.
ghost use Rattle.std.specs.Prelude.{◌≡◌, ◌↔◌, ◌+◌, ◌<◌, ◌≤◌, [], ◌++◌, length, IsTrue, IfOk};
ghost use Rattle.stream_model.specs.declared.limits.TheConstants.{MAX_LINE};
ghost use Rattle.port_core.specs.inner.Draft.{Absorbs, Settles};

use crate::NoMemory;
use crate::bytes::append;
use crate::reader::Line;
use std::alloc::Global;
use std::marker::Model;
use stream_model::MAX_LINE;

/// The most bytes of a line that are kept: one more than a line may have shows that it is too long.
const ROOM: usize = MAX_LINE + 1;

/// What is kept of a line. It allocates when it is made, and never again.
#[derive(Debug, Drop)]
pub struct Draft {
    bytes: Vec<u8>,
}

impl Model for Draft {
    ghost use Rattle.std.specs.Prelude.{ℕ, ◌+◌, ◌≤◌, List, length, vec_capacity};
    ghost use Rattle.stream_model.specs.declared.limits.TheConstants.{MAX_LINE};

    ghost Value = { List ℕ };

    ghost view = { λ d. d.bytes.items };

    ghost invariant = { λ d.
        (length d.bytes.items ≤ MAX_LINE + 1) × (MAX_LINE + 1 ≤ vec_capacity d.bytes) };
}

impl Draft {
    /// An empty draft.
    pub fn new(alloc: Global) -> Result<Draft, NoMemory>
        ensures { IfOk result (λ d. d ≡ []) }
    {
        Ok(Draft {
            bytes: Vec::with_capacity(alloc, ROOM)?,
        })
    }

    /// The bytes that are kept.
    pub fn bytes(&self) -> &[u8]
        ensures { result.now ≡ self.now }
    {
        self.bytes.as_slice()
    }

    /// Returns whether no byte is kept.
    pub fn is_empty(&self) -> bool
        ensures { IsTrue result ↔ (self.now ≡ []) }
    {
        self.bytes.is_empty()
    }

    /// Empties the draft, and keeps its capacity.
    pub fn clear(&mut self)
        ensures { self.new ≡ [] }
    {
        self.bytes.clear();
    }

    /// Appends `piece`, or as much of it as fits.
    pub fn absorb(&mut self, piece: &[u8])
        ensures { Absorbs self.old piece.now self.new }
    {
        let room = ROOM - self.bytes.len();
        if piece.len() <= room {
            append(&mut self.bytes, piece);
            return;
        }
        append(&mut self.bytes, &piece[..room]);
    }

    /// Ends the line: `Whole`, or `TooLong` with the draft emptied.
    pub fn settle(&mut self) -> Line
        ensures { Settles result self.old self.new }
    {
        if self.bytes.len() <= MAX_LINE {
            return Line::Whole;
        }
        self.bytes.clear();
        Line::TooLong
    }
}
