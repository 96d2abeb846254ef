//! The bytes between a source and a line.
ghost use Rattle.std.specs.Prelude.{◌≡◌, ◌<◌, ◌≤◌, [], length, take, drop, IfOk};
ghost use Rattle.port_core.specs.Ports.{Pulls};
ghost use Rattle.stream_model.specs.declared.limits.TheConstants.{MAX_TAKEN};
ghost use Rattle.port_core.specs.inner.Window.{Cuts, Refills, Collects};

use crate::NoMemory;
use crate::draft::Draft;
use crate::ports::{Pull, Source};
use memchr::memchr;
use std::alloc::Global;
use std::marker::Model;
use stream_model::MAX_TAKEN;

/// The most bytes that a pull asks for.
const CHUNK: usize = 65_536;

/// The byte that ends a line.
const NEWLINE: u8 = b'\n';

/// What a cut found.
#[derive(Clone, Copy, Debug, PartialEq, Eq)]
pub enum Cut {
    /// A newline, which was taken out too.
    Line,
    /// No newline: all that was pending belongs to the line.
    Part,
}

/// What a refill found.
#[derive(Clone, Copy, Debug, PartialEq, Eq)]
pub enum Refill {
    More,
    End,
    Failed,
    /// The window has taken `MAX_TAKEN` bytes.
    Spent,
}

/// Why collecting a line stopped.
#[derive(Clone, Copy, Debug, PartialEq, Eq)]
pub enum Stop {
    /// At a newline.
    Line,
    /// The source ended.
    End,
    /// The source failed.
    Failed,
    /// The window has taken `MAX_TAKEN` bytes.
    Spent,
}

/// The bytes that were pulled from a source and not moved into a line yet.
#[derive(Debug, Drop)]
pub struct Window {
    chunk: Vec<u8>,
    start: usize,
    end: usize,
    taken: u64,
}

impl Model for Window {
    ghost use Rattle.std.specs.Prelude.{take, drop};
    ghost use Rattle.port_core.specs.inner.Window.{Intake, IsWindow};

    ghost Value = { Intake };

    ghost view = { λ w. record {
      pending = drop w.start (take w.end w.chunk.items);
      taken = w.taken;
    } };

    ghost invariant = { λ w. IsWindow w.start w.end w.chunk.items w.taken };
}

impl Window {
    /// An empty window.
    pub fn new(alloc: Global) -> Result<Window, NoMemory>
        ensures { IfOk result (λ w. w ≡ record { pending = []; taken = 0 }) }
    {
        Ok(Window {
            chunk: vec![in alloc; 0; CHUNK]?,
            start: 0,
            end: 0,
            taken: 0,
        })
    }

    /// The pending bytes.
    fn pending(&self) -> &[u8]
        ensures { result.now ≡ self.now.pending }
    {
        &self.chunk[self.start..self.end]
    }

    /// Takes out the next `count` bytes.
    fn advance(&mut self, count: usize)
        requires { count ≤ length self.old.pending }
        ensures { self.new ≡ record self.old { pending = drop count self.old.pending } }
    {
        self.start += count;
    }

    /// Takes out all bytes.
    fn empty(&mut self)
        ensures { self.new ≡ record self.old { pending = [] } }
    {
        self.start = 0;
        self.end = 0;
    }

    /// Moves the pending bytes of the line into `draft`, and takes out the newline that ends it.
    fn cut(&mut self, draft: &mut Draft) -> Cut
        ensures { Cuts result self.old self.new draft.old draft.new }
    {
        let pending = self.pending();
        match memchr(NEWLINE, pending) {
            Some(at) => {
                draft.absorb(&pending[..at]);
                self.advance(at + 1);
                Cut::Line
            }
            None => {
                draft.absorb(pending);
                self.empty();
                Cut::Part
            }
        }
    }

    /// Pulls once; nothing is pending.
    fn refill<I: Source>(&mut self, source: &mut I) -> Refill
        requires { self.old.pending ≡ [] }
        ensures { Refills result self.old self.new (I.seen source.old) (I.seen source.new) }
    {
        let room = (MAX_TAKEN - self.taken).min(self.chunk.len() as u64) as usize;
        if room == 0 {
            return Refill::Spent;
        }
        self.start = 0;
        self.end = 0;
        match pull_front(self.chunk.as_mut_slice(), room, source) {
            Pull::Bytes(count) => {
                self.end = count;
                self.taken += count as u64;
                Refill::More
            }
            Pull::End => Refill::End,
            Pull::Failed => Refill::Failed,
        }
    }

    /// Moves the next line into `draft`, as far as `source` gives it.
    pub fn collect<I: Source>(&mut self, draft: &mut Draft, source: &mut I) -> Stop
        requires empty { draft.old ≡ [] }
        requires within { self.old.taken ≤ MAX_TAKEN }
        ensures { Collects result self.old self.new draft.new
            (I.seen source.old) (I.seen source.new) }
    {
        loop {
            match self.cut(draft) {
                Cut::Line => return Stop::Line,
                Cut::Part => {}
            }
            match self.refill(source) {
                Refill::More => {}
                Refill::End => return Stop::End,
                Refill::Failed => return Stop::Failed,
                Refill::Spent => return Stop::Spent,
            }
        }
    }
}

/// Pulls into the first `room` bytes of `chunk`.
fn pull_front<I: Source>(chunk: &mut [u8], room: usize, source: &mut I) -> Pull
    requires some { 0 < room }
    requires within { room ≤ length chunk.old }
    ensures { Pulls result (take room chunk.new) (I.seen source.old) (I.seen source.new) }
{
    source.pull(&mut chunk[..room])
}
