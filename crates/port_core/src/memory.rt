//! A source and a sink in memory.
ghost use Rattle.std.specs.Prelude.{◌≡◌, ◌+◌, ◌-◌, ◌<◌, ◌≤◌, [], ◌++◌, length, take, drop, IfOk};
ghost use Rattle.port_core.specs.Ports.{Pulls, Pushes};
ghost use Rattle.port_core.specs.Memory.{supply_seen, store_seen, is_at, count_before, pull_answer, after_pull, push_answer, after_push};

use crate::NoMemory;
use crate::bytes::{append, copy_piece};
use crate::ports::{Pull, Push, Sink, Source};
use std::alloc::Global;
use std::marker::Model;

/// A source in memory that gives its bytes in pieces, and fails at a place where it is told to.
#[derive(Debug, Drop)]
pub struct MemSource {
    bytes: Vec<u8>,
    taken: usize,
    piece: usize,
    fail_at: Option<u64>,
    faults: u64,
}

impl Model for MemSource {
    ghost use Rattle.std.specs.Prelude.{drop};
    ghost use Rattle.port_core.specs.Memory.{Supply, IsSupply};

    ghost Value = { Supply };

    ghost view = { λ s. record {
      left = drop s.taken s.bytes.items;
      taken = s.taken;
      piece = s.piece;
      fail_at = s.fail_at;
      faults = s.faults;
    } };

    ghost invariant = { λ s. IsSupply s.bytes.items s.taken s.piece s.fail_at s.faults };
}

impl MemSource {
    /// Copies `bytes`. A pull gives at most `piece` of them, which is at least 1.
    /// With `fail_at`, each pull after exactly that many bytes fails, and no pull goes past them.
    pub fn new(
        alloc: Global,
        bytes: &[u8],
        piece: usize,
        fail_at: Option<u64>,
    ) -> Result<MemSource, NoMemory>
        requires { 1 ≤ piece }
        ensures { IfOk result (λ s. s ≡ record {
          left = bytes.now;
          taken = 0;
          piece = piece;
          fail_at = fail_at;
          faults = 0;
        }) }
    {
        Ok(MemSource {
            bytes: Vec::from_slice(alloc, bytes)?,
            taken: 0,
            piece,
            fail_at,
            faults: 0,
        })
    }
}

impl Source for MemSource {
    ghost seen = { supply_seen };

    fn pull(&mut self, buf: &mut [u8]) -> Pull
        requires { 0 < length buf.old }
        ensures pulls { Pulls result buf.new (supply_seen self.old) (supply_seen self.new) }
        ensures answer { result ≡ pull_answer self.old (length buf.old) }
        ensures after { self.new ≡ after_pull self.old result }
    {
        if stands_at(self.fail_at, self.taken) {
            self.faults = self.faults.saturating_add(1);
            return Pull::Failed;
        }
        let left = self.bytes.len() - self.taken;
        if left == 0 {
            return Pull::End;
        }
        let most = self.piece.min(buf.len()).min(left);
        let count = count_before(self.fail_at, self.taken, most);
        copy_piece(self.bytes.as_slice(), self.taken, count, buf);
        self.taken += count;
        Pull::Bytes(count)
    }
}

/// Returns whether `taken` is the place at which the source fails.
fn stands_at(fail_at: Option<u64>, taken: usize) -> bool
    ensures { result ≡ is_at fail_at taken }
{
    match fail_at {
        Some(at) => taken as u64 == at,
        None => false,
    }
}

/// How many of the `count` bytes after `taken` come before `fail_at`.
fn count_before(fail_at: Option<u64>, taken: usize, count: usize) -> usize
    ensures { result ≡ count_before fail_at taken count }
{
    match fail_at {
        Some(at) => count.min(at.saturating_sub(taken as u64) as usize),
        None => count,
    }
}

/// A sink in memory that holds a number of bytes. It allocates when it is made, and never again.
#[derive(Debug, Drop)]
pub struct MemSink {
    bytes: Vec<u8>,
    room: usize,
    faults: u64,
}

impl Model for MemSink {
    ghost use Rattle.std.specs.Prelude.{vec_capacity};
    ghost use Rattle.port_core.specs.Memory.{Store, IsStore};

    ghost Value = { Store };

    ghost view = { λ s. record { bytes = s.bytes.items; room = s.room; faults = s.faults } };

    ghost invariant = { λ s. IsStore s.bytes.items s.room (vec_capacity s.bytes) s.faults };
}

impl MemSink {
    /// An empty sink that can hold `room` bytes. The push that passes them appends what fits, and
    /// fails.
    pub fn new(alloc: Global, room: usize) -> Result<MemSink, NoMemory>
        ensures { IfOk result (λ s. s ≡ record { bytes = []; room = room; faults = 0 }) }
    {
        Ok(MemSink {
            bytes: Vec::with_capacity(alloc, room)?,
            room,
            faults: 0,
        })
    }

    /// The bytes that the sink holds.
    pub fn bytes(&self) -> &[u8]
        ensures { result.now ≡ self.now.bytes }
    {
        self.bytes.as_slice()
    }
}

impl Sink for MemSink {
    ghost seen = { store_seen };

    fn push(&mut self, bytes: &[u8]) -> Push
        ensures pushes { Pushes result bytes.now (store_seen self.old) (store_seen self.new) }
        ensures answer { result ≡ push_answer self.old bytes.now }
        ensures after { self.new ≡ after_push self.old bytes.now result }
    {
        let room = self.room - self.bytes.len();
        if bytes.len() <= room {
            append(&mut self.bytes, bytes);
            return Push::Done;
        }
        append(&mut self.bytes, &bytes[..room]);
        self.faults = self.faults.saturating_add(1);
        Push::Failed
    }
}

#[cfg(test)]
mod tests {
    use crate::{MemSink, MemSource, Pull, Push, Sink, Source};
    use std::test::Fail;

    #[test]
    fn fails_at_its_place_each_time(rt: HostRuntime) -> Result<(), Fail> {
        let mut source = MemSource::new(rt.alloc(), b"abc", 2, Some(3))?;
        let mut buf = [0; 8];
        assert_eq!(rt; source.pull(&mut buf), Pull::Bytes(2));
        assert_eq!(rt; source.pull(&mut buf), Pull::Bytes(1));
        assert_eq!(rt; buf[0], b'c');
        assert_eq!(rt; source.pull(&mut buf), Pull::Failed);
        assert_eq!(rt; source.pull(&mut buf), Pull::Failed);
        Ok(())
    }

    #[test]
    fn holds_as_much_as_its_room(rt: HostRuntime) -> Result<(), Fail> {
        let mut sink = MemSink::new(rt.alloc(), 10)?;
        assert_eq!(rt; sink.push(b"ok 0 1\n"), Push::Done);
        assert_eq!(rt; sink.push(b"box 1"), Push::Failed);
        assert_eq!(rt; sink.push(b""), Push::Done);
        assert_eq!(rt; sink.bytes(), b"ok 0 1\nbox".as_slice());
        Ok(())
    }
}
