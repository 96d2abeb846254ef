//! A source over a reader and a sink over a writer, such as standard input and output.
ghost use Rattle.std.specs.Prelude.{◌≡◌, ◌<◌, length};
ghost use Rattle.stream_model.specs.Streams.{Grew};
ghost use Rattle.port_core.specs.Ports.{Pulls, Pushes};
ghost use Rattle.port_core.specs.Standard.{inlet_seen, outlet_seen, ReadsOf, WritesTo, pull_of_read, push_of_flush};

use crate::ports::{Pull, Push, Sink, Source};
use std::io::{self, Read, Write};
use std::marker::Model;

/// A source over a reader. Each error of the reader is a fault, and a read of no byte is the end.
/// It tells no bytes, only how many were taken: no proof says what standard input gives.
#[derive(Drop)]
pub struct StdSource<R: Read + Drop> {
    reader: R,
    taken: u64,
    faults: u64,
}

impl<R: Read + Drop> Model for StdSource<R> {
    ghost use Rattle.std.specs.Prelude.{◌<◌, ◌^◌};
    ghost use Rattle.stream_model.specs.Streams.{SourceState};

    ghost Value = { SourceState };

    ghost view = { λ s. record {
      left = R.remaining s.reader;
      taken = s.taken;
      faults = s.faults;
    } };

    ghost invariant = { λ s. (s.taken < 2 ^ 64) × (s.faults < 2 ^ 64) };
}

impl<R: Read + Drop> StdSource<R> {
    /// A source of what `reader` gives.
    pub fn new(reader: R) -> StdSource<R>
        ensures { result ≡ record { left = R.remaining reader; taken = 0; faults = 0 } }
    {
        StdSource {
            reader,
            taken: 0,
            faults: 0,
        }
    }
}

impl<R: Read + Drop> Source for StdSource<R> {
    ghost seen = { inlet_seen };

    fn pull(&mut self, buf: &mut [u8]) -> Pull
        requires { 0 < length buf.old }
        ensures pulls { Pulls result buf.new (inlet_seen self.old) (inlet_seen self.new) }
        ensures reads { ReadsOf result buf.new self.old.left self.new.left }
    {
        let pull = pull_of(self.reader.read(buf));
        match pull {
            Pull::Bytes(count) => self.taken = taken_after(self.taken, count),
            Pull::End => {}
            Pull::Failed => self.faults = self.faults.saturating_add(1),
        }
        pull
    }
}

/// What a read into a buffer that is not empty answers.
fn pull_of(read: io::Result<usize>) -> Pull
    ensures { result ≡ pull_of_read read }
{
    match read {
        Ok(count) => {
            if count == 0 {
                return Pull::End;
            }
            Pull::Bytes(count)
        }
        Err(_) => Pull::Failed,
    }
}

/// `taken` and `count`, as far as a `u64` goes.
fn taken_after(taken: u64, count: usize) -> u64
    ensures { Grew taken count result }
{
    taken.saturating_add(count as u64)
}

/// A sink over a writer, which it flushes after each push. Each error of the writer is a fault, and
/// so is a write that takes nothing.
/// It tells no bytes: no proof says what standard output shows.
#[derive(Drop)]
pub struct StdSink<W: Write + Drop> {
    writer: W,
    faults: u64,
}

impl<W: Write + Drop> Model for StdSink<W> {
    ghost use Rattle.std.specs.Prelude.{◌<◌, ◌^◌};
    ghost use Rattle.stream_model.specs.Streams.{SinkState};

    ghost Value = { SinkState };

    ghost view = { λ s. record { held = W.contents s.writer; faults = s.faults } };

    ghost invariant = { λ s. s.faults < 2 ^ 64 };
}

impl<W: Write + Drop> StdSink<W> {
    /// A sink that hands its bytes to `writer`.
    pub fn new(writer: W) -> StdSink<W>
        ensures { result ≡ record { held = W.contents writer; faults = 0 } }
    {
        StdSink { writer, faults: 0 }
    }
}

impl<W: Write + Drop> Sink for StdSink<W> {
    ghost seen = { outlet_seen };

    fn push(&mut self, bytes: &[u8]) -> Push
        ensures pushes { Pushes result bytes.now (outlet_seen self.old) (outlet_seen self.new) }
        ensures writes { WritesTo result bytes.now self.old.held self.new.held }
    {
        match write_flushed(&mut self.writer, bytes) {
            Push::Done => Push::Done,
            Push::Failed => {
                self.faults = self.faults.saturating_add(1);
                Push::Failed
            }
        }
    }
}

/// Writes all of `bytes`, and flushes them.
fn write_flushed<W: Write>(writer: &mut W, bytes: &[u8]) -> Push
    ensures { WritesTo result bytes.now (W.contents writer.old) (W.contents writer.new) }
{
    let mut done = 0;
    while done < bytes.len() {
        match writer.write(&bytes[done..]) {
            Ok(count) => {
                if count == 0 {
                    return Push::Failed;
                }
                done += count;
            }
            Err(_) => return Push::Failed,
        }
    }
    push_of(writer.flush())
}

/// What a push answers whose bytes were all written, by the flush that ends it.
fn push_of(flush: io::Result<()>) -> Push
    ensures { result ≡ push_of_flush flush }
{
    match flush {
        Ok(()) => Push::Done,
        Err(_) => Push::Failed,
    }
}

#[cfg(test)]
mod tests {
    use crate::{Pull, Push, Sink, Source, StdSink, StdSource};
    use std::io::{self, ErrorKind, Read, Write};

    /// A reader of which the second call fails, and so does each call after its last byte.
    #[derive(Drop)]
    struct Stumbling<'a> {
        bytes: &'a [u8],
        calls: u8,
    }

    impl<'a> Read for Stumbling<'a> {
        fn read(&mut self, buf: &mut [u8]) -> io::Result<usize> {
            self.calls = self.calls.saturating_add(1);
            if self.calls == 2 || self.bytes.is_empty() {
                return Err(io::Error::from(ErrorKind::TimedOut));
            }
            let count = buf.len().min(3);
            self.bytes.read(&mut buf[..count])
        }
    }

    #[test]
    fn pulls_from_a_reader(rt: HostRuntime) {
        let whole: &[u8] = b"one";
        let mut source = StdSource::new(whole);
        let mut buf = [0; 8];
        assert_eq!(rt; source.pull(&mut buf), Pull::Bytes(3));
        assert_eq!(rt; source.pull(&mut buf), Pull::End);

        let mut source = StdSource::new(Stumbling {
            bytes: b"one\ntwo",
            calls: 0,
        });
        for want in [
            Pull::Bytes(3),
            Pull::Failed,
            Pull::Bytes(3),
            Pull::Bytes(1),
            Pull::Failed,
        ] {
            assert_eq!(rt; source.pull(&mut buf), want);
        }
    }

    /// A writer that takes two bytes a call as far as its room goes, and marks each flush by a `/`.
    /// A flush fails where the room is used up.
    #[derive(Drop)]
    struct Narrow<'a> {
        taken: &'a mut Vec<u8>,
        room: usize,
    }

    impl<'a> Write for Narrow<'a> {
        fn write(&mut self, bytes: &[u8]) -> io::Result<usize> {
            let count = bytes.len().min(self.room).min(2);
            self.taken.extend_from_slice(&bytes[..count])?;
            self.room -= count;
            Ok(count)
        }

        fn flush(&mut self) -> io::Result<()> {
            self.taken.push(b'/')?;
            if self.room == 0 {
                return Err(io::Error::from(ErrorKind::TimedOut));
            }
            Ok(())
        }
    }

    #[test]
    fn pushes_to_a_writer(rt: HostRuntime) {
        let mut taken = Vec::new(rt.alloc());
        let mut sink = StdSink::new(Narrow {
            taken: &mut taken,
            room: 10,
        });
        // All is written and flushed; all is written and the flush fails; nothing more is written.
        assert_eq!(rt; sink.push(b"ok 0 1\n"), Push::Done);
        assert_eq!(rt; sink.push(b"box"), Push::Failed);
        assert_eq!(rt; sink.push(b"1"), Push::Failed);
        drop(sink);
        assert_eq!(rt; taken.as_slice(), b"ok 0 1\n/box/".as_slice());
    }
}
