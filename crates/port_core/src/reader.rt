//! Lines of a source.
ghost use Rattle.std.specs.Prelude.{◌≡◌, ◌-◌, ◌≤◌, [], IfOk, IfNone, IfSome, OnSome, None};
ghost use Rattle.stream_model.specs.Streams.{FromTo, Grew, TakesCount};
ghost use Rattle.stream_model.specs.declared.limits.TheConstants.{MAX_TAKEN};
ghost use Rattle.port_core.specs.Reader.{new_reader, ahead, Gives, Stops, KeepsLine, Spends, CountsFaults, WorksOff};
ghost use Rattle.port_core.specs.inner.Reads.{Reads};

use crate::NoMemory;
use crate::draft::Draft;
use crate::ports::Source;
use crate::window::{Stop, Window};
use std::alloc::Global;
use std::marker::Model;

/// What the next line is.
#[derive(Clone, Copy, Debug, PartialEq, Eq)]
pub enum Line {
    /// A line: [`LineReader::line`] returns it.
    Whole,
    /// A line of more than `MAX_LINE` bytes, its newline not counted. It was read past.
    TooLong,
    /// No line: the source has ended.
    End,
    /// No line: the source failed.
    Failed,
    /// No line: the reader has taken `MAX_TAKEN` bytes, and takes no more.
    Spent,
}

/// Reads the lines of a source, in whatever pieces it gives them. A line ends at a newline, or
/// where the source ends after at least one byte. The reader allocates when it is made, and never
/// again.
#[derive(Debug, Drop)]
pub struct LineReader {
    window: Window,
    draft: Draft,
    stopped: Option<Line>,
}

impl Model for LineReader {
    ghost use Rattle.port_core.specs.Reader.{Reader};
    ghost use Rattle.port_core.specs.inner.Reads.{StaysStopped};

    ghost Value = { Reader };

    ghost view = { λ r. record {
      pending = r.window.pending;
      taken = r.window.taken;
      line = r.draft;
      stopped = r.stopped;
    } };

    ghost invariant = { λ r. StaysStopped r.stopped r.window };
}

impl LineReader {
    /// A reader that has read nothing yet.
    pub fn new(alloc: Global) -> Result<LineReader, NoMemory>
        ensures { IfOk result (λ r. r ≡ new_reader) }
    {
        Ok(LineReader {
            window: Window::new(alloc)?,
            draft: Draft::new(alloc)?,
            stopped: None,
        })
    }

    /// Reads the next line. After `End`, `Failed` or `Spent` each call answers the same, and leaves
    /// the source alone.
    pub fn next<I: Source>(&mut self, source: &mut I) -> Line
        // What is read, where the source tells its bytes.
        ensures lines { IfNone self.old.stopped (FromTo
            (ahead self.old.pending (I.seen source.old).left)
            (ahead self.new.pending (I.seen source.new).left)
            (Gives result self.new.line self.new.stopped)) }
        ensures told { TakesCount (I.seen source.old).left (I.seen source.new).left
            (self.new.taken - self.old.taken) }

        // What the reader keeps, and whether it goes on.
        ensures kept { KeepsLine result self.new.line }
        ensures stops { Stops result self.new }

        // How many bytes it takes in its life.
        ensures forward { self.old.taken ≤ self.new.taken }
        ensures bounded { self.new.taken ≤ MAX_TAKEN }
        ensures taken { Grew (I.seen source.old).taken (self.new.taken - self.old.taken)
            (I.seen source.new).taken }
        ensures spent { Spends result self.new }
        ensures work { WorksOff result self.old self.new }

        // When the source fails.
        ensures faults { CountsFaults self.old.stopped result
            (I.seen source.old) (I.seen source.new) }

        // What stays the same once the reader has stopped.
        ensures again { IfSome self.old.stopped (λ answer. result ≡ answer) }
        ensures left_alone { OnSome self.old.stopped (source.new ≡ source.old) }
        ensures as_before { OnSome self.old.stopped (self.new ≡ record self.old { line = [] }) }
    {
        match self.stopped {
            Some(answer) => {
                self.draft.clear();
                answer
            }
            None => self.read(source),
        }
    }

    /// The line that the last `next` read, or no bytes where it did not answer `Whole`.
    pub fn line(&self) -> &[u8]
        ensures { result.now ≡ self.now.line }
    {
        self.draft.bytes()
    }

    /// Reads the next line; the reader has not stopped.
    fn read<I: Source>(&mut self, source: &mut I) -> Line
        requires { self.old.stopped ≡ None }
        ensures { Reads result self.old self.new (I.seen source.old) (I.seen source.new) }
    {
        self.draft.clear();
        match self.window.collect(&mut self.draft, source) {
            Stop::Line => self.draft.settle(),
            Stop::End => {
                self.stopped = Some(Line::End);
                if self.draft.is_empty() {
                    return Line::End;
                }
                self.draft.settle()
            }
            Stop::Failed => {
                self.draft.clear();
                self.stopped = Some(Line::Failed);
                Line::Failed
            }
            Stop::Spent => {
                self.draft.clear();
                self.stopped = Some(Line::Spent);
                Line::Spent
            }
        }
    }
}

#[cfg(test)]
mod tests {
    use crate::{Line, LineReader, MemSource, NoMemory};
    use std::alloc::Global;
    use std::test::Fail;

    /// The lines of `source`, each with a `/` after it, and the answer after them, twice.
    fn read_all(alloc: Global, source: &mut MemSource) -> Result<(Vec<u8>, [Line; 2]), NoMemory> {
        let mut reader = LineReader::new(alloc)?;
        let mut told = Vec::new(alloc);
        for _ in 0..100 {
            match reader.next(source) {
                Line::Whole => told.extend_from_slice(reader.line())?,
                Line::TooLong => told.extend_from_slice(b"too long")?,
                answer => return Ok((told, [answer, reader.next(source)])),
            }
            told.push(b'/')?;
        }
        Ok((told, [Line::Whole; 2]))
    }

    #[test]
    fn reads_lines_in_any_pieces(rt: HostRuntime) -> Result<(), Fail> {
        let table: [(&[u8], Option<u64>, &[u8], Line); 7] = [
            (b"one\ntwo\n", None, b"one/two/", Line::End),
            (b"one\ntwo", None, b"one/two/", Line::End),
            (b"one\n\ntwo\n", None, b"one//two/", Line::End),
            (b"", None, b"", Line::End),
            (b"one\ntwo\n", Some(6), b"one/", Line::Failed),
            (b"one\ntwo\n", Some(8), b"one/two/", Line::Failed),
            (b"one\ntwo\n", Some(0), b"", Line::Failed),
        ];
        for (bytes, fail_at, want, answer) in table {
            for piece in [1, 2, 3, 7, 100] {
                let mut source = MemSource::new(rt.alloc(), bytes, piece, fail_at)?;
                let (told, last) = read_all(rt.alloc(), &mut source)?;
                assert_eq!(rt; told.as_slice(), want, "in pieces of {piece}");
                assert_eq!(rt; last, [answer; 2], "in pieces of {piece}");
            }
        }
        Ok(())
    }

    #[test]
    fn reads_past_a_line_that_is_too_long(rt: HostRuntime) -> Result<(), Fail> {
        let mut bytes = vec![in rt.alloc(); b'x'; 4_194_304]?;
        bytes.push(b'\n')?;
        let longest = bytes.len();
        bytes.extend_from_slice(&vec![in rt.alloc(); b'y'; 4_194_305]?)?;
        bytes.extend_from_slice(b"\nok\n")?;
        let mut source = MemSource::new(rt.alloc(), &bytes, 100_000, None)?;
        let (told, last) = read_all(rt.alloc(), &mut source)?;
        assert_eq!(rt; last, [Line::End; 2]);
        assert_eq!(rt; told.len(), longest + 12);
        assert!(rt; told.as_slice().starts_with(b"xxx"));
        assert!(rt; told.as_slice().ends_with(b"x/too long/ok/"));
        Ok(())
    }
}
