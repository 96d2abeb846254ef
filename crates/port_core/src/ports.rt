//! Where bytes come from and go to.
ghost use Rattle.std.specs.Prelude.{◌<◌, length};
ghost use Rattle.stream_model.specs.Streams.{SourceState, SinkState};
ghost use Rattle.port_core.specs.Ports.{Pulls, Pushes};

/// The answer of a pull.
#[derive(Clone, Copy, Debug, PartialEq, Eq)]
pub enum Pull {
    /// That many bytes, at least one, are in the front of the buffer.
    Bytes(usize),
    /// The source has ended.
    End,
    /// The source failed, and gave nothing.
    Failed,
}

/// The answer of a push.
#[derive(Clone, Copy, Debug, PartialEq, Eq)]
pub enum Push {
    /// All bytes were taken.
    Done,
    /// The sink failed, and took none or some of the bytes.
    Failed,
}

/// Where bytes come from.
pub trait Source {
    /// What is seen of the source: the bytes left where it tells them, how many were taken and how
    /// often it failed, both up to the last value of a `u64`.
    ghost seen: { Self → SourceState };

    /// Takes the next bytes into the front of `buf`, which is not empty.
    fn pull(&mut self, buf: &mut [u8]) -> Pull
        requires { 0 < length buf.old }
        ensures { Pulls result buf.new (seen self.old) (seen self.new) };
}

/// Where bytes go.
pub trait Sink {
    /// What is seen of the sink: the bytes that it holds where it tells them, and how often it
    /// failed, up to the last value of a `u64`.
    ghost seen: { Self → SinkState };

    /// Appends `bytes` to what the sink holds.
    fn push(&mut self, bytes: &[u8]) -> Push
        ensures { Pushes result bytes.now (seen self.old) (seen self.new) };
}
