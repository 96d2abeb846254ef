ghost use Rattle.std.specs.Prelude.{◌≡◌};

/// How a run ended.
#[derive(Clone, Copy, Debug, PartialEq, Eq)]
pub enum Status {
    /// The source has ended, and every reply was written.
    Done,
    /// The words of the command line are not those of the program.
    BadWords,
    /// The source failed; what was written is the replies to lines before.
    ReadFault,
    /// The sink failed; what was written is a prefix of the replies.
    WriteFault,
    /// No memory was left; the replies that were written are whole.
    NoMemory,
    /// The source gave 4,294,967,296 bytes without an end; what was written is the replies to lines in them.
    InputSpent,
}

impl Status {
    ghost use Rattle.relayout_cli.specs.Statuses.{status_number};

    /// The status with which the process ends.
    pub fn number(self) -> u8
        ensures { result ≡ status_number self }
    {
        match self {
            Status::Done => 0,
            Status::BadWords => 2,
            Status::ReadFault => 3,
            Status::WriteFault => 4,
            Status::NoMemory => 5,
            Status::InputSpent => 6,
        }
    }
}
