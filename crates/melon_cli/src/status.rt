ghost use Rattle.std.specs.Prelude.{◌≡◌};
ghost use Rattle.melon_cli.specs.Codes.{code_of};

/// How a run ended.
#[derive(Clone, Copy, Debug, PartialEq, Eq)]
pub enum Status {
    /// The input was read to its end, and every line was run.
    Done,
    /// The words are none that the program knows.
    BadWords,
    /// The first line outside the grammar, counted from 1. The lines before it were run.
    BadScript { line: u64 },
    /// The input failed; nothing was written.
    ReadFault,
    /// The output failed; what was written is a front of the text.
    WriteFault,
    /// Memory ran out; what was written is a front of the text.
    Memory,
    /// The input is longer than 16777216 bytes; nothing was written.
    TooLong,
}

impl Status {
    /// The number with which the program ends.
    pub fn code(&self) -> u8
        ensures { result ≡ code_of self.now }
    {
        match self {
            Status::Done => 0,
            Status::BadWords => 2,
            Status::BadScript { .. } => 3,
            Status::ReadFault => 4,
            Status::WriteFault => 5,
            Status::Memory => 6,
            Status::TooLong => 7,
        }
    }
}
