// How a call of the program ended.
ghost use Rattle.std.specs.Prelude.{◌≡◌};
ghost use Rattle.run_outcome.specs.Code.{code_of};

/// How a call of the program ended, and what was written then.
#[derive(Clone, Copy, Debug, PartialEq, Eq, Hash)]
pub enum Status {
    /// The whole output was written.
    Done,
    /// The words aren't a command; the error line was written.
    Words,
    /// The input is no script, or one that isn't run; the error line was written.
    Script,
    /// The source failed; nothing was written.
    ReadFault,
    /// The sink failed; a prefix of the output was written.
    WriteFault,
    /// The store failed, or has no text of that name; nothing was written.
    StoreFault,
    /// The saved text isn't taken over; the error line was written.
    Saved,
    /// Memory was refused; nothing was written.
    NoMemory,
    /// The script, or the saved text, is longer than it may be; nothing was written.
    TooLong,
    /// The script's base has more rows than a table of the chip has room for; the error line was
    /// written.
    OpeningFull,
}

impl Status {
    /// The exit status of the program: 0 where the whole output was written.
    pub fn code(self) -> u8
        ensures { result ≡ code_of self }
    {
        match self {
            Status::Done => 0,
            Status::Words => 2,
            Status::Script => 3,
            Status::ReadFault => 4,
            Status::WriteFault => 5,
            Status::StoreFault => 6,
            Status::Saved => 7,
            Status::NoMemory => 8,
            Status::TooLong => 9,
            Status::OpeningFull => 10,
        }
    }
}
