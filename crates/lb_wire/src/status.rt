// How a whole run ended, and the exit status that says so.
ghost use Rattle.std.specs.Prelude.{◌≡◌};
ghost use Rattle.lb_wire.specs.Statuses.{number_of};

/// How a program's call ended.
#[derive(Clone, Copy, Debug, PartialEq, Eq)]
pub enum Status {
    /// The input was read to its end, and all was written.
    Done,
    /// The words of the command line have none of the known forms.
    BadWords,
    /// The source failed.
    ReadFault,
    /// The sink failed.
    WriteFault,
    /// Memory ran out.
    NoMemory,
    /// The source gave more bytes than are taken.
    TooLong,
    /// The form of the script is broken at this line, counted from 1.
    BadScript(u32),
    /// The script has more sessions than run at once.
    TooManySessions,
}

impl Status {
    /// The exit status of the program.
    pub fn number(self) -> u8
        ensures { result ≡ number_of self }
    {
        match self {
            Status::Done => 0,
            Status::BadWords => 2,
            Status::ReadFault => 3,
            Status::WriteFault => 4,
            Status::NoMemory => 5,
            Status::TooLong => 6,
            Status::BadScript(_) => 7,
            Status::TooManySessions => 8,
        }
    }
}
