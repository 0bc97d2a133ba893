//! How a run ends.

ghost use Rattle.std.specs.Prelude.{◌≡◌};

/// How a run ended. Its number is the status of the program.
#[derive(Clone, Copy, PartialEq, Eq)]
pub enum Status {
    /// The script was read to its end, and no command was refused.
    Done,
    /// The script was read to its end, and some command was refused.
    Refused,
    /// The words are none that the program takes.
    Usage,
    /// The source failed.
    ReadFault,
    /// The sink failed.
    WriteFault,
    /// The keeper failed.
    KeeperFault,
    /// Memory ran out.
    Memory,
    /// The script has more than 16777216 bytes, or a line of it more than 65536.
    TooLong,
}

impl Status {
    ghost use Rattle.sqla_shell.specs.Causes.{status_code};

    /// The number with which the program ends.
    pub fn code(self) -> u8
        ensures { result ≡ status_code self }
    {
        match self {
            Status::Done => 0,
            Status::Refused => 1,
            Status::Usage => 2,
            Status::ReadFault => 3,
            Status::WriteFault => 4,
            Status::KeeperFault => 5,
            Status::Memory => 6,
            Status::TooLong => 7,
        }
    }
}
