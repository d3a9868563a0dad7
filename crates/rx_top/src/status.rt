//! How the program ends.

ghost use Rattle.std.specs.Prelude.{◌≡◌};
ghost use Rattle.rx_top.specs.Endings.{number_of};

/// How the program ended.
#[derive(Clone, Copy, Debug, PartialEq, Eq)]
pub enum Status {
    /// The command was done whole.
    Ok,
    /// The words aren't a command.
    Usage,
    /// A file, a line of a plan, the arguments of a call or its reply are refused; the cause was said on `err`.
    Refused,
    /// The call was ended by a code.
    Aborted,
    /// The call ended in silence.
    Dead,
    /// There is no memory for the command.
    Memory,
    /// A file can't be read; its name was said on `err`.
    FileFault,
    /// `out` takes no more bytes.
    SinkFault,
    /// A bind, a take or a give of the wire failed.
    WireFault,
    /// All takes were made before the end came.
    TurnsSpent,
}

impl Status {
    /// The exit status of the program.
    pub fn number(self) -> u8
        ensures { result ≡ number_of self }
    {
        match self {
            Status::Ok => 0,
            Status::Usage => 1,
            Status::Refused => 2,
            Status::Aborted => 3,
            Status::Dead => 4,
            Status::Memory => 5,
            Status::FileFault => 6,
            Status::SinkFault => 7,
            Status::WireFault => 8,
            Status::TurnsSpent => 9,
        }
    }
}
