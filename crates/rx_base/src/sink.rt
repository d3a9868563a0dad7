//! Where bytes are put.
ghost use Rattle.std.specs.Prelude.{◌≡◌, ℕ, List, None, Option, OnOk, OnErr, true};
ghost use Rattle.rx_base.specs.Sink.{Gained, GainedSome, HasRisen};

use std::error::Error;
use std::fmt;

/// A put that failed. The sink has counted it.
#[derive(Clone, Copy, Debug, PartialEq, Eq)]
pub struct Failed;

impl fmt::Display for Failed {
    fn fmt<W: fmt::Write>(&self, f: &mut fmt::Formatter<W>) -> fmt::Result {
        f.write_str("the sink takes no more bytes")
    }
}

impl Error for Failed {}

/// Where bytes are put, as a terminal or a buffer.
pub trait Sink {
    /// The bytes put, where they are told.
    ghost told: { Self → Option (List ℕ) };

    /// How many puts failed.
    ghost faults: { Self → ℕ };

    /// Puts all the bytes, in order. After Failed the sink has got the first of them, or none.
    fn put(&mut self, bytes: &[u8]) -> Result<(), Failed>
        ensures ok { OnOk result (Gained (told self.old) (told self.new) bytes.now) }
        ensures same { OnOk result (faults self.new ≡ faults self.old) }
        ensures err { OnErr result (GainedSome (told self.old) (told self.new) bytes.now) }
        ensures counted { OnErr result (HasRisen (faults self.old) (faults self.new)) };

    /// Whether what is put is thrown away: then no text has to be made for it.
    fn discards(&self) -> bool
        ensures { result ≡ true → told self.now ≡ None };

    /// How many milliseconds have gone by since the sink was made, where it is time to show how far a command is: a few
    /// times a second on a terminal, and never elsewhere.
    fn shows(&mut self) -> Option<u64>
        ensures told { told self.new ≡ told self.old }
        ensures faults { faults self.new ≡ faults self.old }
    {
        None
    }

    /// Shows a line in the place of the one that it showed before, or takes that away where there is no text. What is
    /// shown isn't put, and no fault of it counts.
    fn show(&mut self, _line: &str)
        ensures told { told self.new ≡ told self.old }
        ensures faults { faults self.new ≡ faults self.old }
    {}
}
