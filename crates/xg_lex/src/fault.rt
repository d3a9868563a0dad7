//! Why a text has no tokens.

ghost use Rattle.std.specs.Prelude.{◌≡◌};
ghost use Rattle.xg_lex.specs.Faults.{fault_text};

use std::alloc::{AllocError, AllocFailed};
use std::error::Error;
use std::fmt;

/// The first fault of a text, with its line, counted from 1.
#[derive(Clone, Copy, Debug, PartialEq, Eq)]
pub enum LexFault {
    /// A line begins with `#` and isn't `#`, spaces, digits, spaces and a text in double quotes.
    BadLine { line: u32 },
    /// A number has a wrong digit, is followed at once by a letter, or is above 2^64 - 1.
    BadNumber { line: u32 },
    /// A character stands for nothing there, or a comment doesn't end.
    BadChar { line: u32 },
    /// There is no memory for the tokens.
    OutOfMemory,
}

impl LexFault {
    /// Its word as it is printed.
    pub fn as_str(self) -> &'static str
        ensures { result.now ≡ fault_text self }
    {
        match self {
            LexFault::BadLine { .. } => "badline",
            LexFault::BadNumber { .. } => "badnumber",
            LexFault::BadChar { .. } => "badchar",
            LexFault::OutOfMemory => "out of memory",
        }
    }
}

impl From<AllocError> for LexFault {
    ghost use Rattle.std.specs.Prelude.{◌≡◌};
    ghost use Rattle.xg_lex.specs.declared.fault.LexFault.TheVariants.{OutOfMemory};

    ghost from_gives = { λ _ fault. fault ≡ OutOfMemory };

    fn from(_: AllocError) -> LexFault {
        LexFault::OutOfMemory
    }
}

impl<T: Drop> From<AllocFailed<T>> for LexFault {
    ghost use Rattle.std.specs.Prelude.{◌≡◌};
    ghost use Rattle.xg_lex.specs.declared.fault.LexFault.TheVariants.{OutOfMemory};

    ghost from_gives = { λ _ fault. fault ≡ OutOfMemory };

    fn from(_: AllocFailed<T>) -> LexFault {
        LexFault::OutOfMemory
    }
}

impl fmt::Display for LexFault {
    ghost use Rattle.std.specs.Prelude.{Some};
    ghost use Rattle.xg_lex.specs.Faults.{fault_text};

    ghost output = { λ fault. Some (fault_text fault) };

    fn fmt<W: fmt::Write>(&self, f: &mut fmt::Formatter<W>) -> fmt::Result {
        f.write_str(self.as_str())
    }
}

impl Error for LexFault {}
