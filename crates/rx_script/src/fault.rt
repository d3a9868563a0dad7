//! Why a text is none.

ghost use Rattle.std.specs.Prelude.{◌≡◌};
ghost use Rattle.rx_script.specs.Causes.{line_why_text};

use std::alloc::{AllocError, AllocFailed};
use std::error::Error;
use std::fmt;

/// Why a line isn't taken.
#[derive(Clone, Copy, Debug, PartialEq, Eq)]
pub enum LineWhy {
    /// A word is unknown, misplaced, missing or surplus.
    Word,
    /// There is no such procedure.
    Proc,
    /// A word isn't the number, host or bytes that belong there, or is out of range.
    Number,
    /// There is no such argument, or it has the wrong direction or type.
    Arg,
    /// A JSON isn't read or doesn't fit; or the arguments of a call are no request.
    Json,
    /// The procedure isn't split, or its block lacks a stream that the line needs.
    Kind,
    /// It is there already: a block, a line of a block, an option, a host.
    Twice,
    /// There are more lines than a text may have.
    TooMany,
}

impl LineWhy {
    /// Its word as it is printed.
    pub fn as_str(self) -> &'static str
        ensures { result.now ≡ line_why_text self }
    {
        match self {
            LineWhy::Word => "word",
            LineWhy::Proc => "proc",
            LineWhy::Number => "number",
            LineWhy::Arg => "arg",
            LineWhy::Json => "json",
            LineWhy::Kind => "kind",
            LineWhy::Twice => "twice",
            LineWhy::TooMany => "toomany",
        }
    }
}

impl fmt::Display for LineWhy {
    ghost use Rattle.std.specs.Prelude.{Some};

    ghost output = { λ why. Some (line_why_text why) };

    fn fmt<W: fmt::Write>(&self, f: &mut fmt::Formatter<W>) -> fmt::Result {
        f.write_str(self.as_str())
    }
}

/// Why a text gives nothing.
#[derive(Clone, Copy, Debug, PartialEq, Eq)]
pub enum LineFault {
    /// The first line that isn't taken, counted from 1.
    BadLine { line: u32, why: LineWhy },
    OutOfMemory,
}

impl fmt::Display for LineFault {
    fn fmt<W: fmt::Write>(&self, f: &mut fmt::Formatter<W>) -> fmt::Result {
        match self {
            LineFault::BadLine { line, why } => write!(f, "line {line}: {why}"),
            LineFault::OutOfMemory => f.write_str("out of memory"),
        }
    }
}

impl Error for LineFault {}

impl From<AllocError> for LineFault {
    ghost use Rattle.rx_script.specs.declared.fault.LineFault.TheVariants.{OutOfMemory};

    ghost from_gives = { λ _ fault. fault ≡ OutOfMemory };

    fn from(_: AllocError) -> LineFault {
        LineFault::OutOfMemory
    }
}

impl<T: Drop> From<AllocFailed<T>> for LineFault {
    ghost use Rattle.rx_script.specs.declared.fault.LineFault.TheVariants.{OutOfMemory};

    ghost from_gives = { λ _ fault. fault ≡ OutOfMemory };

    fn from(_: AllocFailed<T>) -> LineFault {
        LineFault::OutOfMemory
    }
}

/// Why a line gives nothing: it is refused, or there is no memory for it.
#[derive(Clone, Copy, Debug, PartialEq, Eq)]
pub enum Refusal {
    Bad(LineWhy),
    OutOfMemory,
}

impl From<LineWhy> for Refusal {
    ghost use Rattle.rx_script.specs.declared.fault.Refusal.TheVariants.{Bad};

    ghost from_gives = { λ why r. r ≡ Bad why };

    fn from(why: LineWhy) -> Refusal {
        Refusal::Bad(why)
    }
}

impl From<AllocError> for Refusal {
    ghost use Rattle.rx_script.specs.declared.fault.Refusal.TheVariants.{OutOfMemory};

    ghost from_gives = { λ _ r. r ≡ OutOfMemory };

    fn from(_: AllocError) -> Refusal {
        Refusal::OutOfMemory
    }
}

impl<T: Drop> From<AllocFailed<T>> for Refusal {
    ghost use Rattle.rx_script.specs.declared.fault.Refusal.TheVariants.{OutOfMemory};

    ghost from_gives = { λ _ r. r ≡ OutOfMemory };

    fn from(_: AllocFailed<T>) -> Refusal {
        Refusal::OutOfMemory
    }
}
