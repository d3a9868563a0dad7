//! Why a tree means no interface.

use std::alloc::{AllocError, AllocFailed};
use std::error::Error;
use std::fmt;
use xg_lex::Text;

/// The first fault of a tree. The kinds stand in the order in which they are looked for, and of
/// each kind the first place in the text counts.
#[derive(Debug, Drop)]
pub enum CheckFault {
    /// Two types, constants or procedures, two fields or arguments of one list, or two cases of
    /// the union of this name.
    Twice { name: Text },
    /// A type or a constant that isn't defined.
    Unknown { name: Text },
    /// A size, a value, a case or an encoding out of its range.
    Size { name: Text },
    /// A type that holds itself other than through optional data or a variable array.
    Endless { name: Text },
    /// A procedure that has no opcode of 32 bits.
    Opcode { name: Text },
    /// Two procedures with this opcode.
    OpcodeTwice { n: u32 },
    /// There is no memory for the interface.
    OutOfMemory,
}

impl From<AllocError> for CheckFault {
    ghost use Rattle.std.specs.Prelude.{◌≡◌};
    ghost use Rattle.xg_check.specs.declared.fault.CheckFault.TheVariants.{OutOfMemory};

    ghost from_gives = { λ e r. r ≡ OutOfMemory };

    fn from(_e: AllocError) -> CheckFault {
        CheckFault::OutOfMemory
    }
}

impl fmt::Display for CheckFault {
    ghost use Rattle.std.specs.Prelude.{Some};
    ghost use Rattle.xg_check.specs.Texts.{check_text};

    ghost output = { λ fault. Some (check_text fault) };

    fn fmt<W: fmt::Write>(&self, f: &mut fmt::Formatter<W>) -> fmt::Result {
        match self {
            CheckFault::Twice { name } => write!(f, "twice {}", name.as_str()),
            CheckFault::Unknown { name } => write!(f, "unknown {}", name.as_str()),
            CheckFault::Size { name } => write!(f, "size {}", name.as_str()),
            CheckFault::Endless { name } => write!(f, "endless {}", name.as_str()),
            CheckFault::Opcode { name } => write!(f, "opcode {}", name.as_str()),
            CheckFault::OpcodeTwice { n } => write!(f, "opcodetwice {n}"),
            CheckFault::OutOfMemory => f.write_str("out of memory"),
        }
    }
}

impl Error for CheckFault {}
