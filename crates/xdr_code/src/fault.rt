//! Why bytes are no value.

ghost use Rattle.std.specs.Prelude.{◌≡◌};
ghost use Rattle.xdr_code.specs.declared.fault.Stop.TheVariants.{Memory};

use std::alloc::{AllocError, AllocFailed};
use thiserror::Error;

/// What is wrong with an item: a bool that is neither 0 nor 1, an undeclared member of an enum, a
/// tag without an arm, a length above its bound, a number out of its range, padding that isn't zero.
#[derive(Clone, Copy, Debug, PartialEq, Eq, Error)]
pub enum Why {
    #[error("a bool that is neither 0 nor 1")]
    Bool,
    #[error("a number that no member of the enum has")]
    Enum,
    #[error("a tag without an arm")]
    Case,
    #[error("a length above its bound")]
    Length,
    #[error("a number out of its range")]
    Range,
    #[error("padding that isn't zero")]
    Padding,
}

/// What ends the reading, the first thing from the left.
#[derive(Clone, Copy, Debug, PartialEq, Eq, Error)]
pub enum Fault {
    /// A level too many begins.
    #[error("a level too many begins")]
    Deep,
    /// The bytes end, and more could follow.
    #[error("the bytes end too soon")]
    Short,
    /// An item that no value has there, with so many bytes left from its place on.
    #[error("{why}, {left} bytes before the end")]
    Bad { left: usize, why: Why },
}

/// Why a reading gave nothing.
#[derive(Debug, Drop, Error)]
pub enum Stop {
    #[error("out of memory")]
    Memory,
    #[error(transparent)]
    Fault(Fault),
}

impl From<AllocError> for Stop {
    ghost from_gives = { λ _ e. e ≡ Memory };

    fn from(_e: AllocError) -> Stop {
        Stop::Memory
    }
}

impl<T: Drop> From<AllocFailed<T>> for Stop {
    ghost from_gives = { λ _ e. e ≡ Memory };

    fn from(_e: AllocFailed<T>) -> Stop {
        Stop::Memory
    }
}
