//! Why a stub gives nothing.

ghost use Rattle.std.specs.Prelude.{◌≡◌};
ghost use Rattle.stub_table.specs.declared.fault.StubFault.TheVariants.{OutOfMemory};

use std::alloc::{AllocError, AllocFailed};
use thiserror::Error;

/// One of rxgen's codes, or want of memory.
#[derive(Clone, Copy, Debug, PartialEq, Eq, Error)]
pub enum StubFault {
    #[error("code {0}")]
    Code(i32),
    #[error("out of memory")]
    OutOfMemory,
}

impl From<AllocError> for StubFault {
    ghost from_gives = { λ _ e. e ≡ OutOfMemory };

    fn from(_e: AllocError) -> StubFault {
        StubFault::OutOfMemory
    }
}

impl<T: Drop> From<AllocFailed<T>> for StubFault {
    ghost from_gives = { λ _ e. e ≡ OutOfMemory };

    fn from(_e: AllocFailed<T>) -> StubFault {
        StubFault::OutOfMemory
    }
}
