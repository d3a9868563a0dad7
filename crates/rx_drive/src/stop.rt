//! Why a run over nodes ends before it is done.
ghost use Rattle.std.specs.Prelude.{◌≡◌};

use std::alloc::AllocError;
use thiserror::Error;

/// Why a run over nodes ends before it is done.
#[derive(Clone, Copy, Debug, PartialEq, Eq, Error)]
pub enum Stop {
    #[error("a put failed")]
    SinkFault,
    #[error("a call of the wire failed")]
    WireFault,
    /// A handler, a caller or what carries datagrams wanted it.
    #[error("out of memory")]
    OutOfMemory,
    #[error("no memory for the text of a line")]
    Unformatted,
    #[error("no memory for a note")]
    Unnoted,
    /// So many events are 2^64 - 1.
    #[error("a polling or a turn came to no end")]
    Endless,
}

impl From<AllocError> for Stop {
    ghost use Rattle.std.specs.Prelude.{◌≡◌};
    ghost use Rattle.rx_drive.specs.declared.stop.Stop.TheVariants.{OutOfMemory};

    ghost from_gives = { λ _ stop. stop ≡ OutOfMemory };

    fn from(_: AllocError) -> Stop {
        Stop::OutOfMemory
    }
}
