//! Why a run ends before its plan does.
ghost use Rattle.std.specs.Prelude.{◌≡◌, ◌∷◌, ◌++◌, [], OnOk};

use rx_script::PlanWhy;
use std::alloc::AllocError;
use thiserror::Error;

/// Why a run ends at a line.
#[derive(Clone, Copy, Debug, PartialEq, Eq, Error)]
pub enum Stop {
    #[error("{0}")]
    Refused(PlanWhy),
    #[error("a put failed")]
    SinkFault,
    #[error("out of memory")]
    OutOfMemory,
    /// One polling or one turn went on for 2^64 - 1 events.
    #[error("a polling or a turn came to no end")]
    Endless,
}

impl From<AllocError> for Stop {
    ghost use Rattle.std.specs.Prelude.{◌≡◌};
    ghost use Rattle.rx_stage.specs.declared.stop.Stop.TheVariants.{OutOfMemory};

    ghost from_gives = { λ _ stop. stop ≡ OutOfMemory };

    fn from(_: AllocError) -> Stop {
        Stop::OutOfMemory
    }
}

/// Puts one more behind the others of a list.
pub fn keep<T: Drop>(list: &mut Vec<T>, one: T) -> Result<(), AllocError>
    ensures { OnOk result (list.new.items ≡ list.old.items ++ one ∷ []) }
{
    list.push(one)?;
    Ok(())
}
