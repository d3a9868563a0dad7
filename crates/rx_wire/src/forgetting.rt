//! A journal that forgets.
ghost use Rattle.std.specs.Prelude.{None, false};

use crate::journal::Journal;
use rx_model::{Event, Host, Took};
use std::alloc::AllocError;

/// A journal that tells nothing and refuses nothing.
#[derive(Debug, Drop)]
pub struct Forgetting;

impl Journal for Forgetting {
    ghost told = { λ s. None };

    ghost may_want = { false };

    fn note(&mut self, node: u32, event: &Event) -> Result<(), AllocError> {
        Ok(())
    }

    fn note_taken(
        &mut self,
        node: u32,
        from: Host,
        bytes: &[u8],
        got: Took,
    ) -> Result<(), AllocError> {
        Ok(())
    }

    fn note_polled(&mut self, node: u32, to: Host, bytes: &[u8]) -> Result<(), AllocError> {
        Ok(())
    }
}
