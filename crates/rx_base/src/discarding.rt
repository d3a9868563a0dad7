//! A sink that throws away what is put.
ghost use Rattle.std.specs.Prelude.{None};

use crate::sink::{Failed, Sink};

/// A sink that tells nothing and takes whatever is put.
#[derive(Debug, Drop)]
pub struct Discarding;

impl Sink for Discarding {
    ghost told = { λ s. None };

    ghost faults = { λ s. 0 };

    fn put(&mut self, bytes: &[u8]) -> Result<(), Failed> {
        Ok(())
    }

    fn discards(&self) -> bool {
        true
    }
}
