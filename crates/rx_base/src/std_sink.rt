//! Standard output and standard error.
//! No clause can say what reaches them: programs are run, and what arrives is compared.
ghost use Rattle.std.specs.Prelude.{◌≡◌, ℕ, None};

use crate::sink::{Failed, Sink};
use std::marker::Model;

/// The stream that a runtime prints to: standard output, or with the runtime's `stderr` standard error. It tells
/// nothing of the bytes put. Nothing is buffered: what a put answers was handed to the system.
#[derive(Debug, Drop)]
pub struct StdSink<'a, R: Print> {
    rt: &'a R,
    faults: u64,
}

// A contract sees how many puts failed.
impl<'a, R: Print> Model for StdSink<'a, R> {
    ghost Value = { ℕ };

    ghost view = { λ s. s.faults };
}

impl<'a, R: Print> StdSink<'a, R> {
    /// The runtime's stream, with no fault counted yet.
    pub fn make(rt: &'a R) -> StdSink<'a, R>
        ensures empty { result ≡ 0 }
    {
        StdSink { rt, faults: 0 }
    }
}

impl<'a, R: Print> Sink for StdSink<'a, R> {
    ghost told = { λ _. None };

    ghost faults = { λ faults. faults };

    fn put(&mut self, bytes: &[u8]) -> Result<(), Failed> {
        // A write of the system that takes nothing of what is left is an error of `write_all`.
        if self.rt.write_all(bytes).is_ok() {
            return Ok(());
        }
        self.faults = self.faults.saturating_add(1);
        Err(Failed)
    }

    fn discards(&self) -> bool {
        false
    }
}
