ghost use Rattle.std.specs.Prelude.{◌≡◌, ◌+◌, ◌<◌, length, replicate, slice_set, slice_index_or, IfOk};

use crate::steps::Steps;
use std::alloc::{AllocError, Global};
use std::marker::Model;
use std::sync::ledger::Ledger;

/// Cells of a fixed number, each with an entry of two numbers. Each look and each write at one is a step.
#[derive(Debug, Drop)]
pub struct Cells {
    entries: Vec<(u64, u32)>,
}

impl Model for Cells {
    ghost use Rattle.std.specs.Prelude.{ℕ, List};

    ghost Value = { List (ℕ × ℕ) };

    ghost view = { λ c. c.entries.items };
}

impl Cells {
    /// So many cells, each with (0, 0). It counts no step.
    pub fn make(alloc: Global, places: u32) -> Result<Cells, AllocError>
        ensures { IfOk result (λ cells. cells ≡ replicate places (0, 0)) }
    {
        let entries = vec![in alloc; (0, 0); places as usize]?;
        Ok(Cells { entries })
    }

    /// The entry of the cell at a place.
    pub fn at<L: Ledger>(&self, place: u32, steps: &mut Steps<L>) -> (u64, u32)
        requires { place < length self.now }
        ensures entry { result ≡ slice_index_or self.now place (0, 0) }
        ensures steps { steps.new ≡ steps.old + 1 }
    {
        steps.tick();
        self.entries[place as usize]
    }

    /// Writes an entry into the cell at a place.
    pub fn put<L: Ledger>(&mut self, place: u32, entry: (u64, u32), steps: &mut Steps<L>)
        requires { place < length self.old }
        ensures updates { self.new ≡ slice_set self.old place entry }
        ensures steps { steps.new ≡ steps.old + 1 }
    {
        steps.tick();
        self.entries[place as usize] = entry;
    }
}
