ghost use Rattle.std.specs.Prelude.{◌≡◌, ◌<◌, ◌↔◌, length, replicate, slice_set, Some, None, IfOk, IfSome, IsNone};
ghost use Rattle.rx_due.specs.Book.{entries_of, IsLeast};
ghost use Rattle.rx_due.specs.Cost.{AtMost, AtMostForEntries};

use crate::heap::Heap;
use crate::steps::Steps;
use std::alloc::{AllocError, Global};
use std::marker::Model;
use std::sync::ledger::Ledger;

/// When each of a number of keys is due: a moment, or never. Moments are of the caller's unit.
///
/// It is a binary heap with a place for each key, so a key's moment is changed without a search.
#[derive(Debug, Drop)]
pub struct DueBook {
    heap: Heap,
}

impl Model for DueBook {
    ghost use Rattle.std.specs.Prelude.{ℕ, List, Option};
    ghost use Rattle.rx_due.specs.Heap.{moments, IsBook};

    ghost Value = { List (Option ℕ) };

    ghost view = { λ b. moments b.heap };

    ghost invariant = { λ b. IsBook b.heap };
}

impl DueBook {
    /// An empty book with room for every key below `keys`. This alone takes memory.
    pub fn make(alloc: Global, keys: u32) -> Result<DueBook, AllocError>
        ensures { IfOk result (λ book. book ≡ replicate keys None) }
    {
        let heap = Heap::make(alloc, keys)?;
        Ok(DueBook { heap })
    }

    /// Gives a key a moment, in place of the one that it may have.
    pub fn set<L: Ledger>(&mut self, key: u32, moment: u64, steps: &mut Steps<L>)
        requires { key < length self.old }
        ensures updates { self.new ≡ slice_set self.old key (Some moment) }
        ensures steps { AtMostForEntries (entries_of self.new) steps.old steps.new }
    {
        self.heap.set(key, moment, steps);
    }

    /// Takes the moment of a key away, if it has one.
    pub fn clear<L: Ledger>(&mut self, key: u32, steps: &mut Steps<L>)
        requires { key < length self.old }
        ensures updates { self.new ≡ slice_set self.old key None }
        ensures steps { AtMostForEntries (entries_of self.old) steps.old steps.new }
    {
        self.heap.clear(key, steps);
    }

    /// The least pair of moment and key, by moment and then by key. None where no key has a moment.
    pub fn first<L: Ledger>(&self, steps: &mut Steps<L>) -> Option<(u64, u32)>
        ensures empty { IsNone result ↔ (entries_of self.now ≡ 0) }
        ensures least { IfSome result (IsLeast self.now) }
        ensures within { IfSome result (λ pair. pair.1 < length self.now) }
        ensures steps { AtMost 1 steps.old steps.new }
    {
        self.heap.first(steps)
    }
}
