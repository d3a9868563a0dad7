ghost use Rattle.std.specs.Prelude.{◌≡◌, ◌+◌, ◌*◌, ◌^◌, ◌<◌, ◌≤◌, ◌↔◌, ℕ, length, replicate};
ghost use Rattle.std.specs.Prelude.{MatchOption, IsTrue, Some, None, IfOk, IfSome, IsNone};
ghost use Rattle.rx_due.specs.Cost.{AtMost, AtMostForEntries};
ghost use Rattle.rx_due.specs.Heap.{IsAboveNoGreater, IsBelowNoLess, IsGreaterAbove, IsLeastBelow, IsLessBelow};
ghost use Rattle.rx_due.specs.Heap.{IsHeap, IsOpen, IsSized, KeepsOthers, len_with, len_without};
ghost use Rattle.rx_due.specs.Heap.{entry_at, moment_in, place_of, rank, stood};

use crate::cells::Cells;
use crate::steps::Steps;
use std::alloc::{AllocError, Global};
use std::sync::ledger::Ledger;

/// The place of a key that has no entry.
const NO_PLACE: (u64, u32) = (0, 0);

/// A binary heap of pairs of moment and key, in two rows of cells. The two below place i are 2i + 1 and 2i + 2.
#[derive(Debug, Drop)]
pub struct Heap {
    /// Pairs of moment and key. The first `len` count.
    pub entries: Cells,
    /// By key: one more than the place of its entry, or 0 where it has none.
    pub places: Cells,
    pub len: u32,
}

/// An entry with its place.
#[derive(Drop)]
struct Standing {
    place: u32,
    entry: (u64, u32),
}

/// Whether a pair of moment and key is before another: by moment, then by key.
fn comes_before(a: (u64, u32), b: (u64, u32)) -> bool
    ensures { IsTrue result ↔ (rank a < rank b) }
{
    a < b
}

impl Heap {
    /// A heap with no entry, and room for every key below a number.
    pub fn make(alloc: Global, keys: u32) -> Result<Heap, AllocError>
        ensures entries { IfOk result (λ h. h.entries ≡ replicate keys (0, 0)) }
        ensures places { IfOk result (λ h. h.places ≡ replicate keys (0, 0)) }
        ensures len { IfOk result (λ h. h.len ≡ 0) }
    {
        Ok(Heap {
            entries: Cells::make(alloc, keys)?,
            places: Cells::make(alloc, keys)?,
            len: 0,
        })
    }

    /// Writes an entry into the cell at a place, and its key's place.
    fn stand<L: Ledger>(&mut self, place: u32, entry: (u64, u32), steps: &mut Steps<L>)
        requires place { place < length self.old.entries }
        requires key { entry.1 < length self.old.places }
        ensures stood { self.new ≡ stood self.old place entry }
        ensures steps { steps.new ≡ steps.old + 2 }
    {
        self.entries.put(place, entry, steps);
        self.places.put(entry.1, (place as u64 + 1, 0), steps);
    }

    /// Where the entry of a key stands, if it has one.
    fn place_of<L: Ledger>(&self, key: u32, steps: &mut Steps<L>) -> Option<u32>
        requires heap { IsHeap self.now }
        requires key { key < length self.now.places }
        ensures found { MatchOption result
            (place_of self.now key ≡ 0) (λ place. place_of self.now key ≡ place + 1) }
        ensures steps { steps.new ≡ steps.old + 1 }
    {
        let place = self.places.at(key, steps).0;
        if place == NO_PLACE.0 {
            None
        } else {
            Some((place - 1) as u32)
        }
    }

    /// What stands above a place, if it comes after an entry.
    fn after_above<L: Ledger>(
        &self,
        place: u32,
        entry: (u64, u32),
        steps: &mut Steps<L>,
    ) -> Option<Standing>
        requires sized { IsSized self.now }
        requires within { place < self.now.len }
        ensures found { MatchOption result
            (IsAboveNoGreater self.now place entry) (IsGreaterAbove self.now place entry) }
        ensures steps { AtMost 1 steps.old steps.new }
    {
        if place == 0 {
            return None;
        }
        let above = (place - 1) / 2;
        let standing = self.entries.at(above, steps);
        if comes_before(entry, standing) {
            Some(Standing {
                place: above,
                entry: standing,
            })
        } else {
            None
        }
    }

    /// The least of what stands below a place.
    fn least_below<L: Ledger>(&self, place: u32, steps: &mut Steps<L>) -> Option<Standing>
        requires sized { IsSized self.now }
        requires within { place < self.now.len }
        ensures found { MatchOption result (self.now.len ≤ 2 * place + 1) (IsLeastBelow self.now place) }
        ensures steps { AtMost 2 steps.old steps.new }
    {
        let left = 2 * place as u64 + 1;
        if left >= self.len as u64 {
            return None;
        }
        let left = left as u32;
        let first = self.entries.at(left, steps);
        let right = left + 1;
        if right >= self.len {
            return Some(Standing {
                place: left,
                entry: first,
            });
        }
        let second = self.entries.at(right, steps);
        if comes_before(second, first) {
            Some(Standing {
                place: right,
                entry: second,
            })
        } else {
            Some(Standing {
                place: left,
                entry: first,
            })
        }
    }

    /// The least of what stands below a place, if it comes before an entry.
    fn before_below<L: Ledger>(
        &self,
        place: u32,
        entry: (u64, u32),
        steps: &mut Steps<L>,
    ) -> Option<Standing>
        requires sized { IsSized self.now }
        requires within { place < self.now.len }
        ensures found { MatchOption result
            (IsBelowNoLess self.now place entry) (IsLessBelow self.now place entry) }
        ensures steps { AtMost 2 steps.old steps.new }
    {
        match self.least_below(place, steps) {
            Some(least) => {
                if comes_before(least.entry, entry) {
                    Some(least)
                } else {
                    None
                }
            }
            None => None,
        }
    }

    /// Moves a hole up, past each entry that is to stand below the new one.
    fn lift<L: Ledger>(&mut self, hole: u32, entry: (u64, u32), steps: &mut Steps<L>) -> u32
        requires open { IsOpen self.old hole entry.1 }
        ensures open { IsOpen self.new result entry.1 }
        ensures above { IsAboveNoGreater self.new result entry }
        ensures keeps { KeepsOthers self.old self.new entry.1 }
        ensures steps { (d : ℕ) → 2 * self.old.len + 1 < 2 ^ (d + 1) → AtMost (3 * d) steps.old steps.new }
    {
        let mut place = hole;
        while let Some(above) = self.after_above(place, entry, steps) {
            self.stand(place, above.entry, steps);
            place = above.place;
        }
        place
    }

    /// Moves a hole down, past each entry that is to stand above the new one.
    fn sink<L: Ledger>(&mut self, hole: u32, entry: (u64, u32), steps: &mut Steps<L>) -> u32
        requires open { IsOpen self.old hole entry.1 }
        requires above { IsAboveNoGreater self.old hole entry }
        ensures open { IsOpen self.new result entry.1 }
        ensures above { IsAboveNoGreater self.new result entry }
        ensures below { IsBelowNoLess self.new result entry }
        ensures keeps { KeepsOthers self.old self.new entry.1 }
        ensures steps { (d : ℕ) → 2 * self.old.len + 1 < 2 ^ (d + 1) → AtMost (4 * d) steps.old steps.new }
    {
        let mut place = hole;
        while let Some(below) = self.before_below(place, entry, steps) {
            self.stand(place, below.entry, steps);
            place = below.place;
        }
        place
    }

    /// Fills a hole with an entry, where its rank puts it.
    fn settle<L: Ledger>(&mut self, hole: u32, entry: (u64, u32), steps: &mut Steps<L>)
        requires open { IsOpen self.old hole entry.1 }
        ensures heap { IsHeap self.new }
        ensures moment { moment_in self.new entry.1 ≡ Some entry.0 }
        ensures keeps { KeepsOthers self.old self.new entry.1 }
        ensures steps { (d : ℕ) → 2 * self.old.len + 1 < 2 ^ (d + 1) → AtMost (7 * d + 2) steps.old steps.new }
    {
        let hole = self.lift(hole, entry, steps);
        let hole = self.sink(hole, entry, steps);
        self.stand(hole, entry, steps);
    }

    /// Where the entry of a key is to stand first: where it stands, or behind all others.
    fn hole_for<L: Ledger>(&mut self, key: u32, steps: &mut Steps<L>) -> u32
        requires heap { IsHeap self.old }
        requires key { key < length self.old.places }
        requires room { place_of self.old key ≡ 0 → self.old.len < length self.old.entries }
        ensures open { IsOpen self.new result key }
        ensures cells { self.new ≡ record self.old { len = len_with self.old key } }
        ensures steps { steps.new ≡ steps.old + 1 }
    {
        match self.place_of(key, steps) {
            Some(place) => place,
            None => {
                let last = self.len;
                self.len += 1;
                last
            }
        }
    }

    /// Whether a key has this moment.
    fn has<L: Ledger>(&self, key: u32, moment: u64, steps: &mut Steps<L>) -> bool
        requires heap { IsHeap self.now }
        requires key { key < length self.now.places }
        ensures has { IsTrue result → moment_in self.now key ≡ Some moment }
        ensures len { IsTrue result → len_with self.now key ≡ self.now.len }
        ensures steps { AtMost 2 steps.old steps.new }
    {
        match self.place_of(key, steps) {
            Some(place) => self.entries.at(place, steps).0 == moment,
            None => false,
        }
    }

    /// Gives a key a moment, in place of the one that it may have. Where it has that one, nothing is written.
    pub fn set<L: Ledger>(&mut self, key: u32, moment: u64, steps: &mut Steps<L>)
        requires heap { IsHeap self.old }
        requires key { key < length self.old.places }
        requires room { place_of self.old key ≡ 0 → self.old.len < length self.old.entries }
        ensures heap { IsHeap self.new }
        ensures moment { moment_in self.new key ≡ Some moment }
        ensures keeps { KeepsOthers (record self.old { len = len_with self.old key }) self.new key }
        ensures steps { AtMostForEntries self.new.len steps.old steps.new }
    {
        if self.has(key, moment, steps) {
            return;
        }
        let hole = self.hole_for(key, steps);
        self.settle(hole, (moment, key), steps);
    }

    /// Takes the place of a key away. The hole that is left among the entries then goes to the last of them, if it
    /// isn't the last itself.
    pub fn clear<L: Ledger>(&mut self, key: u32, steps: &mut Steps<L>)
        requires heap { IsHeap self.old }
        requires key { key < length self.old.places }
        ensures heap { IsHeap self.new }
        ensures moment { moment_in self.new key ≡ None }
        ensures keeps { KeepsOthers (record self.old { len = len_without self.old key }) self.new key }
        ensures steps { AtMostForEntries self.old.len steps.old steps.new }
    {
        let Some(hole) = self.place_of(key, steps) else {
            return;
        };
        self.places.put(key, NO_PLACE, steps);
        self.len -= 1;
        if hole < self.len {
            let last = self.entries.at(self.len, steps);
            self.settle(hole, last, steps);
        }
    }

    /// The least pair of moment and key.
    pub fn first<L: Ledger>(&self, steps: &mut Steps<L>) -> Option<(u64, u32)>
        requires { IsHeap self.now }
        ensures none { IsNone result ↔ (self.now.len ≡ 0) }
        ensures some { IfSome result (λ pair. pair ≡ entry_at self.now 0) }
        ensures steps { AtMost 1 steps.old steps.new }
    {
        if self.len == 0 {
            None
        } else {
            Some(self.entries.at(0, steps))
        }
    }
}
