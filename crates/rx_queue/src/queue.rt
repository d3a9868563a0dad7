ghost use Rattle.std.specs.Prelude.{◌≡◌, ◌<◌, ◌==◌, ◌++◌, ◌∷◌, ◌^◌, ◌≤◌, ℕ, not, true, false, [], filter, find, length};
ghost use Rattle.std.specs.Prelude.{Some, None, slice_set, slice_index_or, IfOk, IfSome, replicate};
ghost use Rattle.rx_due.specs.Book.{entries_of};
ghost use Rattle.rx_due.specs.Cost.{AtMost, AtMostForEntries};
ghost use Rattle.rx_queue.specs.Queue.{is_listed, is_ready};

use crate::book::{clear, set};
use crate::renumber::next_number;
use rx_due::{DueBook, Steps};
use std::alloc::{AllocError, Global};
use std::marker::Model;
use std::sync::ledger::Ledger;

/// Keys in the order in which they came, each once, some of them ready.
///
/// Each that comes has a number above those of all before it, and those that are ready stand in a book by that number.
#[derive(Debug, Drop)]
pub struct Queue {
    /// By key: its number, where it came.
    counts: Vec<Option<u64>>,
    ready: DueBook,
    /// The number of the next.
    next: u64,
}

impl Model for Queue {
    ghost use Rattle.rx_queue.specs.Counts.{IsQueue, order_of};
    ghost use Rattle.rx_queue.specs.Queue.{QueueState};

    ghost Value = { QueueState };

    ghost view = { λ q. record { order = order_of q.counts.items q.next; ready = q.ready } };

    ghost invariant = { λ q. IsQueue q.counts.items q.ready q.next };
}

impl Queue {
    /// An empty queue with room for every key below `keys`. This alone takes memory.
    pub fn make(alloc: Global, keys: u32) -> Result<Queue, AllocError>
        ensures empty { IfOk result (λ q. q.order ≡ []) }
        ensures ready { IfOk result (λ q. q.ready ≡ replicate keys None) }
    {
        let counts = vec![in alloc; None; keys as usize]?;
        let ready = DueBook::make(alloc, keys)?;
        Ok(Queue {
            counts,
            ready,
            next: 0,
        })
    }

    /// A key comes behind all others. It isn't ready.
    pub fn push(&mut self, key: u32)
        requires key { key < length self.old.ready }
        requires fresh { is_listed self.old key ≡ false }
        ensures order { self.new.order ≡ self.old.order ++ key ∷ [] }
        ensures room { length self.new.ready ≡ length self.old.ready }
        ensures ready { (q : ℕ) → is_ready self.old q ≡ true → is_ready self.new q ≡ true }
    {
        let number = next_number(&mut self.counts, &mut self.ready, self.next);
        self.counts[key as usize] = Some(number);
        self.next = number + 1;
    }

    /// A key goes, if it came.
    pub fn remove<L: Ledger>(&mut self, key: u32, steps: &mut Steps<L>)
        requires { key < length self.old.ready }
        ensures order { self.new.order ≡ filter (λ k. not (k == key)) self.old.order }
        ensures ready { self.new.ready ≡ slice_set self.old.ready key None }
        ensures steps { AtMostForEntries (entries_of self.old.ready) steps.old steps.new }
    {
        self.counts[key as usize] = None;
        self.ready.clear(key, steps);
    }

    /// The same, with a counter of its own.
    pub fn remove_now(&mut self, key: u32)
        requires { key < length self.old.ready }
        ensures order { self.new.order ≡ filter (λ k. not (k == key)) self.old.order }
        ensures ready { self.new.ready ≡ slice_set self.old.ready key None }
    {
        self.counts[key as usize] = None;
        clear(&mut self.ready, key);
    }

    /// A key is ready, if it came.
    pub fn admit(&mut self, key: u32)
        requires { key < length self.old.ready }
        ensures order { self.new.order ≡ self.old.order }
        ensures room { length self.new.ready ≡ length self.old.ready }
        ensures keeps { (q : ℕ) → is_ready self.old q ≡ true → is_ready self.new q ≡ true }
        ensures ready { is_listed self.old key ≡ true → is_ready self.new key ≡ true }
    {
        if let Some(count) = self.counts[key as usize] {
            set(&mut self.ready, key, count);
        }
    }

    /// A key is no longer ready.
    pub fn hold<L: Ledger>(&mut self, key: u32, steps: &mut Steps<L>)
        requires { key < length self.old.ready }
        ensures order { self.new.order ≡ self.old.order }
        ensures ready { self.new.ready ≡ slice_set self.old.ready key None }
        ensures steps { AtMostForEntries (entries_of self.old.ready) steps.old steps.new }
    {
        self.ready.clear(key, steps);
    }

    /// The key that came first of those that are ready.
    pub fn first<L: Ledger>(&self, steps: &mut Steps<L>) -> Option<u32>
        ensures first { result ≡ find (is_ready self.now) self.now.order }
        ensures within { IfSome result (λ key. key < length self.now.ready) }
        ensures ready { IfSome result (λ key. is_ready self.now key ≡ true) }
        ensures steps { AtMost 1 steps.old steps.new }
    {
        let (_count, key) = self.ready.first(steps)?;
        Some(key)
    }

    /// Each key that is ready came.
    pub fn each_came(&self)
        ensures { (key : ℕ) → is_ready self.now key ≡ true → is_listed self.now key ≡ true }
    {
        let _next = self.next;
    }
}
