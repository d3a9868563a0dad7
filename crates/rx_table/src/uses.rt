ghost use Rattle.std.specs.Prelude.{◌≡◌, ◌≤◌, ◌<◌, ◌+◌, ◌*◌, ◌^◌, ℕ, [], Some, None, length, replicate, slice_set};
ghost use Rattle.std.specs.Prelude.{vec_capacity, IfOk, IfSome, IsNone};
ghost use Rattle.rx_due.specs.Book.{entries_of, moment_of};
ghost use Rattle.rx_due.specs.Cost.{AtMost, AtMostForEntries};
ghost use Rattle.rx_table.specs.Uses.{AreSeated, AreTaken, AreWithin, IsFirstFree, NoneIsFree, held_among, with_aside};
ghost use Rattle.rx_table.specs.declared.seat.TheConstants.{CHANNELS};

use crate::seat::{CHANNELS, Seat};
use crate::seats::has_live;
use rx_due::{DueBook, Steps};
use rx_model::wire::IDLE_MS;
use std::alloc::{AllocError, Global};
use std::marker::{Brand, Model};
use std::sync::ledger::{Blank, Ledger};

/// When the connection at each place was used last, in milliseconds, in the order of that and then of places.
#[derive(Debug, Drop)]
pub struct Uses {
    book: DueBook,
    /// Room for what is out of the book while it is gone through.
    aside: Vec<(u64, u32)>,
}

impl Model for Uses {
    ghost use Rattle.std.specs.Prelude.{◌≡◌, ◌≤◌, ℕ, List, [], Option, length, vec_capacity};

    ghost Value = { List (Option ℕ) };

    ghost view = { λ u. u.book };

    ghost invariant = { λ u. (u.aside.items ≡ []) × (length u.book ≤ vec_capacity u.aside) };
}

impl Uses {
    /// The uses of no connection yet, with room for so many places.
    pub fn make(alloc: Global, room: u32) -> Result<Uses, AllocError>
        ensures { IfOk result (λ uses. uses ≡ replicate room None) }
    {
        let book = DueBook::make(alloc, room)?;
        let aside = Vec::with_capacity(alloc, room as usize)?;
        Ok(Uses { book, aside })
    }

    /// The connection at a place is used now, and was used last at that moment before.
    pub fn renew<L: Ledger>(&mut self, place: u32, before: u64, now: u64, steps: &mut Steps<L>)
        requires place { place < length self.old }
        requires before { moment_of self.old place ≡ Some before }
        ensures updates { self.new ≡ slice_set self.old place (Some now) }
        ensures steps { (n : ℕ) → entries_of self.new ≤ n → AtMostForEntries n steps.old steps.new }
    {
        if before != now {
            self.book.set(place, now, steps);
        }
    }

    /// A connection comes to a place now. It has a counter of its own.
    pub fn enter(&mut self, place: u32, now: u64)
        requires { place < length self.old }
        ensures { self.new ≡ slice_set self.old place (Some now) }
    {
        self.enter_counted::<Brand>(place, now, Blank::new(1));
    }

    fn enter_counted<L: Ledger>(&mut self, place: u32, now: u64, blank: Blank)
        requires place { place < length self.old }
        requires name { blank.name ≡ L.name }
        requires parts { blank.parts ≡ L.parts }
        requires counts { 0 < blank.parts }
        ensures { self.new ≡ slice_set self.old place (Some now) }
    {
        let mut steps = Steps::<L>::new(blank);
        self.book.set(place, now, &mut steps);
    }

    /// The place that was used the longest ago, and not for 600,000 milliseconds, of those at whose seats no call
    /// lives.
    pub fn first_free<L: Ledger>(
        &mut self,
        seats: &[Seat],
        now: u64,
        steps: &mut Steps<L>,
    ) -> Option<u32>
        requires { AreSeated self.old seats.now }
        ensures free { IfSome result (IsFirstFree self.old seats.now now) }
        ensures none { IsNone result → NoneIsFree self.old seats.now now }
        ensures same { self.new ≡ self.old }
        ensures steps { (d : ℕ) → 2 * length self.old + 1 < 2 ^ (d + 1) →
            AtMost ((held_among now self.old seats.now + 1) * (16 * d + 17)) steps.old steps.new }
    {
        let found = take_held(&mut self.book, &mut self.aside, seats, now, steps);
        put_back(&mut self.book, &mut self.aside, steps);
        found
    }
}

/// Goes through a book in its order, up to the first place at whose seats no call lives. Those before it go aside.
fn take_held<L: Ledger>(
    book: &mut DueBook,
    aside: &mut Vec<(u64, u32)>,
    seats: &[Seat],
    now: u64,
    steps: &mut Steps<L>,
) -> Option<u32>
    requires seated { AreSeated book.old seats.now }
    requires aside { aside.old.items ≡ [] }
    requires room { length book.old ≤ vec_capacity aside.old }
    ensures free { IfSome result (IsFirstFree book.old seats.now now) }
    ensures none { IsNone result → NoneIsFree book.old seats.now now }
    ensures taken { AreTaken now seats.now book.old book.new aside.new.items }
    ensures capacity { vec_capacity aside.new ≡ vec_capacity aside.old }
    ensures steps { (d : ℕ) → 2 * length book.old + 1 < 2 ^ (d + 1) →
        AtMost (length aside.new.items * (8 * d + 9) + 1) steps.old steps.new }
{
    'held: while let Some((since, place)) = book.first(steps) {
        if now.saturating_sub(since) < IDLE_MS {
            return None;
        }
        let first = place as usize * CHANNELS as usize;
        if !has_live(&seats[first..first + CHANNELS as usize]) {
            return Some(place);
        }
        book.clear(place, steps);
        aside.push_reserved((since, place));
    }
    None
}

/// What went aside stands in its book again.
fn put_back<L: Ledger>(book: &mut DueBook, aside: &mut Vec<(u64, u32)>, steps: &mut Steps<L>)
    requires { AreWithin (length book.old) aside.old.items }
    ensures book { book.new ≡ with_aside book.old aside.old.items }
    ensures aside { aside.new.items ≡ [] }
    ensures capacity { vec_capacity aside.new ≡ vec_capacity aside.old }
    ensures steps { (d : ℕ) → 2 * length book.old + 1 < 2 ^ (d + 1) →
        AtMost (length aside.old.items * (8 * d + 8)) steps.old steps.new }
{
    'aside: while let Some((since, place)) = aside.pop() {
        book.set(place, since, steps);
    }
}
