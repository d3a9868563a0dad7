ghost use Rattle.std.specs.Prelude.{◌≡◌, ◌≤◌, ◌<◌, ◌+◌, ◌*◌, ◌/◌, ◌^◌, ◌↔◌, ℕ, None, Some, length, replicate};
ghost use Rattle.std.specs.Prelude.{slice_set, IfOk, IfSome, IsNone};
ghost use Rattle.rx_due.specs.Book.{entries_of, moment_of, IsLeast};
ghost use Rattle.rx_due.specs.Cost.{AtMost, AtMostForEntries};
ghost use Rattle.rx_node.specs.Mirrors.{IsKey};
ghost use Rattle.rx_node.specs.Moments.{IsRankAt, silence_at};
ghost use Rattle.rx_books.specs.Books.{HasEntries, IsNoted, IsSilentAt, KeepsKeys, KeepsPlaces};

use rx_class::Class;
use rx_due::{DueBook, Steps};
use rx_node::Node as Core;
use rx_table::CHANNELS;
use std::alloc::{AllocError, Global};
use std::marker::{Brand, Model};
use std::sync::ledger::{Blank, Ledger};

/// By the key of a channel: from when on it has something to give, and when its call would die of silence.
#[derive(Debug, Drop)]
pub struct Books {
    ranks: DueBook,
    silences: DueBook,
}

impl Model for Books {
    ghost use Rattle.rx_books.specs.Books.{BooksState};

    ghost Value = { BooksState };

    ghost view = { λ b. record { ranks = b.ranks; silences = b.silences } };
}

impl Books {
    ghost use Rattle.rx_table.specs.declared.seat.TheConstants.{CHANNELS};

    /// Empty books with room for so many keys.
    pub fn make(alloc: Global, keys: u32) -> Result<Books, AllocError>
        ensures ranks { IfOk result (λ b. b.ranks ≡ replicate keys None) }
        ensures silences { IfOk result (λ b. b.silences ≡ replicate keys None) }
    {
        let ranks = DueBook::make(alloc, keys)?;
        let silences = DueBook::make(alloc, keys)?;
        Ok(Books { ranks, silences })
    }

    /// The channel that has something to give first, with that moment.
    pub fn first_due<L: Ledger>(&self, steps: &mut Steps<L>) -> Option<(u64, u32)>
        ensures empty { IsNone result ↔ (entries_of self.now.ranks ≡ 0) }
        ensures least { IfSome result (IsLeast self.now.ranks) }
        ensures within { IfSome result (λ pair. pair.1 < length self.now.ranks) }
        ensures steps { AtMost 1 steps.old steps.new }
    {
        self.ranks.first(steps)
    }

    /// The channel whose call would die first, with that moment.
    pub fn first_death<L: Ledger>(&self, steps: &mut Steps<L>) -> Option<(u64, u32)>
        ensures empty { IsNone result ↔ (entries_of self.now.silences ≡ 0) }
        ensures least { IfSome result (IsLeast self.now.silences) }
        ensures within { IfSome result (λ pair. pair.1 < length self.now.silences) }
        ensures steps { AtMost 1 steps.old steps.new }
    {
        self.silences.first(steps)
    }

    /// The channel whose call is silent for the longest time, where one is silent at this moment.
    pub fn silent<L: Ledger>(&self, now: u64, steps: &mut Steps<L>) -> Option<u32>
        ensures silent { IfSome result (IsSilentAt self.now.silences now) }
        ensures within { IfSome result (λ key. key < length self.now.silences) }
        ensures none { IsNone result → (key moment : ℕ) → moment_of self.now.silences key ≡ Some moment →
            now < moment }
        ensures steps { AtMost 1 steps.old steps.new }
    {
        let (moment, key) = self.first_death(steps)?;
        if moment > now {
            return None;
        }
        Some(key)
    }

    /// What a node says of a channel now stands in both books.
    pub fn refresh<C: Class, L: Ledger>(&mut self, node: &Core<C>, key: u32, steps: &mut Steps<L>)
        requires key { IsKey node.now key }
        requires ranks { length self.old.ranks ≡ CHANNELS * node.now.limits.conns }
        requires silences { length self.old.silences ≡ CHANNELS * node.now.limits.conns }
        ensures noted { IsNoted node.now self.new key }
        ensures keeps { KeepsKeys self.old self.new key }
        ensures silences { self.new.silences ≡ slice_set self.old.silences key (silence_at node.now key) }
        ensures steps { (n d : ℕ) → HasEntries self.old n → HasEntries self.new n → 2 * n + 1 < 2 ^ (d + 1) →
            AtMost (16 * d + 18) steps.old steps.new }
    {
        let _conns = node.conns();
        let rank = node.rank_on(key, steps);
        note(&mut self.ranks, key, rank, steps);
        let death = node.death_on(key, steps);
        note(&mut self.silences, key, death, steps);
    }

    /// The same, with a counter of its own.
    pub fn refresh_now<C: Class>(&mut self, node: &Core<C>, key: u32)
        requires key { IsKey node.now key }
        requires ranks { length self.old.ranks ≡ CHANNELS * node.now.limits.conns }
        requires silences { length self.old.silences ≡ CHANNELS * node.now.limits.conns }
        ensures noted { IsNoted node.now self.new key }
        ensures keeps { KeepsKeys self.old self.new key }
    {
        self.refresh_counted::<C, Brand>(node, key, Blank::new(1));
    }

    fn refresh_counted<C: Class, L: Ledger>(&mut self, node: &Core<C>, key: u32, blank: Blank)
        requires key { IsKey node.now key }
        requires ranks { length self.old.ranks ≡ CHANNELS * node.now.limits.conns }
        requires silences { length self.old.silences ≡ CHANNELS * node.now.limits.conns }
        requires name { blank.name ≡ L.name }
        requires parts { blank.parts ≡ L.parts }
        requires counts { 0 < blank.parts }
        ensures noted { IsNoted node.now self.new key }
        ensures keeps { KeepsKeys self.old self.new key }
    {
        let mut steps = Steps::<L>::new(blank);
        self.refresh(node, key, &mut steps);
    }

    /// The same of the channels of the connection at a place.
    pub fn refresh_place<C: Class>(&mut self, node: &Core<C>, place: u32)
        requires place { place < length node.now.table.conns }
        requires ranks { length self.old.ranks ≡ CHANNELS * node.now.limits.conns }
        requires silences { length self.old.silences ≡ CHANNELS * node.now.limits.conns }
        ensures noted { (q : ℕ) → q / CHANNELS ≡ place → IsNoted node.now self.new q }
        ensures keeps { KeepsPlaces self.old self.new place }
    {
        let _conns = node.conns();
        for chan in 0..CHANNELS {
            self.refresh_now(node, CHANNELS * place + chan);
        }
    }
}

/// A key has this moment in a book, or none.
fn note<L: Ledger>(book: &mut DueBook, key: u32, moment: Option<u64>, steps: &mut Steps<L>)
    requires { key < length book.old }
    ensures updates { book.new ≡ slice_set book.old key moment }
    ensures steps { (n : ℕ) → entries_of book.old ≤ n → entries_of book.new ≤ n →
        AtMostForEntries n steps.old steps.new }
{
    match moment {
        Some(moment) => book.set(key, moment, steps),
        None => book.clear(key, steps),
    }
}
