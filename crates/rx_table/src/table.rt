ghost use Rattle.std.specs.Prelude.{◌≡◌, ◌≤◌, ◌<◌, ◌+◌, ◌*◌, ◌/◌, ◌%◌, ◌^◌, ◌↔◌, ◌++◌, [], ◌∷◌, ℕ, true, length, Some};
ghost use Rattle.std.specs.Prelude.{None, Err};
ghost use Rattle.std.specs.Prelude.{IfOk, OnOk, OnErr, IfSome, IsNone, IsSome, IsSomeAnd};
ghost use Rattle.std.specs.Borrow.{sem};
ghost use Rattle.rx_due.specs.Cost.{AtMost, AtMostForEntries};
ghost use Rattle.rx_table.specs.Lending.{LendsSeat};
ghost use Rattle.rx_table.specs.Records.{seat_at, names, place_of, record_at, on_place, fresh_record, next_serial};
ghost use Rattle.rx_table.specs.Records.{held_count, idle_since, IsDistinct, IsLongestIdle};

use crate::conn::{Conn, place_among, stands_at};
use crate::index::Index;
use crate::key::Key;
use crate::seat::{CHANNELS, Seat};
use crate::seats::{push_fresh, renew};
use crate::uses::Uses;
use rx_due::Steps;
use rx_model::{Full, Host};
use std::alloc::{AllocError, Global};
use std::marker::{Brand, Model};
use std::sync::ledger::{Blank, Ledger};

/// The connections of a node, each in a place from 0 on, and the seats of their channels.
#[derive(Debug, Drop)]
pub struct Table {
    conns: Vec<Conn>,
    /// By key: those of a connection stand together.
    seats: Vec<Seat>,
    index: Index,
    /// Whether the index has taken the key of each connection.
    complete: bool,
    uses: Uses,
    /// The place of the connection that was used last.
    latest: u32,
    room: u32,
}

impl Model for Table {
    ghost use Rattle.std.specs.Prelude.{◌≡◌, ◌≤◌, ◌*◌, length, vec_capacity};
    ghost use Rattle.rx_table.specs.Layout.{joined, IsKept};
    ghost use Rattle.rx_table.specs.Uses.{AreUses};
    ghost use Rattle.rx_table.specs.Records.{Records};
    ghost use Rattle.rx_table.specs.declared.seat.TheConstants.{CHANNELS};

    ghost Value = { Records };

    ghost view = { λ t. record { room = t.room; conns = joined t.conns.items t.seats.items } };

    ghost invariant = { λ t. IsKept t.conns.items t.seats.items t.index t.complete t.room
        × (t.room ≤ vec_capacity t.conns) × (CHANNELS * t.room ≤ vec_capacity t.seats)
        × AreUses t.uses t.conns.items t.room };
}

impl Table {
    ghost use Rattle.rx_table.specs.declared.seat.TheConstants.{CHANNELS};

    /// A table with room for so many connections: all the memory that it needs.
    pub fn make(alloc: Global, conns: u32) -> Result<Table, AllocError>
        ensures { IfOk result (λ t. t ≡ record { room = conns; conns = [] }) }
    {
        let room = conns;
        let conns = Vec::with_capacity(alloc, room as usize)?;
        let seats = Vec::with_capacity(alloc, CHANNELS as usize * room as usize)?;
        let index = Index::make(alloc, room)?;
        let uses = Uses::make(alloc, room)?;
        Ok(Table {
            conns,
            seats,
            index,
            complete: true,
            uses,
            latest: 0,
            room,
        })
    }

    /// The place of a connection; none where it isn't there.
    pub fn find(&self, host: Host, epoch: u32, cid: u32) -> Option<u32>
        ensures found { result ≡ place_of self.now (record { host = host; epoch = epoch; cid = cid }) }
        ensures within { IfSome result (λ place. place < length self.now.conns) }
        ensures distinct { IsDistinct (names self.now) }
    {
        if stands_at(&self.conns, self.latest, host, epoch, cid) {
            return Some(self.latest);
        }
        match self.index.place(&Key::of(host, epoch, cid)) {
            Some(place) => Some(place),
            None if self.complete => None,
            None => self.search(host, epoch, cid),
        }
    }

    /// The same, by going through the list.
    fn search(&self, host: Host, epoch: u32, cid: u32) -> Option<u32>
        ensures { result ≡ place_of self.now (record { host = host; epoch = epoch; cid = cid }) }
    {
        let place = place_among(&self.conns, host, epoch, cid)?;
        Some(place as u32)
    }

    /// Enters a connection that isn't there, with four fresh seats, in the next place, and answers that place. It is
    /// full where as many connections are there as there is room for.
    pub fn enter(
        &mut self,
        host: Host,
        epoch: u32,
        cid: u32,
        nonce: u64,
        now: u64,
    ) -> Result<u32, Full>
        requires { place_of self.old (record { host = host; epoch = epoch; cid = cid }) ≡ None }
        ensures full { (result ≡ Err (record {})) ↔ (length self.old.conns ≡ self.old.room) }
        ensures place { IfOk result (λ place. place ≡ length self.old.conns) }
        ensures ok { OnOk result (self.new ≡ record self.old {
          conns = self.old.conns
              ++ fresh_record (record { host = host; epoch = epoch; cid = cid }) nonce now ∷ [];
        }) }
        ensures err { OnErr result (self.new ≡ self.old) }
    {
        if self.conns.len() >= self.room as usize {
            return Err(Full);
        }
        let place = self.conns.len() as u32;
        self.conns
            .push_reserved(Conn::fresh(host, epoch, cid, nonce, now));
        push_fresh(&mut self.seats);
        self.uses.enter(place, now);
        self.complete &= self.index.take(Key::of(host, epoch, cid), place);
        self.latest = place;
        Ok(place)
    }

    /// The connection at a place is used now, in milliseconds.
    pub fn touch<L: Ledger>(&mut self, position: u32, now: u64, steps: &mut Steps<L>)
        requires { position < length self.old.conns }
        ensures updates { self.new ≡ on_place position (λ r. record r { last_use = now }) self.old }
        ensures steps { AtMostForEntries (length self.old.conns) steps.old steps.new }
    {
        let conn = &mut self.conns[position as usize];
        self.uses.renew(position, conn.last_use, now, steps);
        conn.last_use = now;
        self.latest = position;
    }

    /// The same, with a counter of its own.
    pub fn touch_now(&mut self, position: u32, now: u64)
        requires { position < length self.old.conns }
        ensures { self.new ≡ on_place position (λ r. record r { last_use = now }) self.old }
    {
        self.touch_counted::<Brand>(position, now, Blank::new(1));
    }

    fn touch_counted<L: Ledger>(&mut self, position: u32, now: u64, blank: Blank)
        requires position { position < length self.old.conns }
        requires name { blank.name ≡ L.name }
        requires parts { blank.parts ≡ L.parts }
        requires counts { 0 < blank.parts }
        ensures { self.new ≡ on_place position (λ r. record r { last_use = now }) self.old }
    {
        let mut steps = Steps::<L>::new(blank);
        self.touch(position, now, &mut steps);
    }

    /// The place that may be used anew: of the idle connections, on which no call lives and which weren't used for
    /// 600,000 milliseconds, the one that was used the longest ago, at the lowest place among equals. None where no one
    /// is idle. It looks at connections in the order of their last use, and so at that one and at those before it on
    /// which a call lives.
    pub fn idle<L: Ledger>(&mut self, now: u64, steps: &mut Steps<L>) -> Option<u32>
        ensures longest { IfSome result (IsLongestIdle now self.old) }
        ensures none { IsNone result → (place : ℕ) → idle_since now self.old place ≡ None }
        ensures same { self.new ≡ self.old }
        ensures steps { (d : ℕ) → 2 * self.old.room + 1 < 2 ^ (d + 1) →
            AtMost ((held_count now self.old + 1) * (16 * d + 17)) steps.old steps.new }
    {
        self.uses.first_free(&self.seats, now, steps)
    }

    /// The same, with a counter of its own.
    pub fn idle_now(&mut self, now: u64) -> Option<u32>
        ensures longest { IfSome result (IsLongestIdle now self.old) }
        ensures none { IsNone result → (place : ℕ) → idle_since now self.old place ≡ None }
        ensures same { self.new ≡ self.old }
    {
        self.idle_counted::<Brand>(now, Blank::new(1))
    }

    fn idle_counted<L: Ledger>(&mut self, now: u64, blank: Blank) -> Option<u32>
        requires name { blank.name ≡ L.name }
        requires parts { blank.parts ≡ L.parts }
        requires counts { 0 < blank.parts }
        ensures longest { IfSome result (IsLongestIdle now self.old) }
        ensures none { IsNone result → (place : ℕ) → idle_since now self.old place ≡ None }
        ensures same { self.new ≡ self.old }
    {
        let mut steps = Steps::<L>::new(blank);
        self.idle(now, &mut steps)
    }

    /// Forgets the connection at a place, which is idle, and enters another, which isn't there, in its place.
    pub fn replace(&mut self, position: u32, host: Host, epoch: u32, cid: u32, nonce: u64, now: u64)
        requires idle { IsSome (idle_since now self.old position) }
        requires absent { place_of self.old (record { host = host; epoch = epoch; cid = cid }) ≡ None }
        ensures { self.new ≡ on_place position
            (λ r. fresh_record (record { host = host; epoch = epoch; cid = cid }) nonce now) self.old }
    {
        self.index.forget(&self.conns[position as usize].key());
        self.conns[position as usize] = Conn::fresh(host, epoch, cid, nonce, now);
        renew(&mut self.seats, position as usize * CHANNELS as usize);
        self.uses.enter(position, now);
        self.complete &= self.index.take(Key::of(host, epoch, cid), position);
        self.latest = position;
    }

    /// The nonce of a connection's challenges.
    pub fn nonce(&self, position: u32) -> u64
        requires { position < length self.now.conns }
        ensures { IsSomeAnd (record_at self.now position) (λ r. result ≡ r.nonce) }
    {
        self.conns[position as usize].nonce
    }

    /// Whether the client of a connection is proved.
    pub fn proved(&self, position: u32) -> bool
        requires { position < length self.now.conns }
        ensures { IsSomeAnd (record_at self.now position) (λ r. result ≡ r.proved) }
    {
        self.conns[position as usize].proved
    }

    /// The client of a connection is proved.
    pub fn prove(&mut self, position: u32)
        requires { position < length self.old.conns }
        ensures { self.new ≡ on_place position (λ r. record r { proved = true }) self.old }
    {
        self.conns[position as usize].proved = true;
    }

    /// The seat of a key.
    pub fn seat(&self, key: u32) -> &Seat
        requires { key / CHANNELS < length self.now.conns }
        ensures { seat_at self.now key ≡ Some result.now }
    {
        &self.seats[key as usize]
    }

    /// The seat of a key, to change it.
    pub fn seat_mut(&mut self, key: u32) -> &mut Seat
        requires { key / CHANNELS < length self.old.conns }
        ensures* writes_back { sem 𝓛 (LendsSeat self.entry key result) }
        ensures value { seat_at self.old key ≡ Some result.now }
    {
        &mut self.seats[key as usize]
    }

    /// Draws the serial of a connection's next datagram: 1 first, and 0 after 2^32-1.
    pub fn serial(&mut self, position: u32) -> u32
        requires { position < length self.old.conns }
        ensures drawn { IsSomeAnd (record_at self.old position) (λ r. result ≡ next_serial r.serial) }
        ensures updates { self.new
            ≡ on_place position (λ r. record r { serial = next_serial r.serial }) self.old }
    {
        let conn = &mut self.conns[position as usize];
        conn.serial = conn.serial.wrapping_add(1);
        conn.serial
    }

    /// The host, the epoch and the cid of the connection at a place.
    pub fn named(&self, position: u32) -> (Host, u32, u32)
        requires { position < length self.now.conns }
        ensures { IsSomeAnd (record_at self.now position)
            (λ r. result ≡ (r.connection.host, r.connection.epoch, r.connection.cid)) }
    {
        let conn = &self.conns[position as usize];
        (conn.host, conn.epoch, conn.cid)
    }
}

#[cfg(test)]
mod tests;
