ghost use Rattle.std.specs.Prelude.{◌≡◌, ◌≤◌, ◌<◌, ◌+◌, nat_lt, suc, length, is_some, [], Option, Some, None, true};
ghost use Rattle.std.specs.Prelude.{false, IfOk};
ghost use Rattle.rx_rules.specs.Received.{Received, nothing_received, front_of, used_of, marks_of, count_above};
ghost use Rattle.rx_rules.specs.Received.{has_hole};
ghost use Rattle.rx_pool.specs.Pool.{Slots};
ghost use Rattle.rx_pool.specs.Held.{Holds, Keeps};
ghost use Rattle.rx_recvwin.specs.Places.{place_at, leading, count_in, is_open_done, HasSizes};
ghost use Rattle.rx_recvwin.specs.Window.{RecvWindow, packet_slots, window_of, Near, StandsReceived, after_use};

use crate::ack_view::AckView;
use crate::packet::KeptPacket;
use crate::places::{free_all, turn};
use arrayvec::ArrayVec;
use rx_pool::Pool;
use std::alloc::{AllocError, Global};
use std::collections::VecDeque;
use std::marker::Model;

mod keeping;
mod reading;

pub use keeping::Spare;

/// The receiving window of one stream: the packets that are kept and not used, in slots of a pool.
///
/// Packets are used in the order of their seqs. Each place is for one seq, from the one behind the used packets on.
/// Using the first frees its slot and puts its place behind the others.
#[derive(Debug, Drop)]
pub struct RecvWin {
    width: u32,
    /// How many packets are used.
    used: u32,
    /// How many bytes of the first packet that isn't used were read.
    offset: u32,
    /// A place for each seq behind the used ones: as many as the window is wide.
    places: VecDeque<Option<KeptPacket>>,
    /// The greatest seq up to which all packets are kept.
    front: u32,
    /// How many places are taken.
    held: u32,
    /// The seq of the last packet, once it is kept.
    last: Option<u32>,
    /// The greatest seq that was ever kept.
    greatest: u32,
    /// Whether a read answered the end.
    ended: bool,
    previous: u32,
}

impl Model for RecvWin {
    ghost use Rattle.std.specs.Prelude.{◌≡◌, ◌≤◌};
    ghost use Rattle.rx_recvwin.specs.Window.{RecvWindow, IsTied};
    ghost use Rattle.std.specs.VecDeque.{deque_len, deque_capacity};

    ghost Value = { RecvWindow };

    ghost view = { λ w. record {
      width = w.width;
      used = w.used;
      offset = w.offset;
      places = w.places.items;
      last = w.last;
      greatest = w.greatest;
      ended = w.ended;
      previous = w.previous;
    } };

    ghost invariant = { λ w. (deque_len w.places ≡ w.width) × (w.width ≤ deque_capacity w.places)
        × IsTied w.width w.used w.front w.held w.places.items };
}

impl RecvWin {
    ghost use Rattle.rx_model.specs.declared.wire.TheConstants.{MIN_WINDOW, MAX_WINDOW};

    /// An empty window of so many packets, with all the memory that it will need.
    pub fn make(alloc: Global, window: u32) -> Result<RecvWin, AllocError>
        requires least { MIN_WINDOW ≤ window }
        requires most { window ≤ MAX_WINDOW }
        ensures empty { IfOk result (λ w. (pool : Slots) → StandsReceived pool w nothing_received) }
        ensures slots { IfOk result (λ w. packet_slots w ≡ []) }
        ensures width { IfOk result (λ w. w.width ≡ window) }
    {
        let mut places = VecDeque::with_capacity(alloc, window as usize)?;
        for _ in 0..window {
            places.push_back(None)?;
        }
        Ok(RecvWin {
            width: window,
            used: 0,
            offset: 0,
            places,
            front: 0,
            held: 0,
            last: None,
            greatest: 0,
            ended: false,
            previous: 0,
        })
    }

    /// The greatest k with packets 1 to k all kept, used ones included.
    pub fn front(&self) -> u32
        ensures answered { (pool : Slots) (r : Received) → StandsReceived pool self.now r → result ≡ front_of r.kept }
    {
        self.front
    }

    /// How many kept packets are not used.
    pub fn held(&self) -> u32
        ensures count { result ≡ length (packet_slots self.now) }
        ensures most { result ≤ MAX_WINDOW }
        ensures answered { (pool : Slots) (r : Received) → StandsReceived pool self.now r →
            result ≡ count_above (used_of r) r.kept }
    {
        self.held
    }

    /// Whether a packet up to the front is not used.
    pub fn lead(&self) -> bool
        ensures value { result ≡ nat_lt self.now.used (self.now.used + leading self.now.places) }
        ensures answered { (pool : Slots) (r : Received) → StandsReceived pool self.now r →
            result ≡ nat_lt (used_of r) (front_of r.kept) }
    {
        self.used < self.front
    }

    /// Whether a packet above the front is kept.
    pub fn has_hole(&self) -> bool
        ensures answered { (pool : Slots) (r : Received) → StandsReceived pool self.now r → result ≡ has_hole r }
    {
        self.front < self.greatest
    }

    /// Whether the stream was read to its end.
    pub fn all_read(&self) -> bool
        ensures answered { (pool : Slots) (r : Received) → StandsReceived pool self.now r → result ≡ r.ended }
    {
        self.ended
    }

    /// What an acknowledgement says now.
    pub fn ack_view(&self) -> AckView
        ensures first { (pool : Slots) (r : Received) → StandsReceived pool self.now r → result.first ≡ used_of r + 1 }
        ensures previous { (pool : Slots) (r : Received) → StandsReceived pool self.now r →
            result.previous ≡ r.previous }
        ensures marks { (pool : Slots) (r : Received) → StandsReceived pool self.now r →
            result.marks.items ≡ marks_of r }
    {
        let count = self.greatest.saturating_sub(self.used).min(self.width);
        let mut marks = ArrayVec::new();
        for i in 0..count as usize {
            marks.push(self.places[i].is_some());
        }
        AckView {
            first: self.used + 1,
            previous: self.previous,
            marks,
        }
    }

    /// The packet behind the used ones is used too.
    pub(crate) fn step(&mut self, pool: &mut Pool)
        requires taken { is_some (place_at self.old.places 0) ≡ true }
        requires holds { Holds pool.old (packet_slots self.old) }
        ensures after_use { window_of pool.new self.new ≡ after_use (window_of pool.old self.old) }
        ensures keeps { Keeps pool.old pool.new (packet_slots self.old) (packet_slots self.new) }
        ensures count { suc (count_in self.new.places) ≡ count_in self.old.places }
    {
        turn(&mut self.places, pool);
        self.used += 1;
        self.offset = 0;
        self.held -= 1;
    }

    /// Whether the packet behind the used ones is done with.
    fn is_next_done(&self) -> bool
        ensures done { result ≡ is_open_done (place_at self.now.places 0) self.now.offset self.now.ended }
        ensures sized { HasSizes self.now.places }
    {
        match &self.places[0] {
            Some(held) => held.is_done(self.offset, self.ended),
            None => false,
        }
    }

    /// Frees what is done with.
    pub(crate) fn settle(&mut self, pool: &mut Pool)
        requires { Holds pool.old (packet_slots self.old) }
        ensures settled { (r : Received) → Near (window_of pool.old self.old) r → StandsReceived pool.new self.new r }
        ensures keeps { Keeps pool.old pool.new (packet_slots self.old) (packet_slots self.new) }
        ensures width { self.new.width ≡ self.old.width }
    {
        while self.is_next_done() {
            self.step(pool);
        }
    }

    /// Gives all slots back and forgets everything: the window is as it was made.
    pub fn drop_all(&mut self, pool: &mut Pool)
        requires { Holds pool.old (packet_slots self.old) }
        ensures empty { (any : Slots) → StandsReceived any self.new nothing_received }
        ensures slots { packet_slots self.new ≡ [] }
        ensures bytes { pool.new.bytes ≡ pool.old.bytes }
        ensures keeps { Keeps pool.old pool.new (packet_slots self.old) (packet_slots self.new) }
        ensures width { self.new.width ≡ self.old.width }
    {
        free_all(&mut self.places, self.held, pool);
        self.used = 0;
        self.offset = 0;
        self.front = 0;
        self.held = 0;
        self.last = None;
        self.greatest = 0;
        self.ended = false;
        self.previous = 0;
    }
}
