ghost use Rattle.std.specs.Prelude.{◌≡◌, ◌≤◌, ◌<◌, ◌+◌, ◌-◌, ◌^◌, ◌==◌, ◌||◌, ◌&&◌, nat_lt, suc, length, max, is_some};
ghost use Rattle.std.specs.Prelude.{if◌then◌else◌, Some, None, true};
ghost use Rattle.rx_rules.specs.Received.{Received, arrival_row, arrival_of, has_slot, after_packet, is_above};
ghost use Rattle.rx_pool.specs.Held.{Holds, Keeps};
ghost use Rattle.rx_recvwin.specs.Places.{place_at, leading};
ghost use Rattle.rx_recvwin.specs.Window.{packet_slots, window_of, StandsReceived, after_put, as_packet, arrival_at};
ghost use Rattle.rx_recvwin.specs.Window.{slot_behind};

use crate::packet::KeptPacket;
use crate::places::{last_with, leading_from};
use crate::window::RecvWin;
use rx_model::Took;
use rx_model::wire::LAST_SEQ;
use rx_pool::Pool;

/// The slots left for a packet that comes: `common` for any packet, and with `lead` one more for the packet behind the
/// front.
#[derive(Clone, Copy, Debug, PartialEq, Eq)]
pub struct Spare {
    pub lead: bool,
    pub common: u32,
}

impl RecvWin {
    ghost use Rattle.rx_model.specs.declared.wire.TheConstants.{PAYLOAD_BYTES};

    /// What becomes of a packet.
    fn judge(&self, seq: u32, last: bool, spare: Spare) -> Took
        ensures { result ≡ arrival_row (arrival_at self.now
            (slot_behind spare.lead spare.common seq (self.now.used + leading self.now.places)) seq last) }
    {
        if seq == 0 || seq > LAST_SEQ {
            return Took::Strange;
        }
        if seq <= self.used || self.is_kept(seq) {
            return Took::Repeat;
        }
        if seq - self.used > self.width {
            return Took::Beyond;
        }
        if self.clashes(seq, last) {
            return Took::Clash;
        }
        if spare.common == 0 && !(spare.lead && seq - 1 == self.front) {
            return Took::NoSlot;
        }
        Took::Kept
    }

    /// Whether a packet behind the used ones is kept.
    fn is_kept(&self, seq: u32) -> bool
        requires { self.now.used < seq }
        ensures { result ≡ is_some (place_at self.now.places (seq - suc self.now.used)) }
    {
        let place = seq - self.used - 1;
        place < self.width && self.places[place as usize].is_some()
    }

    /// Whether a packet lies past the last one, or would be the last one before a kept one.
    fn clashes(&self, seq: u32, last: bool) -> bool
        ensures { result ≡ (is_above self.now.last seq || (last && nat_lt seq self.now.greatest)) }
    {
        if let Some(end) = self.last {
            if seq > end {
                return true;
            }
        }
        last && seq < self.greatest
    }

    /// A packet comes to its place.
    fn put(&mut self, pool: &mut Pool, seq: u32, bytes: &[u8], last: bool)
        requires size { length bytes.now ≤ PAYLOAD_BYTES }
        requires above { self.old.used < seq }
        requires within { seq ≤ self.old.used + self.old.width }
        requires fits { seq < 2 ^ 32 - 1 }
        requires empty { place_at self.old.places (seq - suc self.old.used) ≡ None }
        requires free { 0 < length pool.old.free }
        requires holds { Holds pool.old (packet_slots self.old) }
        ensures put { window_of pool.new self.new
            ≡ after_put (as_packet seq bytes.now last) (window_of pool.old self.old) }
        ensures keeps { Keeps pool.old pool.new (packet_slots self.old) (packet_slots self.new) }
    {
        let slot = pool.get().unwrap();
        pool.put(&slot, 0, bytes);
        let size = bytes.len() as u32;
        let place = (seq - self.used - 1) as usize;
        self.places[place] = Some(KeptPacket { slot, size, last });
        self.front = self.used
            + leading_from(&self.places, (self.front - self.used) as usize) as u32;
        self.held += 1;
        self.last = last_with(self.last, seq, last);
        self.greatest = self.greatest.max(seq);
        self.previous = seq;
    }

    /// A data packet comes, with at most 1,444 bytes: it is kept, or refused with its cause.
    pub fn keep(
        &mut self,
        pool: &mut Pool,
        seq: u32,
        bytes: &[u8],
        last: bool,
        spare: Spare,
    ) -> Took
        requires size { length bytes.now ≤ PAYLOAD_BYTES }
        requires holds { Holds pool.old (packet_slots self.old) }
        requires spare { spare.common + (if spare.lead then 1 else 0) ≤ length pool.old.free }
        ensures answered { (r : Received) → StandsReceived pool.old self.old r →
            result ≡ arrival_row
            (arrival_of self.old.width (has_slot spare.lead spare.common seq r) (as_packet seq bytes.now last) r) }
        ensures stands { (r : Received) → StandsReceived pool.old self.old r →
            StandsReceived pool.new self.new (after_packet result (as_packet seq bytes.now last) r) }
        ensures keeps { Keeps pool.old pool.new (packet_slots self.old) (packet_slots self.new) }
        ensures width { self.new.width ≡ self.old.width }
    {
        let took = self.judge(seq, last, spare);
        match took {
            Took::Kept => {
                self.put(pool, seq, bytes, last);
                self.settle(pool);
            }
            Took::Repeat | Took::Beyond | Took::NoSlot => {
                self.previous = seq;
            }
            Took::Clash
            | Took::Strange
            | Took::Heard
            | Took::Stopped
            | Took::Busy
            | Took::NoRoom
            | Took::Full
            | Took::Old
            | Took::Over
            | Took::Unserved
            | Took::Foreign
            | Took::Bad(_) => {}
        }
        took
    }
}
