ghost use Rattle.std.specs.Prelude.{◌≡◌, ◌≤◌, ◌<◌, ◌+◌, ◌==◌, length, max, take, drop, [], Some, None, true, false};
ghost use Rattle.rx_model.specs.declared.answers.CallRead.TheVariants as reads;
ghost use Rattle.rx_rules.specs.Received.{Received, payload_of, read_of, after_read, is_within};
ghost use Rattle.rx_pool.specs.Held.{Holds, Keeps};
ghost use Rattle.rx_recvwin.specs.Places.{place_at, leading, seen_at};
ghost use Rattle.rx_recvwin.specs.Window.{packet_slots, window_of, StandsReceived, FirstRead, AllRead, given_count};
ghost use Rattle.rx_recvwin.specs.Window.{tells_end};

use crate::copy::copy_front;
use crate::window::RecvWin;
use rx_model::CallRead;
use rx_pool::Pool;

impl RecvWin {
    ghost use Rattle.rx_model.specs.declared.wire.TheConstants.{PAYLOAD_BYTES};

    /// What is unread of the packet behind the used ones.
    fn unread<'a>(&self, pool: &'a Pool) -> &'a [u8]
        requires { Holds pool.now (packet_slots self.now) }
        ensures value { result.now ≡ drop self.now.offset (payload_of (seen_at pool.now (place_at self.now.places 0))) }
        ensures most { self.now.offset + length result.now ≤ max self.now.offset PAYLOAD_BYTES }
    {
        match &self.places[0] {
            Some(held) => held.unread(pool, self.offset),
            None => &[],
        }
    }

    /// Gives the next bytes of that packet; none where no byte is unread.
    fn read_first(&mut self, pool: &mut Pool, to: &mut [u8]) -> usize
        requires some { 0 < length to.old }
        requires holds { Holds pool.old (packet_slots self.old) }
        ensures within { result ≤ length to.old }
        ensures answered { (r : Received) → StandsReceived pool.old self.old r →
            FirstRead (window_of pool.new self.new) r result to.new }
        ensures keeps { Keeps pool.old pool.new (packet_slots self.old) (packet_slots self.new) }
        ensures width { self.new.width ≡ self.old.width }
        ensures rest { drop result to.new ≡ drop result to.old }
        ensures none { result ≡ 0 → self.new ≡ self.old }
    {
        let n = copy_front(self.unread(pool), to);
        if n == 0 {
            return 0;
        }
        self.offset += n as u32;
        self.settle(pool);
        n
    }

    /// Gives the next bytes, as many as fit.
    fn copy_to(&mut self, pool: &mut Pool, to: &mut [u8]) -> usize
        requires { Holds pool.old (packet_slots self.old) }
        ensures within { result ≤ length to.old }
        ensures answered { (r : Received) → StandsReceived pool.old self.old r →
            AllRead (window_of pool.new self.new) r (length to.old) result to.new }
        ensures keeps { Keeps pool.old pool.new (packet_slots self.old) (packet_slots self.new) }
        ensures width { self.new.width ≡ self.old.width }
        ensures rest { drop result to.new ≡ drop result to.old }
        ensures none { result ≡ 0 → self.new ≡ self.old }
    {
        let mut at = 0;
        while at < to.len() {
            let (_given, rest) = to.split_at_mut(at);
            let n = self.read_first(pool, rest);
            if n == 0 {
                return at;
            }
            at += n;
        }
        at
    }

    /// Whether the last packet is among those up to the front.
    fn is_complete(&self) -> bool
        ensures { result ≡ is_within self.now.last (self.now.used + leading self.now.places) }
    {
        match self.last {
            Some(end) => end <= self.front,
            None => false,
        }
    }

    /// Gives the next bytes, as many as fit. Where none is unread it answers the end, or nothing yet where the last
    /// packet isn't among those up to the front. What lies in `to` behind the bytes given stays.
    pub fn read(&mut self, pool: &mut Pool, to: &mut [u8]) -> CallRead
        requires some { 0 < length to.old }
        requires holds { Holds pool.old (packet_slots self.old) }
        ensures answered { (r : Received) → StandsReceived pool.old self.old r →
            (result, take (given_count result) to.new) ≡ read_of r (length to.old) }
        ensures stands { (r : Received) → StandsReceived pool.old self.old r →
            StandsReceived pool.new self.new (after_read (tells_end result) (take (given_count result) to.new) r) }
        ensures keeps { Keeps pool.old pool.new (packet_slots self.old) (packet_slots self.new) }
        ensures width { self.new.width ≡ self.old.width }
        ensures rest { drop (given_count result) to.new ≡ drop (given_count result) to.old }
        ensures none { result ≡ reads.NotYet → self.new ≡ self.old }
    {
        let n = self.copy_to(pool, to);
        if n > 0 {
            return CallRead::Got(n);
        }
        if self.is_complete() {
            self.ended = true;
            self.settle(pool);
            return CallRead::End;
        }
        CallRead::NotYet
    }
}
