ghost use Rattle.std.specs.Prelude.{nat_lt, ◌≡◌, ◌≤◌, ◌<◌, ◌+◌, ◌-◌, ◌^◌, ◌||◌, ◌&&◌, not, if◌then◌else◌, length, ℕ};
ghost use Rattle.std.specs.Prelude.{true, false};
ghost use Rattle.rx_model.specs.Body as bodies;
ghost use Rattle.rx_model.specs.declared.answers.Took.TheVariants as tooks;
ghost use Rattle.rx_packet.specs.Seen.{message_of, message_with_head, body_of, ack_of};
ghost use Rattle.rx_rules.specs.CallLooks.{CallLooks, call_row, after_taken, after_newly, after_data, found, freed};
ghost use Rattle.rx_rules.specs.CallLooks.{held};
ghost use Rattle.rx_rules.specs.CallLooks.{lead, after_ack, packet_of};
ghost use Rattle.rx_rules.specs.Received.{is_no_seq};
ghost use Rattle.rx_rules.specs.Sent.{is_all_given, is_strange_ack, after_all};
ghost use Rattle.rx_pool.specs.Pool.{Slots};
ghost use Rattle.rx_pool.specs.Held.{Holds, Keeps};
ghost use Rattle.rx_sendwin.specs.Window.{as_newly};
ghost use Rattle.rx_call.specs.Standing.{StandsCall, IsSameEnd, HasSpare, FitsSlot, slots_of, view_of, leadless};
ghost use Rattle.rx_call.specs.Standing.{is_sent};
ghost use Rattle.rx_call.specs.Standing.{data_row, heard_or_same};

use crate::call::Call;
use crate::owing::{Before, has_flag, owe_for, owe_for_ack};
use crate::side::Side;
use rx_model::Took;
use rx_model::wire::{LAST_PACKET, LAST_SEQ};
use rx_packet::{AckBody, Body, Head};
use rx_pool::Pool;
use rx_recvwin::Spare;
use rx_sendwin::Newly;

impl Call {
    ghost use Rattle.rx_model.specs.declared.wire.TheConstants.{PAYLOAD_BYTES};

    /// How many slots it holds beside its lead.
    fn beside(&self) -> u32
        ensures count { result + 1 ≡ length (slots_of self.now) + leadless self.now }
        ensures answered { (pool : Slots) (k : CallLooks) → StandsCall pool self.now k → result ≡ held k - lead k }
    {
        let held = self.held();
        if self.lead() {
            return held - 1;
        }
        held
    }

    /// Reply data acknowledges the whole request. It answers how many slots are left then for any packet:
    /// beside `common` those that this gave back, as far as the number has room.
    fn settle_request(&mut self, pool: &mut Pool, common: u32) -> u32
        requires given { self.old.client ≡ true → is_sent self.old.sent ≡ true }
        requires holds { Holds pool.old (slots_of self.old) }
        requires spare { HasSpare pool.old self.old common }
        ensures left { (k : CallLooks) → StandsCall pool.old self.old k →
            nat_lt 0 result ≡ nat_lt 0 (common + freed self.old.client k) }
        ensures stands { (k : CallLooks) → StandsCall pool.old self.old k →
            StandsCall pool.new self.new (found self.old.client k) }
        ensures spare { HasSpare pool.new self.new result }
        ensures keeps { Keeps pool.old pool.new (slots_of self.old) (slots_of self.new) }
        ensures same { IsSameEnd self.old self.new }
    {
        match self.side {
            Side::Client => {
                let before = self.beside();
                self.sent.ack_all(pool);
                common.saturating_add(before - self.beside())
            }
            Side::Server => common,
        }
    }

    /// Whether a data packet makes no sense: no packet has the seq, or the request isn't all given.
    fn is_strange_data(&self, seq: u32) -> bool
        ensures value { result ≡ (is_no_seq seq || (self.now.client && not (is_sent self.now.sent))) }
        ensures answered { (pool : Slots) (k : CallLooks) → StandsCall pool self.now k →
            result ≡ (is_no_seq seq || (self.now.client && not (is_all_given k.sent))) }
    {
        if seq == 0 || seq > LAST_SEQ {
            return true;
        }
        match self.side {
            Side::Client => !self.sent.all_sent(),
            Side::Server => false,
        }
    }

    /// A data packet comes, with at most 1,444 bytes.
    fn take_chunk(
        &mut self,
        pool: &mut Pool,
        common: u32,
        now: u64,
        head: &Head,
        payload: &[u8],
    ) -> Took
        requires size { length payload.now ≤ PAYLOAD_BYTES }
        requires now { now < 2 ^ 62 }
        requires holds { Holds pool.old (slots_of self.old) }
        requires spare { HasSpare pool.old self.old common }
        ensures answered { (k : CallLooks) → StandsCall pool.old self.old k →
            let body = bodies.Chunk payload.now in
            result ≡ call_row (view_of self.old common now) (message_with_head head.now body) body k }
        ensures stands { (k : CallLooks) → StandsCall pool.old self.old k →
            StandsCall pool.new self.new (after_taken (view_of self.old common now) result
            (message_with_head head.now (bodies.Chunk payload.now)) k) }
        ensures keeps { Keeps pool.old pool.new (slots_of self.old) (slots_of self.new) }
        ensures same { IsSameEnd self.old self.new }
    {
        if self.is_strange_data(head.seq) {
            return Took::Strange;
        }
        let left = self.settle_request(pool, common);
        self.keep(pool, left, now, head, payload)
    }

    /// It is judged, and what it causes is owed.
    fn keep(&mut self, pool: &mut Pool, left: u32, now: u64, head: &Head, payload: &[u8]) -> Took
        requires size { length payload.now ≤ PAYLOAD_BYTES }
        requires seq { is_no_seq head.now.seq ≡ false }
        requires now { now < 2 ^ 62 }
        requires holds { Holds pool.old (slots_of self.old) }
        requires spare { HasSpare pool.old self.old left }
        ensures answered { (k : CallLooks) → StandsCall pool.old self.old k →
            let m = message_with_head head.now (bodies.Chunk payload.now) in
            result ≡ data_row self.old.pace.window left (packet_of m payload.now) k }
        ensures stands { (k : CallLooks) → StandsCall pool.old self.old k →
            StandsCall pool.new self.new (after_data result now
            (message_with_head head.now (bodies.Chunk payload.now)) payload.now k) }
        ensures keeps { Keeps pool.old pool.new (slots_of self.old) (slots_of self.new) }
        ensures same { IsSameEnd self.old self.new }
    {
        let before = Before {
            front: self.received.front(),
            hole: self.received.has_hole(),
        };
        let last = has_flag(head.flags, LAST_PACKET);
        let spare = Spare {
            lead: !self.lead(),
            common: left,
        };
        let took = self.received.keep(pool, head.seq, payload, last, spare);
        self.owed = owe_for(took, now, self.cwnd.recovers(), before, head, self.owed);
        self.heard = now;
        took
    }

    /// What an ACK newly acknowledges sets the rates.
    fn measure(&mut self, newly: Newly)
        ensures stands { (pool : Slots) (k : CallLooks) → StandsCall pool self.old k →
            StandsCall pool self.new (after_newly (as_newly newly) k) }
        ensures slots { slots_of self.new ≡ slots_of self.old }
        ensures same { IsSameEnd self.old self.new }
    {
        if let Some(ms) = newly.sample {
            self.rtt.sample(ms);
        }
        self.cwnd.acked(newly.count);
    }

    /// An ACK comes.
    fn take_ack(&mut self, pool: &mut Pool, now: u64, head: &Head, ack: &AckBody) -> Took
        requires now { now < 2 ^ 62 }
        requires holds { Holds pool.old (slots_of self.old) }
        ensures answered { (k : CallLooks) → StandsCall pool.old self.old k →
            result ≡ (if is_strange_ack ack.now.first ack.now.marks.items k.sent then tooks.Strange else tooks.Heard) }
        ensures stands { (k : CallLooks) (body : bodies.Body) → StandsCall pool.old self.old k →
            let m = message_with_head head.now body in
            StandsCall pool.new self.new (heard_or_same (is_strange_ack ack.now.first ack.now.marks.items k.sent)
            (record (after_ack now m (ack_of ack.now) k) { heard = now }) k) }
        ensures keeps { Keeps pool.old pool.new (slots_of self.old) (slots_of self.new) }
        ensures same { IsSameEnd self.old self.new }
    {
        let marks = ack.marks.as_slice();
        if !self.sent.valid(ack.first, marks) {
            return Took::Strange;
        }
        let newly = self.sent.on_ack(pool, now, ack.first, marks, ack.window);
        self.measure(newly);
        self.owed = owe_for_ack(ack.reason, head.serial, self.owed);
        self.heard = now;
        Took::Heard
    }

    /// An ACKALL comes.
    fn take_ack_all(&mut self, pool: &mut Pool, now: u64) -> Took
        requires now { now < 2 ^ 62 }
        requires holds { Holds pool.old (slots_of self.old) }
        ensures answered { (k : CallLooks) → StandsCall pool.old self.old k →
            result ≡ (if is_all_given k.sent then tooks.Heard else tooks.Strange) }
        ensures stands { (k : CallLooks) → StandsCall pool.old self.old k →
            StandsCall pool.new self.new (heard_or_same (not (is_all_given k.sent))
            (record k { sent = after_all k.sent; heard = now }) k) }
        ensures keeps { Keeps pool.old pool.new (slots_of self.old) (slots_of self.new) }
        ensures same { IsSameEnd self.old self.new }
    {
        if !self.sent.all_sent() {
            return Took::Strange;
        }
        self.sent.ack_all(pool);
        self.heard = now;
        Took::Heard
    }

    /// A message comes for the call; a chunk has at most 1,444 bytes. `common` is how many slots its node has left for
    /// any call. It answers for DATA Kept, Repeat, Beyond, Clash, NoSlot or Strange, for other kinds Heard or Strange,
    /// and for an ABORT, which is its node's, Stopped.
    pub fn take(
        &mut self,
        pool: &mut Pool,
        common: u32,
        now: u64,
        head: &Head,
        body: &Body<'_>,
    ) -> Took
        requires size { FitsSlot (body_of body.now) }
        requires now { now < 2 ^ 62 }
        requires holds { Holds pool.old (slots_of self.old) }
        requires spare { HasSpare pool.old self.old common }
        ensures answered { (k : CallLooks) → StandsCall pool.old self.old k →
            result ≡ call_row (view_of self.old common now) (message_of head.now body.now) (body_of body.now) k }
        ensures stands { (k : CallLooks) → StandsCall pool.old self.old k →
            StandsCall pool.new self.new
            (after_taken (view_of self.old common now) result (message_of head.now body.now) k) }
        ensures keeps { Keeps pool.old pool.new (slots_of self.old) (slots_of self.new) }
        ensures same { IsSameEnd self.old self.new }
    {
        match body {
            Body::Chunk(payload) => self.take_chunk(pool, common, now, head, payload),
            Body::Ack(ack) => self.take_ack(pool, now, head, ack),
            Body::AckAll => self.take_ack_all(pool, now),
            Body::Busy | Body::Challenge(_) | Body::Response(_) => {
                self.heard = now;
                Took::Heard
            }
            Body::Abort(_) => Took::Stopped,
        }
    }
}
