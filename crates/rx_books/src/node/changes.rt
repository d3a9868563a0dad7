//! What changes a node: each method notes the channels that it changes.

ghost use Rattle.std.specs.Prelude.{◌≡◌, ◌≤◌, ◌<◌, ◌+◌, ◌/◌, ◌^◌, ◌++◌, ◌∷◌, [], ℕ, Some, None, length, slice_get};
ghost use Rattle.std.specs.Prelude.{Option, take, drop, min, true, option_map, IfSome, IsNone};
ghost use Rattle.rx_model.specs.Names.{connection_of, Channel};
ghost use Rattle.rx_model.specs.Strays.{last_of, stray_of as rules_stray_of};
ghost use Rattle.rx_packet.specs.Seen.{message_with_head, body_of, message_of};
ghost use Rattle.rx_rules.specs.Looks.{Looks, CallRecord, ConnLooks, call_named, latest, latest_name, on_channel};
ghost use Rattle.rx_rules.specs.Looks.{on_life, on_looks};
ghost use Rattle.rx_rules.specs.Records.{fresh_conn, placed, used, started};
ghost use Rattle.rx_rules.specs.Life.{after_code, is_active};
ghost use Rattle.rx_rules.specs.Setup.{nonce_of, is_client};
ghost use Rattle.rx_history.proofs.Order.Orderly.{Orderly};
ghost use Rattle.rx_table.specs.Records.{IsLongestIdle, idle_since, place_of, seat_at};
ghost use Rattle.rx_node.specs.Mirrors.{IsChannel, IsKey, Mirrors, StepsNode, IsActiveAt, StepsAt};
ghost use Rattle.rx_node.specs.Node.{KeepsNode, KeepsSetup, setup_of, is_active_life, life_at};
ghost use Rattle.rx_rules.specs.After.{read_done, stopped_all, owing_abort, owing_busy, taken_over, taken_with};
ghost use Rattle.rx_rules.specs.CallLooks.{after_shut, after_write};
ghost use Rattle.rx_rules.specs.Received.{read_of};
ghost use Rattle.rx_rules.specs.Slots.{room};
ghost use Rattle.rx_history.proofs.Room.RoomStarts.{RoomyAt};
ghost use Rattle.rx_recvwin.specs.Window.{given_count, tells_end};
ghost use Rattle.rx_call_ends.specs.Ends.{HasShutSlot, IsUnshut};
ghost use Rattle.rx_node.specs.Lives.{after_turn, is_of, life_of};
ghost use Rattle.rx_rules.specs.Judging.{live_row};
ghost use Rattle.rx_call.specs.Standing.{FitsSlot};
ghost use Rattle.rx_node.specs.Steps.{IsOwn};
ghost use Rattle.rx_node.specs.Steps as steps;
ghost use Rattle.rx_model.specs.Body as models;
ghost use Rattle.rx_rules.specs.Looks as rules;

use crate::node::Node;
use rx_class::Class;
use rx_model::{CallName, CallRead, Host, Took};
use rx_node::{Life, Link, Turn};
use rx_packet::{Body, Head};
use rx_table::CHANNELS;

impl<C: Class> Node<C> {
    ghost use Rattle.rx_model.specs.declared.wire.TheConstants.{STRAYS};

    /// Its moment is this one now, in milliseconds.
    pub fn clock(&mut self, now: u64)
        requires later { self.old.moment ≤ now }
        requires now { now < 2 ^ 62 }
        ensures steps { StepsNode C.class_of self.old self.new (λ l. record l { now = now }) }
        ensures updates { self.new ≡ record self.old { moment = now } }
    {
        self.core.clock(now);
    }

    /// Enters the connection of a call in the next place, and answers that place.
    pub fn enter(&mut self, c: &CallName, link: Link, nonce: u64) -> u32
        requires absent { place_of self.old.table (connection_of c.now) ≡ None }
        requires room { length self.old.table.conns < self.old.limits.conns }
        requires cid { c.now.cid + 3 < 2 ^ 32 }
        ensures place { result ≡ length self.old.table.conns }
        ensures conns { length self.new.table.conns ≡ length self.old.table.conns + 1 }
        ensures setup { KeepsSetup self.old self.new }
        ensures steps { (l : Looks) → Mirrors C.class_of self.old l
            → nonce ≡ nonce_of self.old.kind l.entered
            → Orderly (setup_of C.class_of self.old)
            (placed (fresh_conn (connection_of c.now) link.peer link.service link.first l) None l)
            → Mirrors C.class_of self.new
            (placed (fresh_conn (connection_of c.now) link.peer link.service link.first l) None l) }
    {
        let answer = self.core.enter(c, link, nonce);
        self.books.refresh_place(&self.core, answer);
        answer
    }

    /// Enters the connection of a call in the place of one that is idle, which is forgotten.
    pub fn replace(&mut self, place: u32, c: &CallName, link: Link, nonce: u64)
        requires absent { place_of self.old.table (connection_of c.now) ≡ None }
        requires idle { IsLongestIdle self.old.moment self.old.table place }
        requires cid { c.now.cid + 3 < 2 ^ 32 }
        ensures conns { length self.new.table.conns ≡ length self.old.table.conns }
        ensures setup { KeepsSetup self.old self.new }
        ensures steps { (l : Looks) (x : rules.ConnLooks) → Mirrors C.class_of self.old l
            → slice_get l.conns place ≡ Some x
            → nonce ≡ nonce_of self.old.kind l.entered
            → Orderly (setup_of C.class_of self.old)
            (placed (fresh_conn (connection_of c.now) link.peer link.service link.first l) (Some x) l)
            → Mirrors C.class_of self.new
            (placed (fresh_conn (connection_of c.now) link.peer link.service link.first l) (Some x) l) }
    {
        self.core.replace(place, c, link, nonce);
        self.books.refresh_place(&self.core, place);
    }

    /// The place that may be used anew: that of the connection whose last use is the longest ago, of those without a
    /// live call that weren't used for 600,000 milliseconds.
    pub fn idle(&mut self) -> Option<u32>
        ensures longest { IfSome result (IsLongestIdle self.old.moment self.old.table) }
        ensures none { IsNone result → (place : ℕ) → idle_since self.old.moment self.old.table place ≡ None }
        ensures same { self.new ≡ self.old }
    {
        self.core.idle()
    }

    /// The connection at a place is used now.
    pub fn touch(&mut self, place: u32)
        requires { place < length self.old.table.conns }
        ensures steps { (l : Looks) (x : rules.ConnLooks) → Mirrors C.class_of self.old l
            → slice_get l.conns place ≡ Some x → Mirrors C.class_of self.new (used x.connection l) }
        ensures same { KeepsNode self.old self.new }
    {
        self.core.touch(place);
    }

    /// DATA of a service that a server hasn't owes a stray abort (`rx.h`, `RX_INVALID_OPERATION`); of more than 64 the
    /// oldest is dropped.
    pub fn owe_stray(&mut self, from: Host, head: &Head)
        ensures steps { (body : models.Body) → StepsNode C.class_of self.old self.new (λ l. record l {
          strays = last_of STRAYS (l.strays ++ rules_stray_of from (message_with_head head.now body) ∷ []);
        }) }
        ensures same { KeepsNode self.old self.new }
    {
        self.core.owe_stray(from, head);
    }

    /// A call starts on a channel whose latest call doesn't live; the channel owes nothing then.
    pub fn start(&mut self, key: u32, number: u32, life: Life)
        requires key { IsKey self.old key }
        requires free { (seat : _) → seat_at self.old.table key ≡ Some seat → seat.live ≡ None }
        requires room { self.old.live < self.old.limits.calls }
        requires number { 0 < number }
        requires life { is_active (life_of life) ≡ true }
        requires kind { is_of (is_client self.old.kind) (life_of life) ≡ true }
        ensures steps { (l : Looks) (ch : Channel) → Mirrors C.class_of self.old l → IsChannel l key ch →
            let s = setup_of C.class_of self.old in
            let c = call_named ch number in
            Orderly s (started s (life_of life) c l) → RoomyAt s (started s (life_of life) c l)
            → Mirrors C.class_of self.new (started s (life_of life) c l) }
        ensures same { KeepsNode self.old self.new }
    {
        self.core.start(key, number, life);
        self.books.refresh_now(&self.core, key);
    }

    /// The life of a channel's call turns, where it lives.
    pub fn turn(&mut self, key: u32, turn: Turn)
        requires { IsKey self.old key }
        ensures steps { StepsAt C.class_of self.old self.new key
            (λ ch l. on_life (latest_name l ch) (after_turn turn) l) }
        ensures active { (end : ℕ) → IsActiveAt self.old key end →
            is_active_life (option_map (after_turn turn) (life_at self.old key)) ≡ true →
            IsActiveAt self.new key end }
        ensures ends { is_active_life (option_map (after_turn turn) (life_at self.old key)) ≡ true →
            self.new.ends ≡ self.old.ends }
        ensures same { KeepsNode self.old self.new }
    {
        self.core.turn(key, turn);
        self.books.refresh_now(&self.core, key);
    }

    /// A code reaches a channel's call.
    pub fn reach(&mut self, key: u32, code: i32)
        requires { IsKey self.old key }
        ensures steps { StepsAt C.class_of self.old self.new key
            (λ ch l. on_life (latest_name l ch) (after_code code) l) }
        ensures same { KeepsNode self.old self.new }
    {
        self.core.reach(key, code);
        self.books.refresh_now(&self.core, key);
    }

    /// A code reaches the calls of the connection at a place.
    pub fn reach_all(&mut self, place: u32, code: i32)
        requires { place < length self.old.table.conns }
        ensures steps { (l : Looks) (x : ConnLooks) → Mirrors C.class_of self.old l → slice_get l.conns place ≡ Some x →
            Mirrors C.class_of self.new (stopped_all x.connection code l) }
        ensures same { KeepsNode self.old self.new }
    {
        self.core.reach_all(place, code);
        self.books.refresh_place(&self.core, place);
    }

    /// Says bytes on a channel's call, which isn't shut: as many as fit.
    pub fn write(&mut self, key: u32, end: usize, bytes: &[u8]) -> usize
        requires active { IsActiveAt self.old key end }
        requires unshut { IsUnshut self.old.ends end }
        ensures answered { (l : Looks) (ch : Channel) (k : CallRecord) → Mirrors C.class_of self.old l →
            IsChannel l key ch → latest l ch ≡ Some k →
            result ≡ min (length bytes.now) (room (setup_of C.class_of self.old) l k.looks) }
        ensures steps { StepsAt C.class_of self.old self.new key
            (λ ch l. on_looks (latest_name l ch) (after_write (take result bytes.now)) l) }
        ensures within { result ≤ length bytes.now }
        ensures same { KeepsNode self.old self.new }
    {
        let answer = self.core.write(key, end, bytes);
        self.books.refresh_now(&self.core, key);
        answer
    }

    /// The own stream of a channel's call ends.
    pub fn shut(&mut self, key: u32, end: usize)
        requires active { IsActiveAt self.old key end }
        requires unshut { IsUnshut self.old.ends end }
        requires slot { HasShutSlot self.old.ends end }
        ensures steps { (l : Looks) (ch : Channel) → Mirrors C.class_of self.old l → IsChannel l key ch →
            RoomyAt (setup_of C.class_of self.old) (on_looks (latest_name l ch) after_shut l) →
            Mirrors C.class_of self.new (on_looks (latest_name l ch) after_shut l) }
        ensures same { KeepsNode self.old self.new }
    {
        self.core.shut(key, end);
        self.books.refresh_now(&self.core, key);
    }

    /// Gives the next bytes that came for a channel's call. A client's call that is read to its end ends Ok, and
    /// acknowledges all.
    pub fn read(&mut self, key: u32, end: usize, to: &mut [u8]) -> CallRead
        requires active { IsActiveAt self.old key end }
        requires some { 0 < length to.old }
        ensures answered { (l : Looks) (ch : Channel) (k : CallRecord) → Mirrors C.class_of self.old l →
            IsChannel l key ch → latest l ch ≡ Some k →
            (result, take (given_count result) to.new) ≡ read_of k.looks.received (length to.old) }
        ensures steps { StepsAt C.class_of self.old self.new key
            (λ ch l. read_done (latest_name l ch) (tells_end result) (take (given_count result) to.new) l) }
        ensures rest { drop (given_count result) to.new ≡ drop (given_count result) to.old }
        ensures same { KeepsNode self.old self.new }
    {
        let answer = self.core.read(key, end, to);
        match answer {
            CallRead::NotYet => {}
            CallRead::Got(_) | CallRead::End => self.books.refresh_now(&self.core, key),
        }
        answer
    }

    /// A message for a channel's call, which ended or is broken: what its channel owes again.
    pub fn owe_again(&mut self, key: u32, body: &Body<'_>)
        requires { IsKey self.old key }
        ensures steps { StepsAt C.class_of self.old self.new key
            (λ ch l. taken_over (latest_name l ch) (body_of body.now) (latest l ch) l) }
        ensures same { KeepsNode self.old self.new }
    {
        self.core.owe_again(key, body);
        self.books.refresh_now(&self.core, key);
    }

    /// A channel owes an ABORT with this code, if it is one.
    pub fn owe_abort(&mut self, key: u32, code: Option<i32>)
        requires { IsKey self.old key }
        ensures steps { StepsAt C.class_of self.old self.new key (λ ch. on_channel ch (owing_abort code)) }
        ensures same { KeepsNode self.old self.new }
    {
        self.core.owe_abort(key, code);
        self.books.refresh_now(&self.core, key);
    }

    /// A channel owes a BUSY (`rx_packet.h`, `RX_PACKET_TYPE_BUSY`) for the call with this number.
    pub fn owe_busy(&mut self, key: u32, number: u32)
        requires { IsKey self.old key }
        ensures steps { StepsAt C.class_of self.old self.new key (λ ch. on_channel ch (owing_busy number)) }
        ensures same { KeepsNode self.old self.new }
    {
        self.core.owe_busy(key, number);
        self.books.refresh_now(&self.core, key);
    }

    /// A message for the call of a channel, which is active: what becomes of it. A RESPONSE that is right changes what
    /// every channel of the connection owes.
    pub fn take(&mut self, key: u32, end: usize, c: &CallName, head: &Head, body: &Body<'_>) -> Took
        requires active { IsActiveAt self.old key end }
        requires size { FitsSlot (body_of body.now) }
        ensures answered { (l : Looks) (k : CallRecord) → IsOwn C.class_of self.old l key c.now k →
            result ≡ live_row (setup_of C.class_of self.old) l k (message_of head.now body.now) (body_of body.now) }
        ensures steps { (l : Looks) (k : CallRecord) → IsOwn C.class_of self.old l key c.now k →
            Mirrors C.class_of self.new
            (taken_with (setup_of C.class_of self.old) result c.now (message_of head.now body.now) l) }
        ensures same { KeepsNode self.old self.new }
    {
        let took = self.core.take(key, end, c, head, body);
        if is_response(body) {
            self.books.refresh_place(&self.core, key / CHANNELS);
        } else {
            self.books.refresh_now(&self.core, key);
        }
        took
    }
}

/// Whether it is a RESPONSE.
pub fn is_response(body: &Body<'_>) -> bool
    ensures { result ≡ steps.is_response (body_of body.now) }
{
    match body {
        Body::Response(_) => true,
        Body::Chunk(_)
        | Body::Busy
        | Body::Ack(_)
        | Body::Abort(_)
        | Body::AckAll
        | Body::Challenge(_) => false,
    }
}
