//! Messages for calls that live, and for calls that ended.

ghost use Rattle.std.specs.Prelude.{◌≡◌, ◌<◌, ◌≤◌, ◌/◌, ◌&&◌, not, length, nat_le, option_map, IfSome, Some};
ghost use Rattle.std.specs.Prelude.{true, false};
ghost use Rattle.rx_model.specs.Body as models;
ghost use Rattle.rx_model.specs.Names.{Channel, channel_of};
ghost use Rattle.rx_model.specs.Strays.{is_stray};
ghost use Rattle.rx_model.specs.declared.names.CallName as names;
ghost use Rattle.rx_packet.specs.Seen.{body_of, message_of, message_with_head};
ghost use Rattle.rx_rules.specs.After.{challenged, owing_abort, owing_ackall, owing_busy, taken_at, taken_over};
ghost use Rattle.rx_rules.specs.After.{taken_with};
ghost use Rattle.rx_rules.specs.Judging.{end_row, facts_of, is_data as is_data_body, is_right, live_row};
ghost use Rattle.rx_rules.specs.Looks.{CallRecord, Looks, channel_at, is_proved, latest, latest_name, on_channel};
ghost use Rattle.rx_rules.specs.Looks.{on_conn};
ghost use Rattle.rx_rules.specs.Setup.{is_client};
ghost use Rattle.rx_call.specs.Standing.{FitsSlot};
ghost use Rattle.rx_node.specs.Lives.{life_of};
ghost use Rattle.rx_node.specs.Mirrors.{IsActiveAt, IsChannel, IsKey, Mirrors, StepsAt};
ghost use Rattle.rx_node.specs.Moments.{OthersSame, PlacesSame};
ghost use Rattle.rx_node.specs.Node.{KeepsNode, setup_of};
ghost use Rattle.rx_node.specs.Steps.{IsChannelAt, IsFound, IsOwn, facts_seen, is_acking};
ghost use Rattle.rx_node.specs.Steps as steps;

use crate::facts::Facts;
use crate::kind::Kind;
use crate::life::Life;
use crate::node::Node;
use arrayvec::ArrayVec;
use rx_class::Class;
use rx_model::wire::{RX_PROTOCOL_ERROR, SECURITY_BYTES};
use rx_model::{CallName, Took};
use rx_packet::{Body, Head};
use rx_table::CHANNELS;

impl<C: Class> Node<C> {
    ghost use Rattle.rx_table.specs.declared.seat.TheConstants.{CHANNELS};

    /// A message for the call of a channel, which is active: what becomes of it.
    pub fn take(&mut self, key: u32, end: usize, c: &CallName, head: &Head, body: &Body<'_>) -> Took
        requires active { IsActiveAt self.old key end }
        requires size { FitsSlot (body_of body.now) }
        ensures answered { (l : Looks) (k : CallRecord) → IsOwn C.class_of self.old l key c.now k →
            result ≡ live_row (setup_of C.class_of self.old) l k (message_of head.now body.now) (body_of body.now) }
        ensures steps { (l : Looks) (k : CallRecord) → IsOwn C.class_of self.old l key c.now k →
            Mirrors C.class_of self.new
            (taken_with (setup_of C.class_of self.old) result c.now (message_of head.now body.now) l) }
        ensures others { steps.is_response (body_of body.now) ≡ false → OthersSame self.old self.new key }
        ensures places { PlacesSame self.old self.new (key / CHANNELS) }
        ensures same { KeepsNode self.old self.new }
    {
        match body {
            Body::Chunk(_) => self.take_chunk(key, end, head, body),
            Body::Busy => self.hear(key, end, head, body),
            Body::Ack(_) | Body::AckAll => self.take_ack(key, end, head, body),
            Body::Abort(code) => {
                self.reach(key, *code);
                Took::Stopped
            }
            Body::Challenge(asked) => self.take_challenge(key, end, c, head, asked),
            Body::Response(answer) => self.take_response(key, end, c, head, answer),
        }
    }

    /// The end of the call takes a message.
    fn hear(&mut self, key: u32, end: usize, head: &Head, body: &Body<'_>) -> Took
        requires active { IsActiveAt self.old key end }
        requires size { FitsSlot (body_of body.now) }
        ensures answered { (l : Looks) (c : names.CallName) (k : CallRecord) → IsOwn C.class_of self.old l key c k →
            result ≡ end_row (setup_of C.class_of self.old) l k (message_of head.now body.now) }
        ensures steps { (l : Looks) (c : names.CallName) (k : CallRecord) → IsOwn C.class_of self.old l key c k →
            Mirrors C.class_of self.new
            (taken_at (setup_of C.class_of self.old) result c (message_of head.now body.now) l) }
        ensures active { IsActiveAt self.new key end }
        ensures others { OthersSame self.old self.new key }
        ensures same { KeepsNode self.old self.new }
    {
        self.ends.take(end, self.moment, head, body)
    }

    /// A data packet.
    fn take_chunk(&mut self, key: u32, end: usize, head: &Head, body: &Body<'_>) -> Took
        requires active { IsActiveAt self.old key end }
        requires size { FitsSlot (body_of body.now) }
        requires chunk { is_data_body (body_of body.now) ≡ true }
        ensures answered { (l : Looks) (c : names.CallName) (k : CallRecord) → IsOwn C.class_of self.old l key c k →
            result ≡ live_row (setup_of C.class_of self.old) l k (message_of head.now body.now) (body_of body.now) }
        ensures steps { (l : Looks) (c : names.CallName) (k : CallRecord) → IsOwn C.class_of self.old l key c k →
            Mirrors C.class_of self.new
            (taken_with (setup_of C.class_of self.old) result c (message_of head.now body.now) l) }
        ensures others { OthersSame self.old self.new key }
        ensures same { KeepsNode self.old self.new }
    {
        let took = self.hear(key, end, head, body);
        if is_judged(took) {
            self.challenge(key);
        }
        took
    }

    /// An ACK or an ACKALL.
    fn take_ack(&mut self, key: u32, end: usize, head: &Head, body: &Body<'_>) -> Took
        requires active { IsActiveAt self.old key end }
        requires acks { is_acking (body_of body.now) ≡ true }
        ensures answered { (l : Looks) (c : names.CallName) (k : CallRecord) → IsOwn C.class_of self.old l key c k →
            result ≡ live_row (setup_of C.class_of self.old) l k (message_of head.now body.now) (body_of body.now) }
        ensures steps { (l : Looks) (c : names.CallName) (k : CallRecord) → IsOwn C.class_of self.old l key c k →
            Mirrors C.class_of self.new
            (taken_with (setup_of C.class_of self.old) result c (message_of head.now body.now) l) }
        ensures others { OthersSame self.old self.new key }
        ensures same { KeepsNode self.old self.new }
    {
        let took = self.hear(key, end, head, body);
        if !is_heard(took) {
            return took;
        }
        self.settle(key, end);
        if let Body::Ack(_) = body {
            self.challenge(key);
        }
        took
    }

    /// A CHALLENGE is answered, where the class has an answer.
    fn take_challenge(
        &mut self,
        key: u32,
        end: usize,
        c: &CallName,
        head: &Head,
        asked: &[u8],
    ) -> Took
        requires { IsActiveAt self.old key end }
        ensures answered { (l : Looks) (k : CallRecord) → IsOwn C.class_of self.old l key c.now k →
            let body = models.Challenge asked.now in
            result ≡ live_row (setup_of C.class_of self.old) l k (message_with_head head.now body) body }
        ensures steps { (l : Looks) (k : CallRecord) → IsOwn C.class_of self.old l key c.now k →
            Mirrors C.class_of self.new (taken_with (setup_of C.class_of self.old) result c.now
            (message_with_head head.now (models.Challenge asked.now)) l) }
        ensures others { OthersSame self.old self.new key }
        ensures same { KeepsNode self.old self.new }
    {
        let mut answer = [0; SECURITY_BYTES];
        let Some(count) = self.class.respond(c, asked, &mut answer) else {
            return Took::Strange;
        };
        let took = self.hear(key, end, head, &Body::Challenge(asked));
        self.owe_response(key, &answer[..count]);
        took
    }

    /// A RESPONSE that is right proves the client of its connection; a wrong one stops the call (`rx.h`,
    /// `RX_PROTOCOL_ERROR`), unless a right one came before.
    fn take_response(
        &mut self,
        key: u32,
        end: usize,
        c: &CallName,
        head: &Head,
        answer: &[u8],
    ) -> Took
        requires { IsActiveAt self.old key end }
        ensures answered { (l : Looks) (k : CallRecord) → IsOwn C.class_of self.old l key c.now k →
            let body = models.Response answer.now in
            result ≡ live_row (setup_of C.class_of self.old) l k (message_with_head head.now body) body }
        ensures steps { (l : Looks) (k : CallRecord) → IsOwn C.class_of self.old l key c.now k →
            Mirrors C.class_of self.new (taken_with (setup_of C.class_of self.old) result c.now
            (message_with_head head.now (models.Response answer.now)) l) }
        ensures places { PlacesSame self.old self.new (key / CHANNELS) }
        ensures same { KeepsNode self.old self.new }
    {
        if self.is_right(key, c, answer) {
            let took = self.hear(key, end, head, &Body::Response(answer));
            self.prove(key);
            return took;
        }
        if self.is_proved(key) {
            return Took::Strange;
        }
        self.reach(key, RX_PROTOCOL_ERROR);
        self.owe_abort(key, Some(RX_PROTOCOL_ERROR));
        Took::Stopped
    }

    /// Whether an answer to the challenge of a channel's call is right.
    fn is_right(&self, key: u32, c: &CallName, answer: &[u8]) -> bool
        requires { IsKey self.now key }
        ensures { (l : Looks) (k : CallRecord) → IsOwn C.class_of self.now l key c.now k →
            result ≡ is_right (setup_of C.class_of self.now) l k.name answer.now }
    {
        self.class
            .check(c, self.table.nonce(key / CHANNELS), answer)
    }

    /// Whether the client of a channel is proved.
    fn is_proved(&self, key: u32) -> bool
        requires { IsKey self.now key }
        ensures { (l : Looks) (ch : Channel) → Mirrors C.class_of self.now l → IsChannel l key ch →
            result ≡ is_proved l ch.connection }
    {
        self.table.proved(key / CHANNELS)
    }

    /// The client of a channel is proved.
    fn prove(&mut self, key: u32)
        requires { IsKey self.old key }
        ensures steps { StepsAt C.class_of self.old self.new key
            (λ ch. on_conn ch.connection (λ r. record r { proved = true })) }
        ensures places { PlacesSame self.old self.new (key / CHANNELS) }
        ensures same { KeepsNode self.old self.new }
    {
        self.table.prove(key / CHANNELS);
    }

    /// A server's call of a client that isn't proved owes a CHALLENGE, where the class challenges.
    fn challenge(&mut self, key: u32)
        requires { IsKey self.old key }
        ensures steps { (l : Looks) (c : names.CallName) → Mirrors C.class_of self.old l
            → IsChannel l key (channel_of c) →
            Mirrors C.class_of self.new (challenged (setup_of C.class_of self.old) c l) }
        ensures others { OthersSame self.old self.new key }
        ensures same { KeepsNode self.old self.new }
    {
        if self.challenges(key) {
            self.table.seat_mut(key).owed_challenge = true;
        }
    }

    /// Whether a channel's call is challenged.
    fn challenges(&self, key: u32) -> bool
        requires { IsKey self.now key }
        ensures { (l : Looks) (ch : Channel) → Mirrors C.class_of self.now l → IsChannel l key ch → result
            ≡ (not (is_client self.now.kind)
            && ((C.class_of self.now.secret).challenges && not (is_proved l ch.connection))) }
    {
        match self.kind {
            Kind::Server { .. } => self.class.challenges() && !self.is_proved(key),
            Kind::Client { .. } => false,
        }
    }

    /// A message for a channel's call, which ended or is broken: what its channel owes again.
    pub fn owe_again(&mut self, key: u32, body: &Body<'_>)
        requires { IsKey self.old key }
        ensures steps { StepsAt C.class_of self.old self.new key
            (λ ch l. taken_over (latest_name l ch) (body_of body.now) (latest l ch) l) }
        ensures others { OthersSame self.old self.new key }
        ensures same { KeepsNode self.old self.new }
    {
        let Some(life) = self.life(key) else {
            return;
        };
        self.owe_abort(key, code_again(body, life));
        self.owe_ackall(key, acks_again(body, life));
    }

    /// A channel owes an ABORT with this code, if it is one.
    pub fn owe_abort(&mut self, key: u32, code: Option<i32>)
        requires { IsKey self.old key }
        ensures steps { StepsAt C.class_of self.old self.new key (λ ch. on_channel ch (owing_abort code)) }
        ensures others { OthersSame self.old self.new key }
        ensures same { KeepsNode self.old self.new }
    {
        if let Some(code) = code {
            self.table.seat_mut(key).owed_abort = Some(code);
        }
    }

    /// A channel owes an ACKALL, if this says so.
    fn owe_ackall(&mut self, key: u32, owes: bool)
        requires { IsKey self.old key }
        ensures steps { StepsAt C.class_of self.old self.new key (λ ch. on_channel ch (owing_ackall owes)) }
        ensures others { OthersSame self.old self.new key }
        ensures same { KeepsNode self.old self.new }
    {
        if owes {
            self.table.seat_mut(key).owed_ackall = true;
        }
    }

    /// A channel owes a RESPONSE with these bytes.
    fn owe_response(&mut self, key: u32, bytes: &[u8])
        requires key { IsKey self.old key }
        requires size { length bytes.now ≤ SECURITY_BYTES }
        ensures steps { StepsAt C.class_of self.old self.new key
            (λ ch. on_channel ch (λ q. record q { owed_response = Some bytes.now })) }
        ensures others { OthersSame self.old self.new key }
        ensures same { KeepsNode self.old self.new }
    {
        let mut response = ArrayVec::new();
        let _fits = response.try_extend_from_slice(bytes);
        self.table.seat_mut(key).owed_response = Some(response);
    }

    /// A channel owes a BUSY (`rx_packet.h`, `RX_PACKET_TYPE_BUSY`) for the call with this number.
    pub fn owe_busy(&mut self, key: u32, number: u32)
        requires { IsKey self.old key }
        ensures steps { StepsAt C.class_of self.old self.new key (λ ch. on_channel ch (owing_busy number)) }
        ensures others { OthersSame self.old self.new key }
        ensures same { KeepsNode self.old self.new }
    {
        self.table.seat_mut(key).owed_busy = Some(number);
    }

    /// What decides the rows of a message's connection and channel, by what a look-up of the channel gave.
    pub fn facts(&self, channel: Option<u32>, c: &CallName, head: &Head, body: &Body<'_>) -> Facts
        requires { IsFound C.class_of self.now c.now channel }
        ensures { (l : Looks) → Mirrors C.class_of self.now l → facts_seen result
            ≡ record (facts_of (setup_of C.class_of self.now) l c.now (message_of head.now body.now))
            { has_place = true } }
    {
        let number = self.number_on(channel);
        let life = self.life_on(channel);
        Facts {
            is_known: channel.is_some(),
            has_number: head.number != 0,
            stops_all: stops_all(head, body),
            can_start: can_start(head, body, self.limits.window),
            is_below: head.number < number,
            is_above: head.number > number,
            is_live: life.is_some_and(|life| life.is_live()),
            is_active: life.is_some_and(|life| life.is_active()),
            is_handled: life.is_some_and(|life| life.is_handled()),
            is_crowded: self.live >= self.limits.calls,
        }
    }

    /// The number of a channel's latest call, 0 where its connection isn't there.
    fn number_on(&self, channel: Option<u32>) -> u32
        requires { IfSome channel (IsKey self.now) }
        ensures { (l : Looks) (ch : Channel) → Mirrors C.class_of self.now l → IsChannelAt l channel ch →
            result ≡ (channel_at l ch).number }
    {
        match channel {
            Some(key) => self.table.seat(key).number,
            None => 0,
        }
    }

    /// The life of that call.
    fn life_on(&self, channel: Option<u32>) -> Option<Life>
        requires { IfSome channel (IsKey self.now) }
        ensures { (l : Looks) (ch : Channel) → Mirrors C.class_of self.now l → IsChannelAt l channel ch →
            option_map life_of result ≡ option_map (λ k. k.life) (latest l ch) }
    {
        match channel {
            Some(key) => self.life(key),
            None => None,
        }
    }
}

/// Whether it is DATA.
pub fn is_data(body: &Body<'_>) -> bool
    ensures { result ≡ is_data_body (body_of body.now) }
{
    match body {
        Body::Chunk(_) => true,
        Body::Busy
        | Body::Ack(_)
        | Body::Abort(_)
        | Body::AckAll
        | Body::Challenge(_)
        | Body::Response(_) => false,
    }
}

/// Whether it is an ABORT without a call number.
fn stops_all(head: &Head, body: &Body<'_>) -> bool
    ensures { result ≡ is_stray (message_of head.now body.now) (body_of body.now) }
{
    match body {
        Body::Abort(_) => head.number == 0,
        Body::Chunk(_)
        | Body::Busy
        | Body::Ack(_)
        | Body::AckAll
        | Body::Challenge(_)
        | Body::Response(_) => false,
    }
}

/// Whether it is a data packet that a call may begin with, at a node with this window.
fn can_start(head: &Head, body: &Body<'_>, window: u32) -> bool
    ensures { result
        ≡ (is_data_body (body_of body.now) && (nat_le 1 head.now.seq && nat_le head.now.seq window)) }
{
    is_data(body) && (head.seq >= 1 && head.seq <= window)
}

/// The code of the ABORT that a message for a call that ended has told again.
fn code_again(body: &Body<'_>, life: Life) -> Option<i32>
    ensures { result ≡ steps.code_again (body_of body.now) (life_of life) }
{
    match body {
        Body::Chunk(_) => life.told_code(),
        Body::Ack(_) => life.served_code(),
        Body::Busy | Body::Abort(_) | Body::AckAll | Body::Challenge(_) | Body::Response(_) => None,
    }
}

/// Whether it has an ACKALL told again.
fn acks_again(body: &Body<'_>, life: Life) -> bool
    ensures { result ≡ steps.acks_again (body_of body.now) (life_of life) }
{
    match body {
        Body::Chunk(_) => life.is_ok_end(),
        Body::Busy
        | Body::Ack(_)
        | Body::Abort(_)
        | Body::AckAll
        | Body::Challenge(_)
        | Body::Response(_) => false,
    }
}

/// Whether this answer says that a message was heard.
fn is_heard(took: Took) -> bool
    ensures { result ≡ steps.is_heard took }
{
    match took {
        Took::Heard => true,
        Took::Kept
        | Took::Repeat
        | Took::Beyond
        | Took::Clash
        | Took::NoSlot
        | Took::Strange
        | Took::Stopped
        | Took::Busy
        | Took::NoRoom
        | Took::Full
        | Took::Old
        | Took::Over
        | Took::Unserved
        | Took::Foreign
        | Took::Bad(_) => false,
    }
}

/// Whether data with this answer was judged: it asks for a CHALLENGE.
fn is_judged(took: Took) -> bool
    ensures { result ≡ steps.is_judged took }
{
    match took {
        Took::Kept | Took::Repeat | Took::Beyond | Took::Clash | Took::NoSlot => true,
        Took::Strange
        | Took::Heard
        | Took::Stopped
        | Took::Busy
        | Took::NoRoom
        | Took::Full
        | Took::Old
        | Took::Over
        | Took::Unserved
        | Took::Foreign
        | Took::Bad(_) => false,
    }
}
