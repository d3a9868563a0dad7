//! What a node gives when it is polled.

ghost use Rattle.std.specs.Prelude.{◌≡◌, ◌≤◌, ◌<◌, ◌+◌, ◌*◌, ◌%◌, ◌^◌, ℕ, suc, List, length, take, drop, Some, None};
ghost use Rattle.std.specs.Prelude.{IfSome};
ghost use Rattle.std.specs.Prelude.{◌==◌, false, not, IsNone, IsSomeAnd};
ghost use Rattle.std.specs.Prelude.{if◌then◌else◌, option_map, slice_get};
ghost use Rattle.rx_model.specs.declared.event.Event.TheVariants as events;
ghost use Rattle.rx_model.specs.declared.wire.TheConstants.{DATAGRAM_BYTES};
ghost use Rattle.rx_model.specs.Body as models;
ghost use Rattle.rx_model.specs.Names.{Channel};
ghost use Rattle.rx_model.specs.Spelling.{made};
ghost use Rattle.rx_model.specs.Strays.{stray_message};
ghost use Rattle.rx_packet.specs.Seen.{ack_of, message_with_head};
ghost use Rattle.rx_due.specs.Cost.{AtMost, AtMostForEntries};
ghost use Rattle.rx_call_ends.specs.Ends.{IsThere, StandsEnd};
ghost use Rattle.rx_rules.specs.After.{counted};
ghost use Rattle.rx_rules.specs.CallItems.{ack_body};
ghost use Rattle.rx_rules.specs.CallLooks.{CallLooks};
ghost use Rattle.rx_rules.specs.Items.{Item as RulesItem, channel_items, deaths, due as rules_due, items, message_on};
ghost use Rattle.rx_rules.specs.Least.{least_by};
ghost use Rattle.rx_rules.specs.Looks.{Looks, channel_at, conn_at, latest, latest_name, on_channel};
ghost use Rattle.rx_rules.specs.Looks as rules;
ghost use Rattle.rx_rules.specs.Setup.{side_flag};
ghost use Rattle.rx_node.specs.Due.{AreDueAs, CanGive, Gave, GaveBehind, HasItem, IsDueAs, OwesAtOnce, SendsItem};
ghost use Rattle.rx_node.specs.Due.{at_once, challenge_of};
ghost use Rattle.rx_node.specs.Due.{death_of, lesser_of, owed_at, unsilenced};
ghost use Rattle.rx_node.specs.Mirrors.{IsActiveAt, IsChannel, IsKey, Mirrors, StepsAt};
ghost use Rattle.rx_node.specs.Moments.{IsRankAt, OthersSame, SameChannel, silence_at};
ghost use Rattle.rx_node.specs.Moments as moments;
ghost use Rattle.rx_node.specs.Node.{KeepsNode, setup_of};
ghost use Rattle.rx_node.specs.Steps.{AnswersNode, Dimmed, given_count, given_from};

use crate::item::{Due, Item};
use crate::node::Node;
use crate::strays::write_stray;
use rx_call::Giving;
use rx_call_ends::Ends;
use rx_class::Class;
use rx_due::Steps;
use rx_model::wire::{ACK_PING, LAST_PACKET, PAYLOAD_BYTES, REQUEST_ACK, SECURITY_BYTES};
use rx_model::{CallName, Host};
use rx_packet::{AckBody, Body, Head, write_msg};
use rx_table::{CHANNELS, Seat};
use std::sync::ledger::Ledger;

impl<C: Class> Node<C> {
    /// Whether a stray abort is owed.
    pub fn has_stray(&self) -> bool
        ensures { result ≡ not (length self.now.strays == 0) }
    {
        !self.strays.is_empty()
    }

    /// Writes the oldest stray abort, which is owed no longer, to the front of the buffer, and answers the host that it
    /// is for and its length in bytes; none where none is owed.
    pub fn give_stray(&mut self, to: &mut [u8]) -> Option<(Host, usize)>
        requires { DATAGRAM_BYTES ≤ length to.old }
        ensures updates { self.new ≡ record self.old { strays = drop 1 self.old.strays } }
        ensures none { IsNone result → slice_get self.old.strays 0 ≡ None }
        ensures host { IfSome result (λ given. IsSomeAnd (slice_get self.old.strays 0)
            (λ stray. given.0 ≡ stray.host)) }
        ensures written { IfSome result (λ given. IsSomeAnd (slice_get self.old.strays 0)
            (λ stray. take given.1 to.new ≡ made (stray_message stray))) }
        ensures rest { drop (given_count result) to.new ≡ drop (given_count result) to.old }
    {
        let stray = self.strays.pop_front()?;
        let count = write_stray(&stray, to);
        Some((stray.host, count))
    }

    /// The moment at which a channel's call would die.
    pub fn death_on<L: Ledger>(&self, key: u32, steps: &mut Steps<L>) -> Option<u64>
        requires { IsKey self.now key }
        ensures answered { (l : Looks) (ch : Channel) → Mirrors C.class_of self.now l → IsChannel l key ch →
            result ≡ death_of (latest l ch) }
        ensures silence { result ≡ silence_at self.now key }
        ensures steps_taken { AtMost 1 steps.old steps.new }
    {
        let end = self.active(key)?;
        Some(self.ends.dies(end, steps))
    }

    /// The first item of least rank of a channel.
    pub fn due_on<L: Ledger>(&self, key: u32, steps: &mut Steps<L>) -> Option<Due>
        requires { IsKey self.now key }
        ensures given { IfSome result (CanGive self.now) }
        ensures rank { IsRankAt self.now key (option_map (λ due. due.rank) result) }
        ensures key { IfSome result (λ due. due.key ≡ key) }
        ensures least { (l : Looks) (ch : Channel) → Mirrors C.class_of self.now l → IsChannel l key ch →
            let s = setup_of C.class_of self.now in
            AreDueAs s l result (least_by (λ i. i.rank) (channel_items s (unsilenced l) ch)) }
        ensures steps_taken { AtMost 1 steps.old steps.new }
    {
        if let Some(item) = self.owed_on(key) {
            return Some(Due { rank: 0, key, item });
        }
        let end = self.active(key)?;
        let rank = self.ends.due(end, steps)?;
        Some(Due {
            rank,
            key,
            item: Item::Sending(end),
        })
    }

    /// From when on a channel has something to give: the rank of its first item.
    pub fn rank_on<L: Ledger>(&self, key: u32, steps: &mut Steps<L>) -> Option<u64>
        requires { IsKey self.now key }
        ensures rank { IsRankAt self.now key result }
        ensures steps_taken { AtMost 1 steps.old steps.new }
    {
        if let Some(_item) = self.owed_on(key) {
            return Some(0);
        }
        let end = self.active(key)?;
        self.ends.due(end, steps)
    }

    /// The first of what a channel owes at once, beside what its call sends.
    fn owed_on(&self, key: u32) -> Option<Item>
        requires { IsKey self.now key }
        ensures given { IfSome result (HasItem self.now key) }
        ensures owed { result ≡ moments.owed_on self.now key }
        ensures first { (l : Looks) (ch : Channel) → Mirrors C.class_of self.now l → IsChannel l key ch →
            OwesAtOnce (setup_of C.class_of self.now) l ch result }
    {
        owed_at(self.table.seat(key), self.table.proved(key / CHANNELS))
    }

    /// Writes what is due, which is owed no longer, and answers the host that it is for and its length.
    pub fn give<L: Ledger>(
        &mut self,
        due: &Due,
        to: &mut [u8],
        steps: &mut Steps<L>,
    ) -> (Host, usize)
        requires room { DATAGRAM_BYTES ≤ length to.old }
        requires can { CanGive self.old due.now }
        requires now { due.now.rank ≤ self.old.moment }
        ensures gives { (l : Looks) (i : RulesItem) → Mirrors C.class_of self.old l →
            IsDueAs (setup_of C.class_of self.old) l due.now i →
            Gave C.class_of self.old self.new l i result.0 (take result.1 to.new) }
        ensures rest { drop result.1 to.new ≡ drop result.1 to.old }
        ensures others { OthersSame self.old self.new due.now.key }
        ensures same { KeepsNode self.old self.new }
        ensures steps_taken { (d : ℕ) → 2 * length self.old.table.conns + 1 < 2 ^ (d + 1) →
            AtMost (8 * d + 10) steps.old steps.new }
    {
        let place = due.key / CHANNELS;
        let peer = self.link(place).peer;
        let serial = self.count(place, steps);
        let head = self.head(due.key, serial);
        (peer, self.give_item(due, &head, to, steps))
    }

    /// Counts a datagram that is given now on the connection at a place, and answers its serial.
    fn count<L: Ledger>(&mut self, place: u32, steps: &mut Steps<L>) -> u32
        requires { place < length self.old.table.conns }
        ensures serial { (l : Looks) (x : rules.ConnLooks) → Mirrors C.class_of self.old l
            → slice_get l.conns place ≡ Some x →
            result ≡ suc x.given % 2 ^ 32 }
        ensures steps { (l : Looks) (x : rules.ConnLooks) → Mirrors C.class_of self.old l →
            slice_get l.conns place ≡ Some x → Mirrors C.class_of self.new (counted x.connection l) }
        ensures active { (key end : ℕ) → IsActiveAt self.old key end → IsActiveAt self.new key end }
        ensures channels { (q : ℕ) → SameChannel self.old self.new q }
        ensures same { KeepsNode self.old self.new }
        ensures steps_taken { AtMostForEntries (length self.old.table.conns) steps.old steps.new }
    {
        self.table.touch(place, self.moment, steps);
        self.table.serial(place)
    }

    /// Writes an item behind a header of its channel's latest call, and answers its length.
    fn give_item<L: Ledger>(
        &mut self,
        due: &Due,
        head: &Head,
        to: &mut [u8],
        steps: &mut Steps<L>,
    ) -> usize
        requires room { DATAGRAM_BYTES ≤ length to.old }
        requires can { CanGive self.old due.now }
        requires now { due.now.rank ≤ self.old.moment }
        requires flags { head.now.flags ≡ side_flag self.old.kind }
        requires seq { head.now.seq ≡ 0 }
        ensures gives { (l : Looks) (i : RulesItem) → Mirrors C.class_of self.old l →
            IsDueAs (setup_of C.class_of self.old) l due.now i →
            ((ch : Channel) → IsChannel l due.now.key ch → head.now.number ≡ (channel_at l ch).number) →
            GaveBehind C.class_of self.new l head.now i (take result to.new) }
        ensures rest { drop result to.new ≡ drop result to.old }
        ensures others { OthersSame self.old self.new due.now.key }
        ensures same { KeepsNode self.old self.new }
        ensures steps_taken { AtMost 2 steps.old steps.new }
    {
        match due.item {
            Item::Abort(code) => self.give_abort(due.key, code, head, to),
            Item::Busy(number) => self.give_busy(due.key, &Head { number, ..*head }, to),
            Item::Challenge => self.give_challenge(due.key, head, to),
            Item::Response => self.give_response(due.key, head, to),
            Item::AckAll => self.give_ackall(due.key, head, to),
            Item::Sending(end) => self.give_sending(due.key, end, head, to, steps),
        }
    }

    /// An ABORT that a channel owes.
    fn give_abort(&mut self, key: u32, code: i32, head: &Head, to: &mut [u8]) -> usize
        requires room { DATAGRAM_BYTES ≤ length to.old }
        requires key { IsKey self.old key }
        ensures steps { StepsAt C.class_of self.old self.new key
            (λ ch l. on_channel ch (λ q. record q { owed_abort = None }) l) }
        ensures written { take result to.new ≡ made (message_with_head head.now (models.Abort code)) }
        ensures rest { drop result to.new ≡ drop result to.old }
        ensures others { OthersSame self.old self.new key }
        ensures same { KeepsNode self.old self.new }
    {
        self.table.seat_mut(key).owed_abort = None;
        write_msg(head, &Body::Abort(code), to)
    }

    /// A BUSY that a channel owes, for the call of the header.
    fn give_busy(&mut self, key: u32, head: &Head, to: &mut [u8]) -> usize
        requires room { DATAGRAM_BYTES ≤ length to.old }
        requires key { IsKey self.old key }
        ensures steps { StepsAt C.class_of self.old self.new key
            (λ ch l. on_channel ch (λ q. record q { owed_busy = None }) l) }
        ensures written { take result to.new ≡ made (message_with_head head.now models.Busy) }
        ensures rest { drop result to.new ≡ drop result to.old }
        ensures others { OthersSame self.old self.new key }
        ensures same { KeepsNode self.old self.new }
    {
        self.table.seat_mut(key).owed_busy = None;
        write_msg(head, &Body::Busy, to)
    }

    /// The CHALLENGE of a channel's latest call.
    fn give_challenge(&mut self, key: u32, head: &Head, to: &mut [u8]) -> usize
        requires room { DATAGRAM_BYTES ≤ length to.old }
        requires key { IsKey self.old key }
        ensures steps { StepsAt C.class_of self.old self.new key
            (λ ch l. on_channel ch (λ q. record q { owed_challenge = false }) l) }
        ensures written { (l : Looks) (ch : Channel) → Mirrors C.class_of self.old l → IsChannel l key ch →
            take result to.new ≡ made (message_with_head head.now
            (challenge_of (setup_of C.class_of self.old) l (latest_name l ch))) }
        ensures rest { drop result to.new ≡ drop result to.old }
        ensures others { OthersSame self.old self.new key }
        ensures same { KeepsNode self.old self.new }
    {
        let mut bytes = [0; SECURITY_BYTES];
        let nonce = self.table.nonce(key / CHANNELS);
        let count = self.class.challenge(&self.latest(key), nonce, &mut bytes);
        self.table.seat_mut(key).owed_challenge = false;
        write_msg(head, &Body::Challenge(&bytes[..count]), to)
    }

    /// The RESPONSE that a channel owes; nothing where it owes none.
    fn give_response(&mut self, key: u32, head: &Head, to: &mut [u8]) -> usize
        requires room { DATAGRAM_BYTES ≤ length to.old }
        requires key { IsKey self.old key }
        ensures steps { StepsAt C.class_of self.old self.new key
            (λ ch l. on_channel ch (λ q. record q { owed_response = None }) l) }
        ensures written { (l : Looks) (ch : Channel) (bytes : List ℕ) → Mirrors C.class_of self.old l
            → IsChannel l key ch →
            (channel_at l ch).owed_response ≡ Some bytes →
            take result to.new ≡ made (message_with_head head.now (models.Response bytes)) }
        ensures rest { drop result to.new ≡ drop result to.old }
        ensures others { OthersSame self.old self.new key }
        ensures same { KeepsNode self.old self.new }
    {
        match self.table.seat_mut(key).owed_response.take() {
            Some(bytes) => write_msg(head, &Body::Response(bytes.as_slice()), to),
            None => 0,
        }
    }

    /// An ACKALL that a channel owes.
    fn give_ackall(&mut self, key: u32, head: &Head, to: &mut [u8]) -> usize
        requires room { DATAGRAM_BYTES ≤ length to.old }
        requires key { IsKey self.old key }
        ensures steps { StepsAt C.class_of self.old self.new key
            (λ ch l. on_channel ch (λ q. record q { owed_ackall = false }) l) }
        ensures written { take result to.new ≡ made (message_with_head head.now models.AckAll) }
        ensures rest { drop result to.new ≡ drop result to.old }
        ensures others { OthersSame self.old self.new key }
        ensures same { KeepsNode self.old self.new }
    {
        self.table.seat_mut(key).owed_ackall = false;
        write_msg(head, &Body::AckAll, to)
    }

    /// The header of a datagram of a channel's latest call (`rx_packet.h`, `struct rx_header`), without a seq.
    fn head(&self, key: u32, serial: u32) -> Head
        requires { IsKey self.now key }
        ensures flags { result.flags ≡ side_flag self.now.kind }
        ensures seq { result.seq ≡ 0 }
        ensures head { (l : Looks) (ch : Channel) (x : rules.ConnLooks) (body : models.Body) →
            Mirrors C.class_of self.now l → IsChannel l key ch → conn_at l ch.connection ≡ Some x →
            message_with_head result body
            ≡ record (message_on (setup_of C.class_of self.now) (at_once (latest_name l ch) body) x) {
              serial = serial;
            } }
    {
        let place = key / CHANNELS;
        let (_host, epoch, cid) = self.table.named(place);
        Head {
            epoch,
            cid: cid + key % CHANNELS,
            number: self.table.seat(key).number,
            seq: 0,
            serial,
            flags: self.kind.flag(),
            status: 0,
            index: self.class.index(),
            spare: 0,
            service: self.links[place as usize].service,
        }
    }

    /// The name of a channel's latest call.
    pub fn latest(&self, key: u32) -> CallName
        requires { IsKey self.now key }
        ensures { (l : Looks) (ch : Channel) → Mirrors C.class_of self.now l → IsChannel l key ch →
            result ≡ latest_name l ch }
    {
        let (host, epoch, cid) = self.table.named(key / CHANNELS);
        CallName {
            host,
            epoch,
            cid,
            chan: (key % CHANNELS) as u8,
            number: self.table.seat(key).number,
        }
    }

    /// The DATA or the ACK of a call.
    fn give_sending<L: Ledger>(
        &mut self,
        key: u32,
        end: usize,
        head: &Head,
        to: &mut [u8],
        steps: &mut Steps<L>,
    ) -> usize
        requires room { DATAGRAM_BYTES ≤ length to.old }
        requires active { IsActiveAt self.old key end }
        requires flags { head.now.flags ≡ side_flag self.old.kind }
        ensures gives { (l : Looks) (ch : Channel) (i : RulesItem) → Mirrors C.class_of self.old l
            → IsChannel l key ch →
            SendsItem (setup_of C.class_of self.old) l ch i → i.rank ≤ l.now → head.now.number ≡ i.name.number →
            head.now.seq ≡ 0 →
            GaveBehind C.class_of self.new l head.now i (take result to.new) }
        ensures rest { drop result to.new ≡ drop result to.old }
        ensures others { OthersSame self.old self.new key }
        ensures same { KeepsNode self.old self.new }
        ensures steps_taken { AtMost 2 steps.old steps.new }
    {
        match self.ends.poll(end, self.moment, steps) {
            Some(Giving::Piece { seq, asks, last }) => {
                let flags = head.flags
                    | flag_where(asks, REQUEST_ACK)
                    | flag_where(last, LAST_PACKET);
                let payload = self.ends.payload(end, seq, steps);
                // A slot has no more than a datagram has room for.
                let payload = &payload[..payload.len().min(PAYLOAD_BYTES)];
                write_msg(
                    &Head {
                        seq,
                        flags,
                        ..*head
                    },
                    &Body::Chunk(payload),
                    to,
                )
            }
            Some(Giving::Ack { reason, serial }) => {
                let flags = head.flags | flag_where(reason == ACK_PING, REQUEST_ACK);
                let head = Head { flags, ..*head };
                let window = self.limits.window;
                let ack = ack_of(&self.ends, end, window, reason, serial, steps);
                write_msg(&head, &Body::Ack(ack), to)
            }
            None => 0,
        }
    }
}

/// The ACK of a call.
fn ack_of<L: Ledger>(
    ends: &Ends,
    end: usize,
    window: u32,
    reason: u8,
    serial: u32,
    steps: &mut Steps<L>,
) -> AckBody
    requires { IsThere ends.now end }
    ensures seen { (k : CallLooks) → StandsEnd ends.now end k →
        ack_of result ≡ ack_body window reason serial k.received }
    ensures steps { steps.new ≡ steps.old + 1 }
{
    let view = ends.ack_view(end, steps);
    AckBody {
        first: view.first,
        previous: view.previous,
        serial,
        reason,
        marks: view.marks,
        window: Some(window),
    }
}

/// The first of what a seat owes at once, by whether the client of its connection is proved.
fn owed_at(seat: &Seat, proved: bool) -> Option<Item>
    ensures { result ≡ owed_at seat.now proved }
{
    if let Some(code) = seat.owed_abort {
        return Some(Item::Abort(code));
    }
    if let Some(number) = seat.owed_busy {
        return Some(Item::Busy(number));
    }
    let is_live = seat.live.is_some();
    if is_live && seat.owed_challenge && !proved {
        return Some(Item::Challenge);
    }
    if is_live && seat.owed_response.is_some() {
        return Some(Item::Response);
    }
    if seat.owed_ackall {
        return Some(Item::AckAll);
    }
    None
}

/// A flag, where it is set.
fn flag_where(set: bool, flag: u8) -> u8
    ensures { result ≡ (if set then flag else 0) }
{
    if set {
        return flag;
    }
    0
}
