//! What becomes of a datagram that comes.

ghost use Rattle.std.specs.Prelude.{◌≡◌, ◌==◌, ◌&&◌, ◌<◌, IfSome, Some, true, length, is_some, slice_get};
ghost use Rattle.rx_model.specs.declared.event.Event.TheVariants as events;
ghost use Rattle.rx_model.specs.Names.{Channel, channel_of, same_host};
ghost use Rattle.rx_packet.specs.Seen.{FitsDatagram, body_of, message_of};
ghost use Rattle.rx_rules.specs.Judging.{live_row};
ghost use Rattle.rx_rules.specs.Judging as rules;
ghost use Rattle.rx_rules.specs.After.{taken_with};
ghost use Rattle.rx_rules.specs.Life.{is_active};
ghost use Rattle.rx_rules.specs.Looks.{CallRecord, ConnLooks, Looks};
ghost use Rattle.rx_rules.specs.Setup.{is_client};
ghost use Rattle.rx_call.specs.Standing.{FitsSlot};
ghost use Rattle.rx_node.specs.Mirrors.{IsChannel, IsKey, Mirrors, StepsAt};
ghost use Rattle.rx_node.specs.Node.{KeepsNode, setup_of};
ghost use Rattle.rx_node.specs.Steps.{AnswersNode, IsOwn, stopped_by};
ghost use Rattle.rx_client.specs.Taking.{TakesMessage, TakesNamed, is_let_in, turned_from};

use crate::client::Client;
use crate::rows::{client_row, is_for_clients};
use rx_books::{Node, named};
use rx_class::Class;
use rx_model::wire::CLIENT_INITIATED;
use rx_model::{CallName, Host, Took};
use rx_packet::{Body, Head, read_msg};
use rx_table::CHANNELS;

impl<C: Class> Client<C> {
    /// Takes a datagram from a host, and answers what becomes of it.
    pub fn take(&mut self, from: Host, bytes: &[u8]) -> Took
        ensures answered { AnswersNode C.class_of self.old self.new (events.Taken from bytes.now result) }
        ensures setup { setup_of C.class_of self.new ≡ setup_of C.class_of self.old }
    {
        match &read_msg(bytes) {
            Ok((head, body)) => take_message(&mut self.node, from, head, body),
            Err(bad) => Took::Bad(*bad),
        }
    }
}

/// A message from a host.
fn take_message<C: Class>(node: &mut Node<C>, from: Host, head: &Head, body: &Body<'_>) -> Took
    requires client { is_client node.old.kind ≡ true }
    requires size { FitsDatagram (body_of body.now) }
    ensures takes { (l : Looks) → Mirrors C.class_of node.old l →
        TakesMessage C.class_of node.old node.new l from (message_of head.now body.now) result }
    ensures same { KeepsNode node.old node.new }
{
    if head.flags & CLIENT_INITIATED != 0 {
        return Took::Foreign;
    }
    let c = named(node.kind(), from, head);
    match let_in(node, from, &c, head, body) {
        Some(key) => take_named(node, key, &c, head, body),
        None => Took::Strange,
    }
}

/// The key of a message's channel, where the message comes from the peer of its connection, in its class, and is of a
/// kind for clients.
fn let_in<C: Class>(
    node: &Node<C>,
    from: Host,
    c: &CallName,
    head: &Head,
    body: &Body<'_>,
) -> Option<u32>
    requires { c.now.chan < 4 }
    ensures key { IfSome result (IsKey node.now) }
    ensures channel { (l : Looks) → Mirrors C.class_of node.now l →
        IfSome result (λ key. IsChannel l key (channel_of c.now)) }
    ensures exact { (l : Looks) → Mirrors C.class_of node.now l → is_some result
        ≡ is_let_in (C.class_of node.now.secret) l from c.now (message_of head.now body.now) }
{
    let key = node.channel(c)?;
    if comes_in(
        node.class(),
        node.link(key / CHANNELS).peer,
        from,
        head,
        body,
    ) {
        return Some(key);
    }
    None
}

/// Whether a message from a host comes from a peer, in a class, and is of a kind for clients.
fn comes_in<C: Class>(class: &C, peer: Host, from: Host, head: &Head, body: &Body<'_>) -> bool
    ensures { let its = C.class_of (C.secret class.now) in result
        ≡ (same_host peer from && ((head.now.index == its.index) && rules.is_for_clients its.challenges
        (body_of body.now))) }
{
    peer == from && head.index == class.index() && is_for_clients(class.challenges(), body)
}

/// A message for the channel with a key, whose connection is used.
fn take_named<C: Class>(
    node: &mut Node<C>,
    key: u32,
    c: &CallName,
    head: &Head,
    body: &Body<'_>,
) -> Took
    requires client { is_client node.old.kind ≡ true }
    requires key { IsKey node.old key }
    requires channel { (l : Looks) → Mirrors C.class_of node.old l → IsChannel l key (channel_of c.now) }
    requires chan { c.now.chan < 4 }
    requires number { c.now.number ≡ head.now.number }
    requires size { FitsDatagram (body_of body.now) }
    ensures takes { (l : Looks) → Mirrors C.class_of node.old l →
        TakesNamed C.class_of node.old node.new l c.now (message_of head.now body.now) result }
    ensures same { KeepsNode node.old node.new }
{
    let facts = node.facts(Some(key), c, head, body);
    node.touch(key / CHANNELS);
    match client_row(&facts) {
        Some(row) => {
            turn_away(node, row, key, body);
            row
        }
        None => take_own(node, key, c, head, body),
    }
}

/// A message for a channel that a row in front of its call's answers.
fn turn_away<C: Class>(node: &mut Node<C>, row: Took, key: u32, body: &Body<'_>)
    requires { IsKey node.old key }
    ensures steps { StepsAt C.class_of node.old node.new key (turned_from row (body_of body.now)) }
    ensures same { KeepsNode node.old node.new }
{
    match row {
        Took::Stopped => stop_all(node, key / CHANNELS, body),
        Took::Over => node.owe_again(key, body),
        Took::Strange
        | Took::Old
        | Took::Kept
        | Took::Repeat
        | Took::Beyond
        | Took::Clash
        | Took::NoSlot
        | Took::Heard
        | Took::Busy
        | Took::NoRoom
        | Took::Full
        | Took::Unserved
        | Took::Foreign
        | Took::Bad(_) => {}
    }
}

/// An ABORT without a call number reaches each call of its connection.
fn stop_all<C: Class>(node: &mut Node<C>, place: u32, body: &Body<'_>)
    requires { place < length node.old.table.conns }
    ensures steps { (l : Looks) (x : ConnLooks) → Mirrors C.class_of node.old l → slice_get l.conns place ≡ Some x →
        Mirrors C.class_of node.new (stopped_by (body_of body.now) x.connection l) }
    ensures same { KeepsNode node.old node.new }
{
    match body {
        Body::Abort(code) => node.reach_all(place, *code),
        Body::Chunk(_)
        | Body::Busy
        | Body::Ack(_)
        | Body::AckAll
        | Body::Challenge(_)
        | Body::Response(_) => {}
    }
}

/// A message for the call of its channel, which is active.
fn take_own<C: Class>(
    node: &mut Node<C>,
    key: u32,
    c: &CallName,
    head: &Head,
    body: &Body<'_>,
) -> Took
    requires key { IsKey node.old key }
    requires size { FitsDatagram (body_of body.now) }
    ensures answered { (l : Looks) (k : CallRecord) → IsOwn C.class_of node.old l key c.now k
        → is_active k.life ≡ true →
        result ≡ live_row (setup_of C.class_of node.old) l k (message_of head.now body.now) (body_of body.now) }
    ensures steps { (l : Looks) (k : CallRecord) → IsOwn C.class_of node.old l key c.now k → is_active k.life ≡ true →
        Mirrors C.class_of node.new
        (taken_with (setup_of C.class_of node.old) result c.now (message_of head.now body.now) l) }
    ensures same { KeepsNode node.old node.new }
{
    match node.active(key) {
        Some(end) => node.take(key, end, c, head, body),
        None => Took::Over,
    }
}
