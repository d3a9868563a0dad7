//! What becomes of a datagram that comes.

ghost use Rattle.std.specs.Prelude.{◌≡◌, ◌<◌, ◌≤◌, ◌+◌, ◌^◌, IfSome, Some, None, true, false, is_some, length, nat_lt};
ghost use Rattle.rx_model.specs.declared.event.Event.TheVariants as events;
ghost use Rattle.rx_model.specs.Message.{Message};
ghost use Rattle.rx_model.specs.Names.{Channel, channel_of, connection_of};
ghost use Rattle.rx_packet.specs.Seen.{FitsDatagram, body_of, message_of};
ghost use Rattle.rx_model.specs.declared.answers.Took.TheVariants as tooks;
ghost use Rattle.rx_rules.specs.Looks.{CallRecord, Looks, call_at, call_named, channel_at, conn_at};
ghost use Rattle.rx_rules.specs.Records.{has_place, started_later, used};
ghost use Rattle.rx_table.specs.Records.{IsLongestIdle, place_of};
ghost use Rattle.rx_node.specs.Mirrors.{IsChannel, IsKey};
ghost use Rattle.rx_node.specs.Node.{setup_of};
ghost use Rattle.rx_server.specs.Server.{Answered, SameSetup, Serves, StepsServer};
ghost use Rattle.rx_rules.specs.After.{turned_away};
ghost use Rattle.rx_server.specs.Turned.{Judges, strays, turned_of};
ghost use Rattle.rx_server.specs.Taking.{Entered, HasNoPlace, IsReady, Opening, OpensSome, OwnsSome, Passes, RowIs};
ghost use Rattle.rx_server.specs.Taking.{IsOwnActive, Takes, TakesLive, keeps_first, proves_client};
ghost use Rattle.rx_node.specs.Steps.{IsFound, stopped_by};

use crate::rows::{outer_row, server_row};
use crate::server::Server;
use crate::server::waiting::{admit_place, list_behind};
use rx_books::{Life, Link, Turn, is_data, is_response, named};
use rx_class::Class;
use rx_model::wire::RX_CALL_DEAD;
use rx_model::{CallName, Host, Took};
use rx_packet::{Body, Head, read_msg};
use rx_table::CHANNELS;

impl<C: Class> Server<C> {
    /// Takes a datagram from a host, and answers what becomes of it.
    pub fn take(&mut self, from: Host, bytes: &[u8]) -> Took
        ensures answered { Answered C.class_of self.old self.new (events.Taken from bytes.now result) }
        ensures setup { setup_of C.class_of self.new.node ≡ setup_of C.class_of self.old.node }
    {
        let _ = &self.node;
        match &read_msg(bytes) {
            Ok((head, body)) => self.take_message(from, head, body),
            Err(bad) => Took::Bad(*bad),
        }
    }

    /// A message from a host.
    fn take_message(&mut self, from: Host, head: &Head, body: &Body<'_>) -> Took
        requires { FitsDatagram (body_of body.now) }
        ensures judges { (l : Looks) → Serves C.class_of self.old l →
            Judges C.class_of self.old self.new l from (message_of head.now body.now) result }
        ensures same { SameSetup C.class_of self.old self.new }
    {
        let index = self.node.class().index();
        let challenges = self.node.class().challenges();
        if let Some(row) = outer_row(self.service, index, challenges, head, body) {
            self.turn_outer(row, from, head, body);
            return row;
        }
        let kind = self.node.kind();
        self.take_named(&named(kind, from, head), head, body)
    }

    /// What a row changes that looks at no connection: DATA of a service that the server hasn't owes a stray abort.
    fn turn_outer(&mut self, row: Took, from: Host, head: &Head, body: &Body<'_>)
        ensures steps { StepsServer C.class_of self.old self.new (turned_away row from (message_of head.now body.now)) }
        ensures same { SameSetup C.class_of self.old self.new }
    {
        if owes_stray(row, body) {
            self.node.owe_stray(from, head);
        }
    }

    /// A message for a call, behind the rows that look at no connection.
    fn take_named(&mut self, c: &CallName, head: &Head, body: &Body<'_>) -> Took
        requires chan { c.now.chan < 4 }
        requires cid { c.now.cid + 3 < 2 ^ 32 }
        requires number { c.now.number ≡ head.now.number }
        requires size { FitsDatagram (body_of body.now) }
        ensures takes { (l : Looks) → Serves C.class_of self.old l →
            Takes C.class_of self.old self.new l c.now (message_of head.now body.now) result }
        ensures same { SameSetup C.class_of self.old self.new }
    {
        let channel = self.node.channel(c);
        let facts = self.node.facts(channel, c, head, body);
        match server_row(&facts) {
            Some(row) => self.turn_away(row, channel, c, body),
            None => self.take_own(facts.is_above, channel, c, head, body),
        }
    }

    /// A message that a row of its connection or its channel answers, so that it reaches no live call.
    fn turn_away(&mut self, row: Took, channel: Option<u32>, c: &CallName, body: &Body<'_>) -> Took
        requires chan { c.now.chan < 4 }
        requires found { IsFound C.class_of self.old.node c.now channel }
        requires cid { c.now.cid + 3 < 2 ^ 32 }
        ensures takes { (l : Looks) (m : Message) → Serves C.class_of self.old l →
            m.body ≡ body_of body.now → m.number ≡ c.now.number →
            RowIs (setup_of C.class_of self.old.node) l c.now m row →
            Takes C.class_of self.old self.new l c.now m result }
        ensures same { SameSetup C.class_of self.old self.new }
    {
        let _ = &self.node;
        match turn_of(row) {
            Turned::Crowded => self.turn_crowded(channel, c),
            Turned::Busy => self.turn_busy(channel, c),
            Turned::Stopped => self.turn_stopped(channel, c, body),
            Turned::Over => self.turn_over(channel, c, body),
            Turned::Aside => {
                self.touched(channel, c);
                row
            }
        }
    }

    /// An ABORT without a call number reaches each call of its connection.
    fn turn_stopped(&mut self, channel: Option<u32>, c: &CallName, body: &Body<'_>) -> Took
        requires chan { c.now.chan < 4 }
        requires found { IsFound C.class_of self.old.node c.now channel }
        ensures takes { (l : Looks) (m : Message) → Serves C.class_of self.old l →
            m.body ≡ body_of body.now → m.number ≡ c.now.number →
            RowIs (setup_of C.class_of self.old.node) l c.now m tooks.Stopped →
            Takes C.class_of self.old self.new l c.now m result }
        ensures same { SameSetup C.class_of self.old self.new }
    {
        let _ = &self.node;
        let Some(key) = self.touched(channel, c) else {
            return Took::Stopped;
        };
        self.stop_all(key, body);
        Took::Stopped
    }

    /// A message for a call that ended has its channel owe again what it was told.
    fn turn_over(&mut self, channel: Option<u32>, c: &CallName, body: &Body<'_>) -> Took
        requires chan { c.now.chan < 4 }
        requires found { IsFound C.class_of self.old.node c.now channel }
        ensures takes { (l : Looks) (m : Message) → Serves C.class_of self.old l →
            m.body ≡ body_of body.now → m.number ≡ c.now.number →
            RowIs (setup_of C.class_of self.old.node) l c.now m tooks.Over →
            Takes C.class_of self.old self.new l c.now m result }
        ensures same { SameSetup C.class_of self.old self.new }
    {
        let _ = &self.node;
        let Some(key) = self.touched(channel, c) else {
            return Took::Over;
        };
        self.node.owe_again(key, body);
        Took::Over
    }

    /// The connection of a call is used, where it is known by a look-up of the call's channel: the key of that.
    fn touched(&mut self, channel: Option<u32>, c: &CallName) -> Option<u32>
        requires chan { c.now.chan < 4 }
        requires found { IsFound C.class_of self.old.node c.now channel }
        ensures key { IfSome result (IsKey self.new.node) }
        ensures steps { StepsServer C.class_of self.old self.new (used (connection_of c.now)) }
        ensures channel { (l : Looks) → Serves C.class_of self.old l →
            IfSome result (λ key. IsChannel (used (connection_of c.now) l) key (channel_of c.now)) }
        ensures none { (l : Looks) → Serves C.class_of self.old l → result ≡ None →
            conn_at l (connection_of c.now) ≡ None }
        ensures known { (l : Looks) → Serves C.class_of self.old l →
            IfSome result (λ key. is_some (conn_at l (connection_of c.now)) ≡ true) }
        ensures absent { result ≡ None → place_of self.old.node.table (connection_of c.now) ≡ None }
        ensures stays { result ≡ None → self.new ≡ self.old }
        ensures same { SameSetup C.class_of self.old self.new }
    {
        let key = channel?;
        self.node.touch(key / CHANNELS);
        Some(key)
    }

    /// An ABORT without a call number reaches each call of the connection of a channel.
    fn stop_all(&mut self, key: u32, body: &Body<'_>)
        requires { IsKey self.old.node key }
        ensures steps { (l : Looks) (ch : Channel) → Serves C.class_of self.old l → IsChannel l key ch →
            Serves C.class_of self.new (stopped_by (body_of body.now) ch.connection l) }
        ensures same { SameSetup C.class_of self.old self.new }
    {
        match body {
            Body::Abort(code) => self.node.reach_all(key / CHANNELS, *code),
            Body::Chunk(_)
            | Body::Busy
            | Body::Ack(_)
            | Body::AckAll
            | Body::Challenge(_)
            | Body::Response(_) => {}
        }
    }

    /// A call for which there is no room owes a BUSY.
    fn turn_crowded(&mut self, channel: Option<u32>, c: &CallName) -> Took
        requires chan { c.now.chan < 4 }
        requires found { IsFound C.class_of self.old.node c.now channel }
        requires cid { c.now.cid + 3 < 2 ^ 32 }
        ensures takes { (l : Looks) (m : Message) → Serves C.class_of self.old l → m.number ≡ c.now.number →
            RowIs (setup_of C.class_of self.old.node) l c.now m tooks.NoRoom →
            Takes C.class_of self.old self.new l c.now m result }
        ensures same { SameSetup C.class_of self.old self.new }
    {
        let _ = &self.node;
        let Some(key) = self.ready(channel, c) else {
            return Took::Full;
        };
        self.node.owe_busy(key, c.number);
        Took::NoRoom
    }

    /// A call on a channel whose call has its handler at work owes a BUSY, and that one breaks.
    fn turn_busy(&mut self, channel: Option<u32>, c: &CallName) -> Took
        requires chan { c.now.chan < 4 }
        requires found { IsFound C.class_of self.old.node c.now channel }
        requires cid { c.now.cid + 3 < 2 ^ 32 }
        ensures takes { (l : Looks) (m : Message) → Serves C.class_of self.old l → m.number ≡ c.now.number →
            RowIs (setup_of C.class_of self.old.node) l c.now m tooks.Busy →
            Takes C.class_of self.old self.new l c.now m result }
        ensures same { SameSetup C.class_of self.old self.new }
    {
        let _ = &self.node;
        let Some(key) = self.ready(channel, c) else {
            return Took::Full;
        };
        self.node.turn(key, Turn::Code(RX_CALL_DEAD));
        self.node.owe_busy(key, c.number);
        Took::Busy
    }

    /// A message for its channel's live call, or a data packet of a call with a higher number, which starts.
    fn take_own(
        &mut self,
        is_above: bool,
        channel: Option<u32>,
        c: &CallName,
        head: &Head,
        body: &Body<'_>,
    ) -> Took
        requires chan { c.now.chan < 4 }
        requires found { IsFound C.class_of self.old.node c.now channel }
        requires cid { c.now.cid + 3 < 2 ^ 32 }
        requires number { c.now.number ≡ head.now.number }
        requires size { FitsDatagram (body_of body.now) }
        requires passes { (l : Looks) → Serves C.class_of self.old l →
            Passes (setup_of C.class_of self.old.node) l c.now (message_of head.now body.now) }
        requires above { (l : Looks) → Serves C.class_of self.old l →
            is_above ≡ nat_lt (channel_at l (channel_of c.now)).number c.now.number }
        ensures takes { (l : Looks) → Serves C.class_of self.old l →
            Takes C.class_of self.old self.new l c.now (message_of head.now body.now) result }
        ensures same { SameSetup C.class_of self.old self.new }
    {
        let _ = &self.node;
        let Some(key) = self.ready(channel, c) else {
            return Took::Full;
        };
        if is_above {
            self.open(key, c.number);
            return self.take_live(key, c, head, body);
        }
        self.take_live(key, c, head, body)
    }

    /// A message for its channel's live call. A call whose packet 1 is kept waits behind those before it; those of a
    /// client that is proved by it may be given to a handler.
    fn take_live(&mut self, key: u32, c: &CallName, head: &Head, body: &Body<'_>) -> Took
        requires key { IsKey self.old.node key }
        requires size { FitsDatagram (body_of body.now) }
        requires own { OwnsSome C.class_of self.old key c.now }
        ensures takes { (l : Looks) (k : CallRecord) → Serves C.class_of self.old l → IsOwnActive l key c.now →
            call_at l c.now ≡ Some k →
            TakesLive C.class_of self.old self.new l c.now k (message_of head.now body.now) result }
        ensures same { SameSetup C.class_of self.old self.new }
    {
        let Some(end) = self.node.active(key) else {
            return Took::Over;
        };
        let took = self.node.take(key, end, c, head, body);
        if is_first(took, head.seq) {
            list_behind(&mut self.firsts, &self.node, key);
            return took;
        }
        if proves(took, body) {
            admit_place(&mut self.firsts, key / CHANNELS);
            return took;
        }
        took
    }

    /// The key of a call's channel, whose connection is used and was entered where it wasn't known; none where there is
    /// no place for it.
    fn ready(&mut self, channel: Option<u32>, c: &CallName) -> Option<u32>
        requires chan { c.now.chan < 4 }
        requires found { IsFound C.class_of self.old.node c.now channel }
        requires cid { c.now.cid + 3 < 2 ^ 32 }
        ensures key { IfSome result (IsKey self.new.node) }
        ensures ready { (l : Looks) → Serves C.class_of self.old l →
            IfSome result (IsReady C.class_of self.old self.new l c.now) }
        ensures none { (l : Looks) → Serves C.class_of self.old l → result ≡ None →
            HasNoPlace (setup_of C.class_of self.old.node) l (connection_of c.now) }
        ensures stays { result ≡ None → self.new ≡ self.old }
        ensures same { SameSetup C.class_of self.old self.new }
    {
        let _ = &self.node;
        if let Some(key) = self.touched(channel, c) {
            return Some(key);
        }
        self.enter(c)?;
        let channel = self.node.channel(c);
        self.touched(channel, c)
    }

    /// The connection of a call, which wasn't known, is entered: in the next place, or in that of the connection that
    /// is forgotten; none where none is idle for long enough.
    fn enter(&mut self, c: &CallName) -> Option<()>
        requires absent { place_of self.old.node.table (connection_of c.now) ≡ None }
        requires cid { c.now.cid + 3 < 2 ^ 32 }
        ensures entered { (l : Looks) → Serves C.class_of self.old l →
            IfSome result (λ entered. Entered C.class_of self.old self.new l (connection_of c.now)) }
        ensures none { (l : Looks) → Serves C.class_of self.old l → result ≡ None →
            has_place (setup_of C.class_of self.old.node) l ≡ false }
        ensures stays { result ≡ None → self.new ≡ self.old }
        ensures same { SameSetup C.class_of self.old self.new }
    {
        if self.node.conns() < self.node.limits().conns {
            self.enter_next(c);
            return Some(());
        }
        let place = self.node.idle()?;
        self.enter_instead(place, c);
        Some(())
    }

    /// It is entered in the next place.
    fn enter_next(&mut self, c: &CallName)
        requires absent { place_of self.old.node.table (connection_of c.now) ≡ None }
        requires room { length self.old.node.table.conns < self.old.node.limits.conns }
        requires cid { c.now.cid + 3 < 2 ^ 32 }
        ensures entered { (l : Looks) → Serves C.class_of self.old l →
            Entered C.class_of self.old self.new l (connection_of c.now) }
        ensures same { SameSetup C.class_of self.old self.new }
    {
        let link = self.link(c);
        self.node.enter(c, link, self.nonce);
        self.nonce = self.nonce.wrapping_add(1);
    }

    /// It is entered in the place of the one that is idle there.
    fn enter_instead(&mut self, place: u32, c: &CallName)
        requires absent { place_of self.old.node.table (connection_of c.now) ≡ None }
        requires full { self.old.node.limits.conns ≤ length self.old.node.table.conns }
        requires idle { IsLongestIdle self.old.node.moment self.old.node.table place }
        requires cid { c.now.cid + 3 < 2 ^ 32 }
        ensures entered { (l : Looks) → Serves C.class_of self.old l →
            Entered C.class_of self.old self.new l (connection_of c.now) }
        ensures same { SameSetup C.class_of self.old self.new }
    {
        let link = self.link(c);
        self.node.replace(place, c, link, self.nonce);
        self.nonce = self.nonce.wrapping_add(1);
    }

    /// The link of a client's connection.
    fn link(&self, c: &CallName) -> Link
        ensures { result ≡ record { peer = c.now.host; service = self.now.service; first = 1 } }
    {
        Link {
            peer: c.host,
            service: self.service,
            first: 1,
        }
    }

    /// A call with a higher number than its channel's starts: the channel's call ends.
    fn open(&mut self, key: u32, number: u32)
        requires key { IsKey self.old.node key }
        requires number { 0 < number }
        requires opens { OpensSome C.class_of self.old key number }
        ensures key { IsKey self.new.node key }
        ensures steps { (l : Looks) (ch : Channel) → Serves C.class_of self.old l → IsChannel l key ch →
            Opening (setup_of C.class_of self.old.node) l ch number →
            Serves C.class_of self.new
            (started_later (setup_of C.class_of self.old.node) (call_named ch number) l) }
        ensures same { SameSetup C.class_of self.old self.new }
    {
        self.node.turn(key, Turn::Later);
        self.firsts.remove_now(key);
        self.node.start(key, number, Life::Waiting);
    }
}

/// Whether it is packet 1 that was kept.
fn is_first(took: Took, seq: u32) -> bool
    ensures { result ≡ keeps_first took seq }
{
    match took {
        Took::Kept => seq == 1,
        Took::Strange
        | Took::Full
        | Took::Stopped
        | Took::Old
        | Took::Busy
        | Took::NoRoom
        | Took::Over
        | Took::Repeat
        | Took::Beyond
        | Took::Clash
        | Took::NoSlot
        | Took::Heard
        | Took::Unserved
        | Took::Foreign
        | Took::Bad(_) => false,
    }
}

/// Whether a client is proved by it: a right RESPONSE.
fn proves(took: Took, body: &Body<'_>) -> bool
    ensures { result ≡ proves_client took (body_of body.now) }
{
    match took {
        Took::Heard => is_response(body),
        Took::Strange
        | Took::Full
        | Took::Stopped
        | Took::Old
        | Took::Busy
        | Took::NoRoom
        | Took::Over
        | Took::Kept
        | Took::Repeat
        | Took::Beyond
        | Took::Clash
        | Took::NoSlot
        | Took::Unserved
        | Took::Foreign
        | Took::Bad(_) => false,
    }
}

/// What a row that reaches no live call changes.
#[derive(Clone, Copy, Debug, PartialEq, Eq)]
enum Turned {
    /// Its client is told to wait, as there is no room.
    Crowded,
    /// Its client is told to wait, as the channel's handler is at work.
    Busy,
    /// The calls of its connection stop.
    Stopped,
    /// Its channel owes again what it was told.
    Over,
    /// Its connection is used, and no more.
    Aside,
}

/// What this row changes.
fn turn_of(row: Took) -> Turned
    ensures { result ≡ turned_of row }
{
    match row {
        Took::NoRoom => Turned::Crowded,
        Took::Busy => Turned::Busy,
        Took::Stopped => Turned::Stopped,
        Took::Over => Turned::Over,
        Took::Strange
        | Took::Full
        | Took::Old
        | Took::Kept
        | Took::Repeat
        | Took::Beyond
        | Took::Clash
        | Took::NoSlot
        | Took::Heard
        | Took::Unserved
        | Took::Foreign
        | Took::Bad(_) => Turned::Aside,
    }
}

/// Whether a stray abort is owed.
fn owes_stray(row: Took, body: &Body<'_>) -> bool
    ensures { result ≡ strays row (body_of body.now) }
{
    match row {
        Took::Unserved => is_data(body),
        Took::Strange
        | Took::Full
        | Took::Stopped
        | Took::Old
        | Took::Busy
        | Took::NoRoom
        | Took::Over
        | Took::Kept
        | Took::Repeat
        | Took::Beyond
        | Took::Clash
        | Took::NoSlot
        | Took::Heard
        | Took::Foreign
        | Took::Bad(_) => false,
    }
}
