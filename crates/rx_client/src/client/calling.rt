//! Connections to servers, and calls.

ghost use Rattle.std.specs.Prelude.{◌≡◌, ◌≤◌, ◌<◌, ◌+◌, ◌^◌, IfOk, IfSome, Err, Some, None, false, length, take, drop};
ghost use Rattle.std.specs.Prelude.{slice_get};
ghost use Rattle.rx_model.specs.declared.answers.CallRefused.{CallRefused};
ghost use Rattle.rx_model.specs.declared.answers.ReadGot.TheVariants as readers;
ghost use Rattle.rx_model.specs.declared.answers.WroteGot.TheVariants as writers;
ghost use Rattle.rx_model.specs.declared.event.Event.TheVariants as events;
ghost use Rattle.rx_model.specs.Names.{Channel, channels_of};
ghost use Rattle.rx_model.specs.Spelling.{IsCode};
ghost use Rattle.rx_rules.specs.After.{is_zero};
ghost use Rattle.rx_rules.specs.Looks.{ConnLooks, Looks, channel_at};
ghost use Rattle.rx_rules.specs.Rules.{client_read_got, next_number, own_call};
ghost use Rattle.rx_rules.specs.Setup as setups;
ghost use Rattle.rx_table.specs.declared.seat.Seat.{Seat};
ghost use Rattle.rx_table.specs.Records.{seat_at};
ghost use Rattle.rx_node.specs.Mirrors.{IsActiveAt, IsChannel, IsKey, Mirrors};
ghost use Rattle.rx_node.specs.Node.{setup_of};
ghost use Rattle.rx_node.specs.Steps.{AnswersNode};
ghost use Rattle.rx_events.specs.Events.{written_count};
ghost use Rattle.rx_client.specs.Calling.{HasEnded, HasNoneOpen, IsCallingAt, IsFirstOpen};
ghost use Rattle.rx_client.specs.Client.{read_count, read_ended};

use crate::client::Client;
use rx_books::{Life, Link, Turn};
use rx_class::Class;
use rx_model::{Asked, CallName, CallRead, CallRefused, ConnFull, End, Host, NotOpen, ReadAns};
use rx_table::CHANNELS;

impl<C: Class> Client<C> {
    /// Makes a connection to a service of a server, whose calls have numbers from `first` on, and answers its cid.
    pub fn connect(&mut self, to: Host, service: u16, first: u32) -> Result<u32, ConnFull>
        requires { 1 ≤ first }
        ensures answered { AnswersNode C.class_of self.old self.new (events.Linked to service first result) }
        ensures setup { setup_of C.class_of self.new ≡ setup_of C.class_of self.old }
    {
        if self.node.conns() >= self.node.limits().conns {
            return Err(ConnFull);
        }
        let cid = CHANNELS * self.node.conns() + CHANNELS;
        let link = Link {
            peer: to,
            service,
            first,
        };
        let c = self.name(cid);
        self.node.enter(&c, link, 0);
        Ok(cid)
    }

    /// A name on its connection with a cid.
    fn name(&self, cid: u32) -> CallName
        ensures kind { self.now.kind ≡ setups.Client result.host result.epoch }
        ensures cid { result.cid ≡ cid }
    {
        CallName {
            host: self.host,
            epoch: self.epoch,
            cid,
            chan: 0,
            number: 0,
        }
    }

    /// Starts a call on the lowest channel of a connection that is free and not worn.
    pub fn call(&mut self, cid: u32) -> Result<CallName, CallRefused>
        ensures answered { AnswersNode C.class_of self.old self.new (events.Called cid result) }
        ensures setup { setup_of C.class_of self.new ≡ setup_of C.class_of self.old }
    {
        let c = self.name(cid);
        let Some(place) = self.node.place(&c) else {
            return Err(CallRefused::NoConn);
        };
        let key = match self.open_channel(place) {
            Ok(key) => key,
            Err(refused) => return Err(refused),
        };
        if self.node.live() >= self.node.limits().calls {
            return Err(CallRefused::NoRoom);
        }
        let number = self.next_number(place, key);
        self.node.start(key, number, Life::Calling);
        Ok(self.node.latest(key))
    }

    /// The number of a channel's next call: its first one has that of its connection.
    fn next_number(&self, place: u32, key: u32) -> u32
        requires place { place < length self.now.table.conns }
        requires key { IsKey self.now key }
        requires below { (seat : Seat) → seat_at self.now.table key ≡ Some seat → seat.number + 1 < 2 ^ 32 }
        ensures some { 0 < result }
        ensures exact { (l : Looks) (x : ConnLooks) (ch : Channel) → Mirrors C.class_of self.now l →
            slice_get l.conns place ≡ Some x → IsChannel l key ch →
            result ≡ next_number x.first (channel_at l ch).number }
    {
        let before = self.node.seat(key).number;
        if before == 0 {
            return self.node.link(place).first;
        }
        before + 1
    }

    /// The lowest channel of a connection without a live call that didn't use up its numbers.
    fn open_channel(&self, place: u32) -> Result<u32, CallRefused>
        requires { place < length self.now.table.conns }
        ensures key { IfOk result (IsKey self.now) }
        ensures free { IfOk result (λ key. (seat : Seat) → seat_at self.now.table key ≡ Some seat →
            (seat.live ≡ None) × (seat.number + 1 < 2 ^ 32)) }
        ensures first { (l : Looks) (x : ConnLooks) → Mirrors C.class_of self.now l → slice_get l.conns place ≡ Some x →
            IfOk result (IsFirstOpen l x) }
        ensures refused { (l : Looks) (x : ConnLooks) (refused : CallRefused) → Mirrors C.class_of self.now l →
            slice_get l.conns place ≡ Some x → result ≡ Err refused →
            HasNoneOpen l (channels_of x.connection) refused }
    {
        let mut refused = CallRefused::NoChannel;
        for chan in 0..CHANNELS {
            let key = CHANNELS * place + chan;
            let seat = self.node.seat(key);
            if seat.live.is_some() {
                continue;
            }
            if seat.number < u32::MAX {
                return Ok(key);
            }
            refused = CallRefused::Worn;
        }
        Err(refused)
    }

    /// The end of a call that lives, with the key of its channel.
    fn calling(&self, c: &CallName) -> Option<(u32, usize)>
        ensures active { IfSome result (λ found. IsActiveAt self.now found.0 found.1) }
        ensures key { IfSome result (λ found. IsKey self.now found.0) }
        ensures calling { (l : Looks) → Mirrors C.class_of self.now l →
            IfSome result (λ found. IsCallingAt l found.0 c.now) }
        ensures none { (l : Looks) → Mirrors C.class_of self.now l → result ≡ None → HasEnded (own_call l c.now) }
    {
        let key = self.node.own(c)?;
        if !self.node.life(key)?.is_calling() {
            return None;
        }
        let end = self.node.active(key)?;
        Some((key, end))
    }

    /// Says bytes on a call, and answers how many were accepted.
    pub fn write(&mut self, c: &CallName, bytes: &[u8]) -> Result<usize, NotOpen>
        ensures answered { AnswersNode C.class_of self.old self.new
            (events.Wrote c.now (length bytes.now) (writers.Client result) (take (written_count result) bytes.now)) }
        ensures setup { setup_of C.class_of self.new ≡ setup_of C.class_of self.old }
    {
        let Some((key, end)) = self.calling(c) else {
            return Err(NotOpen);
        };
        if self.node.is_shut(key, end) {
            return Err(NotOpen);
        }
        Ok(self.node.write(key, end, bytes))
    }

    /// Ends what is said on a call.
    pub fn shut(&mut self, c: &CallName) -> Result<(), NotOpen>
        ensures answered { AnswersNode C.class_of self.old self.new (events.Shut c.now result) }
        ensures setup { setup_of C.class_of self.new ≡ setup_of C.class_of self.old }
    {
        let Some((key, end)) = self.calling(c) else {
            return Err(NotOpen);
        };
        if self.node.is_shut(key, end) {
            return Err(NotOpen);
        }
        self.node.shut(key, end);
        Ok(())
    }

    /// Reads the next bytes of the reply of a call, as many as fit.
    pub fn read(&mut self, c: &CallName, to: &mut [u8]) -> ReadAns
        requires { 0 < length to.old }
        ensures answered { AnswersNode C.class_of self.old self.new
            (events.HasRead c.now (length to.old) (readers.Client result) (take (read_count result) to.new)) }
        ensures rest { drop (read_count result) to.new ≡ drop (read_count result) to.old }
        ensures setup { setup_of C.class_of self.new ≡ setup_of C.class_of self.old }
    {
        let Some((key, end)) = self.calling(c) else {
            return match self.end(c) {
                Asked::Ended(end) => ended_read(end),
                Asked::Live | Asked::Unknown => ReadAns::Unknown,
            };
        };
        live_read(self.node.read(key, end, to))
    }

    /// Whether a call lives, or how it ended.
    pub fn end(&self, c: &CallName) -> Asked
        ensures answered { AnswersNode C.class_of self.now self.now (events.Ended c.now result) }
    {
        let Some(key) = self.node.own(c) else {
            return Asked::Unknown;
        };
        match self.node.life(key) {
            Some(Life::Ended(end)) => Asked::Ended(end),
            Some(
                Life::Calling
                | Life::Waiting
                | Life::Accepted
                | Life::Finished
                | Life::Broken(_)
                | Life::Over(_),
            ) => Asked::Live,
            None => Asked::Unknown,
        }
    }

    /// Gives a call up with a code other than 0, of which its server is told.
    pub fn cancel(&mut self, c: &CallName, code: i32) -> Result<(), NotOpen>
        requires { is_zero code ≡ false }
        ensures answered { AnswersNode C.class_of self.old self.new (events.Cancelled c.now code result) }
        ensures setup { setup_of C.class_of self.new ≡ setup_of C.class_of self.old }
    {
        let Some((key, _end)) = self.calling(c) else {
            return Err(NotOpen);
        };
        self.node.turn(key, Turn::Cancel(code));
        self.node.owe_abort(key, Some(code));
        Ok(())
    }
}

/// The answer of a read of a call that lives.
fn live_read(got: CallRead) -> ReadAns
    ensures { result ≡ client_read_got got }
{
    match got {
        CallRead::Got(count) => ReadAns::Got(count),
        CallRead::End => ReadAns::End,
        CallRead::NotYet => ReadAns::NotYet,
    }
}

/// The answer of a read of a call that ended.
fn ended_read(end: End) -> ReadAns
    ensures { result ≡ read_ended end }
{
    match end {
        End::Ok => ReadAns::End,
        End::Abort(_) | End::Dead(_) | End::Cancelled(_) => ReadAns::Gone(end),
    }
}
