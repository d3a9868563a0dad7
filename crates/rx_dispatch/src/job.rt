//! A call that was accepted and isn't finished.

ghost use Rattle.std.specs.Prelude.{◌≡◌, nat_lt, true, Some, IfOk, OnOk, OnErr, drop, length, take};
ghost use Rattle.rx_node.specs.Node.{setup_of};
ghost use Rattle.rx_dispatch.specs.Calls.{Called};
ghost use Rattle.rx_dispatch.specs.Desks.{IsFound, IsRemembered, handlers_at};
ghost use Rattle.rx_jobs.specs.Handlers.{served_for};
ghost use Rattle.rx_jobs.specs.Jobs.{begun, coded_want, decided, grown, heard_write, next_want, settled, stepped};
ghost use Rattle.rx_jobs.specs.Jobs.{waited, waits, want_in};
ghost use Rattle.rx_dispatch.specs.Rounds.{resolved};
ghost use Rattle.rx_jobs.specs.Keeping.{kept_of};
ghost use Rattle.rx_dispatch.specs.Wanting.{CopiesBytes, LooksInto};
ghost use Rattle.rx_jobs.specs.declared.job.Want.TheVariants as wants;

use crate::calls::{ended_after, front, next_after, read, write};
use crate::deciding::{Arguments, Found, early_code, find_arguments, serve, wait_at, whole_code};
use crate::desk::Desk;
use crate::keeping::kept_of;
use rx_class::Class;
pub use rx_jobs::{OFFER_BYTES, Phase, Want};
use rx_model::{Bytes, CallName, Event, ReadGot, ServeRefused, WroteGot};
use rx_room::Room;
use rx_script::Served;
use rx_server::Server;
use std::alloc::{AllocError, Global};
use std::marker::Model;

/// What a job still has to do before its next call.
#[derive(Clone, Copy, Debug, PartialEq, Eq)]
pub enum Next {
    /// Its step begins.
    Begin,
    /// Bytes of its request came behind so many, and may have a code.
    Judge(usize),
    /// The end of its request came, and it decides or waits.
    Settle,
    /// Nothing, at this place of its step.
    Go(Phase),
}

/// A job: what is kept of its request, and what is to be written.
#[derive(Debug, Drop)]
pub struct Job {
    call: CallName,
    request: Vec<u8>,
    /// The request was read to its end.
    ended: bool,
    /// Steps since that end.
    steps: u32,
    /// The code that was decided; with 0 the reply is written.
    code: Option<i32>,
    reply: Vec<u8>,
    /// Bytes of the reply that were accepted.
    said: usize,
}

impl Model for Job {
    ghost use Rattle.std.specs.Prelude.{◌+◌, ◌^◌, ◌<◌, ◌≤◌, length, drop};
    ghost use Rattle.rx_jobs.specs.Jobs.{JobState};

    ghost Value = { JobState };

    ghost view = { λ s. record {
      call = s.call;
      request = s.request.items;
      ended = s.ended;
      steps = s.steps;
      code = s.code;
      reply = drop s.said s.reply.items;
    } };

    ghost invariant = { λ s. (s.steps + 1 < 2 ^ 32) × (s.said ≤ length s.reply.items) };
}

impl Job {
    /// The job of a call of which nothing was read.
    pub fn begun(alloc: Global, call: CallName) -> Job
        ensures { result ≡ begun call }
    {
        Job {
            call,
            request: Vec::new(alloc),
            ended: false,
            steps: 0,
            code: None,
            reply: Vec::new(alloc),
            said: 0,
        }
    }

    /// How many bytes of its request it has.
    pub fn held(&self) -> usize
        ensures { result ≡ length self.now.request }
    {
        self.request.len()
    }

    // ---- what it asks

    /// Its next call in a step that goes on; none where it waits.
    fn next_want(&self) -> Option<Want>
        ensures { result ≡ next_want self.now self.now.code }
    {
        match self.code {
            None => { if self.ended { None } else { Some(Want::Read) } }
            Some(code) => Some(self.coded_want(code)),
        }
    }

    /// Its next call where this code was decided.
    fn coded_want(&self, code: i32) -> Want
        ensures { result ≡ coded_want self.now code }
    {
        if code == 0 && self.said < self.reply.len() {
            return Want::Write;
        }
        Want::Finish(code)
    }

    /// Its next call; none where its step is over or it ended.
    pub fn want(&self, phase: Phase) -> Option<Want>
        ensures { result ≡ want_in phase self.now }
    {
        match phase {
            Phase::Moves => self.next_want(),
            Phase::Quits => Some(Want::Finish(0)),
            Phase::Rests => None,
            Phase::Gone => None,
        }
    }

    /// The bytes that it offers next.
    fn offer(&self) -> &[u8]
        ensures { result.now ≡ take OFFER_BYTES self.now.reply }
    {
        let (_, rest) = self.reply.split_at(self.said);
        front(rest, OFFER_BYTES)
    }

    // ---- what it decides

    /// Does what it still has to do before its next call. Where it is in its step then. Where memory is wanted, it is
    /// as it was.
    pub fn resolve(
        &mut self,
        desk: &Desk<'_>,
        next: Next,
        found: &mut Option<Found>,
    ) -> Result<Phase, AllocError>
        requires { IsRemembered (handlers_at desk.now) self.old.request found.old }
        ensures resolved { IfOk result (λ phase. resolved (handlers_at desk.now) next self.old
            ≡ record { job = self.new; phase = phase }) }
        ensures wanting { OnErr result (self.new ≡ self.old) }
        ensures wants { OnErr result (LooksInto (handlers_at desk.now) next self.old) }
        ensures remembered { IsRemembered (handlers_at desk.now) self.new.request found.new }
    {
        match next {
            Next::Begin => {
                *found = None;
                self.begin(desk)?;
                Ok(Phase::Moves)
            }
            Next::Judge(before) => {
                self.judge(desk, before, found)?;
                Ok(Phase::Moves)
            }
            Next::Settle => {
                *found = None;
                self.settle(desk, 0)?;
                Ok(Phase::Moves)
            }
            Next::Go(phase) => Ok(phase),
        }
    }

    /// Its step begins.
    fn begin(&mut self, desk: &Desk<'_>) -> Result<(), AllocError>
        ensures begun { OnOk result (self.new ≡ stepped (handlers_at desk.now) self.old) }
        ensures wanting { OnErr result (self.new ≡ self.old) }
        ensures wants { OnErr result (waits self.old ≡ true) }
    {
        if self.waits() {
            return self.settle(desk, self.steps + 1);
        }
        Ok(())
    }

    /// Bytes of its request came behind so many. Those that can't change what is served are dropped; where others
    /// came they have a code, or none yet.
    fn judge(
        &mut self,
        desk: &Desk<'_>,
        before: usize,
        found: &mut Option<Found>,
    ) -> Result<(), AllocError>
        requires { IsRemembered (handlers_at desk.now) self.old.request found.old }
        ensures grown { OnOk result (self.new ≡ grown (handlers_at desk.now) before self.old) }
        ensures wanting { OnErr result (self.new ≡ self.old) }
        ensures wants { OnErr result
            (nat_lt before (length (kept_of (handlers_at desk.now) self.old.request)) ≡ true) }
        ensures remembered { IsRemembered (handlers_at desk.now) self.new.request found.new }
    {
        let kept = kept_of(desk, &self.request);
        let count = kept.len();
        if before < count {
            if let Some(code) = early_code(desk, kept, found)? {
                self.code = Some(code);
            }
        }
        self.request.truncate(count);
        Ok(())
    }

    /// Whether its request was read to its end and nothing was decided.
    fn waits(&self) -> bool
        ensures { result ≡ waits self.now }
    {
        self.ended && self.code.is_none()
    }

    /// Decides, so many steps after the request's end, unless it has to wait longer.
    fn settle(&mut self, desk: &Desk<'_>, steps: u32) -> Result<(), AllocError>
        ensures settled { OnOk result (self.new ≡ settled (handlers_at desk.now) steps self.old) }
        ensures wanting { OnErr result (self.new ≡ self.old) }
    {
        match find_arguments(desk, &self.request, true)? {
            Arguments::Whole(found) => self.settle_whole(desk, found, steps),
            Arguments::Short => self.decide(desk),
            Arguments::Code(code) => {
                self.code = Some(code);
                Ok(())
            }
        }
    }

    /// The same, where the arguments are whole.
    fn settle_whole(&mut self, desk: &Desk<'_>, found: Found, steps: u32) -> Result<(), AllocError>
        requires { IsFound (handlers_at desk.now) self.old.request true found }
        ensures settled { OnOk result (self.new ≡ settled (handlers_at desk.now) steps self.old) }
        ensures wanting { OnErr result (self.new ≡ self.old) }
    {
        match whole_code(desk, &self.request, true, found) {
            None => self.wait(desk, found, steps),
            Some(code) => {
                self.code = Some(code);
                Ok(())
            }
        }
    }

    /// Waits so many steps after the request's end, or decides what is served.
    fn wait(&mut self, desk: &Desk<'_>, found: Found, steps: u32) -> Result<(), AllocError>
        requires { IsFound (handlers_at desk.now) self.old.request true found }
        ensures waited { OnOk result (self.new ≡ waited (handlers_at desk.now) steps self.old) }
        ensures wanting { OnErr result (self.new ≡ self.old) }
    {
        if steps < wait_at(desk, found.index) {
            self.steps = steps;
            return Ok(());
        }
        self.decide(desk)
    }

    /// Decides what is served for its whole request.
    fn decide(&mut self, desk: &Desk<'_>) -> Result<(), AllocError>
        ensures decided { OnOk result
            (self.new ≡ decided (served_for (handlers_at desk.now) self.old.request) self.old) }
        ensures wanting { OnErr result (self.new ≡ self.old) }
    {
        match serve(desk, &self.request)? {
            Served::Code(code) => {
                self.code = Some(code);
            }
            Served::Reply(reply) => {
                self.code = Some(0);
                self.reply = reply;
                self.said = 0;
            }
        }
        Ok(())
    }

    // ---- its calls

    /// Makes the call that it wants, a read into this room, and answers the event and what it still has to do before
    /// its next call. Where memory is wanted, it made none.
    pub fn call<C: Class>(
        &mut self,
        alloc: Global,
        room: &mut Room,
        want: Want,
        server: &mut Server<C>,
    ) -> Result<(Event, Next), AllocError>
        ensures called { IfOk result (λ r. Called C.class_of self.old want self.new r.1 server.old server.new r.0) }
        ensures kept { OnErr result (self.new ≡ self.old) }
        ensures wanting { OnErr result (server.new ≡ server.old) }
        ensures wants { OnErr result (CopiesBytes (Some want)) }
        ensures setup { setup_of C.class_of server.new.node ≡ setup_of C.class_of server.old.node }
    {
        match want {
            Want::Read => self.read(room, server),
            Want::Write => self.write(alloc, server),
            Want::Finish(code) => Ok(self.finish(code, server)),
        }
    }

    /// Reads the next bytes of its request.
    fn read<C: Class>(
        &mut self,
        room: &mut Room,
        server: &mut Server<C>,
    ) -> Result<(Event, Next), AllocError>
        ensures called { IfOk result (λ r. Called C.class_of self.old wants.Read self.new r.1
            server.old server.new r.0) }
        ensures kept { OnErr result (self.new ≡ self.old) }
        ensures wanting { OnErr result (server.new ≡ server.old) }
        ensures setup { setup_of C.class_of server.new.node ≡ setup_of C.class_of server.old.node }
    {
        let before = self.request.len();
        room.ready(&mut self.request, OFFER_BYTES)?;
        let (got, bytes) = read(room, server, &self.call)?;
        room.put(&mut self.request, bytes.as_slice());
        self.ended = ended_after(got, self.ended);
        let event = Event::HasRead {
            call: self.call,
            max: OFFER_BYTES,
            got: ReadGot::Server(got),
            bytes: Bytes::of(bytes),
        };
        Ok((event, next_after(got, before)))
    }

    /// Offers the next bytes of its reply.
    fn write<C: Class>(
        &mut self,
        alloc: Global,
        server: &mut Server<C>,
    ) -> Result<(Event, Next), AllocError>
        ensures called { IfOk result (λ r. Called C.class_of self.old wants.Write self.new r.1
            server.old server.new r.0) }
        ensures kept { OnErr result (self.new ≡ self.old) }
        ensures wanting { OnErr result (server.new ≡ server.old) }
        ensures setup { setup_of C.class_of server.new.node ≡ setup_of C.class_of server.old.node }
    {
        let call = self.call;
        let offer = self.offer();
        let offered = offer.len();
        let (got, bytes) = write(alloc, server, &call, offer)?;
        let phase = self.hear_write(offered, got);
        let event = Event::Wrote {
            call,
            offered,
            got: WroteGot::Server(got),
            bytes: Bytes::of(bytes),
        };
        Ok((event, Next::Go(phase)))
    }

    /// Finishes its call.
    fn finish<C: Class>(&mut self, code: i32, server: &mut Server<C>) -> (Event, Next)
        ensures called { Called C.class_of self.old (wants.Finish code) self.new result.1
            server.old server.new result.0 }
        ensures setup { setup_of C.class_of server.new.node ≡ setup_of C.class_of server.old.node }
    {
        let got = server.finish(&self.call, code);
        let event = Event::Finished {
            call: self.call,
            code,
            got,
        };
        (event, Next::Go(Phase::Gone))
    }

    /// A write of so many bytes answered so.
    fn hear_write(&mut self, offered: usize, got: Result<usize, ServeRefused>) -> Phase
        ensures { heard_write self.old offered got ≡ record { job = self.new; phase = result } }
    {
        match got {
            Ok(count) => {
                self.pass(count);
                if count == offered {
                    Phase::Moves
                } else {
                    Phase::Rests
                }
            }
            Err(ServeRefused::NotOpen) => Phase::Gone,
            Err(ServeRefused::Gone(_)) => Phase::Quits,
            Err(ServeRefused::Unread) => Phase::Rests,
        }
    }

    /// So many bytes of the reply were accepted.
    fn pass(&mut self, count: usize)
        ensures { self.new ≡ record self.old { reply = drop count self.old.reply } }
    {
        let left = self.reply.len() - self.said;
        self.said += if count < left { count } else { left };
    }
}
