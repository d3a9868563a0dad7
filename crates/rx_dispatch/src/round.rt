//! The jobs of a dispatcher and where its turn stands, call by call.

ghost use Rattle.std.specs.Prelude.{◌≡◌, ◌+◌, ◌<◌, ◌≤◌, [], IfOk, OnErr, length, vec_capacity, vec_len};
ghost use Rattle.rx_node.specs.Node.{setup_of};
ghost use Rattle.rx_dispatch.specs.Rounds.{Passes, begun_turn, resting, turning_of};
ghost use Rattle.rx_jobs.specs.Handlers.{Handlers};
ghost use Rattle.rx_dispatch.specs.Desks.{handlers_at};
ghost use Rattle.rx_jobs.specs.Jobs.{is_staying};
ghost use Rattle.rx_dispatch.specs.Making.{HearsAccept, IsNext, Kept, MakesCall, NextCall, Ready, Remembers, WantsNone};
ghost use Rattle.rx_dispatch.specs.States.{round_of};
ghost use Rattle.rx_dispatch.specs.Wanting.{WantsMemory};
ghost use Rattle.rx_dispatch.specs.declared.round.Stage.TheVariants as stages;
ghost use Rattle.rx_dispatch.specs.declared.job.Next.TheVariants as nexts;

use crate::deciding::Found;
use crate::desk::Desk;
use crate::job::{Job, Next};
use rx_class::Class;
use rx_jobs::{Phase, Want};
use rx_model::{CallName, Event};
use rx_room::Room;
use rx_server::Server;
use std::alloc::{AllocError, Global};

/// Where a turn stands.
#[derive(Clone, Copy, Debug, PartialEq, Eq)]
pub enum Stage {
    /// No turn is under way, or the turn is over.
    Resting,
    /// It accepts until no call waits.
    Accepting,
    /// It gives each job one step.
    Serving,
}

/// The jobs, in the order of acceptance, and where a turn over them stands.
#[derive(Debug, Drop)]
pub struct Round {
    jobs: Vec<Job>,
    stage: Stage,
    /// The place of the job whose step it is.
    place: usize,
    /// What that job still has to do before its next call.
    next: Next,
    /// Its arguments, where they were found whole.
    found: Option<Found>,
    /// What jobs read into.
    room: Room,
}

impl Round {
    /// No job, and no turn.
    pub fn make(alloc: Global) -> Round
        ensures { round_of result ≡ resting [] }
    {
        Round {
            jobs: Vec::new(alloc),
            stage: Stage::Resting,
            place: 0,
            next: Next::Begin,
            found: None,
            room: Room::none(alloc),
        }
    }

    /// How many jobs there are.
    pub fn jobs(&self) -> usize
        ensures { result ≡ length (round_of self.now).jobs }
    {
        self.jobs.len()
    }

    /// A turn begins.
    pub fn begin(&mut self)
        ensures { round_of self.new ≡ begun_turn (round_of self.old) }
    {
        self.stage = Stage::Accepting;
        self.found = None;
    }

    /// Makes the next call of the turn, and answers the event; none where the turn is over. Where memory is wanted, it
    /// made none.
    pub fn step<C: Class>(
        &mut self,
        desk: &Desk<'_>,
        server: &mut Server<C>,
    ) -> Result<Option<Event>, AllocError>
        requires { Remembers (handlers_at desk.now) (round_of self.old) }
        ensures made { IfOk result (NextCall C.class_of (handlers_at desk.now)
            (turning_of (handlers_at desk.now) (round_of self.old))
            (turning_of (handlers_at desk.now) (round_of self.new))
            (round_of self.new).jobs server.old server.new) }
        ensures wanting { OnErr result (Kept
            (turning_of (handlers_at desk.now) (round_of self.old))
            (turning_of (handlers_at desk.now) (round_of self.new))
            server.old server.new) }
        ensures wants { OnErr result (WantsMemory (handlers_at desk.now) (round_of self.new)) }
        ensures remembered { Remembers (handlers_at desk.now) (round_of self.new) }
        ensures setup { setup_of C.class_of server.new.node ≡ setup_of C.class_of server.old.node }
    {
        match self.stage {
            Stage::Resting => Ok(None),
            Stage::Accepting => Ok(Some(self.accept(desk, server)?)),
            Stage::Serving => self.serve(desk, server),
        }
    }

    /// Accepts a call, if one waits.
    fn accept<C: Class>(
        &mut self,
        desk: &Desk<'_>,
        server: &mut Server<C>,
    ) -> Result<Event, AllocError>
        requires { self.old.stage ≡ stages.Accepting }
        ensures made { IfOk result (MakesCall C.class_of (handlers_at desk.now)
            (turning_of (handlers_at desk.now) (round_of self.old))
            (turning_of (handlers_at desk.now) (round_of self.new))
            server.old server.new) }
        ensures wanting { OnErr result (Kept
            (turning_of (handlers_at desk.now) (round_of self.old))
            (turning_of (handlers_at desk.now) (round_of self.new))
            server.old server.new) }
        ensures wants { OnErr result (WantsMemory (handlers_at desk.now) (round_of self.new)) }
        ensures remembered { Remembers (handlers_at desk.now) (round_of self.new) }
        ensures setup { setup_of C.class_of server.new.node ≡ setup_of C.class_of server.old.node }
    {
        self.found = None;
        self.jobs.reserve(1)?;
        let got = server.accept();
        self.hear_accept(desk.alloc, got);
        Ok(Event::Accepted { got })
    }

    /// An accept answered so.
    fn hear_accept(&mut self, alloc: Global, got: Option<CallName>)
        requires accepting { self.old.stage ≡ stages.Accepting }
        requires room { vec_len self.old.jobs + 1 ≤ vec_capacity self.old.jobs }
        ensures heard { (g : Handlers) → HearsAccept g (round_of self.old) (round_of self.new) got }
        ensures forgot { self.new.found ≡ self.old.found }
    {
        match got {
            None => {
                self.stage = Stage::Serving;
                self.place = 0;
                self.next = Next::Begin;
            }
            Some(call) => {
                let _pushed = self.jobs.push(Job::begun(alloc, call));
            }
        }
    }

    /// Makes the next call of the jobs; none where each had its step.
    fn serve<C: Class>(
        &mut self,
        desk: &Desk<'_>,
        server: &mut Server<C>,
    ) -> Result<Option<Event>, AllocError>
        requires serving { self.old.stage ≡ stages.Serving }
        requires remembered { Remembers (handlers_at desk.now) (round_of self.old) }
        ensures made { IfOk result (NextCall C.class_of (handlers_at desk.now)
            (turning_of (handlers_at desk.now) (round_of self.old))
            (turning_of (handlers_at desk.now) (round_of self.new))
            (round_of self.new).jobs server.old server.new) }
        ensures wanting { OnErr result (Kept
            (turning_of (handlers_at desk.now) (round_of self.old))
            (turning_of (handlers_at desk.now) (round_of self.new))
            server.old server.new) }
        ensures wants { OnErr result (WantsMemory (handlers_at desk.now) (round_of self.new)) }
        ensures remembered { Remembers (handlers_at desk.now) (round_of self.new) }
        ensures setup { setup_of C.class_of server.new.node ≡ setup_of C.class_of server.old.node }
    {
        match self.seek(desk)? {
            None => {
                self.stage = Stage::Resting;
                Ok(None)
            }
            Some(want) => Ok(Some(self.call(desk, want, server)?)),
        }
    }

    /// Passes jobs whose step is over. The next call, of the job at the place; none where each had its step.
    fn seek(&mut self, desk: &Desk<'_>) -> Result<Option<Want>, AllocError>
        requires serving { self.old.stage ≡ stages.Serving }
        requires remembered { Remembers (handlers_at desk.now) (round_of self.old) }
        ensures same { turning_of (handlers_at desk.now) (round_of self.new)
            ≡ turning_of (handlers_at desk.now) (round_of self.old) }
        ensures next { IfOk result (IsNext (round_of self.new)) }
        ensures wants { OnErr result (WantsMemory (handlers_at desk.now) (round_of self.new)) }
        ensures serving { self.new.stage ≡ stages.Serving }
        ensures remembered { Remembers (handlers_at desk.now) (round_of self.new) }
    {
        'jobs: while self.place < self.jobs.len() {
            let phase = self.resolve(desk)?;
            let want = self.jobs[self.place].want(phase);
            if want.is_some() {
                return Ok(want);
            }
            self.pass(phase);
        }
        Ok(None)
    }

    /// The job at the place does what it still has to do before its next call. Where it is in its step then.
    fn resolve(&mut self, desk: &Desk<'_>) -> Result<Phase, AllocError>
        requires serving { self.old.stage ≡ stages.Serving }
        requires within { self.old.place < length self.old.jobs.items }
        requires remembered { Remembers (handlers_at desk.now) (round_of self.old) }
        ensures same { turning_of (handlers_at desk.now) (round_of self.new)
            ≡ turning_of (handlers_at desk.now) (round_of self.old) }
        ensures next { IfOk result (λ phase. self.new.next ≡ nexts.Go phase) }
        ensures wants { OnErr result (WantsMemory (handlers_at desk.now) (round_of self.new)) }
        ensures serving { self.new.stage ≡ stages.Serving }
        ensures place { self.new.place ≡ self.old.place }
        ensures as_many { length self.new.jobs.items ≡ length self.old.jobs.items }
        ensures remembered { Remembers (handlers_at desk.now) (round_of self.new) }
    {
        let phase = self.jobs[self.place].resolve(desk, self.next, &mut self.found)?;
        self.next = Next::Go(phase);
        Ok(phase)
    }

    /// The step of the job at the place is over: the next one begins with its own.
    fn pass(&mut self, phase: Phase)
        requires serving { self.old.stage ≡ stages.Serving }
        requires none { WantsNone (round_of self.old) phase }
        ensures same { (g : Handlers) → turning_of g (round_of self.new) ≡ turning_of g (round_of self.old) }
        ensures serving { self.new.stage ≡ stages.Serving }
        ensures within { self.new.place ≤ length self.new.jobs.items }
        ensures fewer { length self.new.jobs.items + self.old.place + 1
            ≡ length self.old.jobs.items + self.new.place }
        ensures remembered { (g : Handlers) → Remembers g (round_of self.new) }
    {
        self.found = None;
        self.next = Next::Begin;
        self.place = pass(&mut self.jobs, self.place, stays(phase));
    }

    /// The job at the place makes the call that it wants.
    fn call<C: Class>(
        &mut self,
        desk: &Desk<'_>,
        want: Want,
        server: &mut Server<C>,
    ) -> Result<Event, AllocError>
        requires serving { self.old.stage ≡ stages.Serving }
        requires ready { Ready (round_of self.old) want }
        requires remembered { Remembers (handlers_at desk.now) (round_of self.old) }
        ensures made { IfOk result (MakesCall C.class_of (handlers_at desk.now)
            (turning_of (handlers_at desk.now) (round_of self.old))
            (turning_of (handlers_at desk.now) (round_of self.new))
            server.old server.new) }
        ensures wanting { OnErr result (Kept
            (turning_of (handlers_at desk.now) (round_of self.old))
            (turning_of (handlers_at desk.now) (round_of self.new))
            server.old server.new) }
        ensures wants { OnErr result (WantsMemory (handlers_at desk.now) (round_of self.new)) }
        ensures remembered { Remembers (handlers_at desk.now) (round_of self.new) }
        ensures setup { setup_of C.class_of server.new.node ≡ setup_of C.class_of server.old.node }
    {
        let (event, next) = self.jobs[self.place].call(desk.alloc, &mut self.room, want, server)?;
        self.next = next;
        Ok(event)
    }
}

/// Whether a job whose step is over stays.
fn stays(phase: Phase) -> bool
    ensures { result ≡ is_staying phase }
{
    match phase {
        Phase::Moves => true,
        Phase::Quits => true,
        Phase::Rests => true,
        Phase::Gone => false,
    }
}

/// The place of the job behind one whose step is over, which is left out where it doesn't stay.
fn pass(jobs: &mut Vec<Job>, place: usize, stays: bool) -> usize
    requires { place < length jobs.old.items }
    ensures { Passes jobs.old.items jobs.new.items place result stays }
{
    if stays {
        return place + 1;
    }
    jobs.remove(place);
    place
}
