//! The callers of `invoke` lines, and their turns. A caller that is done gets none, since nothing would come of it: so
//! a round costs no more than the callers that are still at work.
ghost use Rattle.std.specs.Prelude.{◌≡◌, ◌∷◌, ◌++◌, ◌≤◌, ◌<◌, [], OnOk, length};
ghost use Rattle.std.specs.List.{All};
ghost use Rattle.rx_asks.specs.Asks.{begun as caller_begun, calling};
ghost use Rattle.rx_asks.specs.declared.ask.TheConstants.{REPLY_BYTES};
ghost use Rattle.rx_joint.specs.Nodes.{IsClientThere};
ghost use Rattle.rx_stage.specs.Done.{KeepsDone, PlaysCallers, StaysDone, is_done_at};
ghost use Rattle.rx_plan.specs.Parts.{each};
ghost use Rattle.rx_stage.specs.Ran.{stop_of};
ghost use Rattle.rx_stage.specs.TurnsPlayed.{PlaysTurn};
ghost use Rattle.rx_stage.specs.Tells.{told};
ghost use Rattle.rx_plan.specs.Turned.{turns_all, turns_at, turns_for, turns_on};

use crate::stop::Stop;
use crate::telling::{Telling, plan_end};
use crate::trace::Trace;
use rx_base::Sink;
use rx_caller::Caller;
use rx_drive::call_turn;
use rx_joint::{Nodes, SERVER};
use rx_room::Room;
use rx_wire::Journal;
use std::alloc::{AllocError, Global};
use std::marker::Model;

/// The caller of an `invoke` line.
#[derive(Debug, Drop)]
pub struct Invoked {
    /// The K of its call.
    pub call: usize,
    /// The number of its client.
    pub node: u32,
    /// The line's place in the plan.
    pub line: usize,
    pub caller: Caller,
}

impl Model for Invoked {
    ghost use Rattle.rx_plan.specs.Stages.{InvokedState};

    ghost Value = { InvokedState };

    ghost view = { λ s. record { call = s.call; node = s.node; line = s.line; caller = s.caller } };
}

/// The callers, by call number.
#[derive(Debug, Drop)]
pub struct Callers {
    all: Vec<Invoked>,
    /// The places of those that may not be done yet, in order.
    at_work: Vec<usize>,
    /// What they read replies through.
    room: Room,
}

impl Model for Callers {
    ghost use Rattle.std.specs.Prelude.{List, length};
    ghost use Rattle.rx_stage.specs.Done.{LeavesOut, is_done_at};
    ghost use Rattle.rx_plan.specs.Network.{below};
    ghost use Rattle.rx_plan.specs.Stages.{InvokedState};

    ghost Value = { List InvokedState };

    ghost view = { λ s. s.all.items };

    ghost invariant = { λ s. LeavesOut (is_done_at s.all.items) s.at_work.items (below (length s.all.items)) };
}

impl Callers {
    /// No callers.
    pub fn new(alloc: Global) -> Callers
        ensures { result ≡ [] }
    {
        Callers {
            all: Vec::new(alloc),
            at_work: Vec::new(alloc),
            room: Room::none(alloc),
        }
    }

    /// The callers, by call number.
    pub fn as_slice(&self) -> &[Invoked]
        ensures { result.now ≡ self.now }
    {
        self.all.as_slice()
    }

    /// One more behind the others.
    pub fn push(&mut self, invoked: Invoked) -> Result<(), AllocError>
        ensures { OnOk result (self.new ≡ self.old ++ invoked ∷ []) }
    {
        self.at_work.push(self.all.len())?;
        if self.all.push(invoked).is_err() {
            self.at_work.pop();
            return Err(AllocError);
        }
        Ok(())
    }

    /// A turn of each caller of a client, by call number.
    pub fn turn_of<O: Sink, J: Journal>(
        &mut self,
        node: u32,
        nodes: &mut Nodes,
        trace: &mut Trace,
        out: &mut O,
        book: &mut J,
    ) -> Result<(), Stop>
        ensures { PlaysCallers (turns_on node) self.old self.new nodes.old nodes.new (stop_of result)
            (told (J.told book.old) (O.told out.old) (O.faults out.old))
            (told (J.told book.new) (O.told out.new) (O.faults out.new)) }
    {
        self.leave_done();
        let mut telling = Telling { trace, out, book };
        turn_each_of(
            node,
            &mut self.all,
            self.at_work.as_slice(),
            &mut self.room,
            nodes,
            &mut telling,
        )
    }

    /// A turn of each caller, by call number.
    pub fn turn_all<O: Sink, J: Journal>(
        &mut self,
        nodes: &mut Nodes,
        trace: &mut Trace,
        out: &mut O,
        book: &mut J,
    ) -> Result<(), Stop>
        ensures { PlaysCallers turns_all self.old self.new nodes.old nodes.new (stop_of result)
            (told (J.told book.old) (O.told out.old) (O.faults out.old))
            (told (J.told book.new) (O.told out.new) (O.faults out.new)) }
    {
        self.leave_done();
        let mut telling = Telling { trace, out, book };
        turn_each(
            &mut self.all,
            self.at_work.as_slice(),
            &mut self.room,
            nodes,
            &mut telling,
        )
    }

    /// From now on no turn goes over those that are done.
    fn leave_done(&mut self)
        ensures { self.new ≡ self.old }
    {
        let all = self.all.as_slice();
        self.at_work.retain(|place| !is_done_at(all, *place));
    }
}

/// Whether the caller at a place is done.
fn is_done_at(callers: &[Invoked], place: usize) -> bool
    ensures { result ≡ is_done_at callers.now place }
{
    match callers.get(place) {
        Some(invoked) => invoked.caller.is_done(),
        None => false,
    }
}

/// A turn of the caller at each of these places that is of this client.
fn turn_each_of<O: Sink, J: Journal>(
    node: u32,
    callers: &mut Vec<Invoked>,
    places: &[usize],
    room: &mut Room,
    nodes: &mut Nodes,
    telling: &mut Telling<'_, O, J>,
) -> Result<(), Stop>
    requires { All (λ place. place < length callers.old.items) places.now }
    ensures plays { PlaysCallers (each (turns_for node) places.now) callers.old.items callers.new.items
        nodes.old nodes.new (stop_of result)
        (told (J.told telling.old.book.now) (O.told telling.old.out.now) (O.faults telling.old.out.now))
        (told (J.told telling.new.book.now) (O.told telling.new.out.now) (O.faults telling.new.out.now)) }
    ensures sink { telling.new.out.ghost_name ≡ telling.old.out.ghost_name }
    ensures book { telling.new.book.ghost_name ≡ telling.old.book.ghost_name }
    ensures done { KeepsDone callers.old.items callers.new.items }
    ensures count { length callers.new.items ≡ length callers.old.items }
{
    for place in places {
        turn_for(node, callers, *place, room, nodes, telling)?;
    }
    Ok(())
}

/// A turn of the caller at a place, where it is this client's.
fn turn_for<O: Sink, J: Journal>(
    node: u32,
    callers: &mut Vec<Invoked>,
    place: usize,
    room: &mut Room,
    nodes: &mut Nodes,
    telling: &mut Telling<'_, O, J>,
) -> Result<(), Stop>
    requires { place < length callers.old.items }
    ensures plays { PlaysCallers (turns_for node place) callers.old.items callers.new.items
        nodes.old nodes.new (stop_of result)
        (told (J.told telling.old.book.now) (O.told telling.old.out.now) (O.faults telling.old.out.now))
        (told (J.told telling.new.book.now) (O.told telling.new.out.now) (O.faults telling.new.out.now)) }
    ensures sink { telling.new.out.ghost_name ≡ telling.old.out.ghost_name }
    ensures book { telling.new.book.ghost_name ≡ telling.old.book.ghost_name }
    ensures done { KeepsDone callers.old.items callers.new.items }
    ensures count { length callers.new.items ≡ length callers.old.items }
{
    if callers[place].node != node {
        return Ok(());
    }
    turn_at(callers, place, room, nodes, telling)
}

/// A turn of the caller at each of these places.
fn turn_each<O: Sink, J: Journal>(
    callers: &mut Vec<Invoked>,
    places: &[usize],
    room: &mut Room,
    nodes: &mut Nodes,
    telling: &mut Telling<'_, O, J>,
) -> Result<(), Stop>
    requires { All (λ place. place < length callers.old.items) places.now }
    ensures plays { PlaysCallers (each turns_at places.now) callers.old.items callers.new.items
        nodes.old nodes.new (stop_of result)
        (told (J.told telling.old.book.now) (O.told telling.old.out.now) (O.faults telling.old.out.now))
        (told (J.told telling.new.book.now) (O.told telling.new.out.now) (O.faults telling.new.out.now)) }
    ensures sink { telling.new.out.ghost_name ≡ telling.old.out.ghost_name }
    ensures book { telling.new.book.ghost_name ≡ telling.old.book.ghost_name }
    ensures done { KeepsDone callers.old.items callers.new.items }
    ensures count { length callers.new.items ≡ length callers.old.items }
{
    for place in places {
        turn_at(callers, *place, room, nodes, telling)?;
    }
    Ok(())
}

/// A turn of the caller at a place, where its client is there.
fn turn_at<O: Sink, J: Journal>(
    callers: &mut Vec<Invoked>,
    place: usize,
    room: &mut Room,
    nodes: &mut Nodes,
    telling: &mut Telling<'_, O, J>,
) -> Result<(), Stop>
    requires { place < length callers.old.items }
    ensures plays { PlaysCallers (turns_at place) callers.old.items callers.new.items
        nodes.old nodes.new (stop_of result)
        (told (J.told telling.old.book.now) (O.told telling.old.out.now) (O.faults telling.old.out.now))
        (told (J.told telling.new.book.now) (O.told telling.new.out.now) (O.faults telling.new.out.now)) }
    ensures sink { telling.new.out.ghost_name ≡ telling.old.out.ghost_name }
    ensures book { telling.new.book.ghost_name ≡ telling.old.book.ghost_name }
    ensures done { KeepsDone callers.old.items callers.new.items }
    ensures count { length callers.new.items ≡ length callers.old.items }
{
    let node = callers[place].node;
    if node == SERVER || node as usize > nodes.clients() {
        return Ok(());
    }
    let invoked = &mut callers[place];
    call_on(node, &mut invoked.caller, room, nodes, telling)
}

/// A turn of a caller on a client.
fn call_on<O: Sink, J: Journal>(
    node: u32,
    caller: &mut Caller,
    room: &mut Room,
    nodes: &mut Nodes,
    telling: &mut Telling<'_, O, J>,
) -> Result<(), Stop>
    requires { IsClientThere nodes.old node }
    ensures plays { PlaysTurn (calling REPLY_BYTES) node (caller_begun caller.old) caller.new
        nodes.old nodes.new (stop_of result)
        (told (J.told telling.old.book.now) (O.told telling.old.out.now) (O.faults telling.old.out.now))
        (told (J.told telling.new.book.now) (O.told telling.new.out.now) (O.faults telling.new.out.now)) }
    ensures sink { telling.new.out.ghost_name ≡ telling.old.out.ghost_name }
    ensures book { telling.new.book.ghost_name ≡ telling.old.book.ghost_name }
    ensures done { StaysDone caller.old caller.new }
{
    let client = nodes.client_mut(node);
    plan_end(call_turn(node, caller, room, client, telling))
}
