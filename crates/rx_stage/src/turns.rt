//! Turns of the dispatcher and of callers.
ghost use Rattle.std.specs.Prelude.{◌≡◌};
ghost use Rattle.rx_jobs.specs.Dispatching.{accepts, dispatching, over};
ghost use Rattle.rx_jobs.specs.Handlers.{handlers_of};
ghost use Rattle.rx_dispatch.specs.States.{state_of};
ghost use Rattle.rx_stage.specs.Ran.{stop_of};
ghost use Rattle.rx_stage.specs.TurnsPlayed.{PlaysTurn};
ghost use Rattle.rx_stage.specs.Shown.{Plays, script_of};
ghost use Rattle.rx_stage.specs.Tells.{told};
ghost use Rattle.rx_plan.specs.Turned.{dispatches, turns_all, turns_on};

use crate::stop::Stop;
use crate::telling::{Telling, plan_end};
use crate::trace::Trace;
use crate::world::World;
use rx_base::Sink;
use rx_dispatch::Dispatcher;
use rx_drive::dispatch;
use rx_joint::{Nodes, SERVER};
use rx_wire::Journal;
use xdr_value::Interface;

impl World {
    /// A turn of the dispatcher.
    pub fn dispatch<O: Sink, J: Journal>(
        &mut self,
        iface: &Interface,
        out: &mut O,
        book: &mut J,
    ) -> Result<(), Stop>
        ensures plays { Plays (dispatches (handlers_of iface.now (script_of self.old))) self.old self.new
            (stop_of result)
            (told (J.told book.old) (O.told out.old) (O.faults out.old))
            (told (J.told book.new) (O.told out.new) (O.faults out.new)) }
        ensures script { script_of self.new ≡ script_of self.old }
    {
        dispatch_on(
            iface,
            &mut self.dispatcher,
            &mut self.nodes,
            &mut self.trace,
            out,
            book,
        )
    }

    /// A turn of each caller of a client, by call number.
    pub fn turn_of<O: Sink, J: Journal>(
        &mut self,
        node: u32,
        out: &mut O,
        book: &mut J,
    ) -> Result<(), Stop>
        ensures plays { Plays (turns_on node) self.old self.new (stop_of result)
            (told (J.told book.old) (O.told out.old) (O.faults out.old))
            (told (J.told book.new) (O.told out.new) (O.faults out.new)) }
        ensures script { script_of self.new ≡ script_of self.old }
    {
        self.callers
            .turn_of(node, &mut self.nodes, &mut self.trace, out, book)
    }

    /// A turn of each caller, by call number.
    pub fn turn_of_all<O: Sink, J: Journal>(
        &mut self,
        out: &mut O,
        book: &mut J,
    ) -> Result<(), Stop>
        ensures plays { Plays turns_all self.old self.new (stop_of result)
            (told (J.told book.old) (O.told out.old) (O.faults out.old))
            (told (J.told book.new) (O.told out.new) (O.faults out.new)) }
        ensures script { script_of self.new ≡ script_of self.old }
    {
        self.callers
            .turn_all(&mut self.nodes, &mut self.trace, out, book)
    }
}

/// A turn of a dispatcher on the server.
fn dispatch_on<O: Sink, J: Journal>(
    iface: &Interface,
    dispatcher: &mut Dispatcher,
    nodes: &mut Nodes,
    trace: &mut Trace,
    out: &mut O,
    book: &mut J,
) -> Result<(), Stop>
    ensures plays { PlaysTurn (dispatching (handlers_of iface.now (state_of dispatcher.old).script)) SERVER
        (accepts (state_of dispatcher.old).round.jobs) (over (state_of dispatcher.new).round.jobs)
        nodes.old nodes.new (stop_of result)
        (told (J.told book.old) (O.told out.old) (O.faults out.old))
        (told (J.told book.new) (O.told out.new) (O.faults out.new)) }
    ensures script { (state_of dispatcher.new).script ≡ (state_of dispatcher.old).script }
{
    let mut telling = Telling { trace, out, book };
    plan_end(dispatch(SERVER, iface, dispatcher, nodes.server_mut(), &mut telling))
}
