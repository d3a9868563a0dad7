//! A server on a wire.
ghost use Rattle.std.specs.Prelude.{◌≡◌, ◌≤◌, ◌^◌, ℕ, [], Some, true, IfErr, IfOk, OnOk};
ghost use Rattle.rx_jobs.specs.Handlers.{handlers_of};
ghost use Rattle.rx_dispatch.specs.States.{state_of};
ghost use Rattle.rx_jumbo.specs.declared.sizes.TheConstants.{JUMBO_PARTS};
ghost use Rattle.rx_node.specs.Node.{setup_of};
ghost use Rattle.rx_rules.specs.Setup as setups;
ghost use Rattle.rx_rules.specs.Setup.{FitsSetup};
ghost use Rattle.rx_script.specs.Saying.{blocks_of};
ghost use Rattle.rx_server.specs.Server.{Stands};
ghost use Rattle.rx_wire_loop.specs.Ports.{AreReady, takes};
ghost use Rattle.rx_drive.specs.Ran.{stop_of};
ghost use Rattle.rx_wire_loop.specs.Runs.{IsBehind, Plays, change};
ghost use Rattle.rx_wire_loop.specs.Serves.{dispatches, pass, plays};
ghost use Rattle.rx_wire_loop.specs.Serving.{Serving as Served, ServeIs, ServesBound, server_setup, terms_of};
ghost use Rattle.rx_wire_loop.specs.Tells.{SinkTells, WireTells, sink_tells, told, wire_tells};

use crate::lines::{Lines, SERVER, put_time_up};
use crate::outside::Lined;
use crate::ports::{Ports, wait_until};
use rx_base::Sink;
use rx_class::Class;
use rx_dispatch::Dispatcher;
use rx_drive::{Stop, dispatch};
use rx_model::{Host, Limits};
use rx_script::Script;
use rx_server::Server;
use rx_wire::{Journal, Wire};
use std::alloc::Global;
use xdr_value::Interface;

/// How a node is served: on which host, what it is set up with, for how many milliseconds, with how many takes at most,
/// and how many datagrams at most are given as one.
#[derive(Clone, Copy, Debug)]
pub struct Serving {
    pub at: Host,
    pub service: u16,
    pub limits: Limits,
    pub nonce: u64,
    pub span: u64,
    pub turns: u64,
    pub jumbo: u32,
}

/// How serving ended.
#[derive(Clone, Copy, Debug, PartialEq, Eq)]
pub enum ServeEnd {
    /// Its time is up.
    TimeUp,
    /// All takes were made before.
    TurnsSpent,
}

/// Serves a node over the wire: its handlers serve what the script says.
pub fn serve<C: Class, W: Wire, O: Sink, J: Journal>(
    alloc: Global,
    iface: &Interface,
    script: Script,
    serving: &Serving,
    class: C,
    wire: &mut W,
    out: &mut O,
    book: &mut J,
) -> Result<ServeEnd, Stop>
    requires limits { setups.FitsLimits serving.now.limits }
    requires some { 1 ≤ serving.now.jumbo }
    requires few { serving.now.jumbo ≤ JUMBO_PARTS }
    requires span { serving.now.span ≤ 2 ^ 40 }
    ensures serves { ServeIs (terms_of serving.now (handlers_of iface.now (blocks_of script.blocks.items)))
        (server_setup serving.now (C.class_of (C.secret class))) serving.now.at result
        (told (J.told book.old) (sink_tells (O.told out.old) (O.faults out.old))
        (wire_tells (W.told wire.old) (W.faults wire.old) (W.moment wire.old)))
        (told (J.told book.new) (sink_tells (O.told out.new) (O.faults out.new))
        (wire_tells (W.told wire.new) (W.faults wire.new) (W.moment wire.new))) }
    ensures unnoted { IfErr result (λ stop. stop ≡ Stop.Unnoted → J.may_want ≡ true) }
{
    match wire.bind(serving.at) {
        Ok(host) => serve_on(alloc, iface, script, serving, class, host, wire, out, book),
        Err(_) => Err(Stop::WireFault),
    }
}

/// Serves a node on the host that the wire got.
fn serve_on<C: Class, W: Wire, O: Sink, J: Journal>(
    alloc: Global,
    iface: &Interface,
    script: Script,
    serving: &Serving,
    class: C,
    host: Host,
    wire: &mut W,
    out: &mut O,
    book: &mut J,
) -> Result<ServeEnd, Stop>
    requires limits { setups.FitsLimits serving.now.limits }
    requires some { 1 ≤ serving.now.jumbo }
    requires few { serving.now.jumbo ≤ JUMBO_PARTS }
    requires span { serving.now.span ≤ 2 ^ 40 }
    ensures serves { ServesBound (terms_of serving.now (handlers_of iface.now (blocks_of script.blocks.items)))
        (server_setup serving.now (C.class_of (C.secret class))) host result
        (told (J.told book.old) (sink_tells (O.told out.old) (O.faults out.old))
        (wire_tells (W.told wire.old) (W.faults wire.old) (W.moment wire.old)))
        (told (J.told book.new) (sink_tells (O.told out.new) (O.faults out.new))
        (wire_tells (W.told wire.new) (W.faults wire.new) (W.moment wire.new))) }
    ensures unnoted { IfErr result (λ stop. stop ≡ Stop.Unnoted → J.may_want ≡ true) }
{
    let mut node = ServedNode::make(alloc, script, serving, class)?;
    node.lines.ready(host, out)?;
    let end = wire.now() + serving.span;
    node.passes(iface, serving.turns, end, wire, out, book)
}

/// A server with its handlers.
#[derive(Debug, Drop)]
pub struct ServedNode<C: Class> {
    server: Server<C>,
    dispatcher: Dispatcher,
    ports: Ports,
    lines: Lines,
}

impl<C: Class> ServedNode<C> {
    /// A server at the start of its life, whose handlers have no job.
    fn make(
        alloc: Global,
        script: Script,
        serving: &Serving,
        class: C,
    ) -> Result<ServedNode<C>, Stop>
        requires limits { setups.FitsLimits serving.now.limits }
        requires some { 1 ≤ serving.now.jumbo }
        requires few { serving.now.jumbo ≤ JUMBO_PARTS }
        ensures stands { IfOk result (λ its. Stands C.class_of its.server []) }
        ensures setup { IfOk result (λ its. setup_of C.class_of its.server.node
            ≡ server_setup serving.now (C.class_of (C.secret class))) }
        ensures fits { IfOk result (λ its. FitsSetup (setup_of C.class_of its.server.node)) }
        ensures script { IfOk result (λ its. (state_of its.dispatcher).script ≡ blocks_of script.blocks.items) }
        ensures jobs { IfOk result (λ its. (state_of its.dispatcher).round.jobs ≡ []) }
        ensures ready { IfOk result (λ its. AreReady SERVER serving.now.jumbo its.ports) }
        ensures wanting { IfErr result (λ stop. stop ≡ Stop.OutOfMemory) }
    {
        Ok(ServedNode {
            server: Server::make_prompt(
                alloc,
                &serving.limits,
                serving.service,
                class,
                serving.nonce,
            )?,
            dispatcher: Dispatcher::make(alloc, script),
            ports: Ports::make(alloc, SERVER, serving.jumbo)?,
            lines: Lines::make(alloc),
        })
    }

    /// Passes until a moment, with so many takes at most.
    fn passes<W: Wire, O: Sink, J: Journal>(
        &mut self,
        iface: &Interface,
        turns: u64,
        end: u64,
        wire: &mut W,
        out: &mut O,
        book: &mut J,
    ) -> Result<ServeEnd, Stop>
        requires ready { AreReady SERVER self.old.ports.joiner.most self.old.ports }
        requires stands { Stands C.class_of self.old.server [] }
        requires fits { FitsSetup (setup_of C.class_of self.old.server.node) }
        requires jobs { (state_of self.old.dispatcher).round.jobs ≡ [] }
        ensures serves { Served (record {
          handlers = handlers_of iface.now (state_of self.old.dispatcher).script;
          setup = setup_of C.class_of self.old.server.node;
          most = self.old.ports.joiner.most;
          turns = turns;
          until = end;
        }) (record { history = []; now = W.moment wire.old }) result
            (told (J.told book.old) (sink_tells (O.told out.old) (O.faults out.old))
            (wire_tells (W.told wire.old) (W.faults wire.old) (W.moment wire.old)))
            (told (J.told book.new) (sink_tells (O.told out.new) (O.faults out.new))
            (wire_tells (W.told wire.new) (W.faults wire.new) (W.moment wire.new))) }
        ensures unnoted { IfErr result (λ stop. stop ≡ Stop.Unnoted → J.may_want ≡ true) }
    {
        for taken in 0..turns {
            self.pass(iface, end, wire, out, book)?;
            if end <= wire.now() {
                put_time_up(out)?;
                return Ok(ServeEnd::TimeUp);
            }
        }
        self.play(iface, wire, out, book)?;
        Ok(ServeEnd::TurnsSpent)
    }

    /// A whole pass.
    fn pass<W: Wire, O: Sink, J: Journal>(
        &mut self,
        iface: &Interface,
        end: u64,
        wire: &mut W,
        out: &mut O,
        book: &mut J,
    ) -> Result<(), Stop>
        requires ready { AreReady SERVER self.old.ports.joiner.most self.old.ports }
        requires fits { FitsSetup (setup_of C.class_of self.old.server.node) }
        requires behind { IsBehind (setup_of C.class_of self.old.server.node) (Stands C.class_of self.old.server)
            (W.moment wire.old) }
        ensures plays { Plays (change SERVER (setup_of C.class_of self.old.server.node)
            (Stands C.class_of self.old.server) (Stands C.class_of self.new.server)
            (told (J.told book.old) (sink_tells (O.told out.old) (O.faults out.old))
            (wire_tells (W.told wire.old) (W.faults wire.old) (W.moment wire.old)))
            (told (J.told book.new) (sink_tells (O.told out.new) (O.faults out.new))
            (wire_tells (W.told wire.new) (W.faults wire.new) (W.moment wire.new))))
            (pass (plays self.old.ports.joiner.most
            (dispatches (handlers_of iface.now (state_of self.old.dispatcher).script)))
            (takes (setup_of C.class_of self.old.server.node) (Some end)) (state_of self.old.dispatcher).round.jobs)
            (λ jobs. jobs ≡ (state_of self.new.dispatcher).round.jobs) (stop_of result) }
        ensures unnoted { IfErr result (λ stop. stop ≡ Stop.Unnoted → J.may_want ≡ true) }
        ensures ready { OnOk result (AreReady SERVER self.old.ports.joiner.most self.new.ports) }
        ensures script { (state_of self.new.dispatcher).script ≡ (state_of self.old.dispatcher).script }
        ensures setup { setup_of C.class_of self.new.server.node ≡ setup_of C.class_of self.old.server.node }
    {
        self.play(iface, wire, out, book)?;
        self.take(end, wire, book)
    }

    /// A pass up to its take.
    fn play<W: Wire, O: Sink, J: Journal>(
        &mut self,
        iface: &Interface,
        wire: &mut W,
        out: &mut O,
        book: &mut J,
    ) -> Result<(), Stop>
        requires ready { AreReady SERVER self.old.ports.joiner.most self.old.ports }
        requires fits { FitsSetup (setup_of C.class_of self.old.server.node) }
        requires behind { IsBehind (setup_of C.class_of self.old.server.node) (Stands C.class_of self.old.server)
            (W.moment wire.old) }
        ensures plays { Plays (change SERVER (setup_of C.class_of self.old.server.node)
            (Stands C.class_of self.old.server) (Stands C.class_of self.new.server)
            (told (J.told book.old) (sink_tells (O.told out.old) (O.faults out.old))
            (wire_tells (W.told wire.old) (W.faults wire.old) (W.moment wire.old)))
            (told (J.told book.new) (sink_tells (O.told out.new) (O.faults out.new))
            (wire_tells (W.told wire.new) (W.faults wire.new) (W.moment wire.new))))
            (plays self.old.ports.joiner.most
            (dispatches (handlers_of iface.now (state_of self.old.dispatcher).script))
            (state_of self.old.dispatcher).round.jobs)
            (λ jobs. jobs ≡ (state_of self.new.dispatcher).round.jobs) (stop_of result) }
        ensures unnoted { IfErr result (λ stop. stop ≡ Stop.Unnoted → J.may_want ≡ true) }
        ensures ready { OnOk result (AreReady SERVER self.old.ports.joiner.most self.new.ports) }
        ensures script { (state_of self.new.dispatcher).script ≡ (state_of self.old.dispatcher).script }
        ensures setup { setup_of C.class_of self.new.server.node ≡ setup_of C.class_of self.old.server.node }
    {
        self.ports.clock(&mut self.server, wire, book)?;
        self.ports.give_due(&mut self.server, wire, book)?;
        self.dispatch(iface, out, book)?;
        self.ports.give_due(&mut self.server, wire, book)
    }

    /// The take of a pass.
    fn take<W: Wire, J: Journal>(
        &mut self,
        end: u64,
        wire: &mut W,
        book: &mut J,
    ) -> Result<(), Stop>
        requires ready { AreReady SERVER self.old.ports.joiner.most self.old.ports }
        requires fits { FitsSetup (setup_of C.class_of self.old.server.node) }
        requires behind { IsBehind (setup_of C.class_of self.old.server.node) (Stands C.class_of self.old.server)
            (W.moment wire.old) }
        ensures plays { (sink : SinkTells) → Plays (change SERVER (setup_of C.class_of self.old.server.node)
            (Stands C.class_of self.old.server) (Stands C.class_of self.new.server)
            (told (J.told book.old) sink (wire_tells (W.told wire.old) (W.faults wire.old) (W.moment wire.old)))
            (told (J.told book.new) sink (wire_tells (W.told wire.new) (W.faults wire.new) (W.moment wire.new))))
            (takes (setup_of C.class_of self.old.server.node) (Some end)) (λ u. Unit {0}) (stop_of result) }
        ensures unnoted { IfErr result (λ stop. stop ≡ Stop.Unnoted → J.may_want ≡ true) }
        ensures ports { self.new.ports ≡ self.old.ports }
        ensures dispatcher { self.new.dispatcher ≡ self.old.dispatcher }
        ensures setup { setup_of C.class_of self.new.server.node ≡ setup_of C.class_of self.old.server.node }
    {
        let until = wait_until(&self.server, Some(end));
        self.ports.take(until, &mut self.server, wire, book)
    }

    /// A turn of the handlers.
    fn dispatch<O: Sink, J: Journal>(
        &mut self,
        iface: &Interface,
        out: &mut O,
        book: &mut J,
    ) -> Result<(), Stop>
        ensures plays { (wire : WireTells) → Plays (change SERVER (setup_of C.class_of self.old.server.node)
            (Stands C.class_of self.old.server) (Stands C.class_of self.new.server)
            (told (J.told book.old) (sink_tells (O.told out.old) (O.faults out.old)) wire)
            (told (J.told book.new) (sink_tells (O.told out.new) (O.faults out.new)) wire))
            (dispatches (handlers_of iface.now (state_of self.old.dispatcher).script)
            (state_of self.old.dispatcher).round.jobs)
            (λ jobs. jobs ≡ (state_of self.new.dispatcher).round.jobs) (stop_of result) }
        ensures unnoted { IfErr result (λ stop. stop ≡ Stop.Unnoted → J.may_want ≡ true) }
        ensures ports { self.new.ports ≡ self.old.ports }
        ensures script { (state_of self.new.dispatcher).script ≡ (state_of self.old.dispatcher).script }
        ensures setup { setup_of C.class_of self.new.server.node ≡ setup_of C.class_of self.old.server.node }
    {
        let mut outside = Lined {
            lines: &mut self.lines,
            out,
            book,
        };
        dispatch(
            SERVER,
            iface,
            &mut self.dispatcher,
            &mut self.server,
            &mut outside,
        )
    }
}
