//! The run of a plan.
ghost use Rattle.std.specs.Prelude.{◌≡◌, ◌≤◌, ◌∷◌, ◌++◌, [], true, length, List, IfOk, OnOk};
ghost use Rattle.std.specs.List.{All};
ghost use Rattle.rx_model.specs.declared.event.Noted.{Noted};
ghost use Rattle.rx_law.specs.Worlds.{AreOf};
ghost use Rattle.rx_joint.specs.Nodes.{Standing, nodes_of};
ghost use Rattle.rx_rules.specs.Setup.{Client, FitsLimits, unprompted};
ghost use Rattle.rx_script.specs.Saying.{blocks_of};
ghost use Rattle.rx_jobs.specs.Handlers.{handlers_of};
ghost use Rattle.rx_token.specs.Chosen.{chosen, secret_of};
ghost use Rattle.rx_plan.specs.Follows.{Progress, begins, class_of, client_node, fits_limits, next_part};
ghost use Rattle.rx_plan.specs.Lines.{IsWell};
ghost use Rattle.rx_stage.specs.Ran.{stop_of};
ghost use Rattle.rx_stage.specs.Showing.{AddsNode, IsBegun, IsCounted, MadeLines, MakesLine, RunsOn, ShowsRun};
ghost use Rattle.rx_stage.specs.Showing.{ended_at};
ghost use Rattle.rx_stage.specs.Showing.{has_client_room, has_slots, other_part, outcome_of, started};
ghost use Rattle.rx_stage.specs.Runs.{KeepsPromises, RunIs};
ghost use Rattle.rx_stage.specs.Shown.{jobs_of, script_of};
ghost use Rattle.rx_stage.specs.Tells.{told};

use crate::invokes::Callers;
use crate::stop::Stop;
use crate::trace::Trace;
use crate::world::World;
use rx_base::Sink;
use rx_dispatch::Dispatcher;
use rx_joint::{Nodes, SERVER};
use rx_model::wire::{MAX_WINDOW, MIN_WINDOW};
use rx_model::{Host, Limits};
use rx_plan::{MAX_CLIENTS, MAX_SLOTS};
use rx_room::Room;
use rx_script::{Numbered, Outcome, Plan, PlanLine, PlanWhy, Script};
use rx_token::{Chosen, KEY_BYTES, Token};
use rx_wire::Journal;
use std::alloc::{AllocError, Global};
use xdr_value::Interface;

/// Makes the events of a plan's lines on one server and its clients. Each event is noted, and then its line put. Behind
/// the trace stands an answer line for each invoke that was given a call. The run is out of memory where memory was
/// wanted, or where one polling or turn went on for 2^64 - 1 events.
pub fn run<O: Sink, J: Journal>(
    alloc: Global,
    iface: &Interface,
    script: Script,
    plan: &Plan,
    out: &mut O,
    book: &mut J,
) -> Outcome
    requires { All (λ n. IsWell (handlers_of iface.now (blocks_of script.blocks.items)) n.what) plan.now.lines.items }
    ensures run { RunIs (handlers_of iface.now (blocks_of script.blocks.items)) plan.now.lines.items result
        (told (J.told book.old) (O.told out.old) (O.faults out.old))
        (told (J.told book.new) (O.told out.new) (O.faults out.new)) }
    ensures headline { KeepsPromises (handlers_of iface.now (blocks_of script.blocks.items)) plan.now.lines.items result
        (told (J.told book.old) (O.told out.old) (O.faults out.old))
        (told (J.told book.new) (O.told out.new) (O.faults out.new)) }
{
    match plan.lines.split_first() {
        None => Outcome::Ran,
        Some((first, rest)) => outcome_of(run_lines(
            alloc,
            iface,
            script,
            &plan.lines,
            first,
            rest,
            out,
            book,
        )),
    }
}

/// How a run ended.
fn outcome_of(ran: Result<(), Outcome>) -> Outcome
    ensures { result ≡ outcome_of ran }
{
    match ran {
        Ok(()) => Outcome::Ran,
        Err(outcome) => outcome,
    }
}

/// The run of a plan whose first line is this one.
fn run_lines<O: Sink, J: Journal>(
    alloc: Global,
    iface: &Interface,
    script: Script,
    plan: &[Numbered],
    first: &Numbered,
    rest: &[Numbered],
    out: &mut O,
    book: &mut J,
) -> Result<(), Outcome>
    requires whole { plan.now ≡ first.now ∷ rest.now }
    requires well { All (λ n. IsWell (handlers_of iface.now (blocks_of script.blocks.items)) n.what) rest.now }
    ensures { RunIs (handlers_of iface.now (blocks_of script.blocks.items)) plan.now (outcome_of result)
        (told (J.told book.old) (O.told out.old) (O.faults out.old))
        (told (J.told book.new) (O.told out.new) (O.faults out.new)) }
{
    match begin(alloc, script, &first.what) {
        Ok(run) => run.on(iface, plan, rest, out, book),
        Err(stop) => Err(ended(first.line, stop)),
    }
}

/// How a run ends at a line with this number.
fn ended(line: u32, stop: Stop) -> Outcome
    ensures { result ≡ ended_at line stop }
{
    match stop {
        Stop::Refused(why) => Outcome::Refused { line, why },
        Stop::SinkFault => Outcome::SinkFault,
        Stop::OutOfMemory | Stop::Endless => Outcome::OutOfMemory,
    }
}

/// A run behind its first lines.
#[derive(Drop)]
struct Running {
    world: World,
    /// Whether one of the lines made no node.
    late: bool,
    /// The slots of all nodes, until a line makes no node.
    slots: u32,
}

/// A run behind its server line.
fn begin(alloc: Global, script: Script, line: &PlanLine) -> Result<Running, Stop>
    ensures begun { IsBegun (begins line.now) result }
    ensures script { IfOk result (λ run. script_of run.world ≡ blocks_of script.blocks.items) }
{
    let PlanLine::Server {
        host,
        service,
        limits,
        key,
        nonce,
    } = line
    else {
        return Err(Stop::Refused(PlanWhy::NoNode));
    };
    if !has_slots(limits, 0) {
        return Err(Stop::Refused(PlanWhy::Slots));
    }
    let nodes = Nodes::make(alloc, *host, *service, limits, class_of(key), *nonce)?;
    Ok(Running {
        world: at_start(alloc, nodes, *service, script),
        late: false,
        slots: limits.slots,
    })
}

/// A world of these nodes, with nothing kept yet.
pub fn at_start(alloc: Global, nodes: Nodes, service: u16, script: Script) -> World
    ensures kept { result ≡ started nodes service result.dispatcher }
    ensures jobs { jobs_of result ≡ [] }
    ensures script { script_of result ≡ blocks_of script.blocks.items }
{
    World {
        alloc,
        nodes,
        service,
        calls: Vec::new(alloc),
        accepted: Vec::new(alloc),
        packets: Vec::new(alloc),
        callers: Callers::new(alloc),
        dispatcher: Dispatcher::make(alloc, script),
        trace: Trace::make(alloc),
        room: Room::none(alloc),
    }
}

/// The class of a node with a key, or without one.
fn class_of(key: &Option<[u8; KEY_BYTES]>) -> Chosen
    ensures { chosen (secret_of result) ≡ class_of key.now }
{
    match key {
        Some(key) => Chosen::Token(Token::new(*key)),
        None => Chosen::Null,
    }
}

/// Whether a node can be made with these limits.
fn fits(limits: &Limits) -> bool
    ensures { result ≡ fits_limits limits.now }
{
    1 <= limits.conns
        && limits.conns <= 65536
        && 1 <= limits.calls
        && limits.calls <= 4096
        && limits.calls < limits.slots
        && limits.slots <= 65536
        && MIN_WINDOW <= limits.window
        && limits.window <= MAX_WINDOW
}

/// The same, where there are so many slots already.
fn has_slots(limits: &Limits, slots: u32) -> bool
    requires { slots ≤ MAX_SLOTS }
    ensures { result ≡ has_slots limits.now slots }
{
    fits(limits) && slots + limits.slots <= MAX_SLOTS
}

/// Whether there is room for a client with these limits, where there are so many slots and clients already.
fn has_room(limits: &Limits, slots: u32, clients: usize) -> bool
    requires { slots ≤ MAX_SLOTS }
    ensures { result ≡ has_client_room limits.now slots clients }
{
    has_slots(limits, slots) && clients < MAX_CLIENTS
}

impl World {
    /// How many clients there are.
    fn clients(&self) -> usize
        ensures { result ≡ length self.now.nodes.clients }
    {
        self.nodes.clients()
    }

    /// One client more.
    fn add_client(
        &mut self,
        host: Host,
        epoch: u32,
        limits: &Limits,
        class: Chosen,
    ) -> Result<(), AllocError>
        requires { FitsLimits limits.now }
        ensures rest { self.new ≡ record self.old { nodes = self.new.nodes } }
        ensures stands { (h : List Noted) → AreOf (nodes_of self.old.nodes) h → Standing self.old.nodes h
            → Standing self.new.nodes h }
        ensures nodes { OnOk result (nodes_of self.new.nodes ≡ nodes_of self.old.nodes ++ record {
          host = host;
          setup = unprompted (Client host epoch) limits.now (chosen (secret_of class));
        } ∷ []) }
    {
        self.nodes
            .add_client(self.alloc, host, epoch, limits, class)
    }
}

impl Running {
    /// Makes the lines behind the first, and then puts the answer lines.
    fn on<O: Sink, J: Journal>(
        mut self,
        iface: &Interface,
        plan: &[Numbered],
        rest: &[Numbered],
        out: &mut O,
        book: &mut J,
    ) -> Result<(), Outcome>
        requires counted { IsCounted self }
        requires well { All (λ n. IsWell (handlers_of iface.now (script_of self.world)) n.what) rest.now }
        ensures { (p : Progress) → ShowsRun self 1 p → RunsOn (handlers_of iface.now (script_of self.world))
            plan.now rest.now p (outcome_of result)
            (told (J.told book.old) (O.told out.old) (O.faults out.old))
            (told (J.told book.new) (O.told out.new) (O.faults out.new)) }
    {
        self.make_lines(iface, rest, out, book)?;
        self.world.answers(iface, plan, out)
    }

    /// Makes lines behind the first.
    fn make_lines<O: Sink, J: Journal>(
        &mut self,
        iface: &Interface,
        rest: &[Numbered],
        out: &mut O,
        book: &mut J,
    ) -> Result<(), Outcome>
        requires counted { IsCounted self.old }
        requires well { All (λ n. IsWell (handlers_of iface.now (script_of self.old.world)) n.what) rest.now }
        ensures made { MadeLines (handlers_of iface.now (script_of self.old.world)) rest.now self.old self.new result
            (told (J.told book.old) (O.told out.old) (O.faults out.old))
            (told (J.told book.new) (O.told out.new) (O.faults out.new)) }
        ensures script { script_of self.new.world ≡ script_of self.old.world }
    {
        for (before, numbered) in rest.iter().enumerate() {
            let made = self.make_line(iface, before + 1, &numbered.what, out, book);
            if let Err(stop) = made {
                return Err(ended(numbered.line, stop));
            }
        }
        Ok(())
    }

    /// Makes a line behind the first, at its place of the plan.
    fn make_line<O: Sink, J: Journal>(
        &mut self,
        iface: &Interface,
        place: usize,
        line: &PlanLine,
        out: &mut O,
        book: &mut J,
    ) -> Result<(), Stop>
        requires counted { IsCounted self.old }
        requires well { IsWell (handlers_of iface.now (script_of self.old.world)) line.now }
        ensures made { MakesLine (next_part (handlers_of iface.now (script_of self.old.world)) line.now)
            place self.old self.new (stop_of result) (told (J.told book.old) (O.told out.old) (O.faults out.old))
            (told (J.told book.new) (O.told out.new) (O.faults out.new)) }
        ensures counted { OnOk result (IsCounted self.new) }
        ensures script { script_of self.new.world ≡ script_of self.old.world }
    {
        match line {
            PlanLine::Client {
                host,
                epoch,
                limits,
                key,
            } => self.add_client(*host, *epoch, limits, key),
            _ => self.make_other(iface, place, line, out, book),
        }
    }

    /// Makes a line that makes no node.
    fn make_other<O: Sink, J: Journal>(
        &mut self,
        iface: &Interface,
        place: usize,
        line: &PlanLine,
        out: &mut O,
        book: &mut J,
    ) -> Result<(), Stop>
        requires well { IsWell (handlers_of iface.now (script_of self.old.world)) line.now }
        ensures made { MakesLine (other_part (handlers_of iface.now (script_of self.old.world)) line.now)
            place self.old self.new (stop_of result) (told (J.told book.old) (O.told out.old) (O.faults out.old))
            (told (J.told book.new) (O.told out.new) (O.faults out.new)) }
        ensures late { self.new.late ≡ true }
        ensures script { script_of self.new.world ≡ script_of self.old.world }
    {
        self.late = true;
        self.world.line(iface, place, line, out, book)
    }

    /// One client more, where no line made no node.
    fn add_client(
        &mut self,
        host: Host,
        epoch: u32,
        limits: &Limits,
        key: &Option<[u8; KEY_BYTES]>,
    ) -> Result<(), Stop>
        requires counted { IsCounted self.old }
        ensures added { AddsNode (client_node host epoch limits.now key.now) self.old self.new (stop_of result) }
        ensures counted { OnOk result (IsCounted self.new) }
        ensures script { script_of self.new.world ≡ script_of self.old.world }
    {
        if self.late {
            return Err(Stop::Refused(PlanWhy::Late));
        }
        if !has_room(limits, self.slots, self.world.clients()) {
            return Err(Stop::Refused(PlanWhy::Slots));
        }
        self.world.add_client(host, epoch, limits, class_of(key))?;
        self.slots += limits.slots;
        Ok(())
    }
}
