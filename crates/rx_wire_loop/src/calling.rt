//! One call over a wire.
ghost use Rattle.std.specs.Prelude.{◌≡◌, ◌≤◌, ℕ, ◌∷◌, [], IfErr, IfOk, OnErr, None, Ok, is_some, true};
ghost use Rattle.rx_model.specs.declared.event.Event.TheVariants as events;
ghost use Rattle.rx_jumbo.specs.declared.sizes.TheConstants.{JUMBO_PARTS};
ghost use Rattle.rx_node.specs.Node.{setup_of};
ghost use Rattle.rx_node.specs.Steps.{StandsNode};
ghost use Rattle.rx_rules.specs.Setup as setups;
ghost use Rattle.rx_rules.specs.Setup.{FitsSetup};
ghost use Rattle.rx_wire_loop.specs.Calls.{CallIs, CallMade, CallsBound, begins, begins_on, begins_to, calls};
ghost use Rattle.rx_wire_loop.specs.Calls.{client_setup};
ghost use Rattle.rx_drive.specs.Nodes.{Answers};
ghost use Rattle.rx_wire_loop.specs.Parts.{Place};
ghost use Rattle.rx_wire_loop.specs.Ports.{AreReady, takes};
ghost use Rattle.rx_drive.specs.Ran.{stop_of};
ghost use Rattle.rx_wire_loop.specs.Runs.{IsAt, IsBehind, Plays, change};
ghost use Rattle.rx_wire_loop.specs.Serves.{plays};
ghost use Rattle.rx_wire_loop.specs.Tells.{SinkTells, WireTells, told, wire_tells};

use crate::lines::CLIENT;
use crate::notes::note;
use crate::outside::Unlined;
use crate::ports::{Ports, wait_until};
use rx_caller::Caller;
use rx_class::Class;
use rx_client::Client;
use rx_drive::{Stop, call_turn};
use rx_model::{CallName, Event, Host, Limits};
use rx_room::Room;
use rx_wire::{Journal, Wire};
use std::alloc::Global;

/// How a call is made: from which host, what its client is set up with, to which service of which host, with how many
/// takes at most, and how many datagrams at most are given as one.
#[derive(Clone, Copy, Debug)]
pub struct Calling {
    pub from: Host,
    pub epoch: u32,
    pub limits: Limits,
    pub to: Host,
    pub service: u16,
    pub turns: u64,
    pub jumbo: u32,
}

/// How a call ended.
#[derive(Debug, Drop)]
pub enum CallEnd {
    /// With its caller, which has its end and what was read of its reply.
    Ended(Caller),
    /// All takes were made before.
    TurnsSpent,
}

/// Makes a call over the wire, whose request is these bytes.
pub fn call<C: Class, W: Wire, J: Journal>(
    alloc: Global,
    request: Vec<u8>,
    calling: &Calling,
    class: C,
    wire: &mut W,
    book: &mut J,
) -> Result<CallEnd, Stop>
    requires limits { setups.FitsLimits calling.now.limits }
    requires some { 1 ≤ calling.now.jumbo }
    requires few { calling.now.jumbo ≤ JUMBO_PARTS }
    ensures calls { (sink : SinkTells) → CallIs calling.now request.items (C.class_of (C.secret class)) result
        (told (J.told book.old) sink (wire_tells (W.told wire.old) (W.faults wire.old) (W.moment wire.old)))
        (told (J.told book.new) sink (wire_tells (W.told wire.new) (W.faults wire.new) (W.moment wire.new))) }
    ensures unnoted { IfErr result (λ stop. stop ≡ Stop.Unnoted → J.may_want ≡ true) }
{
    match wire.bind(calling.from) {
        Ok(host) => call_from(alloc, request, calling, class, host, wire, book),
        Err(_) => Err(Stop::WireFault),
    }
}

/// Makes a call from the host that the wire got.
fn call_from<C: Class, W: Wire, J: Journal>(
    alloc: Global,
    request: Vec<u8>,
    calling: &Calling,
    class: C,
    host: Host,
    wire: &mut W,
    book: &mut J,
) -> Result<CallEnd, Stop>
    requires limits { setups.FitsLimits calling.now.limits }
    requires some { 1 ≤ calling.now.jumbo }
    requires few { calling.now.jumbo ≤ JUMBO_PARTS }
    ensures calls { (sink : SinkTells) → CallsBound calling.now request.items
        (client_setup calling.now (C.class_of (C.secret class)) host) result
        (told (J.told book.old) sink (wire_tells (W.told wire.old) (W.faults wire.old) (W.moment wire.old)))
        (told (J.told book.new) sink (wire_tells (W.told wire.new) (W.faults wire.new) (W.moment wire.new))) }
    ensures unnoted { IfErr result (λ stop. stop ≡ Stop.Unnoted → J.may_want ≡ true) }
{
    let mut client = Client::make_prompt(alloc, &calling.limits, host, calling.epoch, class)?;
    let ports = Ports::make(alloc, CLIENT, calling.jumbo)?;
    let name = begin(calling, &ports, &mut client, wire, book)?;
    let node = CallingNode {
        client,
        caller: Caller::make(alloc, name, request),
        room: Room::none(alloc),
        ports,
    };
    node.passes(calling.turns, wire, book)
}

/// Hands in the clock of a client at the start of its life, and begins the call. Its name.
fn begin<C: Class, W: Wire, J: Journal>(
    calling: &Calling,
    ports: &Ports,
    client: &mut Client<C>,
    wire: &W,
    book: &mut J,
) -> Result<CallName, Stop>
    requires number { ports.now.node ≡ CLIENT }
    requires fits { FitsSetup (setup_of C.class_of client.old) }
    requires stands { StandsNode C.class_of client.old [] }
    ensures plays { (sink : SinkTells) → Plays (change CLIENT (setup_of C.class_of client.old)
        (StandsNode C.class_of client.old) (StandsNode C.class_of client.new)
        (told (J.told book.old) sink (wire_tells (W.told wire.now) (W.faults wire.now) (W.moment wire.now)))
        (told (J.told book.new) sink (wire_tells (W.told wire.now) (W.faults wire.now) (W.moment wire.now))))
        (begins calling.now) (λ name. IfOk result (λ its. name ≡ its)) (stop_of result) }
    ensures refused { IfErr result (λ stop. stop ≡ Stop.Unnoted) }
    ensures wants { OnErr result (J.may_want ≡ true) }
    ensures setup { setup_of C.class_of client.new ≡ setup_of C.class_of client.old }
{
    ports.clock(client, wire, book)?;
    begin_to(calling.to, calling.service, client, book)
}

/// Makes the connection to a service of a host, and begins the call on it.
fn begin_to<C: Class, J: Journal>(
    to: Host,
    service: u16,
    client: &mut Client<C>,
    book: &mut J,
) -> Result<CallName, Stop>
    requires fits { FitsSetup (setup_of C.class_of client.old) }
    requires clocked { (now : ℕ) × StandsNode C.class_of client.old (events.Clocked now ∷ []) }
    ensures plays { (sink : SinkTells) (wire : WireTells) → Plays (change CLIENT (setup_of C.class_of client.old)
        (StandsNode C.class_of client.old) (StandsNode C.class_of client.new)
        (told (J.told book.old) sink wire) (told (J.told book.new) sink wire))
        (begins_to to service) (λ name. IfOk result (λ its. name ≡ its)) (stop_of result) }
    ensures refused { IfErr result (λ stop. stop ≡ Stop.Unnoted) }
    ensures wants { OnErr result (J.may_want ≡ true) }
    ensures setup { setup_of C.class_of client.new ≡ setup_of C.class_of client.old }
{
    let first = 1;
    let cid = connect(to, service, first, client);
    let got = Ok(cid);
    let event = Event::Linked {
        to,
        service,
        first,
        got,
    };
    note(CLIENT, &event, book)?;
    begin_on(to, service, cid, client, book)
}

/// Makes the first connection of a client, which has a place for it.
fn connect<C: Class>(to: Host, service: u16, first: u32, client: &mut Client<C>) -> u32
    requires some { 1 ≤ first }
    requires fits { FitsSetup (setup_of C.class_of client.old) }
    requires clocked { (now : ℕ) × StandsNode C.class_of client.old (events.Clocked now ∷ []) }
    ensures answered { Answers (setup_of C.class_of client.old) (StandsNode C.class_of client.old)
        (StandsNode C.class_of client.new) (events.Linked to service first (Ok result)) }
    ensures setup { setup_of C.class_of client.new ≡ setup_of C.class_of client.old }
{
    match client.connect(to, service, first) {
        Ok(cid) => cid,
        Err(_) => unreachable!(),
    }
}

/// Begins the call on the connection that was made.
fn begin_on<C: Class, J: Journal>(
    to: Host,
    service: u16,
    cid: u32,
    client: &mut Client<C>,
    book: &mut J,
) -> Result<CallName, Stop>
    requires fits { FitsSetup (setup_of C.class_of client.old) }
    requires linked { (now : ℕ) × StandsNode C.class_of client.old
        (events.Linked to service 1 (Ok cid) ∷ events.Clocked now ∷ []) }
    ensures plays { (sink : SinkTells) (wire : WireTells) → Plays (change CLIENT (setup_of C.class_of client.old)
        (StandsNode C.class_of client.old) (StandsNode C.class_of client.new)
        (told (J.told book.old) sink wire) (told (J.told book.new) sink wire))
        (begins_on cid) (λ name. IfOk result (λ its. name ≡ its)) (stop_of result) }
    ensures refused { IfErr result (λ stop. stop ≡ Stop.Unnoted) }
    ensures wants { OnErr result (J.may_want ≡ true) }
    ensures setup { setup_of C.class_of client.new ≡ setup_of C.class_of client.old }
{
    let name = start(to, service, cid, client);
    let got = Ok(name);
    note(CLIENT, &Event::Called { cid, got }, book)?;
    Ok(name)
}

/// Starts the first call of a client, which has room for it, on its first connection.
fn start<C: Class>(to: Host, service: u16, cid: u32, client: &mut Client<C>) -> CallName
    requires fits { FitsSetup (setup_of C.class_of client.old) }
    requires linked { (now : ℕ) × StandsNode C.class_of client.old
        (events.Linked to service 1 (Ok cid) ∷ events.Clocked now ∷ []) }
    ensures answered { Answers (setup_of C.class_of client.old) (StandsNode C.class_of client.old)
        (StandsNode C.class_of client.new) (events.Called cid (Ok result)) }
    ensures setup { setup_of C.class_of client.new ≡ setup_of C.class_of client.old }
{
    match client.call(cid) {
        Ok(name) => name,
        Err(_) => unreachable!(),
    }
}

/// A client with its caller.
#[derive(Debug, Drop)]
pub struct CallingNode<C: Class> {
    client: Client<C>,
    caller: Caller,
    /// What its caller reads the reply through.
    room: Room,
    ports: Ports,
}

impl<C: Class> CallingNode<C> {
    /// Passes until the call ended, with so many takes at most.
    fn passes<W: Wire, J: Journal>(
        mut self,
        turns: u64,
        wire: &mut W,
        book: &mut J,
    ) -> Result<CallEnd, Stop>
        requires ready { AreReady CLIENT self.ports.joiner.most self.ports }
        requires fits { FitsSetup (setup_of C.class_of self.client) }
        requires unended { self.caller.end ≡ None }
        requires behind { IsBehind (setup_of C.class_of self.client) (StandsNode C.class_of self.client)
            (W.moment wire.old) }
        ensures calls { (sink : SinkTells) (p : Place) → IsAt (setup_of C.class_of self.client)
            (StandsNode C.class_of self.client)
            (told (J.told book.old) sink (wire_tells (W.told wire.old) (W.faults wire.old) (W.moment wire.old))) p
            → CallMade (record {
              setup = setup_of C.class_of self.client;
              most = self.ports.joiner.most;
              turns = turns;
            })
            self.caller p result
            (told (J.told book.old) sink (wire_tells (W.told wire.old) (W.faults wire.old) (W.moment wire.old)))
            (told (J.told book.new) sink (wire_tells (W.told wire.new) (W.faults wire.new) (W.moment wire.new))) }
        ensures unnoted { IfErr result (λ stop. stop ≡ Stop.Unnoted → J.may_want ≡ true) }
    {
        for taken in 0..turns {
            if self.play(wire, book)? {
                return Ok(CallEnd::Ended(self.caller));
            }
            self.take(wire, book)?;
        }
        if self.play(wire, book)? {
            return Ok(CallEnd::Ended(self.caller));
        }
        Ok(CallEnd::TurnsSpent)
    }

    /// A pass up to its take. Whether the call ended.
    fn play<W: Wire, J: Journal>(&mut self, wire: &mut W, book: &mut J) -> Result<bool, Stop>
        requires ready { AreReady CLIENT self.old.ports.joiner.most self.old.ports }
        requires fits { FitsSetup (setup_of C.class_of self.old.client) }
        requires behind { IsBehind (setup_of C.class_of self.old.client) (StandsNode C.class_of self.old.client)
            (W.moment wire.old) }
        ensures plays { (sink : SinkTells) → Plays (change CLIENT (setup_of C.class_of self.old.client)
            (StandsNode C.class_of self.old.client) (StandsNode C.class_of self.new.client)
            (told (J.told book.old) sink (wire_tells (W.told wire.old) (W.faults wire.old) (W.moment wire.old)))
            (told (J.told book.new) sink (wire_tells (W.told wire.new) (W.faults wire.new) (W.moment wire.new))))
            (plays self.old.ports.joiner.most calls self.old.caller) (λ v. v ≡ self.new.caller) (stop_of result) }
        ensures unnoted { IfErr result (λ stop. stop ≡ Stop.Unnoted → J.may_want ≡ true) }
        ensures done { IfOk result (λ done. done ≡ is_some self.new.caller.end) }
        ensures ready { IfOk result (λ done. AreReady CLIENT self.old.ports.joiner.most self.new.ports) }
        ensures setup { setup_of C.class_of self.new.client ≡ setup_of C.class_of self.old.client }
    {
        self.ports.clock(&mut self.client, wire, book)?;
        self.ports.give_due(&mut self.client, wire, book)?;
        self.turn(book)?;
        self.ports.give_due(&mut self.client, wire, book)?;
        Ok(self.caller.ended().is_some())
    }

    /// A turn of the caller.
    fn turn<J: Journal>(&mut self, book: &mut J) -> Result<(), Stop>
        ensures plays { (sink : SinkTells) (wire : WireTells) → Plays (change CLIENT
            (setup_of C.class_of self.old.client) (StandsNode C.class_of self.old.client)
            (StandsNode C.class_of self.new.client) (told (J.told book.old) sink wire)
            (told (J.told book.new) sink wire)) (calls self.old.caller) (λ v. v ≡ self.new.caller) (stop_of result) }
        ensures unnoted { IfErr result (λ stop. stop ≡ Stop.Unnoted → J.may_want ≡ true) }
        ensures ports { self.new.ports ≡ self.old.ports }
        ensures setup { setup_of C.class_of self.new.client ≡ setup_of C.class_of self.old.client }
    {
        self.caller.offers_few();
        let mut outside = Unlined { book };
        call_turn(
            CLIENT,
            &mut self.caller,
            &mut self.room,
            &mut self.client,
            &mut outside,
        )
    }

    /// The take of a pass.
    fn take<W: Wire, J: Journal>(&mut self, wire: &mut W, book: &mut J) -> Result<(), Stop>
        requires ready { AreReady CLIENT self.old.ports.joiner.most self.old.ports }
        requires fits { FitsSetup (setup_of C.class_of self.old.client) }
        requires behind { IsBehind (setup_of C.class_of self.old.client) (StandsNode C.class_of self.old.client)
            (W.moment wire.old) }
        ensures plays { (sink : SinkTells) → Plays (change CLIENT (setup_of C.class_of self.old.client)
            (StandsNode C.class_of self.old.client) (StandsNode C.class_of self.new.client)
            (told (J.told book.old) sink (wire_tells (W.told wire.old) (W.faults wire.old) (W.moment wire.old)))
            (told (J.told book.new) sink (wire_tells (W.told wire.new) (W.faults wire.new) (W.moment wire.new))))
            (takes (setup_of C.class_of self.old.client) None) (λ u. Unit {0}) (stop_of result) }
        ensures unnoted { IfErr result (λ stop. stop ≡ Stop.Unnoted → J.may_want ≡ true) }
        ensures ports { self.new.ports ≡ self.old.ports }
        ensures caller { self.new.caller ≡ self.old.caller }
        ensures setup { setup_of C.class_of self.new.client ≡ setup_of C.class_of self.old.client }
    {
        let until = wait_until(&self.client, None);
        self.ports.take(until, &mut self.client, wire, book)
    }
}
