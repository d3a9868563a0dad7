//! Turns of the handlers of a server, and of a caller on its client.
ghost use Rattle.std.specs.Prelude.{◌≡◌, List, IfErr, IfOk, false, true};
ghost use Rattle.rx_asks.specs.Asks.{begun as caller_begun, calling, is_done};
ghost use Rattle.rx_asks.specs.declared.ask.TheConstants.{REPLY_BYTES};
ghost use Rattle.rx_caller.specs.Turn.{CallerWants};
ghost use Rattle.rx_dispatch.specs.Making.{Remembers};
ghost use Rattle.rx_dispatch.specs.Rounds.{turning_of};
ghost use Rattle.rx_dispatch.specs.States.{state_of};
ghost use Rattle.rx_dispatch.specs.Wanting.{IsWanting};
ghost use Rattle.rx_drive.specs.Nodes.{node_stages};
ghost use Rattle.rx_drive.specs.Ran.{Ran, stop_of};
ghost use Rattle.rx_drive.specs.Tells.{IsTold};
ghost use Rattle.rx_drive.specs.Turned.{CallsOnce, turn};
ghost use Rattle.rx_jobs.specs.Dispatching.{accepts, dispatching, over};
ghost use Rattle.rx_jobs.specs.Handlers.{handlers_of};
ghost use Rattle.rx_model.specs.declared.event.Event.{Event as OneEvent};
ghost use Rattle.rx_node.specs.Node.{setup_of};
ghost use Rattle.rx_node.specs.Steps.{StandsNode};
ghost use Rattle.rx_server.specs.Server.{Stands};
ghost use Rattle.rx_wire.specs.Turns.{noted};

use crate::fits::event_fits;
use crate::outside::Outside;
use crate::stop::Stop;
use rx_caller::Caller;
use rx_class::Class;
use rx_client::Client;
use rx_dispatch::Dispatcher;
use rx_model::Event;
use rx_room::Room;
use rx_server::Server;
use xdr_value::Interface;

/// A turn of the handlers on their server, which has this number; each call is told.
pub fn dispatch<C: Class, X: Outside>(
    number: u32,
    iface: &Interface,
    dispatcher: &mut Dispatcher,
    server: &mut Server<C>,
    outside: &mut X,
) -> Result<(), Stop>
    ensures turned { (h : List OneEvent) → Stands C.class_of server.old h
        → Ran (X.ways outside.old).line (turn (node_stages (setup_of C.class_of server.old.node))
        (dispatching (handlers_of iface.now (state_of dispatcher.old).script))
        (IsWanting (handlers_of iface.now (state_of dispatcher.old).script)) number
        (accepts (state_of dispatcher.old).round.jobs) h)
        (λ r. (r.0 ≡ over (state_of dispatcher.new).round.jobs) × Stands C.class_of server.new r.1) (stop_of result)
        (X.told outside.old) (X.told outside.new) }
    ensures script { (state_of dispatcher.new).script ≡ (state_of dispatcher.old).script }
    ensures setup { setup_of C.class_of server.new.node ≡ setup_of C.class_of server.old.node }
    ensures ways { X.ways outside.new ≡ X.ways outside.old }
    ensures wants { IfErr result (λ stop. stop ≡ Stop.Unnoted → X.may_want ≡ true) }
{
    dispatcher.begin();
    'calls: for made in 0..u64::MAX {
        if !serve(number, iface, dispatcher, server, outside)? {
            return Ok(());
        }
    }
    Err(Stop::Endless)
}

/// Makes the next call of the handlers' turn, and tells it. Whether there was one.
fn serve<C: Class, X: Outside>(
    number: u32,
    iface: &Interface,
    dispatcher: &mut Dispatcher,
    server: &mut Server<C>,
    outside: &mut X,
) -> Result<bool, Stop>
    requires { Remembers (handlers_of iface.now (state_of dispatcher.old).script) (state_of dispatcher.old).round }
    ensures calls { CallsOnce (dispatching (handlers_of iface.now (state_of dispatcher.old).script))
        (IsWanting (handlers_of iface.now (state_of dispatcher.old).script)) (setup_of C.class_of server.old.node)
        (Stands C.class_of server.old) (Stands C.class_of server.new) number (X.ways outside.old).line
        (turning_of (handlers_of iface.now (state_of dispatcher.old).script) (state_of dispatcher.old).round)
        (turning_of (handlers_of iface.now (state_of dispatcher.old).script) (state_of dispatcher.new).round)
        (X.told outside.old) (X.told outside.new) result }
    ensures over { IfOk result (λ again. again ≡ false
        → turning_of (handlers_of iface.now (state_of dispatcher.old).script) (state_of dispatcher.new).round
        ≡ over (state_of dispatcher.new).round.jobs) }
    ensures remembered { Remembers (handlers_of iface.now (state_of dispatcher.new).script)
        (state_of dispatcher.new).round }
    ensures script { (state_of dispatcher.new).script ≡ (state_of dispatcher.old).script }
    ensures setup { setup_of C.class_of server.new.node ≡ setup_of C.class_of server.old.node }
    ensures ways { X.ways outside.new ≡ X.ways outside.old }
    ensures wants { IfErr result (λ stop. stop ≡ Stop.Unnoted → X.may_want ≡ true) }
{
    match dispatcher.step(iface, server)? {
        Some(event) => tell_call(number, event, outside),
        None => Ok(false),
    }
}

/// A turn of a caller on its client, which has this number; each call is told. What it reads goes through this room.
pub fn call_turn<C: Class, X: Outside>(
    number: u32,
    caller: &mut Caller,
    room: &mut Room,
    client: &mut Client<C>,
    outside: &mut X,
) -> Result<(), Stop>
    ensures turned { (h : List OneEvent) → StandsNode C.class_of client.old h
        → Ran (X.ways outside.old).line (turn (node_stages (setup_of C.class_of client.old)) (calling REPLY_BYTES)
        (CallerWants REPLY_BYTES) number (caller_begun caller.old) h)
        (λ r. (r.0 ≡ caller.new) × StandsNode C.class_of client.new r.1) (stop_of result)
        (X.told outside.old) (X.told outside.new) }
    ensures done { is_done caller.old ≡ true → is_done caller.new ≡ true }
    ensures setup { setup_of C.class_of client.new ≡ setup_of C.class_of client.old }
    ensures ways { X.ways outside.new ≡ X.ways outside.old }
    ensures wants { IfErr result (λ stop. stop ≡ Stop.Unnoted → X.may_want ≡ true) }
{
    caller.begin();
    'calls: for made in 0..u64::MAX {
        if !call(number, caller, room, client, outside)? {
            return Ok(());
        }
    }
    Err(Stop::Endless)
}

/// Makes the next call of a caller's turn, and tells it. Whether there was one.
fn call<C: Class, X: Outside>(
    number: u32,
    caller: &mut Caller,
    room: &mut Room,
    client: &mut Client<C>,
    outside: &mut X,
) -> Result<bool, Stop>
    ensures calls { CallsOnce (calling REPLY_BYTES) (CallerWants REPLY_BYTES) (setup_of C.class_of client.old)
        (StandsNode C.class_of client.old) (StandsNode C.class_of client.new) number (X.ways outside.old).line
        caller.old caller.new (X.told outside.old) (X.told outside.new) result }
    ensures done { is_done caller.old ≡ true → is_done caller.new ≡ true }
    ensures setup { setup_of C.class_of client.new ≡ setup_of C.class_of client.old }
    ensures ways { X.ways outside.new ≡ X.ways outside.old }
    ensures wants { IfErr result (λ stop. stop ≡ Stop.Unnoted → X.may_want ≡ true) }
{
    match caller.step(room, client)? {
        Some(event) => tell_call(number, event, outside),
        None => Ok(false),
    }
}

/// Tells a call of a turn, which goes on then.
fn tell_call<X: Outside>(number: u32, event: Event, outside: &mut X) -> Result<bool, Stop>
    ensures told { IsTold (X.ways outside.old).line (stop_of result) (X.told outside.old) (X.told outside.new)
        (noted number event) }
    ensures goes { IfOk result (λ goes. goes ≡ true) }
    ensures ways { X.ways outside.new ≡ X.ways outside.old }
    ensures wants { IfErr result (λ stop. stop ≡ Stop.Unnoted → X.may_want ≡ true) }
{
    event_fits(number, &event);
    outside.tell(number, &event)?;
    Ok(true)
}
