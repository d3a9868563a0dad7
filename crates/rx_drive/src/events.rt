//! What is handed in to a node: its moment, and what comes for it.
ghost use Rattle.std.specs.Prelude.{◌≡◌, ◌≤◌, ◌<◌, ◌^◌, List, IfErr, true, length};
ghost use Rattle.rx_drive.specs.Events.{event, takes_all};
ghost use Rattle.rx_drive.specs.Nodes.{node_stages};
ghost use Rattle.rx_drive.specs.Ran.{Ran, stop_of};
ghost use Rattle.rx_events.specs.Events.{IsClocked, IsTaken};
ghost use Rattle.rx_jumbo.specs.Parts.{parts_of};
ghost use Rattle.rx_model.specs.declared.event.Event.{Event as OneEvent};

use crate::buffers::front;
use crate::endpoint::Endpoint;
use crate::fits::{event_fits, taken_fits};
use crate::outside::Outside;
use crate::stop::Stop;
use rx_jumbo::{part, parts};
use rx_model::{Event, Host};

/// The node's moment is this one now, in milliseconds; and that is told.
pub fn clock<N: Endpoint, X: Outside>(
    number: u32,
    node: &mut N,
    now: u64,
    outside: &mut X,
) -> Result<(), Stop>
    requires later { N.clocked node.old ≤ now }
    requires now { now < 2 ^ 62 }
    ensures clocks { (h : List OneEvent) → N.stands node.old h
        → Ran (X.ways outside.old).line (event (node_stages (N.setup node.old)) number (IsClocked now) h)
        (N.stands node.new) (stop_of result) (X.told outside.old) (X.told outside.new) }
    ensures setup { N.setup node.new ≡ N.setup node.old }
    ensures ways { X.ways outside.new ≡ X.ways outside.old }
    ensures wants { IfErr result (λ stop. stop ≡ Stop.Unnoted → X.may_want ≡ true) }
{
    node.clock(now);
    let event = Event::Clocked { now };
    event_fits(number, &event);
    outside.tell(number, &event)
}

/// The node takes a single datagram from a host; and that is told.
pub fn take<N: Endpoint, X: Outside>(
    number: u32,
    node: &mut N,
    from: Host,
    bytes: &[u8],
    outside: &mut X,
) -> Result<(), Stop>
    ensures takes { (h : List OneEvent) → N.stands node.old h
        → Ran (X.ways outside.old).line (event (node_stages (N.setup node.old)) number (IsTaken from bytes.now) h)
        (N.stands node.new) (stop_of result) (X.told outside.old) (X.told outside.new) }
    ensures setup { N.setup node.new ≡ N.setup node.old }
    ensures ways { X.ways outside.new ≡ X.ways outside.old }
    ensures wants { IfErr result (λ stop. stop ≡ Stop.Unnoted → X.may_want ≡ true) }
{
    let got = node.take(from, bytes);
    taken_fits(number, from, bytes, got);
    outside.tell_taken(number, from, bytes, got)
}

/// The node takes each single datagram of a datagram from a host, and each is told. `single` is room for one of them.
pub fn take_parts<N: Endpoint, X: Outside>(
    number: u32,
    node: &mut N,
    from: Host,
    came: &[u8],
    single: &mut [u8],
    outside: &mut X,
) -> Result<(), Stop>
    requires room { length came.now ≤ length single.old }
    ensures takes { (h : List OneEvent) → N.stands node.old h
        → Ran (X.ways outside.old).line (takes_all (node_stages (N.setup node.old)) number from (parts_of came.now) h)
        (N.stands node.new) (stop_of result) (X.told outside.old) (X.told outside.new) }
    ensures setup { N.setup node.new ≡ N.setup node.old }
    ensures ways { X.ways outside.new ≡ X.ways outside.old }
    ensures wants { IfErr result (λ stop. stop ≡ Stop.Unnoted → X.may_want ≡ true) }
{
    for k in 0..parts(came) {
        let length = part(came, k, single);
        take(number, node, from, front(single, length), outside)?;
    }
    Ok(())
}
