//! Polls of a node until none is due.
ghost use Rattle.std.specs.Prelude.{◌≡◌, ◌≤◌, ℕ, List, IfErr, IfOk, None, false, true, length};
ghost use Rattle.rx_drive.specs.Carried.{CanCarry, PassesOn, PollsOnce, polls_carried};
ghost use Rattle.rx_drive.specs.Nodes.{node_stages};
ghost use Rattle.rx_drive.specs.Ran.{Ran, stop_of};
ghost use Rattle.rx_drive.specs.Tells.{IsTold};
ghost use Rattle.rx_model.specs.declared.event.Event.{Event as OneEvent};
ghost use Rattle.rx_model.specs.declared.event.Event.TheVariants as events;
ghost use Rattle.rx_model.specs.declared.wire.TheConstants.{DATAGRAM_BYTES};
ghost use Rattle.rx_wire.specs.Turns.{noted};

use crate::buffers::front;
use crate::carrier::Carrier;
use crate::endpoint::Endpoint;
use crate::fits::{event_fits, polled_fits};
use crate::outside::Outside;
use crate::stop::Stop;
use rx_model::{Event, Host};

/// Polls a node until none is due, tells each poll, and has all that it gives carried. The node has this number, and
/// `single` is room for a datagram.
pub fn poll_out<N: Endpoint, K: Carrier<X>, X: Outside>(
    number: u32,
    node: &mut N,
    single: &mut [u8],
    carrier: &mut K,
    outside: &mut X,
) -> Result<(), Stop>
    requires room { DATAGRAM_BYTES ≤ length single.old }
    requires can { CanCarry (N.setup node.old) (N.stands node.old) K.can }
    ensures polls { (h : List OneEvent) → N.stands node.old h
        → Ran (X.ways outside.old).line (polls_carried (node_stages (N.setup node.old))
        (record { carried = K.carried; some = K.some; lost = K.lost }) number carrier.old carrier.new h)
        (N.stands node.new) (stop_of result) (X.told outside.old) (X.told outside.new) }
    ensures setup { N.setup node.new ≡ N.setup node.old }
    ensures names { K.names carrier.new ≡ K.names carrier.old }
    ensures ways { X.ways outside.new ≡ X.ways outside.old }
    ensures wants { IfErr result (λ stop. stop ≡ Stop.Unnoted → X.may_want ≡ true) }
{
    'polls: for made in 0..u64::MAX {
        if !poll_once(number, node, single, carrier, outside)? {
            return Ok(());
        }
    }
    Err(Stop::Endless)
}

/// Polls a node once, tells that, and has what it gives carried. Whether it gave something.
fn poll_once<N: Endpoint, K: Carrier<X>, X: Outside>(
    number: u32,
    node: &mut N,
    single: &mut [u8],
    carrier: &mut K,
    outside: &mut X,
) -> Result<bool, Stop>
    requires room { DATAGRAM_BYTES ≤ length single.old }
    requires can { CanCarry (N.setup node.old) (N.stands node.old) K.can }
    ensures polls { PollsOnce (N.setup node.old) (N.stands node.old) (N.stands node.new)
        (record { carried = K.carried; some = K.some; lost = K.lost }) number (X.ways outside.old).line
        carrier.old carrier.new (X.told outside.old) (X.told outside.new) result }
    ensures can { CanCarry (N.setup node.new) (N.stands node.new) K.can }
    ensures setup { N.setup node.new ≡ N.setup node.old }
    ensures names { K.names carrier.new ≡ K.names carrier.old }
    ensures ways { X.ways outside.new ≡ X.ways outside.old }
    ensures wants { IfErr result (λ stop. stop ≡ Stop.Unnoted → X.may_want ≡ true) }
{
    match node.poll(single) {
        Some((to, count)) => pass_on(number, to, front(single, count), carrier, outside),
        None => tell_none(number, outside),
    }
}

/// Tells a datagram that a poll gave, and has it carried.
fn pass_on<K: Carrier<X>, X: Outside>(
    number: u32,
    to: Host,
    datagram: &[u8],
    carrier: &mut K,
    outside: &mut X,
) -> Result<bool, Stop>
    requires can { K.can (to, datagram.now) }
    ensures passes { PassesOn (record { carried = K.carried; some = K.some; lost = K.lost }) number
        (X.ways outside.old).line (to, datagram.now) carrier.old carrier.new (X.told outside.old) (X.told outside.new)
        result }
    ensures names { K.names carrier.new ≡ K.names carrier.old }
    ensures ways { X.ways outside.new ≡ X.ways outside.old }
    ensures wants { IfErr result (λ stop. stop ≡ Stop.Unnoted → X.may_want ≡ true) }
{
    polled_fits(number, to, datagram);
    outside.tell_polled(number, to, datagram)?;
    carrier.carry(to, datagram, outside)?;
    Ok(true)
}

/// Tells that a poll gave nothing.
fn tell_none<X: Outside>(number: u32, outside: &mut X) -> Result<bool, Stop>
    ensures told { IsTold (X.ways outside.old).line (stop_of result) (X.told outside.old) (X.told outside.new)
        (noted number (events.Polled None)) }
    ensures none { IfOk result (λ again. again ≡ false) }
    ensures ways { X.ways outside.new ≡ X.ways outside.old }
    ensures wants { IfErr result (λ stop. stop ≡ Stop.Unnoted → X.may_want ≡ true) }
{
    let event = Event::Polled { got: None };
    event_fits(number, &event);
    outside.tell(number, &event)?;
    Ok(false)
}
