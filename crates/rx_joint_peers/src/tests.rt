//! A call between two peers, and its callback.

use crate::joint::{JointPeers, PolledBy};
use rx_model::{Asked, Bytes, CallName, End, Event, Host, Limits, ReadGot, ServeRead, WroteGot};
use rx_peer::Role;
use std::alloc::{AllocError, Global};
use std::test::*;

const FIRST: Host = Host {
    addr: 0x0a00_0001,
    port: 7000,
};

const SECOND: Host = Host {
    addr: 0x0a00_0002,
    port: 7001,
};

const SMALL: Limits = Limits {
    conns: 4,
    calls: 4,
    slots: 200,
    window: 32,
};

/// The call that a peer starts on a new connection to a host.
fn start(peers: &mut JointPeers, number: u32, to: Host) -> Option<CallName> {
    if number < 1 || number as usize > peers.count() {
        return None;
    }
    let Event::Linked { got: Ok(cid), .. } = peers.connect(number, to, 1, 1) else {
        return None;
    };
    if number as usize > peers.count() {
        return None;
    }
    let Event::Called { got: Ok(call), .. } = peers.call(number, cid) else {
        return None;
    };
    Some(call)
}

/// A peer says a byte on a call, and no more.
fn say(
    peers: &mut JointPeers,
    alloc: Global,
    number: u32,
    call: &CallName,
) -> Result<bool, AllocError> {
    if number < 1 || number as usize > peers.count() {
        return Ok(false);
    }
    let said = peers.write(alloc, number, call, &[7])?;
    if number as usize > peers.count() {
        return Ok(false);
    }
    let shut = peers.shut(number, call);
    Ok(is_said(&said) && matches!(&shut, Event::Shut { got: Ok(()), .. }))
}

fn is_said(event: &Event) -> bool {
    matches!(
        event,
        Event::Wrote {
            got: WroteGot::Client(Ok(1)),
            ..
        }
    )
}

/// The half that gave a datagram at a poll, the host that it is for, and its bytes.
fn given(polled: PolledBy) -> Option<(Role, Host, Bytes)> {
    let (role, event) = match polled {
        PolledBy::Caller(calls) => (Role::Caller, calls),
        PolledBy::Both(_calls, serves) => (Role::Served, serves),
    };
    let Event::Polled { got } = event else {
        return None;
    };
    let (host, bytes) = got?;
    Some((role, host, bytes))
}

/// Which half of a peer gives the next datagram, and which half of the one that it is for takes it.
fn carry(
    peers: &mut JointPeers,
    alloc: Global,
    from: u32,
    to: u32,
) -> Result<Option<(Role, Role)>, AllocError> {
    if from < 1 || from as usize > peers.count() {
        return Ok(None);
    }
    let sender = peers.host(from);
    let Some((gave, host, bytes)) = given(peers.poll(alloc, from)?) else {
        return Ok(None);
    };
    if to < 1 || to as usize > peers.count() {
        return Ok(None);
    }
    if peers.host(to) != host {
        return Ok(None);
    }
    let (took, _event) = peers.take(alloc, to, sender, bytes.as_slice())?;
    Ok(Some((gave, took)))
}

/// A handler of a peer takes the next call and reads its request.
fn serve(
    peers: &mut JointPeers,
    alloc: Global,
    number: u32,
) -> Result<Option<CallName>, AllocError> {
    if number < 1 || number as usize > peers.count() {
        return Ok(None);
    }
    let Event::Accepted { got: Some(call) } = peers.accept(number) else {
        return Ok(None);
    };
    if number as usize > peers.count() {
        return Ok(None);
    }
    let read = peers.handler_read(alloc, number, &call, 16)?;
    let Event::HasRead {
        got: ReadGot::Server(ServeRead::Got(1)),
        ..
    } = read
    else {
        return Ok(None);
    };
    Ok(Some(call))
}

/// It finds the end of the request, and ends; its end is answered.
fn finish(
    peers: &mut JointPeers,
    alloc: Global,
    number: u32,
    call: &CallName,
) -> Result<bool, AllocError> {
    if number < 1 || number as usize > peers.count() {
        return Ok(false);
    }
    let read = peers.handler_read(alloc, number, call, 16)?;
    if number as usize > peers.count() {
        return Ok(false);
    }
    let done = peers.finish(number, call, 0);
    Ok(is_end(&read) && matches!(&done, Event::Finished { got: Ok(()), .. }))
}

fn is_end(event: &Event) -> bool {
    matches!(
        event,
        Event::HasRead {
            got: ReadGot::Server(ServeRead::End),
            ..
        }
    )
}

/// Whether the reply of a call is at its end, and the call ended well.
fn ended_well(
    peers: &mut JointPeers,
    alloc: Global,
    number: u32,
    call: &CallName,
) -> Result<bool, AllocError> {
    if number < 1 || number as usize > peers.count() {
        return Ok(false);
    }
    let _read = peers.read(alloc, number, call, 16)?;
    if number as usize > peers.count() {
        return Ok(false);
    }
    let asked = peers.ask(number, call);
    Ok(matches!(
        &asked,
        Event::Ended {
            got: Asked::Ended(End::Ok),
            ..
        }
    ))
}

/// Two peers.
fn two(alloc: Global) -> Result<JointPeers, AllocError> {
    let mut peers = JointPeers::make(alloc);
    peers.add(alloc, FIRST, 1, 1, &SMALL)?;
    peers.add(alloc, SECOND, 2, 1, &SMALL)?;
    Ok(peers)
}

/// The second peer calls the first, and is called back before the handler ends: which halves gave and took, datagram
/// by datagram, and whether the call ended well.
fn call_and_callback(alloc: Global) -> Result<Option<([(Role, Role); 3], bool)>, AllocError> {
    let mut peers = two(alloc)?;
    let Some(call) = start(&mut peers, 2, FIRST) else {
        return Ok(None);
    };
    if !say(&mut peers, alloc, 2, &call)? {
        return Ok(None);
    }
    let Some(request) = carry(&mut peers, alloc, 2, 1)? else {
        return Ok(None);
    };
    let Some(served) = serve(&mut peers, alloc, 1)? else {
        return Ok(None);
    };
    let Some(back) = start(&mut peers, 1, SECOND) else {
        return Ok(None);
    };
    if !say(&mut peers, alloc, 1, &back)? {
        return Ok(None);
    }
    let Some(callback) = carry(&mut peers, alloc, 1, 2)? else {
        return Ok(None);
    };
    if !finish(&mut peers, alloc, 1, &served)? {
        return Ok(None);
    }
    let Some(reply) = carry(&mut peers, alloc, 1, 2)? else {
        return Ok(None);
    };
    let well = ended_well(&mut peers, alloc, 2, &call)?;
    Ok(Some(([request, callback, reply], well)))
}

#[test]
fn each_half_speaks_with_the_other_ones(rt: HostRuntime) -> Result<(), Fail> {
    let told = call_and_callback(rt.alloc())?;
    assert_eq!(&rt;
        told,
        Some((
            [
                (Role::Caller, Role::Served),
                (Role::Caller, Role::Served),
                (Role::Served, Role::Caller)
            ],
            true
        ))
    );
    Ok(())
}
