//! The calls of a server that a job makes, with the bytes of their events, and what it does behind them.

ghost use Rattle.std.specs.Prelude.{◌≡◌, ◌≤◌, IfOk, OnErr, length, take};
ghost use Rattle.hex.specs.Hex.{IsBytes};
ghost use Rattle.rx_model.specs.declared.answers.ReadGot.TheVariants as readers;
ghost use Rattle.rx_model.specs.declared.answers.WroteGot.TheVariants as writers;
ghost use Rattle.rx_model.specs.declared.event.Event.TheVariants as events;
ghost use Rattle.rx_node.specs.Node.{setup_of};
ghost use Rattle.rx_events.specs.Events.{written_count};
ghost use Rattle.rx_server.specs.Server.{Answered, handler_count};
ghost use Rattle.rx_jobs.specs.Jobs.{accepted};
ghost use Rattle.rx_dispatch.specs.Calls as rules;

use crate::job::Next;
use rx_class::Class;
use rx_jobs::{OFFER_BYTES, Phase};
use rx_model::{CallName, ServeRead, ServeRefused};
use rx_room::Room;
use rx_server::Server;
use std::alloc::{AllocError, Global};

/// Reads bytes, and answers them too.
pub fn read<C: Class>(
    room: &mut Room,
    server: &mut Server<C>,
    call: &CallName,
) -> Result<(ServeRead, Vec<u8>), AllocError>
    ensures answered { IfOk result (λ r. Answered C.class_of server.old server.new
        (events.HasRead call.now OFFER_BYTES (readers.Server r.0) r.1.items)) }
    ensures within { IfOk result (λ r. length r.1.items ≤ OFFER_BYTES) }
    ensures kept { room.new ≡ room.old }
    ensures none { IfOk result (λ r. length r.1.items ≤ handler_count r.0) }
    ensures fits { IfOk result (λ r. IsBytes r.1.items) }
    ensures wanting { OnErr result (server.new ≡ server.old) }
    ensures setup { setup_of C.class_of server.new.node ≡ setup_of C.class_of server.old.node }
{
    let mut bytes = room.lend(OFFER_BYTES)?;
    let got = server.read(call, &mut bytes);
    let brought = room.filled(bytes, given_count(got));
    are_bytes(brought.as_slice());
    Ok((got, brought))
}

/// Bytes are numbers below 256.
fn are_bytes(bytes: &[u8])
    ensures { IsBytes bytes.now }
{}

/// How many bytes a read gave.
fn given_count(got: ServeRead) -> usize
    ensures { result ≡ handler_count got }
{
    match got {
        ServeRead::Got(count) => count,
        ServeRead::End | ServeRead::NotYet | ServeRead::Gone(_) | ServeRead::NotOpen => 0,
    }
}

/// Whether a request was read to its end behind a read.
pub fn ended_after(got: ServeRead, before: bool) -> bool
    ensures { result ≡ rules.ended_after got before }
{
    match got {
        ServeRead::End => true,
        ServeRead::Got(_) | ServeRead::NotYet | ServeRead::Gone(_) | ServeRead::NotOpen => before,
    }
}

/// What a job that had so many bytes of its request still has to do behind a read.
pub fn next_after(got: ServeRead, before: usize) -> Next
    ensures { result ≡ rules.next_after got before }
{
    match got {
        ServeRead::Got(_) => Next::Judge(before),
        ServeRead::End => Next::Settle,
        ServeRead::NotYet => Next::Go(Phase::Rests),
        ServeRead::Gone(_) => Next::Go(Phase::Quits),
        ServeRead::NotOpen => Next::Go(Phase::Gone),
    }
}

/// Offers bytes, and answers those that were accepted too.
pub fn write<C: Class>(
    alloc: Global,
    server: &mut Server<C>,
    call: &CallName,
    offer: &[u8],
) -> Result<(Result<usize, ServeRefused>, Vec<u8>), AllocError>
    ensures answered { IfOk result (λ r. Answered C.class_of server.old server.new
        (events.Wrote call.now (length offer.now) (writers.Server r.0) r.1.items)) }
    ensures bytes { IfOk result (λ r. r.1.items ≡ accepted offer.now r.0) }
    ensures wanting { OnErr result (server.new ≡ server.old) }
    ensures setup { setup_of C.class_of server.new.node ≡ setup_of C.class_of server.old.node }
{
    let mut bytes = Vec::from_slice(alloc, offer)?;
    let got = server.write(call, offer);
    bytes.truncate(accepted_count(&got));
    Ok((got, bytes))
}

/// How many bytes a write accepted.
fn accepted_count(got: &Result<usize, ServeRefused>) -> usize
    ensures { result ≡ written_count got.now }
{
    match got {
        Ok(count) => *count,
        Err(_) => 0,
    }
}

/// The first bytes, at most so many.
pub fn front(bytes: &[u8], most: usize) -> &[u8]
    ensures { result.now ≡ take most bytes.now }
{
    if most >= bytes.len() {
        return bytes;
    }
    let (first, _) = bytes.split_at(most);
    first
}
