//! The calls of a client that a caller makes, with the bytes of their events, and what it knows behind them.

ghost use Rattle.std.specs.Prelude.{◌≡◌, ◌≤◌, true, IfErr, IfOk, OnErr, OnOk, length, take, drop};
ghost use Rattle.rx_model.specs.declared.answers.ReadGot.TheVariants as readers;
ghost use Rattle.rx_model.specs.declared.answers.WroteGot.TheVariants as writers;
ghost use Rattle.rx_model.specs.declared.event.Event.TheVariants as events;
ghost use Rattle.rx_node.specs.Node.{setup_of};
ghost use Rattle.rx_node.specs.Steps.{AnswersNode};
ghost use Rattle.rx_events.specs.Events.{written_count};
ghost use Rattle.rx_client.specs.Client.{read_count};
ghost use Rattle.rx_asks.specs.Asks as rules;

use rx_asks::{BLOCK_BYTES, Phase};
use rx_class::Class;
use rx_client::Client;
use rx_model::{CallName, End, Event, NotOpen, ReadAns};
use rx_room::Room;
use std::alloc::{AllocError, Global};

/// The next bytes to offer of a request of which so many were accepted.
pub fn next_block(request: &[u8], accepted: usize) -> &[u8]
    requires { accepted ≤ length request.now }
    ensures { result.now ≡ take BLOCK_BYTES (drop accepted request.now) }
{
    let left = &request[accepted..];
    let end = left.len().min(BLOCK_BYTES);
    &left[..end]
}

/// Offers bytes, and answers those that were accepted too.
pub fn write<C: Class>(
    alloc: Global,
    client: &mut Client<C>,
    call: &CallName,
    block: &[u8],
) -> Result<(Result<usize, NotOpen>, Vec<u8>), AllocError>
    ensures answered { IfOk result (λ r. AnswersNode C.class_of client.old client.new
        (events.Wrote call.now (length block.now) (writers.Client r.0) r.1.items)) }
    ensures bytes { IfOk result (λ r. r.1.items ≡ take (written_count r.0) block.now) }
    ensures wanting { OnErr result (client.new ≡ client.old) }
    ensures setup { setup_of C.class_of client.new ≡ setup_of C.class_of client.old }
{
    let mut bytes = Vec::from_slice(alloc, block)?;
    let got = client.write(call, block);
    bytes.truncate(accepted_count(&got));
    Ok((got, bytes))
}

/// How many bytes a write accepted.
fn accepted_count(got: &Result<usize, NotOpen>) -> usize
    ensures { result ≡ written_count got.now }
{
    match got {
        Ok(count) => *count,
        Err(_) => 0,
    }
}

/// Reads bytes, and answers them too.
pub fn read<C: Class>(
    room: &mut Room,
    client: &mut Client<C>,
    call: &CallName,
) -> Result<(ReadAns, Vec<u8>), AllocError>
    ensures answered { IfOk result (λ r. AnswersNode C.class_of client.old client.new
        (events.HasRead call.now BLOCK_BYTES (readers.Client r.0) r.1.items)) }
    ensures within { IfOk result (λ r. length r.1.items ≤ BLOCK_BYTES) }
    ensures kept { room.new ≡ room.old }
    ensures wanting { OnErr result (client.new ≡ client.old) }
    ensures setup { setup_of C.class_of client.new ≡ setup_of C.class_of client.old }
{
    let mut bytes = room.lend(BLOCK_BYTES)?;
    let got = client.read(call, &mut bytes);
    Ok((got, room.filled(bytes, given_count(got))))
}

/// How many bytes a read gave.
fn given_count(got: ReadAns) -> usize
    ensures { result ≡ read_count got }
{
    match got {
        ReadAns::Got(count) => count,
        ReadAns::End | ReadAns::NotYet | ReadAns::Gone(_) | ReadAns::Unknown => 0,
    }
}

/// Where a turn stands behind an offer of so many bytes, of which so many were accepted.
pub fn phase_offered(accepted: usize, offered: usize, before: Phase) -> Phase
    ensures { result ≡ rules.phase_offered accepted offered before }
{
    if accepted < offered {
        return Phase::Reading;
    }
    before
}

/// Where a turn stands behind a read that gave these bytes.
pub fn phase_after(got: ReadAns, bytes: &[u8]) -> Phase
    ensures { result ≡ rules.phase_after got bytes.now }
{
    match got {
        ReadAns::Got(_) => after_bytes(bytes),
        ReadAns::End | ReadAns::NotYet | ReadAns::Gone(_) | ReadAns::Unknown => Phase::Resting,
    }
}

/// Where it stands behind bytes that were read.
fn after_bytes(bytes: &[u8]) -> Phase
    ensures { result ≡ rules.after_bytes bytes.now }
{
    match bytes {
        [] => Phase::Resting,
        [..] => Phase::Reading,
    }
}

/// The end that a read tells.
pub fn end_after(got: ReadAns, before: Option<End>) -> Option<End>
    ensures { result ≡ rules.end_after got before }
{
    match got {
        ReadAns::End => Some(End::Ok),
        ReadAns::Gone(end) => Some(end),
        ReadAns::Got(_) | ReadAns::NotYet | ReadAns::Unknown => before,
    }
}
