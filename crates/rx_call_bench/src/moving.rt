ghost use Rattle.std.specs.Prelude.{◌≤◌, ◌<◌, ◌^◌, length};
ghost use Rattle.rx_model.specs.declared.wire.TheConstants.{MIN_WINDOW};
ghost use Rattle.rx_call_bench.specs.Standing.{Stands};

use crate::call_end::CallEnd;
use crate::stream::{OFFER, block, fold, next_bytes};
use rx_call::Side;
use rx_model::CallRead;
use rx_model::wire::{ACK_DELAY_MS, MAX_WINDOW};
use std::alloc::{AllocError, Global};

/// Moves a stream of so many bytes from the client to the server, and answers the checksum of what was read; none where
/// the end was not reached. The clock goes in steps of 100 milliseconds, after which a delayed acknowledgement is due.
pub fn moved(alloc: Global, bytes: u64, window: u32) -> Result<Option<u64>, AllocError>
    requires least { MIN_WINDOW ≤ window }
    requires most { window ≤ MAX_WINDOW }
{
    let block = block(alloc)?;
    let mut client = CallEnd::make(alloc, Side::Client, window)?;
    let mut server = CallEnd::make(alloc, Side::Server, window)?;
    let mut to = [0u8; OFFER];
    let mut said = 0;
    let mut sum = 0;
    for step in 0..u32::MAX {
        let now = u64::from(step) * ACK_DELAY_MS;
        let _acknowledged = server.give(now, &mut client);
        said = say(&mut client, &block, said, bytes);
        sum = hear(&mut server, now, &mut client, &mut to, sum);
        if client.call.is_delivered() && server.call.all_read() {
            return Ok(Some(sum));
        }
    }
    Ok(None)
}

/// Says the next bytes until fewer fit than are offered, and shuts the stream behind the last. Answers how many were
/// said.
fn say(client: &mut CallEnd, block: &[u8], from: u64, bytes: u64) -> u64
    requires stands { Stands client.old }
    requires within { from ≤ bytes }
    ensures stands { Stands client.new }
    ensures within { result ≤ bytes }
{
    let mut said = from;
    for _ in 0..MAX_WINDOW {
        let next = next_bytes(block, said, bytes);
        let count = client.say(next);
        said += count as u64;
        if count < next.len() {
            return said;
        }
        if said == bytes {
            client.shut();
            return said;
        }
    }
    said
}

/// The server takes all pieces that are due and reads each. Answers the checksum.
fn hear(server: &mut CallEnd, now: u64, client: &mut CallEnd, to: &mut [u8], from: u64) -> u64
    requires server { Stands server.old }
    requires client { Stands client.old }
    requires now { now < 2 ^ 62 }
    requires some { 0 < length to.old }
    ensures server { Stands server.new }
    ensures client { Stands client.new }
{
    let mut sum = from;
    for _ in 0..MAX_WINDOW {
        if !client.give(now, server) {
            return read(server, now, to, sum);
        }
        sum = read(server, now, to, sum);
    }
    read(server, now, to, sum)
}

/// Reads once. Answers the checksum.
fn read(server: &mut CallEnd, now: u64, to: &mut [u8], sum: u64) -> u64
    requires stands { Stands server.old }
    requires now { now < 2 ^ 62 }
    requires some { 0 < length to.old }
    ensures { Stands server.new }
{
    match server.read(now, to) {
        CallRead::Got(count) => {
            let (bytes, _rest) = to.split_at(count.min(to.len()));
            fold(sum, bytes)
        }
        CallRead::End | CallRead::NotYet => sum,
    }
}
