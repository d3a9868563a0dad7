ghost use Rattle.std.specs.Prelude.{◌≤◌, ◌<◌, length};

use crate::bytes::{OFFER, block, fold, next_bytes};
use crate::calls::Counts;
use crate::joined::Joined;
use rx_due::Steps;
use rx_model::wire::{ACK_DELAY_MS, MAX_WINDOW};
use rx_model::{CallName, ReadAns, ServeRead};
use std::alloc::{AllocError, Global};
use std::sync::ledger::Ledger;

/// What was read of a stream: the checksum, and whether its end was reached.
#[derive(Clone, Copy)]
struct Heard {
    sum: u64,
    ended: bool,
}

/// Moves so many bytes to the server and as many back, in one call.
pub fn make_streams<L: Ledger>(
    alloc: Global,
    joined: &mut Joined,
    cid: u32,
    bytes: u64,
    before: Counts,
    steps: &mut Steps<L>,
) -> Result<Counts, AllocError> {
    let block = block(alloc)?;
    let Some(c) = joined.call(cid) else {
        return Ok(before);
    };
    let request = move_request(joined, &c, &block, bytes, before.sum, steps);
    let reply = move_reply(joined, &c, &block, bytes, request.sum, steps);
    joined.client_gives(steps);
    if !request.ended || !reply.ended {
        return Ok(before);
    }
    Ok(Counts {
        sum: reply.sum,
        calls: before.calls.wrapping_add(1),
    })
}

/// Moves the request. The clock goes in steps of 100 milliseconds, after which a delayed acknowledgement is due.
fn move_request<L: Ledger>(
    joined: &mut Joined,
    c: &CallName,
    block: &[u8],
    bytes: u64,
    before: u64,
    steps: &mut Steps<L>,
) -> Heard {
    let mut heard = Heard {
        sum: before,
        ended: false,
    };
    let mut said = 0;
    for _ in 0..u32::MAX {
        said = say_request(joined, c, block, said, bytes);
        joined.client_gives(steps);
        let _accepted = joined.accept();
        heard = hear_request(joined, c, heard.sum);
        joined.server_gives(steps);
        joined.wait(ACK_DELAY_MS);
        if heard.ended {
            return heard;
        }
    }
    heard
}

/// Says the next bytes of the request until fewer fit than are offered, and shuts it behind the last. Answers how many
/// were said.
fn say_request(joined: &mut Joined, c: &CallName, block: &[u8], from: u64, bytes: u64) -> u64
    requires { from ≤ bytes }
    ensures { result ≤ bytes }
{
    let mut said = from;
    for _ in 0..MAX_WINDOW {
        let next = next_bytes(block, said, bytes);
        let count = joined.write_request(c, next).min(next.len());
        said += count as u64;
        if said == bytes {
            joined.shut(c);
        }
        if count < next.len() || said == bytes {
            return said;
        }
    }
    said
}

/// The server reads all that came of the request.
fn hear_request(joined: &mut Joined, c: &CallName, before: u64) -> Heard {
    let mut room = [0; OFFER];
    let mut sum = before;
    for _ in 0..MAX_WINDOW {
        match joined.read_request(c, &mut room) {
            ServeRead::Got(count) => sum = fold(sum, &room, count),
            ServeRead::End => return Heard { sum, ended: true },
            ServeRead::NotYet | ServeRead::Gone(_) | ServeRead::NotOpen => {
                return Heard { sum, ended: false };
            }
        }
    }
    Heard { sum, ended: false }
}

/// Moves the reply, which has the same bytes.
fn move_reply<L: Ledger>(
    joined: &mut Joined,
    c: &CallName,
    block: &[u8],
    bytes: u64,
    before: u64,
    steps: &mut Steps<L>,
) -> Heard {
    let mut heard = Heard {
        sum: before,
        ended: false,
    };
    let mut said = 0;
    for _ in 0..u32::MAX {
        said = say_reply(joined, c, block, said, bytes);
        joined.server_gives(steps);
        heard = hear_reply(joined, c, heard.sum);
        joined.client_gives(steps);
        joined.wait(ACK_DELAY_MS);
        if heard.ended {
            return heard;
        }
    }
    heard
}

/// Says the next bytes of the reply until fewer fit than are offered, and finishes it behind the last. Answers how many
/// were said.
fn say_reply(joined: &mut Joined, c: &CallName, block: &[u8], from: u64, bytes: u64) -> u64
    requires { from ≤ bytes }
    ensures { result ≤ bytes }
{
    let mut said = from;
    for _ in 0..MAX_WINDOW {
        let next = next_bytes(block, said, bytes);
        let count = joined.write_reply(c, next).min(next.len());
        said += count as u64;
        if said == bytes {
            joined.finish(c);
        }
        if count < next.len() || said == bytes {
            return said;
        }
    }
    said
}

/// The client reads all that came of the reply.
fn hear_reply(joined: &mut Joined, c: &CallName, before: u64) -> Heard {
    let mut room = [0; OFFER];
    let mut sum = before;
    for _ in 0..MAX_WINDOW {
        match joined.read_reply(c, &mut room) {
            ReadAns::Got(count) => sum = fold(sum, &room, count),
            ReadAns::End => return Heard { sum, ended: true },
            ReadAns::NotYet | ReadAns::Gone(_) | ReadAns::Unknown => {
                return Heard { sum, ended: false };
            }
        }
    }
    Heard { sum, ended: false }
}
