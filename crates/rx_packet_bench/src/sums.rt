ghost use Rattle.std.specs.Prelude.{◌≤◌, length};

use rx_model::wire::DATAGRAM_BYTES;
use rx_packet::{Body, Head, read_msg, write_msg};

/// The checksum with what is read of a datagram and what is written of it again.
pub fn fold_datagram(sum: u64, datagram: &[u8], to: &mut [u8]) -> u64
    requires { DATAGRAM_BYTES ≤ length to.old }
{
    let Ok((head, body)) = read_msg(datagram) else {
        return fold(sum, 1);
    };
    let length = write_msg(&head, &body, to);
    let read = fold(fold_head(sum, &head), sum_of(&body));
    let last = if length == 0 { 0 } else { to[length - 1] };
    fold(fold(read, length as u64), u64::from(last))
}

fn fold_head(sum: u64, head: &Head) -> u64 {
    let numbers = head.epoch ^ head.cid ^ head.number ^ head.seq ^ head.serial;
    let bytes = head.flags ^ head.status ^ head.index;
    let words = head.spare ^ head.service;
    fold(
        fold(fold(sum, u64::from(numbers)), u64::from(bytes)),
        u64::from(words),
    )
}

fn sum_of(body: &Body<'_>) -> u64 {
    match body {
        Body::Chunk(payload) => payload.len() as u64,
        Body::Busy => 3,
        Body::Ack(ack) => {
            let numbers = ack.first ^ ack.previous ^ ack.serial ^ ack.window.unwrap_or(0);
            fold(
                fold(u64::from(numbers), u64::from(ack.reason)),
                ack.marks.len() as u64,
            )
        }
        Body::Abort(code) => u64::from(code.cast_unsigned()),
        Body::AckAll => 5,
        Body::Challenge(bytes) => bytes.len() as u64,
        Body::Response(bytes) => bytes.len() as u64,
    }
}

fn fold(sum: u64, number: u64) -> u64 {
    sum.wrapping_mul(31).wrapping_add(number)
}
