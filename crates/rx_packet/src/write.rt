//! From messages to bytes (`rx_packet.h`, `struct rx_header`, `struct rx_ackPacket`).

ghost use Rattle.std.specs.Prelude.{◌≡◌, ◌≤◌, ◌+◌, ◌∷◌, [], map, length, take, drop, bit_and};
ghost use Rattle.byteorder.specs.Endian.{big_bytes};
ghost use Rattle.rx_model.specs.Spelling.{made, header_bytes, body_bytes, ack_bytes};
ghost use Rattle.rx_model.specs.Spelling.{window_bytes, mark_byte, code_number, kind_of};
ghost use Rattle.rx_packet.specs.Puts.{Puts};
ghost use Rattle.rx_packet.specs.Seen.{FitsDatagram, ack_of, body_of, message_of};

use crate::ack::AckBody;
use crate::body::Body;
use crate::head::Head;
use byteorder::{BigEndian, ByteOrder};
use rx_model::wire::{
    ABORT, ACK, ACKALL, BUSY, CHALLENGE, CLIENT_INITIATED, DATA, DATAGRAM_BYTES, HEADER_BYTES,
    LAST_PACKET, PAYLOAD_BYTES, REQUEST_ACK, RESPONSE,
};

/// The flags that are written.
const WRITTEN_FLAGS: u8 = CLIENT_INITIATED | REQUEST_ACK | LAST_PACKET;

/// Bytes of the four words behind an ACK's padding.
const TRAILER_BYTES: usize = 16;

/// The size of the largest packet that is taken, as an ACK tells it.
const PACKET_BYTES: u32 = PAYLOAD_BYTES as u32;

/// How many packets a datagram may have, as an ACK tells it.
const JUMBO_PACKETS: u32 = 1;

/// Writes the message to the front of `to`, and answers its length. The low three flags are written; the status, the
/// checksum, an ACK's buffer space and skew are 0.
pub fn write_msg(head: &Head, body: &Body<'_>, to: &mut [u8]) -> usize
    requires room { DATAGRAM_BYTES ≤ length to.old }
    requires fits { FitsDatagram (body_of body.now) }
    ensures within { result ≤ DATAGRAM_BYTES }
    ensures length { result ≡ length (made (message_of head.now body.now)) }
    ensures written { take result to.new ≡ made (message_of head.now body.now) }
    ensures rest { drop result to.new ≡ drop result to.old }
{
    let at = put_head(to, head, body);
    put_body(to, at, body)
}

fn kind_of(body: &Body<'_>) -> u8
    ensures { result ≡ kind_of (body_of body.now) }
{
    match body {
        Body::Chunk(_) => DATA,
        Body::Busy => BUSY,
        Body::Ack(_) => ACK,
        Body::Abort(_) => ABORT,
        Body::AckAll => ACKALL,
        Body::Challenge(_) => CHALLENGE,
        Body::Response(_) => RESPONSE,
    }
}

fn put_head(to: &mut [u8], head: &Head, body: &Body<'_>) -> usize
    requires { HEADER_BYTES ≤ length to.old }
    ensures { Puts to.old to.new 0 result
        (header_bytes (message_of head.now body.now) (bit_and head.now.flags 7) 0 0 []) }
{
    let at = put_u32(to, 0, head.epoch);
    let at = put_u32(to, at, head.cid);
    let at = put_u32(to, at, head.number);
    let at = put_u32(to, at, head.seq);
    let at = put_u32(to, at, head.serial);
    let flags = head.flags & WRITTEN_FLAGS;
    let at = put(to, at, &[kind_of(body), flags, 0, head.index, 0, 0]);
    put_u16(to, at, head.service)
}

fn put_body(to: &mut [u8], at: usize, body: &Body<'_>) -> usize
    requires room { at + PAYLOAD_BYTES ≤ length to.old }
    requires fits { FitsDatagram (body_of body.now) }
    ensures within { result ≤ at + PAYLOAD_BYTES }
    ensures puts { Puts to.old to.new at result (body_bytes (body_of body.now)) }
{
    match body {
        Body::Chunk(payload) => put(to, at, payload),
        Body::Busy => at,
        Body::Ack(ack) => put_ack(to, at, ack),
        Body::Abort(code) => put_code(to, at, *code),
        Body::AckAll => at,
        Body::Challenge(bytes) => put(to, at, bytes),
        Body::Response(bytes) => put(to, at, bytes),
    }
}

fn put_ack(to: &mut [u8], at: usize, ack: &AckBody) -> usize
    requires { at + PAYLOAD_BYTES ≤ length to.old }
    ensures within { result ≤ at + PAYLOAD_BYTES }
    ensures puts { Puts to.old to.new at result (ack_bytes (ack_of ack.now)) }
{
    let marks = ack.marks.as_slice();
    let at = put(to, at, &[0, 0, 0, 0]);
    let at = put_u32(to, at, ack.first);
    let at = put_u32(to, at, ack.previous);
    let at = put_u32(to, at, ack.serial);
    let at = put(to, at, &[ack.reason, marks.len() as u8]);
    let at = put_marks(to, at, marks);
    let at = put(to, at, &[0, 0, 0]);
    put_window(to, at, ack.window)
}

fn put_window(to: &mut [u8], at: usize, window: Option<u32>) -> usize
    requires { at + TRAILER_BYTES ≤ length to.old }
    ensures within { result ≤ at + TRAILER_BYTES }
    ensures puts { Puts to.old to.new at result (window_bytes window) }
{
    let Some(packets) = window else {
        return at;
    };
    let at = put_u32(to, at, PACKET_BYTES);
    let at = put_u32(to, at, PACKET_BYTES);
    let at = put_u32(to, at, packets);
    put_u32(to, at, JUMBO_PACKETS)
}

fn put_marks(to: &mut [u8], at: usize, marks: &[bool]) -> usize
    requires { at + length marks.now ≤ length to.old }
    ensures { Puts to.old to.new at result (map mark_byte marks.now) }
{
    for (i, mark) in marks.iter().enumerate() {
        to[at + i] = u8::from(*mark);
    }
    at + marks.len()
}

fn put_code(to: &mut [u8], at: usize, code: i32) -> usize
    requires { at + 4 ≤ length to.old }
    ensures { Puts to.old to.new at result (big_bytes 4 (code_number code)) }
{
    let mut bytes = [0u8; 4];
    BigEndian::write_i32(&mut bytes, code);
    put(to, at, &bytes)
}

fn put_u32(to: &mut [u8], at: usize, number: u32) -> usize
    requires { at + 4 ≤ length to.old }
    ensures { Puts to.old to.new at result (big_bytes 4 number) }
{
    let mut bytes = [0u8; 4];
    BigEndian::write_u32(&mut bytes, number);
    put(to, at, &bytes)
}

fn put_u16(to: &mut [u8], at: usize, number: u16) -> usize
    requires { at + 2 ≤ length to.old }
    ensures { Puts to.old to.new at result (big_bytes 2 number) }
{
    let mut bytes = [0u8; 2];
    BigEndian::write_u16(&mut bytes, number);
    put(to, at, &bytes)
}

/// Writes bytes at a place, and answers the place behind them.
fn put(to: &mut [u8], at: usize, bytes: &[u8]) -> usize
    requires { at + length bytes.now ≤ length to.old }
    ensures { Puts to.old to.new at result bytes.now }
{
    let end = at + bytes.len();
    to[at..end].copy_from_slice(bytes);
    end
}
