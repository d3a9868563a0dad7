//! From bytes to messages (`rx_packet.h`, `struct rx_header`, `struct rx_ackPacket`).

ghost use Rattle.std.specs.Prelude.{◌≡◌, ◌≤◌, ◌<◌, ◌+◌, ◌==◌, map, length, slice_index, drop, false, IfOk, IfErr};
ghost use Rattle.rx_model.specs.Body as models;
ghost use Rattle.rx_model.specs.Reading.{reading_of, body_reading, message_with, ack_in};
ghost use Rattle.rx_model.specs.Reading.{is_short_ack, reason_of, window_in, code_of, number_at};
ghost use Rattle.rx_model.specs.Spells.{Spells};
ghost use Rattle.rx_packet.specs.Seen.{FitsDatagram, ack_of, body_of, message_of, message_with_head, seen, seen_body};

use crate::ack::AckBody;
use crate::body::Body;
use crate::head::Head;
use arrayvec::ArrayVec;
use byteorder::{BigEndian, ByteOrder};
use rx_model::BadMsg;
use rx_model::wire::{
    ABORT, ACK, ACK_DELAY, ACK_REQUESTED, ACKALL, BUSY, CHALLENGE, DATA, HEADER_BYTES, JUMBO,
    PAYLOAD_BYTES, RESPONSE,
};

/// Bytes of an ACK before its marks.
const ACK_BYTES: usize = 18;

/// The place of the window behind an ACK's marks: after three bytes of padding and two words.
const WINDOW_PLACE: usize = 11;

/// The message that the bytes spell, or the first fault.
pub fn read_msg(bytes: &[u8]) -> Result<(Head, Body<'_>), BadMsg>
    ensures exact { seen result ≡ reading_of bytes.now }
    ensures spells { IfOk result (λ m. Spells (message_of m.0 m.1) bytes.now) }
    ensures within { IfOk result (λ m. FitsDatagram (body_of m.1)) }
{
    if bytes.len() < HEADER_BYTES {
        return Err(BadMsg::Short(bytes.len()));
    }
    let (_header, rest) = bytes.split_at(HEADER_BYTES);
    let body = read_body(bytes[20], bytes[21], rest)?;
    Ok((head_at(bytes), body))
}

fn head_at(bytes: &[u8]) -> Head
    requires { HEADER_BYTES ≤ length bytes.now }
    ensures { (body : models.Body) → message_with_head result body ≡ message_with bytes.now body }
{
    Head {
        epoch: word_at(bytes, 0),
        cid: word_at(bytes, 4),
        number: word_at(bytes, 8),
        seq: word_at(bytes, 12),
        serial: word_at(bytes, 16),
        flags: bytes[21],
        status: bytes[22],
        index: bytes[23],
        spare: BigEndian::read_u16(&bytes[24..]),
        service: BigEndian::read_u16(&bytes[26..]),
    }
}

/// The number in the four bytes from a place.
fn word_at(bytes: &[u8], place: usize) -> u32
    requires { place + 4 ≤ length bytes.now }
    ensures { result ≡ number_at 4 place bytes.now }
{
    BigEndian::read_u32(&bytes[place..])
}

fn read_body(kind: u8, flags: u8, rest: &[u8]) -> Result<Body<'_>, BadMsg>
    ensures exact { seen_body result ≡ body_reading kind flags rest.now }
    ensures within { IfOk result (λ b. FitsDatagram (body_of b)) }
{
    match kind {
        DATA => read_chunk(flags, rest),
        ACK => read_ack(rest),
        BUSY => Ok(Body::Busy),
        ABORT => read_abort(rest),
        ACKALL => Ok(Body::AckAll),
        CHALLENGE => Ok(Body::Challenge(payload_in(rest)?)),
        RESPONSE => Ok(Body::Response(payload_in(rest)?)),
        _ => Err(BadMsg::Kind(kind)),
    }
}

/// The bytes themselves, where they aren't too many.
fn payload_in(rest: &[u8]) -> Result<&[u8], BadMsg>
    ensures ok { IfOk result (λ payload. payload.now ≡ rest.now) }
    ensures within { IfOk result (λ payload. length rest.now ≤ PAYLOAD_BYTES) }
    ensures too_long { IfErr result (λ e. e ≡ BadMsg.TooLong (length rest.now)) }
    ensures above { IfErr result (λ e. PAYLOAD_BYTES < length rest.now) }
{
    if rest.len() > PAYLOAD_BYTES {
        return Err(BadMsg::TooLong(rest.len()));
    }
    Ok(rest)
}

fn read_chunk(flags: u8, rest: &[u8]) -> Result<Body<'_>, BadMsg>
    ensures exact { seen_body result ≡ body_reading DATA flags rest.now }
    ensures within { IfOk result (λ b. FitsDatagram (body_of b)) }
{
    if flags & JUMBO != 0 {
        return Err(BadMsg::Jumbo);
    }
    Ok(Body::Chunk(payload_in(rest)?))
}

fn read_abort(rest: &[u8]) -> Result<Body<'_>, BadMsg>
    ensures exact { seen_body result ≡ body_reading ABORT 0 rest.now }
    ensures within { IfOk result (λ b. FitsDatagram (body_of b)) }
{
    if rest.len() < 4 {
        return Err(BadMsg::AbortShort);
    }
    Ok(Body::Abort(code_at(rest)))
}

fn code_at(rest: &[u8]) -> i32
    requires { 4 ≤ length rest.now }
    ensures { result ≡ code_of (number_at 4 0 rest.now) }
{
    BigEndian::read_i32(rest)
}

fn read_ack(rest: &[u8]) -> Result<Body<'_>, BadMsg>
    ensures exact { seen_body result ≡ body_reading ACK 0 rest.now }
    ensures within { IfOk result (λ b. FitsDatagram (body_of b)) }
{
    if is_short_ack(rest) {
        return Err(BadMsg::AckShort);
    }
    Ok(Body::Ack(ack_in(rest)))
}

fn is_short_ack(rest: &[u8]) -> bool
    ensures { result ≡ is_short_ack rest.now }
{
    rest.len() < ACK_BYTES || rest.len() < ACK_BYTES + usize::from(rest[17])
}

fn ack_in(rest: &[u8]) -> AckBody
    requires { is_short_ack rest.now ≡ false }
    ensures { ack_of result ≡ ack_in rest.now }
{
    let count = usize::from(rest[17]);
    let (_fields, behind) = rest.split_at(ACK_BYTES);
    let (marks, tail) = behind.split_at(count);
    AckBody {
        first: word_at(rest, 4),
        previous: word_at(rest, 8),
        serial: word_at(rest, 12),
        reason: reason_of(rest[16]),
        marks: marks_in(marks),
        window: window_in(tail),
    }
}

/// A reason that is none of the eight is read as the last.
fn reason_of(byte: u8) -> u8
    ensures { result ≡ reason_of byte }
{
    match byte {
        ACK_REQUESTED..=ACK_DELAY => byte,
        _ => ACK_DELAY,
    }
}

fn marks_in(bytes: &[u8]) -> ArrayVec<bool, 255>
    requires { length bytes.now ≤ 255 }
    ensures { result.items ≡ map (λ b. b == 1) bytes.now }
{
    let mut marks = ArrayVec::new();
    for byte in bytes {
        marks.push(*byte == 1);
    }
    marks
}

/// The third whole word behind three bytes of padding.
fn window_in(tail: &[u8]) -> Option<u32>
    ensures { result ≡ window_in tail.now }
{
    if tail.len() < WINDOW_PLACE + 4 {
        return None;
    }
    Some(word_at(tail, WINDOW_PLACE))
}
