ghost use Rattle.rx_packet.specs.Seen.{FitsDatagram, body_of};

use super::*;
use arrayvec::ArrayVec;
use rx_model::BadMsg;
use std::alloc::{AllocError, Global};
use std::process::Abort;
use std::test::*;

/// Epoch 1, cid 4, number 1, seq 1, serial 1.
const NUMBERS: [u8; 20] = [0, 0, 0, 1, 0, 0, 0, 4, 0, 0, 0, 1, 0, 0, 0, 1, 0, 0, 0, 1];

/// A datagram with these numbers, without security, for service 1.
fn datagram(alloc: Global, kind: u8, flags: u8, body: &[u8]) -> Result<Vec<u8>, AllocError> {
    let mut bytes = Vec::from_slice(alloc, &NUMBERS)?;
    bytes.extend_from_slice(&[kind, flags, 0, 0, 0, 0, 0, 1])?;
    bytes.extend_from_slice(body)?;
    Ok(bytes)
}

/// An ACK for packets from 2 on, with previous packet 1 and serial 1.
fn ack(alloc: Global, reason: u8, marks: &[u8], tail: &[u8]) -> Result<Vec<u8>, AllocError> {
    let mut body = Vec::from_slice(alloc, &[0, 0, 0, 0, 0, 0, 0, 2, 0, 0, 0, 1, 0, 0, 0, 1])?;
    body.extend_from_slice(&[reason, u8::try_from(marks.len()).unwrap_or(0)])?;
    body.extend_from_slice(marks)?;
    body.extend_from_slice(tail)?;
    datagram(alloc, 2, 0, &body)
}

fn head(flags: u8) -> Head {
    Head {
        epoch: 1,
        cid: 4,
        number: 1,
        seq: 1,
        serial: 1,
        flags,
        status: 0,
        index: 0,
        spare: 0,
        service: 1,
    }
}

fn ack_body(reason: u8, marks: ArrayVec<bool, 255>, window: Option<u32>) -> AckBody {
    AckBody {
        first: 2,
        previous: 1,
        serial: 1,
        reason,
        marks,
        window,
    }
}

#[test]
fn refuses_what_spells_no_message(rt: HostRuntime) -> Result<(), Fail> {
    let a = rt.alloc();
    let long = vec![in a; 0u8; 1445]?;
    let mut short_ack = [0u8; 18];
    short_ack[17] = 5;
    let table = vec![in a;
        (vec![in a; 0u8; 27]?, BadMsg::Short(27)),
        (datagram(a, 0, 1, &[])?, BadMsg::Kind(0)),
        (datagram(a, 8, 1, &[])?, BadMsg::Kind(8)),
        (datagram(a, 9, 1, &[])?, BadMsg::Kind(9)),
        (datagram(a, 1, 0x21, &[])?, BadMsg::Jumbo),
        (datagram(a, 1, 0x21, &long)?, BadMsg::Jumbo),
        (datagram(a, 1, 5, &long)?, BadMsg::TooLong(1445)),
        (datagram(a, 6, 0, &long)?, BadMsg::TooLong(1445)),
        (datagram(a, 7, 0, &long)?, BadMsg::TooLong(1445)),
        (datagram(a, 2, 1, &short_ack)?, BadMsg::AckShort),
        (datagram(a, 2, 1, &[0; 17])?, BadMsg::AckShort),
        (datagram(a, 4, 1, &[0; 3])?, BadMsg::AbortShort),
    ]?;
    for (bytes, fault) in &table {
        assert!(&rt; read_msg(bytes) == Err(*fault));
    }
    Ok(())
}

#[test]
fn reads_unknown_reasons_as_delay(rt: HostRuntime) -> Result<(), Fail> {
    let a = rt.alloc();
    for (byte, reason) in [(0, 8), (1, 1), (2, 2), (8, 8), (9, 8), (255, 8)] {
        let body = ack_body(reason, ArrayVec::new(), None);
        assert!(&rt; read_msg(&ack(a, byte, &[], &[])?) == Ok((head(0), Body::Ack(body))));
    }
    Ok(())
}

#[test]
fn marks_are_the_bytes_that_are_one(rt: HostRuntime) -> Result<(), Fail> {
    let a = rt.alloc();
    let mut marks = ArrayVec::new();
    marks.push(true);
    marks.push(false);
    let body = ack_body(2, marks, None);
    assert!(&rt; read_msg(&ack(a, 2, &[1, 2], &[])?) == Ok((head(0), Body::Ack(body))));
    let body = ack_body(2, ArrayVec::from([true; 255]), None);
    assert!(&rt; read_msg(&ack(a, 2, &[1; 255], &[])?) == Ok((head(0), Body::Ack(body))));
    Ok(())
}

#[test]
fn the_window_is_the_third_whole_word(rt: HostRuntime) -> Result<(), Fail> {
    let a = rt.alloc();
    // Padding, the words 1444, 1444, 32 and 1, and a byte more.
    let tail = [
        0, 0, 0, 0, 0, 5, 0xa4, 0, 0, 5, 0xa4, 0, 0, 0, 32, 0, 0, 0, 1, 9,
    ];
    let table = [
        (0, None),
        (2, None),
        (3, None),
        (7, None),
        (11, None),
        (14, None),
        (15, Some(32)),
        (19, Some(32)),
        (20, Some(32)),
    ];
    for (length, window) in table {
        let body = ack_body(8, ArrayVec::new(), window);
        let read = ack(a, 8, &[], &tail[..length])?;
        assert!(&rt;
            read_msg(&read) == Ok((head(0), Body::Ack(body))),
            "{length}"
        );
    }
    Ok(())
}

#[test]
fn bytes_behind_a_body_are_ignored(rt: HostRuntime) -> Result<(), Fail> {
    let a = rt.alloc();
    let code = [0, 0, 0, 5, 9];
    assert!(&rt; read_msg(&datagram(a, 4, 0, &code)?) == Ok((head(0), Body::Abort(5))));
    let code = [0xff, 0xff, 0xff, 0xfe];
    assert!(&rt; read_msg(&datagram(a, 4, 0, &code)?) == Ok((head(0), Body::Abort(-2))));
    assert!(&rt; read_msg(&datagram(a, 3, 0, &code)?) == Ok((head(0), Body::Busy)));
    assert!(&rt; read_msg(&datagram(a, 5, 0, &code)?) == Ok((head(0), Body::AckAll)));
    assert!(&rt; read_msg(&datagram(a, 6, 0, &code)?) == Ok((head(0), Body::Challenge(&code))));
    assert!(&rt; read_msg(&datagram(a, 7, 0, &code)?) == Ok((head(0), Body::Response(&code))));
    Ok(())
}

#[test]
fn a_header_is_read_as_it_stands(rt: HostRuntime) {
    let bytes = [
        0xfe, 0, 0, 1, 0xfe, 0, 0, 2, 0xfe, 0, 0, 3, 0xfe, 0, 0, 4, 0xfe, 0, 0, 5, 1, 0xdf, 7, 200,
        0x12, 0x34, 0x56, 0x78, 6,
    ];
    let head = Head {
        epoch: 0xfe00_0001,
        cid: 0xfe00_0002,
        number: 0xfe00_0003,
        seq: 0xfe00_0004,
        serial: 0xfe00_0005,
        flags: 0xdf,
        status: 7,
        index: 200,
        spare: 0x1234,
        service: 0x5678,
    };
    assert!(&rt; read_msg(&bytes) == Ok((head, Body::Chunk(&[6]))));
}

/// Whether the message is written so, and what stood behind it stays.
fn is_written(head: &Head, body: &Body<'_>, bytes: &[u8]) -> bool
    requires { FitsDatagram (body_of body.now) }
{
    let mut to = [0xee; 1472];
    let length = write_msg(head, body, &mut to);
    length == bytes.len() && to.starts_with(bytes) && to[length..].iter().all(|b| *b == 0xee)
}

#[test]
fn the_written_bytes_are_those_of_the_standard(rt: HostRuntime) {
    let data = [
        0, 0, 0, 1, 0, 0, 0, 4, 0, 0, 0, 1, 0, 0, 0, 1, 0, 0, 0, 1, 1, 6, 0, 0, 0, 0, 0, 1, 0x6f,
        0x6b,
    ];
    assert!(&rt; is_written(&head(6), &Body::Chunk(b"ok"), &data));
    assert!(&rt; is_written(&head(0x2e), &Body::Chunk(b"ok"), &data));
    let owed = Head {
        seq: 0,
        serial: 2,
        ..head(0)
    };
    let ack = [
        0, 0, 0, 1, 0, 0, 0, 4, 0, 0, 0, 1, 0, 0, 0, 0, 0, 0, 0, 2, 2, 0, 0, 0, 0, 0, 0, 1, 0, 0,
        0, 0, 0, 0, 0, 2, 0, 0, 0, 1, 0, 0, 0, 1, 2, 0, 0, 0, 0, 0, 0, 5, 0xa4, 0, 0, 5, 0xa4, 0,
        0, 0, 32, 0, 0, 0, 1,
    ];
    let body = Body::Ack(ack_body(2, ArrayVec::new(), Some(32)));
    assert!(&rt; is_written(&owed, &body, &ack));
    let busy = [
        0, 0, 0, 1, 0, 0, 0, 4, 0, 0, 0, 1, 0, 0, 0, 0, 0, 0, 0, 2, 3, 0, 0, 0, 0, 0, 0, 1,
    ];
    assert!(&rt; is_written(&owed, &Body::Busy, &busy));
}

#[test]
fn a_stray_abort_is_written_so(rt: HostRuntime) {
    let stray = Head {
        number: 0,
        seq: 0,
        serial: 0,
        service: 2,
        ..head(0)
    };
    let abort = [
        0, 0, 0, 1, 0, 0, 0, 4, 0, 0, 0, 0, 0, 0, 0, 0, 0, 0, 0, 0, 4, 0, 0, 0, 0, 0, 0, 2, 0xff,
        0xff, 0xff, 0xfe,
    ];
    assert!(&rt; is_written(&stray, &Body::Abort(-2), &abort));
}
