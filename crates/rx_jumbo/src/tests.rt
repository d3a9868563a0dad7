use super::*;
use crate::fields::is_jumbo;
use rx_model::Host;
use std::alloc::{AllocError, Global};
use std::process::Abort;
use std::test::*;

const HOST: Host = Host {
    addr: 0x0a00_0001,
    port: 7000,
};

const TOP: u32 = 0xffff_ffff;

/// What differs between the DATA of one call.
#[derive(Clone, Copy)]
struct DataHead {
    flags: u8,
    checksum: [u8; 2],
    seq: u32,
    serial: u32,
}

fn head(flags: u8, seq: u32, serial: u32) -> DataHead {
    DataHead {
        flags,
        checksum: [0, 0],
        seq,
        serial,
    }
}

/// DATA of epoch 1, cid 4 and number 1, without security, for service 1, with a payload of `count` bytes 5a.
fn data(alloc: Global, of: DataHead, count: usize) -> Result<Vec<u8>, AllocError> {
    let mut bytes = Vec::from_slice(alloc, &[0, 0, 0, 1, 0, 0, 0, 4, 0, 0, 0, 1])?;
    bytes.extend_from_slice(&of.seq.to_be_bytes())?;
    bytes.extend_from_slice(&of.serial.to_be_bytes())?;
    bytes.extend_from_slice(&[1, of.flags, 0, 0])?;
    bytes.extend_from_slice(&of.checksum)?;
    bytes.extend_from_slice(&[0, 1])?;
    bytes.extend_from_slice(&vec![in alloc; 0x5au8; count]?)?;
    Ok(bytes)
}

/// The same bytes with another at a place.
fn with(alloc: Global, bytes: &[u8], place: usize, byte: u8) -> Result<Vec<u8>, AllocError> {
    let mut changed = Vec::from_slice(alloc, bytes)?;
    if let Some(at) = changed.get_mut(place) {
        *at = byte;
    }
    Ok(changed)
}

/// A jumbo datagram of a full piece, and of one behind each four bytes; then `count` bytes more.
fn jumbo(
    alloc: Global,
    of: DataHead,
    links: &[[u8; 4]],
    count: usize,
) -> Result<Vec<u8>, AllocError> {
    let mut bytes = data(alloc, of, 1412)?;
    for (k, link) in links.iter().enumerate() {
        let size = if k + 1 == links.len() { count } else { 1412 };
        bytes.extend_from_slice(link)?;
        bytes.extend_from_slice(&vec![in alloc; 0x5au8; size]?)?;
    }
    Ok(bytes)
}

/// The parts, each written to a buffer whose other bytes must stay.
fn split(rt: &impl Abort, alloc: Global, bytes: &[u8]) -> Result<Vec<Vec<u8>>, AllocError> {
    let mut list = Vec::new(alloc);
    for k in 0..parts(bytes) {
        let mut to = Vec::from_slice(alloc, bytes)?;
        to.push(0xee)?;
        let end = part(bytes, k, &mut to);
        assert!(rt; to.last() == Some(&0xee));
        list.push(Vec::from_slice(alloc, &to[..end])?)?;
    }
    Ok(list)
}

fn push(rt: &impl Abort, joiner: &mut Joiner, host: Host, bytes: &[u8]) -> bool {
    assert!(rt; bytes.len() <= 1472);
    assert!(rt; !is_jumbo(bytes));
    joiner.push(host, bytes)
}

/// What the joiner gives, written to a buffer whose other bytes must stay.
fn joined(rt: &impl Abort, alloc: Global, joiner: &mut Joiner) -> Result<Vec<u8>, AllocError> {
    let mut to = vec![in alloc; 0xeeu8; 22712]?;
    let (host, end) = joiner.out(&mut to).expect(rt, "some are held");
    assert!(rt; host == HOST);
    assert!(rt; to[end..].iter().all(|byte| *byte == 0xee));
    Vec::from_slice(alloc, &to[..end])
}

/// A datagram that nothing follows, and that comes out as it is.
fn is_alone(rt: &impl Abort, alloc: Global, most: u32, bytes: &[u8]) -> Result<(), AllocError> {
    assert!(rt; 1 <= most && most <= 16);
    let mut joiner = Joiner::make(alloc, most)?;
    let mut to = vec![in alloc; 0u8; 22712]?;
    assert!(rt; joiner.out(&mut to) == None);
    assert!(rt; push(rt, &mut joiner, HOST, bytes));
    assert!(rt; !push(rt, &mut joiner, HOST, &data(alloc, head(5, 2, 2), 0)?));
    assert!(rt; joined(rt, alloc, &mut joiner)?.as_slice() == bytes);
    assert!(rt; joiner.out(&mut to) == None);
    Ok(())
}

#[test]
fn joined_bytes(rt: HostRuntime) -> Result<(), Fail> {
    let a = rt.alloc();
    let first = data(a, head(1, 1, 1), 1412)?;
    let second = data(a, head(7, 2, 2), 1)?;
    let mut joiner = Joiner::make(a, 2)?;
    assert!(&rt; push(&rt, &mut joiner, HOST, &first));
    assert!(&rt; push(&rt, &mut joiner, HOST, &second));
    let bytes = joined(&rt, a, &mut joiner)?;
    assert!(&rt; bytes.len() == 1445);
    assert!(&rt; bytes.get(21) == Some(&0x21));
    assert!(&rt; bytes[1440..] == [7, 0, 0, 0, 0x5a]);
    assert!(&rt; push(&rt, &mut joiner, HOST, &second));
    assert!(&rt; !push(&rt, &mut joiner, HOST, &first));
    assert!(&rt; split(&rt, a, &bytes)? == vec![in a; first, second]?);
    Ok(())
}

#[test]
fn sixteen_datagrams_join_and_split(rt: HostRuntime) -> Result<(), Fail> {
    let a = rt.alloc();
    let mut joiner = Joiner::make(a, 16)?;
    let mut pushed = Vec::new(a);
    for k in 0..16u32 {
        let bytes = data(a, head(if k == 3 { 3 } else { 1 }, k + 1, k + 101), 1412)?;
        assert!(&rt; push(&rt, &mut joiner, HOST, &bytes));
        pushed.push(bytes)?;
    }
    assert!(&rt; !push(&rt, &mut joiner, HOST, &data(a, head(1, 17, 117), 1412)?));
    let bytes = joined(&rt, a, &mut joiner)?;
    assert!(&rt; bytes.len() == 22680);
    assert!(&rt; split(&rt, a, &bytes)? == pushed);
    Ok(())
}

#[test]
fn seventeen_parts_are_not_split(rt: HostRuntime) -> Result<(), Fail> {
    let a = rt.alloc();
    let mut links = [[0x21, 0, 0, 0]; 16];
    links[15] = [5, 0, 0, 0];
    assert!(&rt; parts(&jumbo(a, head(0x21, 1, 1), &links[1..], 1)?) == 16);
    let bytes = jumbo(a, head(0x21, 1, 1), &links, 1)?;
    assert!(&rt; split(&rt, a, &bytes)? == vec![in a; bytes]?);
    Ok(())
}

#[test]
fn a_cut_jumbo_is_split_where_its_last_part_begins(rt: HostRuntime) -> Result<(), Fail> {
    let a = rt.alloc();
    let bytes = jumbo(a, head(0x21, 1, 1), &[[0x21, 0, 0, 0], [5, 0, 0, 0]], 5)?;
    assert!(&rt; bytes.len() == 2865);
    for end in 0..2866usize {
        let want = if end < 2860 { 1 } else { 3 };
        assert!(&rt; parts(&bytes[..end]) == want, "cut to {end}");
    }
    Ok(())
}

#[test]
fn each_part_has_its_own_flags_and_checksum(rt: HostRuntime) -> Result<(), Fail> {
    let a = rt.alloc();
    let rows = [
        (0x21, [0xab, 0xcd], 9, TOP, 1412),
        (2, [0x12, 0x34], 10, 0, 1412),
        (0xcc, [0x56, 0x78], 11, 1, 0),
    ];
    let links = [[0x22, 0x77, 0x12, 0x34], [0xcc, 0x77, 0x56, 0x78]];
    let mut want = Vec::new(a);
    for (flags, checksum, seq, serial, count) in rows {
        let of = DataHead {
            flags: flags & 0xdf,
            checksum,
            seq,
            serial,
        };
        want.push(data(a, of, count)?)?;
    }
    let whole = DataHead {
        flags: 0x21,
        checksum: [0xab, 0xcd],
        seq: 9,
        serial: TOP,
    };
    assert!(&rt; split(&rt, a, &jumbo(a, whole, &links, 0)?)? == want);
    Ok(())
}

#[test]
fn no_seq_passes_its_field(rt: HostRuntime) -> Result<(), Fail> {
    let a = rt.alloc();
    for (seq, count) in [(TOP - 1, 2), (TOP, 1)] {
        assert!(&rt; parts(&jumbo(a, head(0x21, seq, 1), &[[5, 0, 0, 0]], 1)?) == count);
    }
    // seq and serial of a full piece, and of what is pushed behind it
    let rows = [
        (TOP - 1, 1, TOP, 2, true),
        (TOP, 1, 0, 2, false),
        (1, TOP - 1, 2, TOP, true),
        (1, TOP, 2, 0, false),
    ];
    for (seq, serial, next_seq, next_serial, taken) in rows {
        let mut joiner = Joiner::make(a, 16)?;
        assert!(&rt;
            push(
                &rt,
                &mut joiner,
                HOST,
                &data(a, head(1, seq, serial), 1412)?
            )
        );
        let next = data(a, head(5, next_seq, next_serial), 0)?;
        assert!(&rt; push(&rt, &mut joiner, HOST, &next) == taken);
    }
    Ok(())
}

#[test]
fn joins_that_are_refused_change_nothing(rt: HostRuntime) -> Result<(), Fail> {
    let a = rt.alloc();
    let first = data(a, head(1, 1, 1), 1412)?;
    let second = data(a, head(5, 2, 2), 1)?;
    let mut joiner = Joiner::make(a, 2)?;
    assert!(&rt; push(&rt, &mut joiner, HOST, &first));
    // epoch, cid, number, seq, serial, type, userStatus, index and service of the second
    for (place, byte) in [
        (3, 2),
        (7, 5),
        (11, 2),
        (15, 3),
        (19, 3),
        (20, 2),
        (22, 1),
        (23, 2),
        (27, 2),
    ] {
        let other = with(a, &second, place, byte)?;
        assert!(&rt; !push(&rt, &mut joiner, HOST, &other), "at {place}");
    }
    let elsewhere = Host {
        addr: HOST.addr,
        port: 7001,
    };
    assert!(&rt; !push(&rt, &mut joiner, elsewhere, &second));
    assert!(&rt; !push(&rt, &mut joiner, HOST, &first));
    assert!(&rt; !push(&rt, &mut joiner, HOST, &[0; 27]));
    assert!(&rt; push(&rt, &mut joiner, HOST, &second));
    assert!(&rt; !push(&rt, &mut joiner, HOST, &data(a, head(5, 3, 3), 0)?));
    let bytes = joined(&rt, a, &mut joiner)?;
    assert!(&rt; split(&rt, a, &bytes)? == vec![in a; first, second]?);
    Ok(())
}

#[test]
fn what_nothing_follows_comes_out_as_it_is(rt: HostRuntime) -> Result<(), Fail> {
    let a = rt.alloc();
    is_alone(&rt, a, 16, &[])?;
    is_alone(&rt, a, 16, &[1; 27])?;
    // the most that are held, type, flags, bytes of the payload
    for (most, kind, flags, count) in [
        (16, 2, 0x22, 1412),
        (16, 1, 1, 1444),
        (16, 1, 1, 1411),
        (1, 1, 1, 1412),
    ] {
        let bytes = with(a, &data(a, head(flags, 1, 1), count)?, 20, kind)?;
        is_alone(&rt, a, most, &bytes)?;
    }
    Ok(())
}
