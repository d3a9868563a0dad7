//! Requests and replies at their greatest size and depth.

use super::afs::{LINK, STORE, interface};
use super::told::{Told, answer, answered, asked, receive, send, written};
use super::values::{chain, chain_bytes, stored, zeros_behind};
use std::alloc::AllocError;
use std::process::Abort;
use std::test::*;
use xdr_value::Value;

#[test]
fn a_stream_has_at_most_65536_bytes(rt: HostRuntime) -> Result<(), AllocError> {
    let alloc = rt.alloc();
    let iface = interface(alloc)?;
    // 4 of the opcode, 4 of the length and 65,528
    let full = zeros_behind(alloc, "00000007 0000fff8", 65_528)?;
    let out = send(alloc, &iface, STORE, &stored(alloc, 65_528)?);
    assert_eq!(rt; written(out, &full), Told::Bytes(65_536));
    let out = send(alloc, &iface, STORE, &stored(alloc, 65_529)?);
    assert_eq!(rt; written(out, &[]), Told::Code(-450));
    let full = zeros_behind(alloc, "0000fffc", 65_532)?;
    let out = answer(alloc, &iface, STORE, &stored(alloc, 65_532)?);
    assert_eq!(rt; written(out, &full), Told::Bytes(65_536));
    let out = answer(alloc, &iface, STORE, &stored(alloc, 65_533)?);
    assert_eq!(rt; written(out, &[]), Told::Code(-452));
    Ok(())
}

/// The length word of the data, how many bytes of it are there, and what is told.
static STORES: [(&str, usize, Told); 6] = [
    ("00000007 0000fff8", 65_528, Told::Request(STORE, 65_536)),
    ("00000007 0000fff8", 65_600, Told::Request(STORE, 65_536)),
    ("00000007 0000fff8", 65_527, Told::Short),
    ("00000007 0000fff9", 65_527, Told::Short),
    ("00000007 0000fff9", 65_528, Told::Code(-453)),
    ("00000007 0000fff9", 65_600, Told::Code(-453)),
];

#[test]
fn only_65536_bytes_of_a_request_are_looked_at(rt: HostRuntime) -> Result<(), AllocError> {
    let alloc = rt.alloc();
    let iface = interface(alloc)?;
    for (hex, n, answer) in &STORES {
        let bytes = zeros_behind(alloc, hex, *n)?;
        assert_eq!(rt; asked(alloc, &iface, &bytes, false), *answer, "{hex} {n}");
    }
    Ok(())
}

#[test]
fn a_reply_is_read_however_long_it_is(rt: HostRuntime) -> Result<(), AllocError> {
    let alloc = rt.alloc();
    let iface = interface(alloc)?;
    let bytes = zeros_behind(alloc, "000186a0", 100_000)?;
    let mut lengths = Vec::new(alloc);
    if let Ok(values) = receive(alloc, &iface, STORE, &bytes) {
        for value in &values {
            if let Value::Octets(data) = value {
                lengths.push(data.len())?;
            }
        }
    }
    assert_eq!(rt; lengths.as_slice(), [100_000].as_slice());
    Ok(())
}

#[test]
fn values_have_at_most_64_levels(rt: HostRuntime) -> Result<(), AllocError> {
    let alloc = rt.alloc();
    let iface = interface(alloc)?;
    let bytes = chain_bytes(alloc, "00000008", 32)?;
    let out = send(alloc, &iface, LINK, &chain(alloc, 32)?);
    assert_eq!(rt; written(out, &bytes), Told::Bytes(260));
    assert_eq!(rt;
        asked(alloc, &iface, &bytes, false),
        Told::Request(LINK, 260)
    );
    let bytes = chain_bytes(alloc, "", 32)?;
    let out = answer(alloc, &iface, LINK, &chain(alloc, 32)?);
    assert_eq!(rt; written(out, &bytes), Told::Bytes(256));
    assert_eq!(rt; answered(alloc, &iface, LINK, &bytes), Told::Bytes(256));
    Ok(())
}

#[test]
fn a_65th_level_is_refused(rt: HostRuntime) -> Result<(), AllocError> {
    let alloc = rt.alloc();
    let iface = interface(alloc)?;
    let deep = chain(alloc, 33)?;
    let out = send(alloc, &iface, LINK, &deep);
    assert_eq!(rt; written(out, &[]), Told::Code(-450));
    let out = answer(alloc, &iface, LINK, &deep);
    assert_eq!(rt; written(out, &[]), Told::Code(-452));
    // the 33rd node stands behind 32 whole ones, or isn't there yet
    let bytes = chain_bytes(alloc, "00000008", 33)?;
    for n in [260, 268] {
        if n <= bytes.len() {
            let told = asked(alloc, &iface, &bytes[..n], false);
            assert_eq!(rt; told, Told::Code(-453), "{n}");
        }
    }
    let bytes = chain_bytes(alloc, "", 33)?;
    assert_eq!(rt; answered(alloc, &iface, LINK, &bytes), Told::Code(-451));
    Ok(())
}
