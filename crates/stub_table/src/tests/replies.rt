//! Replies, by example.

use super::afs::{FETCH_DATA, FETCH_STATUS, interface};
use super::told::{Told, answer, answered, written};
use super::values::{STATUS_REPLY, bytes_of, status_args, status_values};
use std::alloc::AllocError;
use std::process::Abort;
use std::test::*;

#[test]
fn fetch_status_has_its_reply(rt: HostRuntime) -> Result<(), AllocError> {
    let alloc = rt.alloc();
    let iface = interface(alloc)?;
    let bytes = bytes_of(alloc, STATUS_REPLY)?;
    let out = answer(alloc, &iface, FETCH_STATUS, &status_values(alloc)?);
    assert_eq!(rt; written(out, &bytes), Told::Bytes(20));
    Ok(())
}

#[test]
fn stubs_refuse_what_is_no_reply(rt: HostRuntime) -> Result<(), AllocError> {
    let alloc = rt.alloc();
    let iface = interface(alloc)?;
    let out = answer(alloc, &iface, FETCH_STATUS, &[]);
    assert_eq!(rt; written(out, &[]), Told::Code(-452));
    // those of the request
    let out = answer(alloc, &iface, FETCH_STATUS, &status_args(alloc)?);
    assert_eq!(rt; written(out, &[]), Told::Code(-452));
    Ok(())
}

/// Procedures, replies, and what is told of these.
static REPLIES: [(usize, &str, Told); 8] = [
    (FETCH_STATUS, STATUS_REPLY, Told::Bytes(20)),
    (FETCH_STATUS, "0000", Told::Code(-451)),
    // later bytes
    (FETCH_STATUS, "000001a4 00000000 ffffff", Told::Bytes(8)),
    (FETCH_DATA, "00000007 5a", Told::Bytes(4)),
    // a list that is too long, or cut, or not there
    (FETCH_STATUS, "000001a4 00000033", Told::Code(-451)),
    (FETCH_STATUS, "000001a4 00000001 00000001", Told::Code(-451)),
    (FETCH_STATUS, "000001a4", Told::Code(-451)),
    (FETCH_DATA, "", Told::Code(-451)),
];

#[test]
fn replies_are_read_from_the_front(rt: HostRuntime) -> Result<(), AllocError> {
    let alloc = rt.alloc();
    let iface = interface(alloc)?;
    for (index, hex, wanted) in &REPLIES {
        let bytes = bytes_of(alloc, hex)?;
        assert_eq!(rt; answered(alloc, &iface, *index, &bytes), *wanted, "{hex}");
    }
    Ok(())
}

#[test]
fn a_reply_that_is_cut_is_refused(rt: HostRuntime) -> Result<(), AllocError> {
    let alloc = rt.alloc();
    let iface = interface(alloc)?;
    let bytes = bytes_of(alloc, STATUS_REPLY)?;
    for n in 0..bytes.len() {
        let told = answered(alloc, &iface, FETCH_STATUS, &bytes[..n]);
        assert_eq!(rt; told, Told::Code(-451), "{n}");
    }
    Ok(())
}
