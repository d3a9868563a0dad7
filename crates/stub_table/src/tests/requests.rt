//! Requests, by example.

use super::afs::{FETCH_DATA, FETCH_STATUS, LAST, LINK, interface};
use super::told::{Told, asked, send, written};
use super::values::{STATUS_REQUEST, bytes_of, fid, status_args};
use std::alloc::AllocError;
use std::process::Abort;
use std::test::*;
use xdr_value::Value;

#[test]
fn fetch_status_has_its_request(rt: HostRuntime) -> Result<(), AllocError> {
    let alloc = rt.alloc();
    let iface = interface(alloc)?;
    let bytes = bytes_of(alloc, STATUS_REQUEST)?;
    let out = send(alloc, &iface, FETCH_STATUS, &status_args(alloc)?);
    assert_eq!(rt; written(out, &bytes), Told::Bytes(28));
    for ended in [false, true] {
        assert_eq!(rt;
            asked(alloc, &iface, &bytes, ended),
            Told::Request(FETCH_STATUS, 28)
        );
    }
    Ok(())
}

#[test]
fn stubs_refuse_what_is_no_request(rt: HostRuntime) -> Result<(), AllocError> {
    let alloc = rt.alloc();
    let iface = interface(alloc)?;
    let mut one = Vec::new(alloc);
    one.push(fid(alloc, 1, 2, 3)?)?;
    let out = send(alloc, &iface, FETCH_STATUS, &one);
    assert_eq!(rt; written(out, &[]), Told::Code(-450));
    // an OUT argument too
    let mut four = status_args(alloc)?;
    four.push(Value::List(Vec::new(alloc)))?;
    let out = send(alloc, &iface, FETCH_STATUS, &four);
    assert_eq!(rt; written(out, &[]), Told::Code(-450));
    // a number that is out of its range
    let mut wide = Vec::new(alloc);
    wide.push(fid(alloc, 1, 2, 4_294_967_296)?)?;
    wide.push(Value::Number(0))?;
    wide.push(Value::Number(0))?;
    let out = send(alloc, &iface, FETCH_DATA, &wide);
    assert_eq!(rt; written(out, &[]), Told::Code(-450));
    Ok(())
}

/// What came of a request, whether that is all of it, and what is told.
static REQUESTS: [(&str, bool, Told); 18] = [
    // no procedure has the opcode
    ("000003e7", false, Told::Code(-455)),
    ("000003e7", true, Told::Code(-455)),
    ("00000000 00000001", true, Told::Code(-455)),
    // the opcode isn't there
    ("", false, Told::Short),
    ("", true, Told::Code(-454)),
    ("00", true, Told::Code(-454)),
    ("ffffff", false, Told::Short),
    ("ffffff", true, Told::Code(-454)),
    // the arguments are cut
    ("00000084 00000001", true, Told::Code(-453)),
    ("00000084 00000001", false, Told::Short),
    // a name that is too long, and padding that isn't zero
    (
        "00000084 00000001 00000002 00000003 00000101",
        false,
        Told::Code(-453),
    ),
    (
        "00000084 00000001 00000002 00000003 00000001 610000",
        false,
        Told::Short,
    ),
    (
        "00000084 00000001 00000002 00000003 00000001 610001",
        false,
        Told::Code(-453),
    ),
    // the bytes behind the arguments are left
    (
        "00000082 00000001 00000002 00000003 00000000 000f4240 00000002 5a5a",
        false,
        Told::Request(FETCH_DATA, 24),
    ),
    // a flag that is neither 0 nor 1
    ("00000008 00000005 00000002", false, Told::Code(-453)),
    ("00000008 00000005 00000000", false, Told::Request(LINK, 12)),
    // no arguments
    ("ffffffff", false, Told::Request(LAST, 4)),
    ("ffffffff 00", true, Told::Request(LAST, 4)),
];

#[test]
fn requests_are_read(rt: HostRuntime) -> Result<(), AllocError> {
    let alloc = rt.alloc();
    let iface = interface(alloc)?;
    for (hex, ended, answer) in &REQUESTS {
        let bytes = bytes_of(alloc, hex)?;
        assert_eq!(rt;
            asked(alloc, &iface, &bytes, *ended),
            *answer,
            "{hex} {ended}"
        );
    }
    Ok(())
}

#[test]
fn a_request_that_is_cut_is_short_or_refused(rt: HostRuntime) -> Result<(), AllocError> {
    let alloc = rt.alloc();
    let iface = interface(alloc)?;
    let bytes = bytes_of(alloc, STATUS_REQUEST)?;
    for n in 0..bytes.len() {
        let cut = &bytes[..n];
        let code = if n < 4 { -454 } else { -453 };
        assert_eq!(rt; asked(alloc, &iface, cut, false), Told::Short, "{n}");
        assert_eq!(rt; asked(alloc, &iface, cut, true), Told::Code(code), "{n}");
    }
    Ok(())
}
