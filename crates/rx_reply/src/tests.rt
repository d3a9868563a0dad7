//! Replies and requests of an interface of AFS, by example.

mod afs;

use crate::{proc_named, reply_parts, reply_text, request_bytes, set_count};
use afs::{bytes_of, fid, interface};
use std::alloc::{AllocError, Global};
use std::process::Abort;
use std::test::*;
use stub_table::StubFault;
use xdr_value::Value;

// ---- replies

// What a reply of the procedure says, or `none`.
fn replied(alloc: Global, name: &str, down: bool, hex: &str) -> Result<String, AllocError> {
    let iface = interface(alloc)?;
    let reply = bytes_of(alloc, hex)?;
    let Some(p) = proc_named(&iface.procs, name) else {
        return Err(AllocError);
    };
    match reply_text(alloc, &iface, p, down, &reply)? {
        Some(text) => Ok(text),
        None => String::from_str(alloc, "none"),
    }
}

/// A procedure, whether its reply begins with a download, the reply, and what is printed of it.
static REPLIES: [(&str, bool, &str, &str); 15] = [
    (
        "FetchStatus",
        false,
        "000001a4 00000001 00000001 00000002 00000003",
        "[420,[{\"Unique\":3,\"Vnode\":2,\"Volume\":1}]]",
    ),
    ("FetchStatus", false, "000001a4 00000000", "[420,[]]"),
    // later bytes
    ("FetchStatus", false, "000001a4 00000000 ffffff", "[420,[]]"),
    ("FetchStatus", false, "000001a4", "none"),
    // a list that is too long
    ("FetchStatus", false, "000001a4 00000033", "none"),
    ("FetchStatus", false, "", "none"),
    ("FetchData", false, "00000007", "[7]"),
    ("FetchData", false, "ffffffff", "[-1]"),
    (
        "FetchData",
        true,
        "00000003 616263 00000007",
        "[7] down 616263",
    ),
    ("FetchData", true, "00000000 00000003", "[3] down -"),
    // no whole length, a download that is cut, and one that is too long
    ("FetchData", true, "000000", "none"),
    ("FetchData", true, "00000003 6162", "none"),
    ("FetchData", true, "01000001 616263 00000007", "none"),
    // no values behind the download
    ("FetchData", true, "00000003 616263", "none"),
    ("FetchData", true, "00000003 616263 000000", "none"),
];

#[test]
fn replies_are_printed(rt: HostRuntime) -> Result<(), AllocError> {
    for (name, down, hex, wanted) in &REPLIES {
        let given = replied(rt.alloc(), name, *down, hex)?;
        assert!(rt; given.as_str() == *wanted, "{name} {hex} says {given}");
    }
    Ok(())
}

// The values that a reply of FetchData says and its download, `none` where none is asked for.
fn parted(alloc: Global, down: bool, hex: &str) -> Result<String, AllocError> {
    let iface = interface(alloc)?;
    let reply = bytes_of(alloc, hex)?;
    let Some(p) = proc_named(&iface.procs, "FetchData") else {
        return Err(AllocError);
    };
    match reply_parts(alloc, &iface, p, down, &reply) {
        Ok(Some(parts)) => match parts.download {
            Some(download) => format!(in alloc; "{} {:?}", parts.values, download),
            None => format!(in alloc; "{} none", parts.values),
        },
        Ok(None) | Err(AllocError) => Err(AllocError),
    }
}

#[test]
fn replies_have_their_downloads_beside_the_values(rt: HostRuntime) -> Result<(), AllocError> {
    let given = parted(rt.alloc(), true, "00000003 616263 00000007")?;
    assert_eq!(rt; given.as_str(), "[7] [97, 98, 99]");
    let empty = parted(rt.alloc(), true, "00000000 00000007")?;
    assert_eq!(rt; empty.as_str(), "[7] []");
    let without = parted(rt.alloc(), false, "00000007")?;
    assert_eq!(rt; without.as_str(), "[7] none");
    Ok(())
}

// ---- requests

// [{"Volume":1,"Vnode":2,"Unique":3},0,3]
fn data_args(alloc: Global) -> Result<Vec<Value>, AllocError> {
    let mut args = Vec::new(alloc);
    args.push(fid(alloc)?)?;
    args.push(Value::Number(0))?;
    args.push(Value::Number(3))?;
    Ok(args)
}

// What is sent for FetchData with this upload, in hex, or the code.
fn asked(alloc: Global, args: &[Value], up: Option<&[u8]>) -> Result<String, AllocError> {
    let iface = interface(alloc)?;
    let Some(p) = proc_named(&iface.procs, "FetchData") else {
        return Err(AllocError);
    };
    match request_bytes(alloc, &iface, p, args, up) {
        Ok(bytes) => hex::encode(alloc, bytes.as_slice()),
        Err(StubFault::Code(code)) => format!(in alloc; "{code}"),
        Err(StubFault::OutOfMemory) => Err(AllocError),
    }
}

#[test]
fn requests_are_sent_with_their_uploads(rt: HostRuntime) -> Result<(), AllocError> {
    let alloc = rt.alloc();
    let args = data_args(alloc)?;
    let plain = asked(alloc, &args, None)?;
    assert_eq!(rt;
        plain.as_str(),
        "000000820000000100000002000000030000000000000003"
    );
    let empty = asked(alloc, &args, Some(b""))?;
    assert_eq!(rt;
        empty.as_str(),
        "00000082000000010000000200000003000000000000000300000000"
    );
    let full = asked(alloc, &args, Some(b"abc"))?;
    assert_eq!(rt;
        full.as_str(),
        "00000082000000010000000200000003000000000000000300000003616263"
    );
    let none = asked(alloc, &[], Some(b"abc"))?;
    assert_eq!(rt; none.as_str(), "-450");
    Ok(())
}

#[test]
fn a_count_stands_in_front_of_what_it_counts(rt: HostRuntime) {
    let mut bytes = [9, 9, 1, 2, 3, 4, 5, 6, 7];
    set_count(&mut bytes, 2);
    assert_eq!(rt; bytes, [9, 9, 0, 0, 0, 3, 5, 6, 7]);
    let mut last = [9, 9, 1, 2, 3, 4];
    set_count(&mut last, 2);
    assert_eq!(rt; last, [9, 9, 0, 0, 0, 0]);
}
