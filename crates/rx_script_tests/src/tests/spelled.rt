//! Bytes as a plan keeps them, by example.

use super::afs::interface;
use rx_model::Bytes;
use rx_script::{Spelled, read_plan};
use std::alloc::{AllocError, Global};
use std::process::Abort;
use std::test::Fail;

/// The hex of the bytes, read by both ways.
fn both(alloc: Global, bytes: Spelled) -> Result<(String, String), AllocError> {
    let seen = hex::encode(alloc, bytes.spell_out(alloc)?.as_slice())?;
    let taken = hex::encode(alloc, bytes.into_bytes(alloc)?.as_slice())?;
    Ok((seen, taken))
}

#[test]
fn bytes_are_spelled_out(rt: HostRuntime) -> Result<(), Fail> {
    let alloc = rt.alloc();
    let listed = Spelled::of(Bytes::copied(alloc, &[0x01, 0xff])?);
    let (seen, taken) = both(alloc, listed)?;
    assert_eq!(rt; seen.as_str(), "01ff");
    assert_eq!(rt; taken.as_str(), "01ff");
    let (seen, taken) = both(alloc, Spelled::repeated(3, 0x5a))?;
    assert_eq!(rt; seen.as_str(), "5a5a5a");
    assert_eq!(rt; taken.as_str(), "5a5a5a");
    let (seen, taken) = both(alloc, Spelled::repeated(0, 0x5a))?;
    assert_eq!(rt; seen.as_str(), "");
    assert_eq!(rt; taken.as_str(), "");
    Ok(())
}

#[test]
fn repeated_bytes_are_shown_as_a_count(rt: HostRuntime) -> Result<(), Fail> {
    let shown = format!(in rt.alloc(); "{:?}", Spelled::repeated(16_777_216, 0x5a))?;
    assert_eq!(rt;
        shown.as_str(),
        "Spelled { spelling: Repeated { count: 16777216, byte: 90 } }"
    );
    Ok(())
}

/// Written out these lines would take 16 GiB.
#[test]
fn a_plan_keeps_counts(rt: HostRuntime) -> Result<(), Fail> {
    let alloc = rt.alloc();
    let mut text = String::new(alloc);
    for _ in 0..1_000 {
        text.push_str("write #1 16777216*5a\n")?;
    }
    let iface = interface(alloc)?;
    match read_plan(alloc, &iface, text.as_str()) {
        Ok(plan) => assert_eq!(rt; plan.lines.len(), 1_000),
        Err(_) => assert!(rt; false, "a line isn't taken"),
    }
    Ok(())
}
