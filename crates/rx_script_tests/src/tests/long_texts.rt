//! Texts that are too long, and values that are too deep or too large.

use super::shown::{peer_plan, plan, script};
use std::alloc::{AllocError, Global};
use std::process::Abort;
use std::test::Fail;

/// A text, and so many further lines, each empty.
fn with_lines(alloc: Global, text: &str, count: u32) -> Result<String, AllocError> {
    let mut all = String::from_str(alloc, text)?;
    for _ in 0..count {
        all.push_str("\n")?;
    }
    Ok(all)
}

#[test]
fn a_line_too_many_is_refused(rt: HostRuntime) -> Result<(), Fail> {
    let alloc = rt.alloc();
    let most = with_lines(alloc, "", 1_000_000)?;
    assert_eq!(rt; plan(alloc, most.as_str())?.as_str(), "");
    let over = with_lines(alloc, "", 1_000_001)?;
    assert_eq!(rt; plan(alloc, over.as_str())?.as_str(), "1000001 toomany");
    assert_eq!(rt;
        peer_plan(alloc, over.as_str())?.as_str(),
        "1000001 toomany"
    );
    assert_eq!(rt; script(alloc, over.as_str())?.as_str(), "1000001 toomany");
    // before the checks of the open block, and whatever it holds
    let open = with_lines(alloc, "on FetchStatus\nup", 1_000_000)?;
    assert_eq!(rt; script(alloc, open.as_str())?.as_str(), "1000001 toomany");
    Ok(())
}

/// A chain of so many nodes as JSON, each of two levels.
fn chain(alloc: Global, nodes: u32) -> Result<String, AllocError> {
    let mut json = String::from_str(alloc, "invoke c1 4 Link [")?;
    for _ in 1..nodes {
        json.push_str("{\"v\":1,\"next\":[")?;
    }
    json.push_str("{\"v\":1,\"next\":[]}")?;
    for _ in 1..nodes {
        json.push_str("]}")?;
    }
    json.push_str("]")?;
    Ok(json)
}

#[test]
fn deep_values_are_refused(rt: HostRuntime) -> Result<(), Fail> {
    let alloc = rt.alloc();
    let within = plan(alloc, chain(alloc, 32)?.as_str())?;
    assert!(rt; within.as_str().starts_with("1 invoke 1 4 Link"));
    let deeper = plan(alloc, chain(alloc, 33)?.as_str())?;
    assert_eq!(rt; deeper.as_str(), "1 json");
    Ok(())
}

/// A line that stores so many bytes.
fn stored(alloc: Global, count: u32) -> Result<String, AllocError> {
    let mut line = String::from_str(alloc, "invoke c1 4 Store [\"")?;
    for _ in 0..count {
        line.push_str("5a")?;
    }
    line.push_str("\"]")?;
    Ok(line)
}

#[test]
fn large_requests_are_refused(rt: HostRuntime) -> Result<(), Fail> {
    let alloc = rt.alloc();
    // the opcode and the length take eight bytes
    let within = plan(alloc, stored(alloc, 65_528)?.as_str())?;
    assert!(rt; within.as_str().starts_with("1 invoke 1 4 Store"));
    let larger = plan(alloc, stored(alloc, 65_529)?.as_str())?;
    assert_eq!(rt; larger.as_str(), "1 json");
    Ok(())
}
