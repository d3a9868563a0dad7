//! Texts that are JSON, and that are none.

use super::told::{again, check};
use std::alloc::{AllocError, Global};
use std::process::Abort;
use std::test::*;

/// Types, texts, and what is printed or told of these.
static DIGITS: [(&str, &str, &str); 6] = [
    ("int", "1.0", "$ int"),
    ("int", "1e2", "$ int"),
    ("int", "-0", "$ int"),
    ("int", "0", "0"),
    ("hyper", "1e3", "$ hyper"),
    ("int", "1e400", "no json"),
];

#[test]
fn only_digits_are_whole(rt: HostRuntime) -> Result<(), AllocError> {
    check(&rt, rt.alloc(), &DIGITS)
}

/// The same of repeated keys.
static REPEATED: [(&str, &str, &str); 2] = [
    (
        "Fid",
        "{\"Volume\":true,\"Vnode\":2,\"Unique\":3,\"Volume\":1}",
        "{\"Unique\":3,\"Vnode\":2,\"Volume\":1}",
    ),
    (
        "Fid",
        "{\"Volume\":1,\"Vnode\":2,\"Unique\":3,\"Volume\":true}",
        "$.Volume uint",
    ),
];

#[test]
fn of_a_repeated_key_the_last_value_stays(rt: HostRuntime) -> Result<(), AllocError> {
    check(&rt, rt.alloc(), &REPEATED)
}

/// The same of texts that are no JSON.
static NO_JSON: [(&str, &str, &str); 10] = [
    ("int", "", "no json"),
    ("int", "5 5", "no json"),
    ("int", "05", "no json"),
    ("int", "+5", "no json"),
    ("int<4>", "[1,]", "no json"),
    ("int<4>", "[true,1", "no json"),
    ("Fid", "{\"Volume\":true", "no json"),
    // a lone surrogate, a raw control character and a byte order mark
    ("string<4>", "\"\\ud800\"", "no json"),
    ("string<4>", "\"\n\"", "no json"),
    ("int", "\u{feff}5", "no json"),
];

#[test]
fn what_is_no_json_is_told(rt: HostRuntime) -> Result<(), AllocError> {
    check(&rt, rt.alloc(), &NO_JSON)
}

fn nested(alloc: Global, n: usize) -> Result<String, AllocError> {
    let mut json = String::new(alloc);
    for _ in 0..n {
        json.push_str("[")?;
    }
    for _ in 0..n {
        json.push_str("]")?;
    }
    Ok(json)
}

#[test]
fn arrays_nest_127_deep(rt: HostRuntime) -> Result<(), AllocError> {
    let alloc = rt.alloc();
    let deep = nested(alloc, 127)?;
    assert_eq!(rt; again(alloc, "int", deep.as_str())?.as_str(), "$ int");
    let deeper = nested(alloc, 128)?;
    assert_eq!(rt; again(alloc, "int", deeper.as_str())?.as_str(), "no json");
    Ok(())
}
