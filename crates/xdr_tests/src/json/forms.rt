//! Each type as JSON, both ways.

use super::told::{again, check, printed, value_in};
use std::alloc::{AllocError, Global};
use std::process::Abort;
use std::test::*;
use xdr_value::Value;

/// The worked example, its values: types, texts, and what is printed or told of these.
static VALUES: [(&str, &str, &str); 5] = [
    ("int", "\"x\"", "$ int"),
    ("int", "[1", "no json"),
    ("int", "5", "5"),
    ("int<4>", "[1,2", "no json"),
    ("int<4>", "[1,true]", "$[1] int"),
];

#[test]
fn words_files_values(rt: HostRuntime) -> Result<(), AllocError> {
    let alloc = rt.alloc();
    check(&rt, alloc, &VALUES)?;
    let five = matches!(&value_in(alloc, "int", "5"), Ok(Value::Number(5)));
    assert!(rt; five);
    let five = printed(alloc, "int", &Value::Number(5))?;
    assert_eq!(rt; five.as_str(), "5");
    Ok(())
}

fn octets(alloc: Global, bytes: &[u8]) -> Result<Value, AllocError> {
    Ok(Value::Octets(Vec::from_slice(alloc, bytes)?))
}

fn fid(alloc: Global) -> Result<Value, AllocError> {
    let mut parts = Vec::new(alloc);
    for n in 1..=3 {
        parts.push(Value::Number(n as i128))?;
    }
    Ok(Value::List(parts))
}

fn chosen(alloc: Global, tag: Value, arm: Value) -> Result<Value, AllocError> {
    Value::chosen(alloc, tag, arm)
}

#[test]
fn values_have_their_texts(rt: HostRuntime) -> Result<(), AllocError> {
    let alloc = rt.alloc();
    let rows = [
        ("Color", Value::Number(2), "\"RED\""),
        ("bool", Value::Flag(false), "false"),
        ("opaque[2]", octets(alloc, &[0x0a, 0xff])?, "\"0aff\""),
        (
            "string<4>",
            octets(alloc, &[b'h', 0xc3, 0xa9])?,
            "\"h\u{e9}\"",
        ),
        (
            "string<4>",
            octets(alloc, &[0xab, 0xfe])?,
            "{\"hex\":\"abfe\"}",
        ),
        (
            "Fid",
            fid(alloc)?,
            "{\"Unique\":3,\"Vnode\":2,\"Volume\":1}",
        ),
        (
            "ByNumber",
            chosen(alloc, Value::Number(1), fid(alloc)?)?,
            "{\"case\":1,\"value\":{\"Unique\":3,\"Vnode\":2,\"Volume\":1}}",
        ),
        (
            "ByFlag",
            chosen(alloc, Value::Flag(false), Value::Void)?,
            "{\"case\":false,\"value\":null}",
        ),
        ("Maybe", Value::there(alloc, Value::Number(7))?, "[7]"),
        ("int*", Value::Maybe(None), "[]"),
    ];
    for (name, value, wanted) in &rows {
        let json = printed(alloc, name, value)?;
        assert_eq!(rt; json.as_str(), *wanted);
    }
    Ok(())
}

/// Types, texts, and what is printed of their values.
static FORMS: [(&str, &str, &str); 24] = [
    ("int", " -2147483648\n", "-2147483648"),
    ("int", "2147483647", "2147483647"),
    ("uint", "4294967295", "4294967295"),
    ("hyper", "-9223372036854775808", "-9223372036854775808"),
    ("hyper", "9223372036854775807", "9223372036854775807"),
    ("uhyper", "18446744073709551615", "18446744073709551615"),
    ("short", "-32768", "-32768"),
    ("ushort", "65535", "65535"),
    ("char", "-128", "-128"),
    ("uchar", "255", "255"),
    ("bool", "true", "true"),
    ("void", "null", "null"),
    ("Color", "\"BLUE\"", "\"BLUE\""),
    // two members of one value
    ("Color", "\"ROUGE\"", "\"RED\""),
    ("opaque[2]", "\"0aFf\"", "\"0aff\""),
    ("opaque<2>", "\"\"", "\"\""),
    ("string<4>", "\"h\\u00e9\"", "\"h\u{e9}\""),
    ("string<4>", "{\"hex\":\"6162\"}", "\"ab\""),
    ("string<4>", "{\"hex\":\"ABfe\"}", "{\"hex\":\"abfe\"}"),
    ("int<4>", "[1, 2]", "[1,2]"),
    ("Ints", "[]", "[]"),
    ("bool[2]", "[true,false]", "[true,false]"),
    ("int*", "[]", "[]"),
    ("Maybe", "[7]", "[7]"),
];

#[test]
fn each_form_is_printed_as_it_is_read(rt: HostRuntime) -> Result<(), AllocError> {
    check(&rt, rt.alloc(), &FORMS)
}

/// The same of objects.
static OBJECTS: [(&str, &str, &str); 7] = [
    (
        "ByColor",
        "{\"value\":3,\"case\":\"ROUGE\"}",
        "{\"case\":\"RED\",\"value\":3}",
    ),
    (
        "Paint",
        "{\"case\":\"BLUE\",\"value\":null}",
        "{\"case\":\"BLUE\",\"value\":null}",
    ),
    // the default arm, and the other one
    (
        "ByCount",
        "{\"case\":4294967295,\"value\":null}",
        "{\"case\":4294967295,\"value\":null}",
    ),
    (
        "ByCount",
        "{\"case\":1,\"value\":[7]}",
        "{\"case\":1,\"value\":[7]}",
    ),
    (
        "ByFlag",
        "{\"case\":true,\"value\":{\"hex\":\"ff\"}}",
        "{\"case\":true,\"value\":{\"hex\":\"ff\"}}",
    ),
    (
        "Fids",
        "[{\"Volume\":1,\"Vnode\":2,\"Unique\":3}]",
        "[{\"Unique\":3,\"Vnode\":2,\"Volume\":1}]",
    ),
    (
        "Chain",
        "[{\"v\":1,\"next\":[{\"v\":2,\"next\":[]}]}]",
        "[{\"next\":[{\"next\":[],\"v\":2}],\"v\":1}]",
    ),
];

#[test]
fn each_object_is_printed_in_byte_order(rt: HostRuntime) -> Result<(), AllocError> {
    check(&rt, rt.alloc(), &OBJECTS)
}

// n nulls in an array
fn nulls(alloc: Global, n: usize) -> Result<String, AllocError> {
    let mut json = String::from_str(alloc, "[null")?;
    for _ in 1..n {
        json.push_str(",null")?;
    }
    json.push_str("]")?;
    Ok(json)
}

#[test]
fn elements_without_bytes_are_65536_at_most(rt: HostRuntime) -> Result<(), AllocError> {
    let alloc = rt.alloc();
    let most = nulls(alloc, 65_536)?;
    let printed = again(alloc, "void<100000>", most.as_str())?;
    assert!(rt; printed.as_str() == most.as_str());
    let more = nulls(alloc, 65_537)?;
    let refused = again(alloc, "void<100000>", more.as_str())?;
    assert_eq!(rt; refused.as_str(), "$ void<100000>");
    Ok(())
}
