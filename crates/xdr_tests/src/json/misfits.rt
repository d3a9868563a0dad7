//! Places that don't fit.

use super::told::check;
use std::alloc::AllocError;
use std::process::Abort;
use std::test::*;

/// Types, texts, and the place that doesn't fit, with the type that is wanted there: numbers.
static RANGES: [(&str, &str, &str); 16] = [
    ("int", "2147483648", "$ int"),
    ("int", "-2147483649", "$ int"),
    ("uint", "4294967296", "$ uint"),
    ("uint", "-1", "$ uint"),
    ("hyper", "9223372036854775808", "$ hyper"),
    ("hyper", "-9223372036854775809", "$ hyper"),
    ("uhyper", "18446744073709551616", "$ uhyper"),
    ("uhyper", "-1", "$ uhyper"),
    ("short", "32768", "$ short"),
    ("short", "-32769", "$ short"),
    ("ushort", "65536", "$ ushort"),
    ("ushort", "-1", "$ ushort"),
    ("char", "128", "$ char"),
    ("char", "-129", "$ char"),
    ("uchar", "256", "$ uchar"),
    ("uchar", "-1", "$ uchar"),
];

#[test]
fn a_number_is_in_the_range_of_its_type(rt: HostRuntime) -> Result<(), AllocError> {
    check(&rt, rt.alloc(), &RANGES)
}

/// The same of other kinds of JSON.
static KINDS: [(&str, &str, &str); 16] = [
    ("int", "null", "$ int"),
    ("int", "true", "$ int"),
    ("int", "[]", "$ int"),
    ("int", "{}", "$ int"),
    ("bool", "1", "$ bool"),
    ("void", "[]", "$ void"),
    ("void", "false", "$ void"),
    ("Color", "2", "$ Color"),
    ("Color", "\"GREEN\"", "$ Color"),
    ("opaque[2]", "{\"hex\":\"0000\"}", "$ opaque[2]"),
    ("string<4>", "7", "$ string<4>"),
    ("int<4>", "{}", "$ int<4>"),
    ("bool[2]", "null", "$ bool[2]"),
    ("int*", "null", "$ int*"),
    ("Fid", "[1,2,3]", "$ Fid"),
    ("ByColor", "[]", "$ ByColor"),
];

#[test]
fn each_type_has_its_kind_of_json(rt: HostRuntime) -> Result<(), AllocError> {
    check(&rt, rt.alloc(), &KINDS)
}

/// The same of lengths.
static LENGTHS: [(&str, &str, &str); 15] = [
    ("opaque[2]", "\"00\"", "$ opaque[2]"),
    ("opaque[2]", "\"000000\"", "$ opaque[2]"),
    ("opaque<2>", "\"000000\"", "$ opaque<2>"),
    // no hex
    ("opaque<2>", "\"0\"", "$ opaque<2>"),
    ("opaque<2>", "\"zz\"", "$ opaque<2>"),
    ("Name", "\"12345\"", "$ Name"),
    ("Name", "{\"hex\":\"0\"}", "$ Name"),
    ("Name", "{\"hex\":\"0011223344\"}", "$ Name"),
    ("Name", "{\"hex\":7}", "$ Name"),
    ("Name", "{\"hey\":\"00\"}", "$ Name"),
    ("Name", "{\"hex\":\"00\",\"too\":1}", "$ Name"),
    // before the elements are looked at
    ("int<4>", "[1,2,3,4,true]", "$ int<4>"),
    ("Pair", "[1]", "$ Pair"),
    ("Pair", "[1,2,3]", "$ Pair"),
    ("int*", "[true,2]", "$ int*"),
];

#[test]
fn content_and_lists_have_their_lengths(rt: HostRuntime) -> Result<(), AllocError> {
    check(&rt, rt.alloc(), &LENGTHS)
}

/// The same of parts.
static PATHS: [(&str, &str, &str); 9] = [
    ("bool[2]", "[true,2]", "$[1] bool"),
    ("Ints", "[0,1,2,\"3\"]", "$[3] int"),
    ("Maybe", "[null]", "$[0] int"),
    (
        "Fid",
        "{\"Volume\":1,\"Vnode\":2,\"Unique\":4294967296}",
        "$.Unique uint",
    ),
    // the first in the order of the type
    (
        "Fids",
        "[{\"Unique\":-1,\"Vnode\":-1,\"Volume\":1}]",
        "$[0].Vnode uint",
    ),
    (
        "Fids",
        "[{\"Unique\":3,\"Vnode\":2,\"Volume\":1},7]",
        "$[1] Fid",
    ),
    (
        "Chain",
        "[{\"v\":1,\"next\":[{\"v\":true,\"next\":[]}]}]",
        "$[0].next[0].v int",
    ),
    (
        "Node",
        "{\"v\":1,\"next\":[{\"v\":2,\"next\":[7]}]}",
        "$.next[0].next[0] Node",
    ),
    ("Node", "{\"v\":1,\"next\":null}", "$.next Node*"),
];

#[test]
fn a_part_has_its_path(rt: HostRuntime) -> Result<(), AllocError> {
    check(&rt, rt.alloc(), &PATHS)
}

/// The same of keys.
static KEYS: [(&str, &str, &str); 8] = [
    ("Fid", "{}", "$ Fid"),
    ("Fid", "{\"Volume\":true,\"Vnode\":2}", "$ Fid"),
    ("Fid", "{\"Volume\":1,\"Vnode\":2,\"unique\":3}", "$ Fid"),
    (
        "Fid",
        "{\"Volume\":1,\"Vnode\":2,\"Unique\":3,\"More\":4}",
        "$ Fid",
    ),
    ("ByColor", "{\"case\":\"RED\"}", "$ ByColor"),
    ("ByColor", "{\"value\":1}", "$ ByColor"),
    ("ByColor", "{\"case\":\"RED\",\"n\":1}", "$ ByColor"),
    (
        "ByColor",
        "{\"case\":\"RED\",\"value\":1,\"more\":2}",
        "$ ByColor",
    ),
];

#[test]
fn the_keys_are_exactly_the_fields(rt: HostRuntime) -> Result<(), AllocError> {
    check(&rt, rt.alloc(), &KEYS)
}

/// The same of unions.
static ARMS: [(&str, &str, &str); 13] = [
    (
        "ByColor",
        "{\"case\":\"GREEN\",\"value\":true}",
        "$.case Color",
    ),
    ("Paint", "{\"case\":2,\"value\":true}", "$.case Color"),
    (
        "ByNumber",
        "{\"case\":2147483648,\"value\":null}",
        "$.case int",
    ),
    ("ByCount", "{\"case\":-1,\"value\":true}", "$.case Count"),
    ("ByFlag", "{\"case\":1,\"value\":\"\"}", "$.case bool"),
    // a tag without an arm
    ("ByNumber", "{\"case\":2,\"value\":null}", "$ ByNumber"),
    // the arm
    ("ByColor", "{\"case\":\"BLUE\",\"value\":0}", "$.value void"),
    ("Paint", "{\"case\":\"RED\",\"value\":null}", "$.value int"),
    ("ByCount", "{\"case\":0,\"value\":[]}", "$.value void"),
    ("ByCount", "{\"case\":1,\"value\":7}", "$.value Maybe"),
    ("ByCount", "{\"case\":1,\"value\":[[]]}", "$.value[0] int"),
    (
        "ByFlag",
        "{\"case\":true,\"value\":\"12345\"}",
        "$.value string<4>",
    ),
    (
        "ByNumber",
        "{\"case\":1,\"value\":{\"Volume\":1,\"Vnode\":2,\"Unique\":true}}",
        "$.value.Unique uint",
    ),
];

#[test]
fn a_tag_is_judged_before_its_arm(rt: HostRuntime) -> Result<(), AllocError> {
    check(&rt, rt.alloc(), &ARMS)
}
