//! Values and their bytes, by example.

use super::*;
use crate::test_types::all_types;
use std::alloc::{AllocError, Global};
use std::process::Abort;
use std::test::*;
use xdr_value::{Field, Interface, Ty, Value, known, sound};

// What an answer says, without its value.
#[derive(Clone, Copy, Debug, PartialEq, Eq)]
pub enum Told {
    Whole(usize),
    Short,
    Bad(usize, Why),
    Deep,
    OutOfMemory,
    Unknown,
    OtherBytes,
}

pub fn interface(alloc: Global) -> Result<Interface, AllocError> {
    let types = all_types(alloc)?;
    let procs = Vec::new(alloc);
    if !sound(&types, &procs) {
        return Err(AllocError);
    }
    Ok(Interface::make(None, None, types, procs))
}

// The bytes of a text of hex digits, whose spaces count for nothing.
pub fn bytes_of(alloc: Global, text: &str) -> Result<Vec<u8>, AllocError> {
    let mut digits = Vec::new(alloc);
    for c in text.as_bytes() {
        if *c != b' ' {
            digits.push(*c)?;
        }
    }
    match hex::decode(alloc, digits.as_slice()) {
        Ok(bytes) => Ok(bytes),
        Err(_) => Err(AllocError),
    }
}

// A value that was found is spelled again, and the bytes have to be those that it was found in.
pub fn answer(alloc: Global, iface: &Interface, ty: &Ty, bytes: &[u8]) -> Result<Told, AllocError> {
    if !known(&iface.types, ty) {
        return Ok(Told::Unknown);
    }
    match decode_front(alloc, iface, ty, bytes) {
        Front::Whole(value, used) => {
            let again = encode(alloc, iface, ty, &value)?;
            if again.as_slice() == &bytes[..used] {
                Ok(Told::Whole(used))
            } else {
                Ok(Told::OtherBytes)
            }
        }
        Front::Short => Ok(Told::Short),
        Front::Bad { at, why } => Ok(Told::Bad(at, why)),
        Front::Deep => Ok(Told::Deep),
        Front::OutOfMemory => Ok(Told::OutOfMemory),
    }
}

fn tell(alloc: Global, name: &str, hex: &str) -> Result<Told, AllocError> {
    let iface = interface(alloc)?;
    let ty = Ty::named(alloc, name)?;
    let bytes = bytes_of(alloc, hex)?;
    answer(alloc, &iface, &ty, &bytes)
}

fn check(rt: &impl Abort, alloc: Global, rows: &[(&str, &str, Told)]) -> Result<(), AllocError> {
    for (name, hex, told) in rows {
        assert_eq!(rt; tell(alloc, name, hex)?, *told, "{name} over {hex}");
    }
    Ok(())
}

/// Types, bytes, and what is told of these.
static NUMBERS: [(&str, &str, Told); 34] = [
    ("int", "00000000", Told::Whole(4)),
    ("int", "ffffffff", Told::Whole(4)),
    ("int", "80000000", Told::Whole(4)),
    ("int", "7fffffff 01", Told::Whole(4)),
    ("int", "000000", Told::Short),
    ("int", "", Told::Short),
    ("uint", "ffffffff", Told::Whole(4)),
    ("uint", "ff", Told::Short),
    ("hyper", "8000000000000000", Told::Whole(8)),
    ("hyper", "7fffffffffffffff", Told::Whole(8)),
    ("hyper", "00000000000000", Told::Short),
    ("uhyper", "ffffffffffffffff", Told::Whole(8)),
    ("uhyper", "ffffffff", Told::Short),
    ("short", "00007fff", Told::Whole(4)),
    ("short", "ffff8000", Told::Whole(4)),
    ("short", "00008000", Told::Bad(0, Why::Range)),
    ("short", "ffff7fff", Told::Bad(0, Why::Range)),
    ("short", "0001", Told::Bad(0, Why::Range)),
    ("short", "0000", Told::Short),
    ("short", "ffff", Told::Short),
    ("short", "fffe", Told::Bad(0, Why::Range)),
    ("ushort", "0000ffff", Told::Whole(4)),
    ("ushort", "00010000", Told::Bad(0, Why::Range)),
    ("ushort", "ffffffff", Told::Bad(0, Why::Range)),
    ("ushort", "01", Told::Bad(0, Why::Range)),
    ("ushort", "0000", Told::Short),
    ("char", "0000007f", Told::Whole(4)),
    ("char", "ffffff80", Told::Whole(4)),
    ("char", "00000080", Told::Bad(0, Why::Range)),
    ("char", "ffffff7f", Told::Bad(0, Why::Range)),
    ("char", "ffffff", Told::Short),
    ("uchar", "000000ff", Told::Whole(4)),
    ("uchar", "00000100", Told::Bad(0, Why::Range)),
    ("uchar", "000001", Told::Bad(0, Why::Range)),
];

#[test]
fn numbers_are_read_in_their_ranges(rt: HostRuntime) -> Result<(), AllocError> {
    check(&rt, rt.alloc(), &NUMBERS)
}

/// The same of bools, enums and optional data.
static BOOLS: [(&str, &str, Told); 20] = [
    ("bool", "00000000", Told::Whole(4)),
    ("bool", "00000001", Told::Whole(4)),
    ("bool", "00000002", Told::Bad(0, Why::Bool)),
    ("bool", "01", Told::Bad(0, Why::Bool)),
    ("bool", "000001", Told::Bad(0, Why::Bool)),
    ("bool", "000000", Told::Short),
    ("void", "", Told::Whole(0)),
    ("void", "00", Told::Whole(0)),
    ("color", "00000003", Told::Whole(4)),
    ("color", "00000101", Told::Whole(4)),
    ("color", "ffffffff", Told::Whole(4)),
    ("color", "00000004", Told::Bad(0, Why::Enum)),
    ("color", "fffffffe", Told::Bad(0, Why::Enum)),
    ("color", "000001", Told::Short),
    ("color", "000002", Told::Bad(0, Why::Enum)),
    ("color", "01", Told::Bad(0, Why::Enum)),
    ("int*", "00000000", Told::Whole(4)),
    ("int*", "00000001 00000005", Told::Whole(8)),
    ("int*", "00000002", Told::Bad(0, Why::Bool)),
    ("int*", "00000001 000000", Told::Short),
];

#[test]
fn bools_and_enums_are_declared(rt: HostRuntime) -> Result<(), AllocError> {
    check(&rt, rt.alloc(), &BOOLS)
}

/// The same of opaque data and strings.
static CONTENT: [(&str, &str, Told); 15] = [
    ("opaque[5]", "0102030405 000000", Told::Whole(8)),
    ("opaque[5]", "0102030405 000001", Told::Bad(7, Why::Padding)),
    ("opaque[5]", "0102030405 01", Told::Bad(5, Why::Padding)),
    ("opaque[5]", "0102030405 00", Told::Short),
    ("opaque[5]", "01020304", Told::Short),
    ("opaque<4>", "00000000", Told::Whole(4)),
    ("opaque<4>", "00000004 01020304", Told::Whole(8)),
    ("opaque<4>", "00000003 010203 00", Told::Whole(8)),
    (
        "opaque<4>",
        "00000003 010203 01",
        Told::Bad(7, Why::Padding),
    ),
    ("opaque<4>", "00000003 0102", Told::Short),
    ("opaque<4>", "00000005", Told::Bad(0, Why::Length)),
    ("opaque<4>", "01", Told::Bad(0, Why::Length)),
    ("opaque<4>", "000000", Told::Short),
    ("string<6>", "00000007", Told::Bad(0, Why::Length)),
    ("string<6>", "00000006 616263646566 0000", Told::Whole(12)),
];

#[test]
fn content_is_padded_with_zeros(rt: HostRuntime) -> Result<(), AllocError> {
    check(&rt, rt.alloc(), &CONTENT)
}

/// The same of arrays and structs.
static ELEMENTS: [(&str, &str, Told); 12] = [
    ("int[2]", "00000001 00000002", Told::Whole(8)),
    ("int[2]", "00000001", Told::Short),
    ("int<4>", "00000000", Told::Whole(4)),
    ("int<4>", "00000002 00000007 00000008", Told::Whole(12)),
    ("int<4>", "00000005", Told::Bad(0, Why::Length)),
    ("int<4>", "00000002 00000007 0000", Told::Short),
    (
        "bool<>",
        "00000002 00000001 00000003",
        Told::Bad(8, Why::Bool),
    ),
    ("void<>", "00010000", Told::Whole(4)),
    ("void<>", "00010001", Told::Bad(0, Why::Length)),
    ("empty", "", Told::Whole(0)),
    ("fid", "00000001 00000002 00000003", Told::Whole(12)),
    ("fid", "00000001 00000002", Told::Short),
];

#[test]
fn arrays_and_structs_are_their_elements(rt: HostRuntime) -> Result<(), AllocError> {
    check(&rt, rt.alloc(), &ELEMENTS)
}

/// The same of unions.
static TAGS: [(&str, &str, Told); 15] = [
    ("u", "00000002", Told::Whole(4)),
    ("u", "00000001", Told::Short),
    ("u", "00000001 00000009", Told::Whole(8)),
    ("v", "00000002", Told::Bad(0, Why::Bool)),
    ("v", "01", Told::Bad(0, Why::Bool)),
    ("v", "00000000 00000003 616263 00", Told::Whole(12)),
    ("v", "00000001 00000000 00000001", Told::Whole(12)),
    ("v", "00000000 00000009", Told::Bad(4, Why::Length)),
    ("w", "00000101", Told::Whole(4)),
    ("w", "00000003 00000001", Told::Whole(8)),
    ("w", "ffffffff", Told::Bad(0, Why::Case)),
    ("w", "ff", Told::Bad(0, Why::Case)),
    ("w", "00000004", Told::Bad(0, Why::Enum)),
    ("w", "000002", Told::Bad(0, Why::Enum)),
    ("w", "0000", Told::Short),
];

#[test]
fn a_tag_chooses_its_arm(rt: HostRuntime) -> Result<(), AllocError> {
    check(&rt, rt.alloc(), &TAGS)
}

// RFC 4506, section 7: the file "sillyprog" of the user "john", with the data "(quit)".
const SILLYPROG: &str = "00000009 73696c6c 7970726f 67000000 00000002 00000004 6c697370 \
    00000004 6a6f686e 00000006 28717569 74290000";

/// The same of that type.
static FILES: [(&str, &str, Told); 5] = [
    ("file", SILLYPROG, Told::Whole(48)),
    (
        "file",
        "00000009 73696c6c 7970726f 67000000 00000002",
        Told::Short,
    ),
    (
        "file",
        "00000009 73696c6c 7970726f 67000000 00000003",
        Told::Bad(16, Why::Enum),
    ),
    (
        "file",
        "00000009 73696c6c 7970726f 67000100",
        Told::Bad(14, Why::Padding),
    ),
    (
        "file",
        "00000000 00000000 00000021",
        Told::Bad(8, Why::Length),
    ),
];

#[test]
fn the_file_of_the_standard_is_read(rt: HostRuntime) -> Result<(), AllocError> {
    check(&rt, rt.alloc(), &FILES)
}

/// The worked example.
static XDR: [(&str, &str, Told); 4] = [
    ("string<>", "00000005 68656c6c6f 000000", Told::Whole(12)),
    (
        "string<>",
        "00000005 68656c6c6f 000001",
        Told::Bad(11, Why::Padding),
    ),
    ("string<>", "00000005 68656c6c6f 00", Told::Short),
    ("bool", "00000002", Told::Bad(0, Why::Bool)),
];

#[test]
fn xdr(rt: HostRuntime) -> Result<(), AllocError> {
    check(&rt, rt.alloc(), &XDR)
}

// A chain of n nodes, whose last has the flag for a further one.
fn chain(alloc: Global, n: usize, last: u8) -> Result<Vec<u8>, AllocError> {
    let mut bytes = Vec::new(alloc);
    for i in 0..n {
        bytes.extend_from_slice(&[0, 0, 0, 7])?;
        let flag = if i + 1 < n { 1 } else { last };
        bytes.extend_from_slice(&[0, 0, 0, flag])?;
    }
    Ok(bytes)
}

fn tell_chain(alloc: Global, n: usize, last: u8) -> Result<Told, AllocError> {
    let iface = interface(alloc)?;
    let ty = Ty::named(alloc, "node")?;
    let bytes = chain(alloc, n, last)?;
    answer(alloc, &iface, &ty, &bytes)
}

/// Chains of so many nodes, whose last has this flag, and what is told of them.
static CHAINS: [(usize, u8, Told); 6] = [
    (1, 0, Told::Whole(8)),
    (32, 0, Told::Whole(256)),
    (33, 0, Told::Deep),
    (31, 1, Told::Short),
    (32, 1, Told::Deep),
    (32, 2, Told::Bad(252, Why::Bool)),
];

#[test]
fn a_chain_of_33_is_too_deep(rt: HostRuntime) -> Result<(), AllocError> {
    for (n, last, told) in &CHAINS {
        assert_eq!(rt; tell_chain(rt.alloc(), *n, *last)?, *told, "{n} {last}");
    }
    Ok(())
}

// Behind this first word so many bytes that are 0.
fn zeros(alloc: Global, first: u32, count: usize) -> Result<Vec<u8>, AllocError> {
    let mut bytes = Vec::from_slice(alloc, &first.to_be_bytes())?;
    for _ in 0..count {
        bytes.push(0)?;
    }
    Ok(bytes)
}

// The words name more than there is: content of 150,000 bytes, and ints of which the greatest
// number would take gigabytes.
#[test]
fn more_is_wanted_behind_100000_bytes(rt: HostRuntime) -> Result<(), AllocError> {
    let alloc = rt.alloc();
    let iface = interface(alloc)?;
    let long = zeros(alloc, 150_000, 99_996)?;
    let content = Ty::OpaqueUpTo(u32::MAX);
    assert_eq!(rt; answer(alloc, &iface, &content, &long)?, Told::Short);
    let ints = Ty::up_to(alloc, Ty::Int, u32::MAX)?;
    assert_eq!(rt; answer(alloc, &iface, &ints, &long)?, Told::Short);
    let most = zeros(alloc, u32::MAX, 99_996)?;
    assert_eq!(rt; answer(alloc, &iface, &content, &most)?, Told::Short);
    assert_eq!(rt; answer(alloc, &iface, &ints, &most)?, Told::Short);
    Ok(())
}

fn first_number(alloc: Global, name: &str, hex: &str) -> Result<Option<i128>, AllocError> {
    let iface = interface(alloc)?;
    let ty = Ty::named(alloc, name)?;
    let bytes = bytes_of(alloc, hex)?;
    if !known(&iface.types, &ty) {
        return Ok(None);
    }
    match &decode_front(alloc, &iface, &ty, &bytes) {
        Front::Whole(Value::Number(n), _) => Ok(Some(*n)),
        _ => Ok(None),
    }
}

/// Types, bytes, and the number in them.
static SIGNS: [(&str, &str, i128); 7] = [
    ("int", "ffffffff", -1),
    ("uint", "ffffffff", 4294967295),
    ("hyper", "fffffffffffffffe", -2),
    ("uhyper", "fffffffffffffffe", 18446744073709551614),
    ("short", "ffff8000", -32768),
    ("char", "ffffff80", -128),
    ("color", "ffffffff", -1),
];

#[test]
fn signs_are_kept(rt: HostRuntime) -> Result<(), AllocError> {
    for (name, hex, number) in &SIGNS {
        assert_eq!(rt;
            first_number(rt.alloc(), name, hex)?,
            Some(*number),
            "{name}"
        );
    }
    Ok(())
}

// How many fields were read, and how many bytes are left.
fn read_two(alloc: Global, hex: &str) -> Result<(usize, usize), AllocError> {
    let iface = interface(alloc)?;
    let mut fields = Vec::new(alloc);
    fields.push(Field::make(alloc, "Fid", Ty::named(alloc, "fid")?)?)?;
    fields.push(Field::make(alloc, "Mode", Ty::Uint)?)?;
    let bytes = bytes_of(alloc, hex)?;
    match read_fields(alloc, &iface, &fields, &bytes) {
        Ok((values, rest)) => Ok((values.len(), rest.len())),
        Err(_) => Ok((0, 0)),
    }
}

#[test]
fn fields_are_read_in_order(rt: HostRuntime) -> Result<(), AllocError> {
    let alloc = rt.alloc();
    let whole = "00000001 00000002 00000003 000001a4 ff";
    assert_eq!(rt; read_two(alloc, whole)?, (2, 1));
    assert_eq!(rt; read_two(alloc, "00000001 00000002 00000003 0000")?, (0, 0));
    Ok(())
}
