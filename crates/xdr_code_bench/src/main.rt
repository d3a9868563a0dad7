//! Decodes or encodes a value again and again, and prints a checksum.
//!
//! Arguments: `decode` or `encode`; `status`, `opaque` or `ints`; how many structures, bytes or
//! integers; how often.
#![tactic(auto)]

ghost use Rattle.std.specs.Prelude.{◌≤◌, IsTrue};
ghost use Rattle.xdr_value.specs.View.{kind_of, types_of, value_of};
ghost use Rattle.xdr_value.specs.Fits.{Fits, depth};
ghost use Rattle.xdr_value.specs.Tests.{is_known};

use std::alloc::{AllocError, Global};
use std::{env, io};
use xdr_code::{Front, decode_front, encode};
use xdr_value::{Def, Field, Interface, Shape, Ty, Value, known, sound};

// The fields of AFSFetchStatus, as OpenAFS's afsint.h has them.
const STATUS_FIELDS: [&str; 21] = [
    "InterfaceVersion",
    "FileType",
    "LinkCount",
    "Length",
    "DataVersion",
    "Author",
    "Owner",
    "CallerAccess",
    "AnonymousAccess",
    "UnixModeBits",
    "ParentVnode",
    "ParentUnique",
    "ResidencyMask",
    "ClientModTime",
    "ServerModTime",
    "Group",
    "SyncCounter",
    "dataVersionHigh",
    "lockCount",
    "Length_hi",
    "errorCode",
];

fn status(alloc: Global) -> Result<Def, AllocError> {
    let mut fields = Vec::new(alloc);
    for name in STATUS_FIELDS {
        fields.push(Field::make(alloc, name, Ty::Uint)?)?;
    }
    Def::make(alloc, "AFSFetchStatus", Shape::Struct(fields))
}

// The type of a case, and how many words its bytes have behind the first; None of an unknown case.
fn ty_of(alloc: Global, case: &str) -> Result<Option<Ty>, AllocError> {
    if case == "opaque" {
        return Ok(Some(Ty::OpaqueUpTo(4294967295)));
    }
    if case == "ints" {
        return Ok(Some(Ty::up_to(alloc, Ty::Int, 4294967295)?));
    }
    if case == "status" {
        let of = Ty::named(alloc, "AFSFetchStatus")?;
        return Ok(Some(Ty::up_to(alloc, of, 4294967295)?));
    }
    Ok(None)
}

fn words_of(case: &str, size: u32) -> u64 {
    let size = size as u64;
    if case == "opaque" {
        (size + 3) / 4
    } else if case == "status" {
        size * 21
    } else {
        size
    }
}

// The size, and then words that differ; the bytes that pad the last one are zero.
fn spelled(alloc: Global, case: &str, size: u32) -> Result<Vec<u8>, AllocError> {
    let mut bytes = Vec::new(alloc);
    bytes.extend_from_slice(&size.to_be_bytes())?;
    let mut word: u32 = 1;
    for _ in 0..words_of(case, size) {
        word = word.wrapping_mul(2654435761);
        bytes.extend_from_slice(&word.to_be_bytes())?;
    }
    if case == "opaque" {
        bytes.truncate(4 + size as usize);
        for _ in 0..(4 - size % 4) % 4 {
            bytes.push(0)?;
        }
    }
    Ok(bytes)
}

fn sum(bytes: &[u8]) -> u64 {
    let mut total: u64 = 0;
    for byte in bytes {
        total = total.wrapping_mul(31).wrapping_add(*byte as u64);
    }
    total
}

fn decoded(alloc: Global, iface: &Interface, ty: &Ty, bytes: &[u8], rounds: u32) -> u64
    requires { IsTrue (is_known (types_of iface.now.types.items) (kind_of ty.now)) }
{
    let mut check: u64 = 0;
    for _ in 0..rounds {
        if let Front::Whole(_, used) = decode_front(alloc, iface, ty, bytes) {
            check = check.wrapping_add(used as u64);
        }
    }
    check
}

fn encodings(
    alloc: Global,
    iface: &Interface,
    ty: &Ty,
    value: &Value,
    rounds: u32,
) -> Result<u64, AllocError>
    requires fits { Fits (types_of iface.now.types.items) (kind_of ty.now) (value_of value.now) }
    requires shallow { depth (value_of value.now) ≤ 64 }
{
    let mut check: u64 = 0;
    for _ in 0..rounds {
        check = check.wrapping_add(encode(alloc, iface, ty, value)?.len() as u64);
    }
    Ok(check.wrapping_add(sum(&encode(alloc, iface, ty, value)?)))
}

fn encoded(
    alloc: Global,
    iface: &Interface,
    ty: &Ty,
    bytes: &[u8],
    rounds: u32,
) -> Result<u64, AllocError>
    requires { IsTrue (is_known (types_of iface.now.types.items) (kind_of ty.now)) }
{
    match decode_front(alloc, iface, ty, bytes) {
        Front::Whole(value, _) => encodings(alloc, iface, ty, &value, rounds),
        Front::Short | Front::Bad { .. } | Front::Deep | Front::OutOfMemory => Ok(0),
    }
}

fn ran(alloc: Global, way: &str, case: &str, size: u32, rounds: u32) -> Result<u64, AllocError> {
    let mut types = Vec::new(alloc);
    types.push(status(alloc)?)?;
    let procs = Vec::new(alloc);
    let ty = match ty_of(alloc, case)? {
        None => return Ok(0),
        Some(ty) => ty,
    };
    if !sound(&types, &procs) || !known(&types, &ty) {
        return Ok(0);
    }
    let iface = Interface::make(None, None, types, procs);
    let bytes = spelled(alloc, case, size)?;
    if way == "decode" {
        Ok(decoded(alloc, &iface, &ty, &bytes, rounds))
    } else {
        encoded(alloc, &iface, &ty, &bytes, rounds)
    }
}

fn number(word: &str) -> u32 {
    word.parse::<u32>().unwrap_or(0)
}

fn main(rt: HostRuntime) -> io::Result<()> {
    let alloc = rt.alloc();
    let mut words = Vec::new(alloc);
    for word in env::args(&rt)? {
        words.push(word)?;
    }
    if words.len() != 5 {
        println!(rt; "usage: xdr_code_bench decode|encode status|opaque|ints SIZE ROUNDS")?;
        return Ok(());
    }
    let check = ran(
        alloc,
        words[1].as_str(),
        words[2].as_str(),
        number(words[3].as_str()),
        number(words[4].as_str()),
    )?;
    println!(rt; "{check}")?;
    Ok(())
}
