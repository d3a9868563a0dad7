//! Tests of values that are written many at once.

use crate::tests::{Told, answer, bytes_of, interface};
use crate::{Front, decode_front, encode};
use std::alloc::{AllocError, Global};
use std::test::*;
use xdr_value::{Def, Field, Interface, Shape, Ty, Value, fits, has_levels_within, known, sound};

// Words that differ, of which some have the highest bit set.
fn put_numbered(bytes: &mut Vec<u8>, count: u16) -> Result<(), AllocError> {
    for i in 0..count {
        let word = (i as u32).wrapping_mul(2654435761);
        bytes.extend_from_slice(&word.to_be_bytes())?;
    }
    Ok(())
}

// So many fields, of int and unsigned in turn.
fn row(alloc: Global, width: u8) -> Result<Def, AllocError> {
    let mut fields = Vec::new(alloc);
    for i in 0..width {
        let ty = if i % 2 == 0 { Ty::Int } else { Ty::Uint };
        let name = format!(in alloc; "f{i}")?;
        fields.push(Field::make(alloc, name.as_str(), ty)?)?;
    }
    Def::make(alloc, "row", Shape::Struct(fields))
}

// Three structs of so many words behind their count, whole or without their last byte.
fn tell_rows(alloc: Global, width: u8, is_cut: bool) -> Result<Told, AllocError> {
    let mut types = Vec::new(alloc);
    types.push(row(alloc, width)?)?;
    let procs = Vec::new(alloc);
    if !sound(&types, &procs) {
        return Ok(Told::Unknown);
    }
    let iface = Interface::make(None, None, types, procs);
    let ty = Ty::up_to(alloc, Ty::named(alloc, "row")?, 3)?;
    let mut bytes = bytes_of(alloc, "00000003")?;
    put_numbered(&mut bytes, 3 * width as u16)?;
    if is_cut {
        let _ = bytes.pop();
    }
    answer(alloc, &iface, &ty, &bytes)
}

#[test]
fn structs_of_words_are_their_words_at_every_width(rt: HostRuntime) -> Result<(), AllocError> {
    let alloc = rt.alloc();
    for width in 0..26u8 {
        let whole = Told::Whole(4 + 12 * width as usize);
        assert_eq!(rt; tell_rows(alloc, width, false)?, whole, "of {width}");
        assert_eq!(rt; tell_rows(alloc, width, true)?, Told::Short, "of {width}");
    }
    Ok(())
}

fn ints_type(alloc: Global) -> Result<Ty, AllocError> {
    Ty::up_to(alloc, Ty::Int, 4294967295)
}

// The bytes of a list of ints, behind their count.
fn ints(alloc: Global, numbers: &[i128]) -> Result<Vec<u8>, AllocError> {
    let iface = interface(alloc)?;
    let ty = ints_type(alloc)?;
    let mut items = Vec::new(alloc);
    for number in numbers {
        items.push(Value::Number(*number))?;
    }
    let list = Value::List(items);
    if !known(&iface.types, &ty) || !fits(&iface, &ty, &list) || !has_levels_within(&list, 64) {
        return Ok(Vec::new(alloc));
    }
    encode(alloc, &iface, &ty, &list)
}

// Thirteen are eight, four and one.
#[test]
fn ints_are_spelled_in_order_with_their_signs(rt: HostRuntime) -> Result<(), AllocError> {
    let alloc = rt.alloc();
    let numbers = [
        0,
        1,
        -1,
        2147483647,
        -2147483648,
        255,
        -256,
        16909060,
        -16909060,
        65536,
        -65536,
        7,
        -2,
    ];
    let wanted = "0000000d 00000000 00000001 ffffffff 7fffffff 80000000 000000ff ffffff00 \
        01020304 fefdfcfc 00010000 ffff0000 00000007 fffffffe";
    assert_eq!(rt;
        ints(alloc, &numbers)?.as_slice(),
        bytes_of(alloc, wanted)?.as_slice()
    );
    let told = answer(
        alloc,
        &interface(alloc)?,
        &ints_type(alloc)?,
        &bytes_of(alloc, wanted)?,
    )?;
    assert_eq!(rt; told, Told::Whole(56));
    Ok(())
}

// Two hundred structs of three words, behind their count.
fn many_rows(alloc: Global) -> Result<Vec<u8>, AllocError> {
    let mut types = Vec::new(alloc);
    types.push(row(alloc, 3)?)?;
    let procs = Vec::new(alloc);
    if !sound(&types, &procs) {
        return Ok(Vec::new(alloc));
    }
    let iface = Interface::make(None, None, types, procs);
    let ty = Ty::up_to(alloc, Ty::named(alloc, "row")?, 200)?;
    let mut bytes = bytes_of(alloc, "000000c8")?;
    put_numbered(&mut bytes, 600)?;
    if !known(&iface.types, &ty) {
        return Ok(Vec::new(alloc));
    }
    match decode_front(alloc, &iface, &ty, &bytes) {
        Front::Whole(value, _) => encode(alloc, &iface, &ty, &value),
        Front::Short | Front::Bad { .. } | Front::Deep | Front::OutOfMemory => Ok(Vec::new(alloc)),
    }
}

// No clause can say how much room is kept at most, since none of a vector does.
#[test]
fn what_is_written_keeps_little_room(rt: HostRuntime) -> Result<(), AllocError> {
    let alloc = rt.alloc();
    let rows = many_rows(alloc)?;
    assert_eq!(rt; rows.len(), 2404);
    assert!(rt; rows.capacity() < 5000);
    let words = ints(alloc, &[7; 500])?;
    assert_eq!(rt; words.len(), 2004);
    assert!(rt; words.capacity() < 5000);
    Ok(())
}
