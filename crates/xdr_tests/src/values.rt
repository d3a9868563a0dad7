//! Types and values of RFC 4506, by example.

use std::alloc::{AllocError, Global};
use std::test::*;
use xdr_value::{
    Arg, Arm, Def, Field, Interface, Member, Mode, Proc, Shape, Ty, Value, fits, known, sound, zero,
};

// struct NAME { int v; REST next; }
fn node(alloc: Global, name: &str, rest: Ty) -> Result<Def, AllocError> {
    let mut fields = Vec::new(alloc);
    fields.push(Field::make(alloc, "v", Ty::Int)?)?;
    fields.push(Field::make(alloc, "next", rest)?)?;
    Def::make(alloc, name, Shape::Struct(fields))
}

// struct AFSFid { afs_uint32 Volume; afs_uint32 Vnode; afs_uint32 Unique; };
fn afs_fid(alloc: Global) -> Result<Def, AllocError> {
    let mut fields = Vec::new(alloc);
    fields.push(Field::make(alloc, "Volume", Ty::Uint)?)?;
    fields.push(Field::make(alloc, "Vnode", Ty::Uint)?)?;
    fields.push(Field::make(alloc, "Unique", Ty::Uint)?)?;
    Def::make(alloc, "AFSFid", Shape::Struct(fields))
}

fn arm(case: Option<i64>) -> Arm {
    Arm { case, field: None }
}

// enum E { A = 3, LAST = last };
fn numbers(alloc: Global, last_name: &str, last: i64) -> Result<Def, AllocError> {
    let mut members = Vec::new(alloc);
    members.push(Member::make(alloc, "A", 3)?)?;
    members.push(Member::make(alloc, last_name, last)?)?;
    Def::make(alloc, "E", Shape::Enum(members))
}

// union U switch (TAG t) with two void arms
fn choice(alloc: Global, tag: Ty, one: Option<i64>, two: Option<i64>) -> Result<Def, AllocError> {
    let mut arms = Vec::new(alloc);
    arms.push(arm(one))?;
    arms.push(arm(two))?;
    Def::make(alloc, "U", Shape::Union { tag, arms })
}

fn is_sound(alloc: Global, one: Def) -> Result<bool, AllocError> {
    let mut types = Vec::new(alloc);
    types.push(one)?;
    Ok(sound(&types, &[]))
}

fn are_sound(alloc: Global, one: Def, other: Def) -> Result<bool, AllocError> {
    let mut types = Vec::new(alloc);
    types.push(one)?;
    types.push(other)?;
    Ok(sound(&types, &[]))
}

#[test]
fn only_rings_without_a_way_out_are_endless(rt: HostRuntime) -> Result<(), AllocError> {
    let alloc = rt.alloc();
    let next = Ty::optional(alloc, Ty::named(alloc, "Node")?)?;
    assert!(rt; is_sound(alloc, node(alloc, "Node", next)?)?);
    let list = Ty::up_to(alloc, Ty::named(alloc, "Node")?, 4)?;
    assert!(rt; is_sound(alloc, node(alloc, "Node", list)?)?);
    let pair = Ty::array(alloc, Ty::named(alloc, "Node")?, 2)?;
    assert!(rt; !is_sound(alloc, node(alloc, "Node", pair)?)?);
    assert!(rt; !is_sound(alloc, node(alloc, "Node", Ty::named(alloc, "Node")?)?)?);
    let one = node(alloc, "A", Ty::named(alloc, "B")?)?;
    let other = node(alloc, "B", Ty::named(alloc, "A")?)?;
    assert!(rt; !are_sound(alloc, one, other)?);
    let one = node(alloc, "A", Ty::named(alloc, "B")?)?;
    let other = node(alloc, "B", Ty::Bool)?;
    assert!(rt; are_sound(alloc, one, other)?);
    Ok(())
}

#[test]
fn names_are_defined_once(rt: HostRuntime) -> Result<(), AllocError> {
    let alloc = rt.alloc();
    assert!(rt; !is_sound(alloc, node(alloc, "Node", Ty::named(alloc, "Other")?)?)?);
    assert!(rt; !are_sound(alloc, afs_fid(alloc)?, afs_fid(alloc)?)?);
    let mut fields = Vec::new(alloc);
    fields.push(Field::make(alloc, "v", Ty::Int)?)?;
    fields.push(Field::make(alloc, "v", Ty::Uint)?)?;
    assert!(rt; !is_sound(alloc, Def::make(alloc, "S", Shape::Struct(fields))?)?);
    assert!(rt; !is_sound(alloc, numbers(alloc, "A", 4)?)?);
    Ok(())
}

#[test]
fn enums_and_cases_are_in_range(rt: HostRuntime) -> Result<(), AllocError> {
    let alloc = rt.alloc();
    assert!(rt; is_sound(alloc, numbers(alloc, "B", -2147483648)?)?);
    assert!(rt; !is_sound(alloc, numbers(alloc, "B", 2147483648)?)?);
    assert!(rt; !is_sound(alloc, Def::make(alloc, "E", Shape::Enum(Vec::new(alloc)))?)?);
    assert!(rt; is_sound(alloc, choice(alloc, Ty::Int, Some(1), None)?)?);
    assert!(rt; !is_sound(alloc, choice(alloc, Ty::Int, Some(1), Some(1))?)?);
    assert!(rt; !is_sound(alloc, choice(alloc, Ty::Int, None, None)?)?);
    assert!(rt; !is_sound(alloc, choice(alloc, Ty::Short, Some(1), None)?)?);
    assert!(rt; is_sound(alloc, choice(alloc, Ty::Bool, Some(0), Some(1))?)?);
    assert!(rt; !is_sound(alloc, choice(alloc, Ty::Bool, Some(0), Some(2))?)?);
    assert!(rt; is_sound(alloc, choice(alloc, Ty::Uint, Some(4294967295), None)?)?);
    assert!(rt; !is_sound(alloc, choice(alloc, Ty::Uint, Some(-1), None)?)?);
    let tag = Ty::named(alloc, "E")?;
    assert!(rt;
        are_sound(
            alloc,
            choice(alloc, tag, Some(3), Some(7))?,
            numbers(alloc, "B", 7)?
        )?
    );
    let tag = Ty::named(alloc, "E")?;
    assert!(rt;
        !are_sound(
            alloc,
            choice(alloc, tag, Some(3), Some(8))?,
            numbers(alloc, "B", 7)?
        )?
    );
    let none = Shape::Union {
        tag: Ty::Int,
        arms: Vec::new(alloc),
    };
    assert!(rt; !is_sound(alloc, Def::make(alloc, "U", none)?)?);
    Ok(())
}

// Two procedures of one argument each, of which some name or opcode may be one.
fn procs(alloc: Global, name: &str, opcode: u32, arg: &str) -> Result<Vec<Proc>, AllocError> {
    let mut procs = Vec::new(alloc);
    let mut args = Vec::new(alloc);
    args.push(Arg::make(alloc, Mode::In, "Fid", Ty::Uint)?)?;
    args.push(Arg::make(alloc, Mode::InOut, arg, Ty::Uint)?)?;
    procs.push(Proc {
        name: String::from_str(alloc, "FetchStatus")?,
        opcode: 132,
        split: false,
        multi: false,
        args,
    })?;
    procs.push(Proc {
        name: String::from_str(alloc, name)?,
        opcode,
        split: true,
        multi: false,
        args: Vec::new(alloc),
    })?;
    Ok(procs)
}

#[test]
fn procedures_differ(rt: HostRuntime) -> Result<(), AllocError> {
    let alloc = rt.alloc();
    assert!(rt; sound(&[], &procs(alloc, "FetchData", 130, "Mode")?));
    assert!(rt; !sound(&[], &procs(alloc, "FetchStatus", 130, "Mode")?));
    assert!(rt; !sound(&[], &procs(alloc, "FetchData", 132, "Mode")?));
    assert!(rt; !sound(&[], &procs(alloc, "FetchData", 130, "Fid")?));
    Ok(())
}

fn is_zeros(value: &Value, n: usize) -> bool {
    match value {
        Value::List(items) => {
            for item in items {
                match item {
                    Value::Number(0) => {}
                    _ => return false,
                }
            }
            items.len() == n
        }
        _ => false,
    }
}

#[test]
fn zero_of_afs_fid_is_three_zeros(rt: HostRuntime) -> Result<(), AllocError> {
    let alloc = rt.alloc();
    let mut types = Vec::new(alloc);
    types.push(afs_fid(alloc)?)?;
    let procs = Vec::new(alloc);
    assert!(rt; sound(&types, &procs));
    let iface = Interface::make(None, None, types, procs);
    let fid = Ty::named(alloc, "AFSFid")?;
    assert!(rt; known(&iface.types, &fid));
    let value = zero(alloc, &iface, &fid)?;
    assert!(rt; is_zeros(&value, 3));
    assert!(rt; fits(&iface, &fid, &value));
    assert!(rt; !fits(&iface, &Ty::Uint, &value));
    Ok(())
}

fn fits_alone(alloc: Global, ty: &Ty, value: Value) -> bool {
    let types = Vec::new(alloc);
    let procs = Vec::new(alloc);
    if !sound(&types, &procs) || !known(&types, ty) {
        return false;
    }
    let iface = Interface::make(None, None, types, procs);
    fits(&iface, ty, &value)
}

#[test]
fn numbers_fit_within_their_bounds(rt: HostRuntime) -> Result<(), AllocError> {
    let alloc = rt.alloc();
    let bounds: [(Ty, i128, i128); 8] = [
        (Ty::Int, -2147483648, 2147483647),
        (Ty::Uint, 0, 4294967295),
        (Ty::Hyper, -9223372036854775808, 9223372036854775807),
        (Ty::Uhyper, 0, 18446744073709551615),
        (Ty::Short, -32768, 32767),
        (Ty::Ushort, 0, 65535),
        (Ty::Char, -128, 127),
        (Ty::Uchar, 0, 255),
    ];
    for (ty, least, greatest) in &bounds {
        assert!(rt; fits_alone(alloc, ty, Value::Number(*least)));
        assert!(rt; fits_alone(alloc, ty, Value::Number(*greatest)));
        assert!(rt; *least > i128::MIN && *greatest < i128::MAX);
        assert!(rt; !fits_alone(alloc, ty, Value::Number(*least - 1)));
        assert!(rt; !fits_alone(alloc, ty, Value::Number(*greatest + 1)));
        assert!(rt; !fits_alone(alloc, ty, Value::Flag(true)));
    }
    Ok(())
}

fn voids(alloc: Global, n: usize) -> Result<Value, AllocError> {
    let mut items = Vec::new(alloc);
    for _ in 0..n {
        items.push(Value::Void)?;
    }
    Ok(Value::List(items))
}

#[test]
fn lists_without_bytes_are_bounded(rt: HostRuntime) -> Result<(), AllocError> {
    let alloc = rt.alloc();
    let list = Ty::up_to(alloc, Ty::Void, 4294967295)?;
    assert!(rt; fits_alone(alloc, &list, voids(alloc, 65536)?));
    assert!(rt; !fits_alone(alloc, &list, voids(alloc, 65537)?));
    let fixed = Ty::array(alloc, Ty::Void, 65537)?;
    assert!(rt; fits_alone(alloc, &fixed, voids(alloc, 65537)?));
    assert!(rt; !fits_alone(alloc, &fixed, voids(alloc, 65536)?));
    Ok(())
}
