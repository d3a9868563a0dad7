//! Reading values from left to right.

ghost use Rattle.std.specs.Prelude.{◌≡◌, ◌≤◌, ◌/◌, IfOk, Some, [], length, map, vec_capacity};
ghost use Rattle.xdr_value.specs.Data.{Kind};
ghost use Rattle.xdr_value.specs.View.{kind_of, types_of, value_of, values_of, part_of, choice_of};
ghost use Rattle.xdr_value.specs.Heads.{is_struct, arm_kind, head_of};
ghost use Rattle.xdr_value.specs.HeadView.{head_view};
ghost use Rattle.xdr_value.specs.declared.ty.Basic.TheVariants as basics;
ghost use Rattle.xdr_code.specs.Reading.{Gives, Adds, basic_at, maybe_at, chosen_at, parts_at, elements_at, head_at};
ghost use Rattle.xdr_code.specs.Reading.{value_at};

use crate::fault::{Fault, Stop, Why};
use crate::items::{limited, read_tag, word};
use crate::leaves::{basic, leaf, member, signed_number, unsigned_number};
use std::alloc::{AllocError, Global};
use xdr_value::{
    Arm, Basic, Field, Head, Interface, MAX_LEVELS, Ty, Value, arm_of, list_limit, resolve,
    tag_number,
};

#[cycle(value)]
fn value<'a>(
    alloc: Global,
    iface: &Interface,
    levels: u32,
    ty: &Ty,
    bytes: &'a [u8],
) -> Result<(Value, &'a [u8]), Stop>
    ensures { Gives (λ x. (value_of x.0, x.1.now)) result
        (value_at levels (types_of iface.now.types.items) (kind_of ty.now) bytes.now) }
{
    headed(alloc, iface, levels, resolve(iface, ty), bytes)
}

// A value of a type whose head was looked up.
#[cycle(value)]
#[tactic(auto, unfolding(crate::specs::Reading::value_at))]
fn headed<'a>(
    alloc: Global,
    iface: &Interface,
    levels: u32,
    head: Head<'_>,
    bytes: &'a [u8],
) -> Result<(Value, &'a [u8]), Stop>
    ensures { (k : Kind) → head_view head.entry ≡ head_of (types_of iface.now.types.items) k
        → Gives (λ x. (value_of x.0, x.1.now)) result
        (value_at levels (types_of iface.now.types.items) k bytes.now) }
{
    if levels == 0 {
        leaf(alloc, head, bytes)
    } else {
        inside(alloc, iface, levels - 1, head, bytes)
    }
}

// Puts the struct at the front behind the items.
#[inline(always)]
#[cycle(value)]
#[tactic(auto, unfolding(crate::specs::Reading::head_at))]
fn struct_onto<'a>(
    items: &mut Vec<Value>,
    alloc: Global,
    iface: &Interface,
    levels: u32,
    fields: &Vec<Field>,
    bytes: &'a [u8],
) -> Result<&'a [u8], Stop>
    ensures { Adds items.old.items items.new.items (λ r. r.now) result
        (head_at (types_of iface.now.types.items) (Some (value_at levels (types_of iface.now.types.items)))
        (is_struct (map part_of fields.now.items)) bytes.now) }
{
    let (values, rest) = parts(alloc, iface, levels, fields, bytes)?;
    items.push(Value::List(values))?;
    Ok(rest)
}

// Puts the value at the front, of a type whose head was looked up, behind the items.
#[inline(never)]
#[cycle(value)]
#[tactic(auto, unfolding(crate::specs::Reading::value_at))]
fn headed_onto<'a>(
    items: &mut Vec<Value>,
    alloc: Global,
    iface: &Interface,
    levels: u32,
    head: Head<'_>,
    bytes: &'a [u8],
) -> Result<&'a [u8], Stop>
    ensures { (k : Kind) → head_view head.entry ≡ head_of (types_of iface.now.types.items) k
        → Adds items.old.items items.new.items (λ r. r.now) result
        (value_at levels (types_of iface.now.types.items) k bytes.now) }
{
    match head {
        Head::Struct(fields) if levels > 0 => {
            struct_onto(items, alloc, iface, levels - 1, fields, bytes)
        }
        _ => {
            let (item, rest) = headed(alloc, iface, levels, head, bytes)?;
            items.push(item)?;
            Ok(rest)
        }
    }
}

// Puts the number at the front behind the items.
#[inline(always)]
#[tactic(auto, unfolding(crate::specs::Reading::basic_at))]
fn int_onto<'a>(items: &mut Vec<Value>, bytes: &'a [u8]) -> Result<&'a [u8], Stop>
    ensures { Adds items.old.items items.new.items (λ r. r.now) result
        (basic_at basics.Int bytes.now) }
{
    let (n, rest) = word(bytes)?;
    items.push(signed_number(n))?;
    Ok(rest)
}

#[inline(always)]
#[tactic(auto, unfolding(crate::specs::Reading::basic_at))]
fn uint_onto<'a>(items: &mut Vec<Value>, bytes: &'a [u8]) -> Result<&'a [u8], Stop>
    ensures { Adds items.old.items items.new.items (λ r. r.now) result
        (basic_at basics.Uint bytes.now) }
{
    let (n, rest) = word(bytes)?;
    items.push(unsigned_number(n))?;
    Ok(rest)
}

// Puts the value at the front, a part of a struct, behind the items. An int and an unsigned are read
// without a call.
#[inline(always)]
#[cycle(value)]
fn part_onto<'a>(
    items: &mut Vec<Value>,
    alloc: Global,
    iface: &Interface,
    levels: u32,
    ty: &Ty,
    bytes: &'a [u8],
) -> Result<&'a [u8], Stop>
    ensures { Adds items.old.items items.new.items (λ r. r.now) result
        (value_at levels (types_of iface.now.types.items) (kind_of ty.now) bytes.now) }
{
    match ty {
        Ty::Int => int_onto(items, bytes),
        Ty::Uint => uint_onto(items, bytes),
        _ => headed_onto(items, alloc, iface, levels, resolve(iface, ty), bytes),
    }
}

// The same of an element of an array, whose type was looked up once for all.
#[inline(always)]
#[cycle(value)]
fn element_onto<'a>(
    items: &mut Vec<Value>,
    alloc: Global,
    iface: &Interface,
    levels: u32,
    head: Head<'_>,
    bytes: &'a [u8],
) -> Result<&'a [u8], Stop>
    ensures { (k : Kind) → head_view head.entry ≡ head_of (types_of iface.now.types.items) k
        → Adds items.old.items items.new.items (λ r. r.now) result
        (value_at levels (types_of iface.now.types.items) k bytes.now) }
{
    match head {
        Head::Basic(Basic::Int) => int_onto(items, bytes),
        Head::Basic(Basic::Uint) => uint_onto(items, bytes),
        _ => headed_onto(items, alloc, iface, levels, head, bytes),
    }
}

// Where the levels are those that may begin inside.
#[cycle(value)]
#[tactic(auto, unfolding(crate::specs::Reading::head_at))]
fn inside<'a>(
    alloc: Global,
    iface: &Interface,
    levels: u32,
    head: Head<'_>,
    bytes: &'a [u8],
) -> Result<(Value, &'a [u8]), Stop>
    ensures { Gives (λ x. (value_of x.0, x.1.now)) result
        (head_at (types_of iface.now.types.items) (Some (value_at levels (types_of iface.now.types.items)))
        (head_view head.entry) bytes.now) }
{
    match head {
        Head::Basic(kind) => basic(alloc, kind, bytes),
        Head::Enum(members) => member(members, bytes),
        Head::Unknown => Err(Stop::Fault(Fault::Short)),
        Head::Struct(fields) => {
            let (items, rest) = parts(alloc, iface, levels, fields, bytes)?;
            Ok((Value::List(items), rest))
        }
        Head::Union(kind, arms) => {
            let (chosen, rest) = read_tag(kind, arms, bytes)?;
            chosen_arm(alloc, iface, levels, arms, chosen, rest)
        }
        Head::Array(of, n) => {
            let (items, rest) = elements(alloc, iface, levels, of, n, bytes)?;
            Ok((Value::List(items), rest))
        }
        Head::ArrayUpTo(of, limit) => {
            let (n, rest) = limited(bytes, list_limit(iface, of, limit), Why::Length)?;
            let (items, rest) = elements(alloc, iface, levels, of, n, rest)?;
            Ok((Value::List(items), rest))
        }
        Head::Maybe(of) => optional(alloc, iface, levels, of, bytes),
    }
}

#[cycle(value)]
fn optional<'a>(
    alloc: Global,
    iface: &Interface,
    levels: u32,
    of: &Ty,
    bytes: &'a [u8],
) -> Result<(Value, &'a [u8]), Stop>
    ensures { Gives (λ x. (value_of x.0, x.1.now)) result
        (maybe_at (value_at levels (types_of iface.now.types.items)) (kind_of of.now) bytes.now) }
{
    let (n, rest) = limited(bytes, 1, Why::Bool)?;
    if n == 0 {
        return Ok((Value::Maybe(None), rest));
    }
    let (inner, rest) = value(alloc, iface, levels, of, rest)?;
    Ok((Value::there(alloc, inner)?, rest))
}

#[cycle(value)]
fn chosen_arm<'a>(
    alloc: Global,
    iface: &Interface,
    levels: u32,
    arms: &Vec<Arm>,
    chosen: Value,
    bytes: &'a [u8],
) -> Result<(Value, &'a [u8]), Stop>
    ensures { Gives (λ x. (value_of x.0, x.1.now)) result
        (chosen_at (value_at levels (types_of iface.now.types.items)) (map choice_of arms.now.items)
        (value_of chosen, bytes.now)) }
{
    match arm_of(arms, tag_number(&chosen)) {
        // No tag that is read lacks its arm.
        None => Err(Stop::Fault(Fault::Short)),
        Some(of) => {
            let (inner, rest) = arm(alloc, iface, levels, of, bytes)?;
            Ok((Value::chosen(alloc, chosen, inner)?, rest))
        }
    }
}

#[cycle(value)]
fn arm<'a>(
    alloc: Global,
    iface: &Interface,
    levels: u32,
    arm: &Arm,
    bytes: &'a [u8],
) -> Result<(Value, &'a [u8]), Stop>
    ensures { Gives (λ x. (value_of x.0, x.1.now)) result
        (value_at levels (types_of iface.now.types.items) (arm_kind (choice_of arm.now)) bytes.now) }
{
    match &arm.field {
        None => value(alloc, iface, levels, &Ty::Void, bytes),
        Some(field) => value(alloc, iface, levels, &field.ty, bytes),
    }
}

// Kept apart from `inside`, where the compiler would push each number by a call.
#[inline(never)]
#[cycle(value)]
fn parts<'a>(
    alloc: Global,
    iface: &Interface,
    levels: u32,
    fields: &Vec<Field>,
    bytes: &'a [u8],
) -> Result<(Vec<Value>, &'a [u8]), Stop>
    ensures { Gives (λ x. (values_of x.0.items, x.1.now)) result
        (parts_at (value_at levels (types_of iface.now.types.items)) (map part_of fields.now.items) bytes.now) }
{
    let mut items = Vec::with_capacity(alloc, fields.len())?;
    let mut rest = bytes;
    for field in fields {
        rest = part_onto(&mut items, alloc, iface, levels, &field.ty, rest)?;
    }
    Ok((items, rest))
}

// An empty list, with room for as many elements as its count says, but for no more than the bytes
// can hold: an element that takes bytes takes at least four.
fn room_for(alloc: Global, n: u32, bytes: &[u8]) -> Result<Vec<Value>, AllocError>
    ensures empty { IfOk result (λ v. v.items ≡ []) }
    ensures counted { IfOk result (λ v. vec_capacity v ≤ n) }
    ensures held { IfOk result (λ v. vec_capacity v ≤ length bytes.now / 4) }
{
    Vec::with_capacity(alloc, (n as usize).min(bytes.len() / 4))
}

#[cycle(value)]
fn elements<'a>(
    alloc: Global,
    iface: &Interface,
    levels: u32,
    of: &Ty,
    n: u32,
    bytes: &'a [u8],
) -> Result<(Vec<Value>, &'a [u8]), Stop>
    ensures { Gives (λ x. (values_of x.0.items, x.1.now)) result
        (elements_at (value_at levels (types_of iface.now.types.items)) (kind_of of.now) n bytes.now) }
{
    let room = room_for(alloc, n, bytes)?;
    elements_in(room, alloc, iface, levels, of, n, bytes)
}

// The elements in an empty list, whose room is no more than the bytes can hold.
#[inline(always)]
#[cycle(value)]
fn elements_in<'a>(
    room: Vec<Value>,
    alloc: Global,
    iface: &Interface,
    levels: u32,
    of: &Ty,
    n: u32,
    bytes: &'a [u8],
) -> Result<(Vec<Value>, &'a [u8]), Stop>
    requires empty { room.items ≡ [] }
    requires held { vec_capacity room ≤ length bytes.now / 4 }
    ensures { Gives (λ x. (values_of x.0.items, x.1.now)) result
        (elements_at (value_at levels (types_of iface.now.types.items)) (kind_of of.now) n bytes.now) }
{
    let head = resolve(iface, of);
    let mut items = room;
    let mut rest = bytes;
    for _ in 0..n {
        rest = element_onto(&mut items, alloc, iface, levels, head, rest)?;
    }
    Ok((items, rest))
}

/// One value for each field from left to right, where each may hold `MAX_LEVELS` levels, and the
/// bytes behind them; or the first thing from the left that stops the reading.
pub fn read_fields<'a>(
    alloc: Global,
    iface: &Interface,
    fields: &Vec<Field>,
    bytes: &'a [u8],
) -> Result<(Vec<Value>, &'a [u8]), Stop>
    ensures { Gives (λ x. (values_of x.0.items, x.1.now)) result
        (parts_at (value_at MAX_LEVELS (types_of iface.now.types.items)) (map part_of fields.now.items) bytes.now) }
{
    parts(alloc, iface, MAX_LEVELS, fields, bytes)
}

/// A value of the type and the bytes behind it.
pub fn read_value<'a>(
    alloc: Global,
    iface: &Interface,
    ty: &Ty,
    bytes: &'a [u8],
) -> Result<(Value, &'a [u8]), Stop>
    ensures { Gives (λ x. (value_of x.0, x.1.now)) result
        (value_at MAX_LEVELS (types_of iface.now.types.items) (kind_of ty.now) bytes.now) }
{
    value(alloc, iface, MAX_LEVELS, ty, bytes)
}
