//! The zero value of each type.

ghost use Rattle.std.specs.Prelude.{◌≡◌, IfOk, IsTrue, map, option_map, replicate};
ghost use Rattle.xdr_value.specs.Data.{octets};
ghost use Rattle.xdr_value.specs.View.{kind_of, types_of, value_of, values_of, part_of, member_of, choice_of};
ghost use Rattle.xdr_value.specs.HeadView.{tag_view};
ghost use Rattle.xdr_value.specs.Hollow.{core};
ghost use Rattle.xdr_value.specs.Fits.{Fits};
ghost use Rattle.xdr_value.specs.Zero.{copies, wrapped, basic_zero, core_zero, kind_zero, parts_zero, arm_zero};
ghost use Rattle.xdr_value.specs.Zero.{first_number, tag_zero, first_case, tag_value, union_zero, name_zero, zero_of};
ghost use Rattle.xdr_value.specs.Tests.{is_known};

use crate::chains::{reached, resolve};
use crate::def::{Arm, Field, Member, Shape};
use crate::ends::core_of;
use crate::head::{Tag, arm_of, as_tag};
use crate::interface::Interface;
use crate::ty::Ty;
use crate::value::Value;
use std::alloc::{AllocError, Global};

fn copies(alloc: Global, n: u32, value: &Value) -> Result<Vec<Value>, AllocError>
    ensures { IfOk result (λ v. values_of v.items ≡ copies n (value_of value.now)) }
{
    let mut items = Vec::new(alloc);
    for _ in 0..n {
        items.push(value.copied(alloc)?)?;
    }
    Ok(items)
}

fn wrapped(alloc: Global, ty: &Ty, inner: Value) -> Result<Value, AllocError>
    ensures { IfOk result (λ v. value_of v ≡ wrapped (kind_of ty.now) (value_of inner)) }
{
    match ty {
        Ty::Array(of, n) => {
            let item = wrapped(alloc, of, inner)?;
            Ok(Value::List(copies(alloc, *n, &item)?))
        }
        Ty::ArrayUpTo(_, _) | Ty::Maybe(_) | Ty::Named(_, _) => Ok(inner),
        Ty::Int | Ty::Uint | Ty::Hyper | Ty::Uhyper => Ok(inner),
        Ty::Short | Ty::Ushort | Ty::Char | Ty::Uchar | Ty::Bool | Ty::Void => Ok(inner),
        Ty::Opaque(_) | Ty::OpaqueUpTo(_) | Ty::Text(_) => Ok(inner),
    }
}

fn zero_bytes(alloc: Global, n: u32) -> Result<Value, AllocError>
    ensures { IfOk result (λ v. value_of v ≡ octets (replicate n 0)) }
{
    let mut bytes = Vec::new(alloc);
    for _ in 0..n {
        bytes.push(0)?;
    }
    Ok(Value::Octets(bytes))
}

fn first_number(members: &Vec<Member>) -> i64
    ensures { result ≡ first_number (map member_of members.now.items) }
{
    if members.is_empty() {
        0
    } else {
        members[0].number
    }
}

fn tag_zero(tag: Tag<'_>) -> i64
    ensures { result ≡ tag_zero (tag_view tag.entry) }
{
    match tag {
        Tag::Enum(members) => first_number(members),
        Tag::Int | Tag::Uint | Tag::Bool | Tag::Other => 0,
    }
}

fn first_case(tag: Tag<'_>, arms: &Vec<Arm>) -> i64
    ensures { result ≡ first_case (tag_view tag.entry) (map choice_of arms.now.items) }
{
    for arm in arms {
        if let Some(case) = arm.case {
            return case;
        }
    }
    tag_zero(tag)
}

fn tag_value(tag: Tag<'_>, n: i64) -> Value
    ensures { value_of result ≡ tag_value (tag_view tag.entry) n }
{
    match tag {
        Tag::Bool => Value::Flag(n == 1),
        Tag::Int | Tag::Uint | Tag::Enum(_) | Tag::Other => Value::Number(n as i128),
    }
}

#[cycle(zero)]
fn core_zero(alloc: Global, iface: &Interface, ty: &Ty, hops: usize) -> Result<Value, AllocError>
    ensures { IfOk result
        (λ v. value_of v ≡ core_zero (name_zero hops (types_of iface.now.types.items)) (kind_of ty.now)) }
{
    match ty {
        Ty::Named(name, place) => name_zero(alloc, iface, name.as_str(), *place, hops),
        Ty::Opaque(n) => zero_bytes(alloc, *n),
        Ty::OpaqueUpTo(_) | Ty::Text(_) => Ok(Value::Octets(Vec::new(alloc))),
        Ty::Array(_, _) | Ty::Void => Ok(Value::Void),
        Ty::ArrayUpTo(_, _) => Ok(Value::List(Vec::new(alloc))),
        Ty::Maybe(_) => Ok(Value::Maybe(None)),
        Ty::Bool => Ok(Value::Flag(false)),
        Ty::Int | Ty::Uint | Ty::Hyper | Ty::Uhyper => Ok(Value::Number(0)),
        Ty::Short | Ty::Ushort | Ty::Char | Ty::Uchar => Ok(Value::Number(0)),
    }
}

#[cycle(zero)]
fn ty_zero(alloc: Global, iface: &Interface, ty: &Ty, hops: usize) -> Result<Value, AllocError>
    ensures { IfOk result
        (λ v. value_of v ≡ kind_zero (name_zero hops (types_of iface.now.types.items)) (kind_of ty.now)) }
{
    let inner = core_zero(alloc, iface, core_of(ty), hops)?;
    Ok(wrapped(alloc, ty, inner)?)
}

#[cycle(zero)]
fn fields_zero(
    alloc: Global,
    iface: &Interface,
    fields: &Vec<Field>,
    hops: usize,
) -> Result<Vec<Value>, AllocError>
    ensures { IfOk result (λ v. values_of v.items ≡
        parts_zero (name_zero hops (types_of iface.now.types.items)) (map part_of fields.now.items)) }
{
    let mut items = Vec::new(alloc);
    for field in fields {
        items.push(ty_zero(alloc, iface, &field.ty, hops)?)?;
    }
    Ok(items)
}

#[cycle(zero)]
fn arm_zero(
    alloc: Global,
    iface: &Interface,
    arm: Option<&Arm>,
    hops: usize,
) -> Result<Value, AllocError>
    ensures { IfOk result (λ v. value_of v ≡
        arm_zero (name_zero hops (types_of iface.now.types.items)) (option_map (λ a. choice_of a.now) arm.entry)) }
{
    match arm {
        None => Ok(Value::Void),
        Some(arm) => match &arm.field {
            None => Ok(Value::Void),
            Some(field) => Ok(ty_zero(alloc, iface, &field.ty, hops)?),
        },
    }
}

#[cycle(zero)]
fn union_zero(
    alloc: Global,
    iface: &Interface,
    tag: Tag<'_>,
    arms: &Vec<Arm>,
    hops: usize,
) -> Result<Value, AllocError>
    ensures { IfOk result (λ v. value_of v ≡
        union_zero (name_zero hops (types_of iface.now.types.items)) (tag_view tag.entry)
        (map choice_of arms.now.items)) }
{
    let case = first_case(tag, arms);
    let inner = arm_zero(alloc, iface, arm_of(arms, case as i128), hops)?;
    Ok(Value::Union(
        Box::new(alloc, tag_value(tag, case))?,
        Box::new(alloc, inner)?,
    ))
}

#[cycle(zero)]
#[tactic(auto, unfolding(crate::specs::Zero::name_zero))]
fn name_zero(
    alloc: Global,
    iface: &Interface,
    name: &str,
    place: usize,
    hops: usize,
) -> Result<Value, AllocError>
    ensures { IfOk result (λ v. value_of v ≡ name_zero hops (types_of iface.now.types.items) name.now) }
{
    match reached(iface, name, place, hops) {
        None => Ok(Value::Void),
        Some(end) => match end.shape {
            Shape::Alias(ty) => Ok(ty_zero(alloc, iface, ty, end.hops)?),
            Shape::Enum(members) => Ok(Value::Number(first_number(members) as i128)),
            Shape::Struct(fields) => Ok(Value::List(fields_zero(alloc, iface, fields, end.hops)?)),
            Shape::Union { tag, arms } => {
                let tag = as_tag(resolve(iface, tag));
                Ok(union_zero(alloc, iface, tag, arms, end.hops)?)
            }
        },
    }
}

#[tactic(auto, unfolding(crate::specs::Zero::zero_of))]
fn zero_among(alloc: Global, iface: &Interface, ty: &Ty) -> Result<Value, AllocError>
    ensures { IfOk result (λ v. value_of v ≡ zero_of (types_of iface.now.types.items) (kind_of ty.now)) }
{
    Ok(ty_zero(alloc, iface, ty, iface.types.len())?)
}

/// The zero value of the type: 0, false, the first member of an enum, zero bytes, empty variable
/// forms, zero elements and fields, no optional data, and of a union its first case with its zero
/// arm, or else the default with the tag's zero.
pub fn zero(alloc: Global, iface: &Interface, ty: &Ty) -> Result<Value, AllocError>
    requires { IsTrue (is_known (types_of iface.now.types.items) (kind_of ty.now)) }
    ensures value { IfOk result (λ v. value_of v ≡ zero_of (types_of iface.now.types.items) (kind_of ty.now)) }
    ensures fits { IfOk result (λ v. Fits (types_of iface.now.types.items) (kind_of ty.now) (value_of v)) }
{
    Ok(zero_among(alloc, iface, ty)?)
}
