//! Writing values.

ghost use Rattle.std.specs.Prelude.{◌≡◌, ◌<◌, ◌≤◌, ◌^◌, ◌++◌, length, map, replicate, IfOk, OnOk};
ghost use Rattle.std.specs.Int.{w32, w64, to_be_bytes, cast_unsigned};
ghost use Rattle.xdr_value.specs.View.{kind_of, types_of, value_of, values_of, part_of, choice_of};
ghost use Rattle.xdr_value.specs.HeadView.{head_view, tag_view};
ghost use Rattle.xdr_value.specs.Ranges.{IsBelow, IsWithin};
ghost use Rattle.xdr_value.specs.Heads.{head_of, arm_of, arm_kind};
ghost use Rattle.xdr_value.specs.Fits.{Fits, PartsFit, AllFit, NumberFits, OctetsFit, ItemsFit, TagFits, ArmFits};
ghost use Rattle.xdr_value.specs.Fits.{tag_number, count, depth};
ghost use Rattle.xdr_value.specs.Spelling.{word, padded, spelling, parts_spelling, all_spelling, number_spelling};
ghost use Rattle.xdr_value.specs.Spelling.{octets_spelling, items_spelling, tag_spelling, arm_spelling};

use crate::words::{are_words, is_word, low_word, put_one, put_rows, put_word, put_words};
use std::alloc::{AllocError, Global};
use xdr_value::{
    Arm, Basic, Field, Head, Interface, MAX_LEVELS, Tag, Ty, Value, arm_of, resolve, tag_number,
};

fn put_hyper(out: &mut Vec<u8>, n: i128) -> Result<(), AllocError>
    requires { IsWithin (2 ^ 63) n }
    ensures { OnOk result (out.new.items ≡ out.old.items ++ to_be_bytes w64 (cast_unsigned w64 n)) }
{
    out.extend_from_slice(&(n as i64).cast_unsigned().to_be_bytes())?;
    Ok(())
}

fn put_uhyper(out: &mut Vec<u8>, n: i128) -> Result<(), AllocError>
    requires { IsBelow (2 ^ 64) n }
    ensures { OnOk result (out.new.items ≡ out.old.items ++ to_be_bytes w64 (cast_unsigned w64 n)) }
{
    out.extend_from_slice(&(n as u64).to_be_bytes())?;
    Ok(())
}

fn put_number(out: &mut Vec<u8>, n: i128, head: Head) -> Result<(), AllocError>
    requires { NumberFits (head_view head) n }
    ensures { OnOk result (out.new.items ≡ out.old.items ++ number_spelling (head_view head.entry) n) }
{
    match head {
        Head::Basic(kind) => match kind {
            Basic::Hyper => put_hyper(out, n),
            Basic::Uhyper => put_uhyper(out, n),
            Basic::Int | Basic::Uint | Basic::Short | Basic::Ushort | Basic::Char | Basic::Uchar =>
                { put_word(out, low_word(n)) }
            Basic::Bool | Basic::Void => Ok(()),
            Basic::Opaque(_) | Basic::OpaqueUpTo(_) | Basic::Text(_) => Ok(()),
        },
        Head::Enum(_) => put_word(out, low_word(n)),
        Head::Struct(_) | Head::Union(_, _) | Head::Array(_, _) => Ok(()),
        Head::ArrayUpTo(_, _) | Head::Maybe(_) | Head::Unknown => Ok(()),
    }
}

fn put_tag(out: &mut Vec<u8>, value: &Value, tag: Tag) -> Result<(), AllocError>
    requires { TagFits (tag_view tag) (value_of value.now) }
    ensures { OnOk result (out.new.items ≡ out.old.items ++ tag_spelling (value_of value.now)) }
{
    match value {
        Value::Number(n) => match tag {
            Tag::Int | Tag::Uint | Tag::Enum(_) => put_word(out, low_word(*n)),
            Tag::Bool | Tag::Other => Ok(()),
        },
        Value::Flag(b) => put_word(out, if *b { 1 } else { 0 }),
        Value::Octets(_) | Value::List(_) | Value::Union(_, _) => Ok(()),
        Value::Maybe(_) | Value::Void => Ok(()),
    }
}

fn put_padded(out: &mut Vec<u8>, bytes: &Vec<u8>) -> Result<(), AllocError>
    ensures { OnOk result (out.new.items ≡ out.old.items ++ padded bytes.now.items) }
{
    out.extend_from_slice(bytes)?;
    for _ in 0..(4 - bytes.len() % 4) % 4 {
        out.push(0)?;
    }
    Ok(())
}

fn put_octets(out: &mut Vec<u8>, bytes: &Vec<u8>, head: Head) -> Result<(), AllocError>
    requires { OctetsFit (head_view head) bytes.now.items }
    ensures { OnOk result (out.new.items ≡ out.old.items ++ octets_spelling (head_view head.entry) bytes.now.items) }
{
    match head {
        Head::Basic(kind) => match kind {
            Basic::Opaque(_) => put_padded(out, bytes),
            Basic::OpaqueUpTo(_) | Basic::Text(_) => {
                put_word(out, bytes.len() as u32)?;
                put_padded(out, bytes)
            }
            Basic::Int | Basic::Uint | Basic::Hyper | Basic::Uhyper => Ok(()),
            Basic::Short | Basic::Ushort | Basic::Char | Basic::Uchar => Ok(()),
            Basic::Bool | Basic::Void => Ok(()),
        },
        Head::Enum(_) | Head::Struct(_) | Head::Union(_, _) | Head::Array(_, _) => Ok(()),
        Head::ArrayUpTo(_, _) | Head::Maybe(_) | Head::Unknown => Ok(()),
    }
}

#[cycle(put)]
fn put_value(out: &mut Vec<u8>, v: &Value, iface: &Interface, ty: &Ty) -> Result<(), AllocError>
    requires { Fits (types_of iface.now.types.items) (kind_of ty.now) (value_of v.now) }
    ensures { OnOk result (out.new.items ≡ out.old.items
        ++ spelling (types_of iface.now.types.items) (kind_of ty.now) (value_of v.now)) }
{
    if is_word(ty) {
        return put_one(out, v);
    }
    match v {
        Value::Number(n) => put_number(out, *n, resolve(iface, ty)),
        Value::Flag(b) => put_word(out, if *b { 1 } else { 0 }),
        Value::Octets(bytes) => put_octets(out, bytes, resolve(iface, ty)),
        Value::List(items) => put_items(out, items, iface, resolve(iface, ty)),
        Value::Union(chosen, inner) => match resolve(iface, ty) {
            Head::Union(tag, arms) => put_union(out, inner, chosen, iface, tag, arms),
            Head::Basic(_) | Head::Enum(_) | Head::Struct(_) | Head::Array(_, _) => Ok(()),
            Head::ArrayUpTo(_, _) | Head::Maybe(_) | Head::Unknown => Ok(()),
        },
        Value::Maybe(inner) => match inner {
            None => put_word(out, 0),
            Some(inner) => match resolve(iface, ty) {
                Head::Maybe(of) => {
                    put_word(out, 1)?;
                    put_value(out, inner, iface, of)?;
                    Ok(())
                }
                Head::Basic(_) | Head::Enum(_) | Head::Struct(_) | Head::Union(_, _) => Ok(()),
                Head::Array(_, _) | Head::ArrayUpTo(_, _) | Head::Unknown => Ok(()),
            },
        },
        Value::Void => Ok(()),
    }
}

#[cycle(put)]
fn put_items(
    out: &mut Vec<u8>,
    items: &Vec<Value>,
    iface: &Interface,
    head: Head,
) -> Result<(), AllocError>
    requires { ItemsFit (types_of iface.now.types.items) (head_view head)
        (λ ps. PartsFit (types_of iface.now.types.items) ps (values_of items.now.items))
        (λ k. AllFit (types_of iface.now.types.items) k (values_of items.now.items))
        (count (values_of items.now.items)) }
    ensures { OnOk result (out.new.items ≡ out.old.items ++ items_spelling (head_view head.entry)
        (λ ps. parts_spelling (types_of iface.now.types.items) ps (values_of items.now.items))
        (λ k. all_spelling (types_of iface.now.types.items) k (values_of items.now.items))
        (count (values_of items.now.items))) }
{
    match head {
        Head::Struct(fields) => put_parts(out, items, iface, fields),
        Head::Array(of, _) => put_all(out, items, iface, of),
        Head::ArrayUpTo(of, _) => {
            put_word(out, items.len() as u32)?;
            put_all(out, items, iface, of)?;
            Ok(())
        }
        Head::Basic(_) | Head::Enum(_) | Head::Union(_, _) => Ok(()),
        Head::Maybe(_) | Head::Unknown => Ok(()),
    }
}

// One of a list whose type was looked up.
#[inline(always)]
#[cycle(put)]
fn put_element(
    out: &mut Vec<u8>,
    v: &Value,
    iface: &Interface,
    ty: &Ty,
    head: Head,
) -> Result<(), AllocError>
    requires head { head_view head ≡ head_of (types_of iface.now.types.items) (kind_of ty.now) }
    requires fits { Fits (types_of iface.now.types.items) (kind_of ty.now) (value_of v.now) }
    ensures { OnOk result (out.new.items ≡ out.old.items
        ++ spelling (types_of iface.now.types.items) (kind_of ty.now) (value_of v.now)) }
{
    match v {
        Value::List(items) => put_items(out, items, iface, head),
        _ => put_value(out, v, iface, ty),
    }
}

#[cycle(put)]
fn put_union(
    out: &mut Vec<u8>,
    inner: &Value,
    chosen: &Value,
    iface: &Interface,
    tag: Tag,
    arms: &Vec<Arm>,
) -> Result<(), AllocError>
    requires tag { TagFits (tag_view tag) (value_of chosen.now) }
    requires arm { ArmFits (arm_of (tag_number (value_of chosen.now)) (map choice_of arms.now.items))
        (λ k. Fits (types_of iface.now.types.items) k (value_of inner.now)) }
    ensures { OnOk result (out.new.items ≡ out.old.items
        ++ (tag_spelling (value_of chosen.now)
        ++ arm_spelling (arm_of (tag_number (value_of chosen.now)) (map choice_of arms.now.items))
        (λ k. spelling (types_of iface.now.types.items) k (value_of inner.now)))) }
{
    put_tag(out, chosen, tag)?;
    match arm_of(arms, tag_number(chosen)) {
        None => Ok(()),
        Some(arm) => {
            put_arm(out, inner, iface, arm)?;
            Ok(())
        }
    }
}

#[cycle(put)]
fn put_arm(out: &mut Vec<u8>, inner: &Value, iface: &Interface, arm: &Arm) -> Result<(), AllocError>
    requires { Fits (types_of iface.now.types.items) (arm_kind (choice_of arm.now)) (value_of inner.now) }
    ensures { OnOk result (out.new.items ≡ out.old.items
        ++ spelling (types_of iface.now.types.items) (arm_kind (choice_of arm.now)) (value_of inner.now)) }
{
    match &arm.field {
        None => put_value(out, inner, iface, &Ty::Void),
        Some(field) => put_value(out, inner, iface, &field.ty),
    }
}

#[cycle(put)]
fn put_parts(
    out: &mut Vec<u8>,
    items: &Vec<Value>,
    iface: &Interface,
    fields: &Vec<Field>,
) -> Result<(), AllocError>
    requires { PartsFit (types_of iface.now.types.items) (map part_of fields.now.items) (values_of items.now.items) }
    ensures { OnOk result (out.new.items ≡ out.old.items
        ++ parts_spelling (types_of iface.now.types.items) (map part_of fields.now.items) (values_of items.now.items)) }
{
    if are_words(fields) {
        return put_words(out, items);
    }
    for i in 0..items.len() {
        put_value(out, &items[i], iface, &fields[i].ty)?;
    }
    Ok(())
}

#[cycle(put)]
fn put_all(
    out: &mut Vec<u8>,
    items: &Vec<Value>,
    iface: &Interface,
    of: &Ty,
) -> Result<(), AllocError>
    requires { AllFit (types_of iface.now.types.items) (kind_of of.now) (values_of items.now.items) }
    ensures { OnOk result (out.new.items ≡ out.old.items
        ++ all_spelling (types_of iface.now.types.items) (kind_of of.now) (values_of items.now.items)) }
{
    if is_word(of) {
        return put_words(out, items);
    }
    let head = resolve(iface, of);
    if let Head::Struct(fields) = head {
        if are_words(fields) {
            return put_rows(out, items, fields.len());
        }
    }
    for item in items {
        put_element(out, item, iface, of, head)?;
    }
    Ok(())
}

/// The spelling of a value that fits, and has at most 64 levels.
pub fn encode(alloc: Global, iface: &Interface, ty: &Ty, v: &Value) -> Result<Vec<u8>, AllocError>
    requires fits { Fits (types_of iface.now.types.items) (kind_of ty.now) (value_of v.now) }
    requires shallow { depth (value_of v.now) ≤ MAX_LEVELS }
    ensures { IfOk result (λ bytes. bytes.items ≡
        spelling (types_of iface.now.types.items) (kind_of ty.now) (value_of v.now)) }
{
    let mut out = Vec::new(alloc);
    put_value(&mut out, v, iface, ty)?;
    Ok(out)
}
