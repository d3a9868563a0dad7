//! Writing values as JSON.

ghost use Rattle.std.specs.Prelude.{◌≡◌, ◌≤◌, map, IfOk, OnOk, Some, Ok, true, false};
ghost use Rattle.hex.specs.Hex.{IsBytes};
ghost use Rattle.serde_json.specs.Data.{array, item as json_item, no_items, no_members};
ghost use Rattle.serde_json.specs.Read.{read};
ghost use Rattle.serde_json.specs.View.{view, items_view, members_view};
ghost use Rattle.serde_json.specs.Written.{compact_text};
ghost use Rattle.std.specs.String.{string_bytes};
ghost use Rattle.xdr_value.specs.View.{kind_of, types_of, value_of, values_of, part_of, member_of, choice_of};
ghost use Rattle.xdr_value.specs.HeadView.{head_view, tag_view};
ghost use Rattle.xdr_value.specs.Heads.{arm_of, arm_kind};
ghost use Rattle.xdr_value.specs.Fits.{Fits, PartsFit, AllFit, NumberFits, OctetsFit, TagFits, ArmFits, tag_number};
ghost use Rattle.xdr_value.specs.Fits.{depth};
ghost use Rattle.xdr_json.specs.Answers.{value_in};
ghost use Rattle.xdr_json.specs.Bytes.{OctetsAreBytes, AllAreBytes};
ghost use Rattle.xdr_json.specs.Says.{TextSays};
ghost use Rattle.xdr_json.specs.Json.{FitsInteger, integer_json, member_name, number_json, hex_object, text_or_hex};
ghost use Rattle.xdr_json.specs.Json.{octets_json};
ghost use Rattle.xdr_json.specs.Json.{tag_json, union_object, arm_json, json_of, members_json, elements_json};

use serde_json::{Map, Value as Json};
use std::alloc::{AllocError, Global};
use xdr_value::{
    Arm, Basic, Field, Head, Interface, MAX_LEVELS, Member, Tag, Ty, Value, arm_of, resolve,
    tag_number,
};

fn member_name(members: &Vec<Member>, number: i128) -> &str
    ensures { result.now ≡ member_name (map member_of members.now.items) number }
{
    for member in members {
        if member.number as i128 == number {
            return member.name.as_str();
        }
    }
    ""
}

fn integer_json(n: i128) -> Json
    requires { FitsInteger n }
    ensures { view result ≡ integer_json n }
{
    if n < 0 {
        Json::from(n as i64)
    } else {
        Json::from(n as u64)
    }
}

fn number_json(alloc: Global, head: Head<'_>, n: i128) -> Result<Json, AllocError>
    requires { NumberFits (head_view head) n }
    ensures { IfOk result (λ j. view j ≡ number_json (head_view head.entry) n) }
{
    match head {
        Head::Enum(members) => Json::try_from_str(alloc, member_name(members, n)),
        Head::Basic(basic) => match basic {
            Basic::Int | Basic::Uint | Basic::Hyper | Basic::Uhyper => Ok(integer_json(n)),
            Basic::Short | Basic::Ushort | Basic::Char | Basic::Uchar => Ok(integer_json(n)),
            Basic::Bool | Basic::Void => Ok(Json::Null),
            Basic::Opaque(_) | Basic::OpaqueUpTo(_) | Basic::Text(_) => Ok(Json::Null),
        },
        Head::Struct(_) | Head::Union(_, _) | Head::Array(_, _) => Ok(Json::Null),
        Head::ArrayUpTo(_, _) | Head::Maybe(_) | Head::Unknown => Ok(Json::Null),
    }
}

fn hex_json(alloc: Global, bytes: &Vec<u8>) -> Result<Json, AllocError>
    ensures { IfOk result (λ j. view j ≡ text_or_hex false bytes.now.items) }
{
    Ok(Json::String(hex::encode(alloc, bytes.as_slice())?))
}

fn hex_object(alloc: Global, bytes: &Vec<u8>) -> Result<Json, AllocError>
    ensures { IfOk result (λ j. view j ≡ hex_object bytes.now.items) }
{
    let digits = hex_json(alloc, bytes)?;
    let mut members = Map::new(alloc);
    serde_json::put(&mut members, alloc, "hex", digits)?;
    Ok(Json::Object(members))
}

fn text_json(alloc: Global, bytes: &Vec<u8>) -> Result<Json, AllocError>
    ensures { IfOk result (λ j. view j ≡ text_or_hex true bytes.now.items) }
{
    match std::str::from_utf8(bytes.as_slice()) {
        Ok(text) => Json::try_from_str(alloc, text),
        Err(_) => hex_object(alloc, bytes),
    }
}

fn octets_json(alloc: Global, head: Head<'_>, bytes: &Vec<u8>) -> Result<Json, AllocError>
    ensures json { IfOk result (λ j. view j ≡ octets_json (head_view head.entry) bytes.now.items) }
    ensures held { IsBytes bytes.now.items }
{
    match head {
        Head::Basic(basic) => match basic {
            Basic::Text(_) => text_json(alloc, bytes),
            Basic::Int | Basic::Uint | Basic::Hyper | Basic::Uhyper => hex_json(alloc, bytes),
            Basic::Short | Basic::Ushort | Basic::Char | Basic::Uchar => hex_json(alloc, bytes),
            Basic::Bool | Basic::Void => hex_json(alloc, bytes),
            Basic::Opaque(_) | Basic::OpaqueUpTo(_) => hex_json(alloc, bytes),
        },
        Head::Enum(_) | Head::Struct(_) | Head::Union(_, _) => hex_json(alloc, bytes),
        Head::Array(_, _) | Head::ArrayUpTo(_, _) => hex_json(alloc, bytes),
        Head::Maybe(_) | Head::Unknown => hex_json(alloc, bytes),
    }
}

fn tag_json(alloc: Global, tag: Tag<'_>, value: &Value) -> Result<Json, AllocError>
    requires { TagFits (tag_view tag) (value_of value.now) }
    ensures { IfOk result (λ j. view j ≡ tag_json (tag_view tag.entry) (value_of value.now)) }
{
    match value {
        Value::Number(n) => match tag {
            Tag::Enum(members) => Json::try_from_str(alloc, member_name(members, *n)),
            Tag::Int | Tag::Uint => Ok(integer_json(*n)),
            Tag::Bool | Tag::Other => Ok(Json::Null),
        },
        Value::Flag(b) => Ok(Json::Bool(*b)),
        Value::Octets(_) | Value::List(_) | Value::Union(_, _) => Ok(Json::Null),
        Value::Maybe(_) | Value::Void => Ok(Json::Null),
    }
}

fn union_object(alloc: Global, tag: Json, arm: Json) -> Result<Json, AllocError>
    ensures { IfOk result (λ j. view j ≡ union_object (view tag) (view arm)) }
{
    let mut members = Map::new(alloc);
    serde_json::put(&mut members, alloc, "case", tag)?;
    serde_json::put(&mut members, alloc, "value", arm)?;
    Ok(Json::Object(members))
}

// The clause `held` says what Rust's types do: each octet of a value is a byte.
#[cycle(json)]
fn value_json(v: &Value, alloc: Global, iface: &Interface, ty: &Ty) -> Result<Json, AllocError>
    requires { Fits (types_of iface.now.types.items) (kind_of ty.now) (value_of v.now) }
    ensures json { IfOk result
        (λ j. view j ≡ json_of (types_of iface.now.types.items) (kind_of ty.now) (value_of v.now)) }
    ensures held { OnOk result (OctetsAreBytes (value_of v.now)) }
{
    match v {
        Value::Number(n) => number_json(alloc, resolve(iface, ty), *n),
        Value::Flag(b) => Ok(Json::Bool(*b)),
        Value::Octets(bytes) => octets_json(alloc, resolve(iface, ty), bytes),
        Value::List(items) => match resolve(iface, ty) {
            Head::Struct(fields) => Ok(Json::Object(members_json(items, alloc, iface, fields)?)),
            Head::Array(of, _) => Ok(Json::Array(elements_json(items, alloc, iface, of)?)),
            Head::ArrayUpTo(of, _) => Ok(Json::Array(elements_json(items, alloc, iface, of)?)),
            Head::Basic(_) | Head::Enum(_) | Head::Union(_, _) => Ok(Json::Null),
            Head::Maybe(_) | Head::Unknown => Ok(Json::Null),
        },
        Value::Union(chosen, inner) => match resolve(iface, ty) {
            Head::Union(tag, arms) => union_json(inner, alloc, chosen, iface, tag, arms),
            Head::Basic(_) | Head::Enum(_) | Head::Struct(_) => Ok(Json::Null),
            Head::Array(_, _) | Head::ArrayUpTo(_, _) => Ok(Json::Null),
            Head::Maybe(_) | Head::Unknown => Ok(Json::Null),
        },
        Value::Maybe(inner) => match inner {
            None => Ok(Json::Array(Vec::new(alloc))),
            Some(inner) => match resolve(iface, ty) {
                Head::Maybe(of) => {
                    let item = value_json(inner, alloc, iface, of)?;
                    one_item(alloc, item)
                }
                Head::Basic(_) | Head::Enum(_) | Head::Struct(_) => Ok(Json::Null),
                Head::Union(_, _) | Head::Array(_, _) => Ok(Json::Null),
                Head::ArrayUpTo(_, _) | Head::Unknown => Ok(Json::Null),
            },
        },
        Value::Void => Ok(Json::Null),
    }
}

fn one_item(alloc: Global, item: Json) -> Result<Json, AllocError>
    ensures { IfOk result (λ j. view j ≡ array (json_item (view item) no_items)) }
{
    let mut items = Vec::new(alloc);
    items.push(item)?;
    Ok(Json::Array(items))
}

#[cycle(json)]
fn union_json(
    inner: &Value,
    alloc: Global,
    chosen: &Value,
    iface: &Interface,
    tag: Tag<'_>,
    arms: &Vec<Arm>,
) -> Result<Json, AllocError>
    requires tag { TagFits (tag_view tag) (value_of chosen.now) }
    requires arm { ArmFits (arm_of (tag_number (value_of chosen.now)) (map choice_of arms.now.items))
        (λ k. Fits (types_of iface.now.types.items) k (value_of inner.now)) }
    ensures json { IfOk result (λ j. view j ≡ union_object (tag_json (tag_view tag.entry) (value_of chosen.now))
        (arm_json (arm_of (tag_number (value_of chosen.now)) (map choice_of arms.now.items))
        (λ k. json_of (types_of iface.now.types.items) k (value_of inner.now)))) }
    ensures held { OnOk result (OctetsAreBytes (value_of inner.now)) }
{
    let case = tag_json(alloc, tag, chosen)?;
    let value = match arm_of(arms, tag_number(chosen)) {
        None => Json::Null,
        Some(arm) => chosen_json(inner, alloc, iface, arm)?,
    };
    union_object(alloc, case, value)
}

#[cycle(json)]
fn chosen_json(
    inner: &Value,
    alloc: Global,
    iface: &Interface,
    arm: &Arm,
) -> Result<Json, AllocError>
    requires { Fits (types_of iface.now.types.items) (arm_kind (choice_of arm.now)) (value_of inner.now) }
    ensures json { IfOk result (λ j. view j
        ≡ json_of (types_of iface.now.types.items) (arm_kind (choice_of arm.now)) (value_of inner.now)) }
    ensures held { OnOk result (OctetsAreBytes (value_of inner.now)) }
{
    match &arm.field {
        None => value_json(inner, alloc, iface, &Ty::Void),
        Some(field) => value_json(inner, alloc, iface, &field.ty),
    }
}

#[cycle(json)]
fn members_json(
    items: &Vec<Value>,
    alloc: Global,
    iface: &Interface,
    fields: &Vec<Field>,
) -> Result<Map<String, Json>, AllocError>
    requires { PartsFit (types_of iface.now.types.items) (map part_of fields.now.items) (values_of items.now.items) }
    ensures json { IfOk result (λ m. members_view m.entries
        ≡ members_json (types_of iface.now.types.items) (map part_of fields.now.items) (values_of items.now.items)
        no_members) }
    ensures held { OnOk result (AllAreBytes (values_of items.now.items)) }
{
    let mut members = Map::new(alloc);
    for i in 0..items.len() {
        let member = value_json(&items[i], alloc, iface, &fields[i].ty)?;
        serde_json::put(&mut members, alloc, fields[i].name.as_str(), member)?;
    }
    Ok(members)
}

#[cycle(json)]
fn elements_json(
    items: &Vec<Value>,
    alloc: Global,
    iface: &Interface,
    of: &Ty,
) -> Result<Vec<Json>, AllocError>
    requires { AllFit (types_of iface.now.types.items) (kind_of of.now) (values_of items.now.items) }
    ensures json { IfOk result (λ js. items_view js.items
        ≡ elements_json (types_of iface.now.types.items) (kind_of of.now) (values_of items.now.items)) }
    ensures held { OnOk result (AllAreBytes (values_of items.now.items)) }
{
    let mut elements = Vec::new(alloc);
    for item in items {
        let element = value_json(item, alloc, iface, of)?;
        elements.push(element)?;
    }
    Ok(elements)
}

/// A value as JSON in one line without spaces, the keys of an object in byte order, where the
/// value fits the type and is at most 64 deep. What `from_json` reads in it is the value.
pub fn to_json(alloc: Global, iface: &Interface, ty: &Ty, v: &Value) -> Result<String, AllocError>
    requires fits { Fits (types_of iface.now.types.items) (kind_of ty.now) (value_of v.now) }
    requires shallow { depth (value_of v.now) ≤ MAX_LEVELS }
    ensures text { IfOk result (λ s. string_bytes s
        ≡ compact_text (json_of (types_of iface.now.types.items) (kind_of ty.now) (value_of v.now))) }
    ensures read { IfOk result (λ s. read (string_bytes s)
        ≡ Some (json_of (types_of iface.now.types.items) (kind_of ty.now) (value_of v.now))) }
    ensures back { IfOk result (λ s. value_in (types_of iface.now.types.items) (kind_of ty.now) (string_bytes s)
        ≡ Some (Ok (value_of v.now))) }
    ensures says { IfOk result (λ s. TextSays (types_of iface.now.types.items) (kind_of ty.now) (string_bytes s)
        (value_of v.now)) }
{
    let json = value_json(v, alloc, iface, ty)?;
    json.to_string(alloc)
}
