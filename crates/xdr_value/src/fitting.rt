//! Whether a value is one of a type.

ghost use Rattle.std.specs.Prelude.{◌≡◌, ◌↔◌, IsTrue, map, length};
ghost use Rattle.xdr_value.specs.View.{kind_of, types_of, value_of, values_of, part_of, choice_of};
ghost use Rattle.xdr_value.specs.HeadView.{head_view, tag_view};
ghost use Rattle.xdr_value.specs.Fits.{Fits, tag_number};
ghost use Rattle.xdr_value.specs.Fitting.{number_fits, flag_fits, octets_fit, nothing_fits, tag_fits, does_fit};
ghost use Rattle.xdr_value.specs.Fitting.{parts_fit, all_fit};
ghost use Rattle.xdr_value.specs.Tests.{is_known};
ghost use Rattle.xdr_value.specs.Data.{number, flag};
ghost use Rattle.xdr_value.specs.Heads.{is_basic, arm_kind};
ghost use Rattle.xdr_value.specs.declared.ty.Basic.TheVariants as basics;
ghost use Rattle.std.specs.Prelude.{true};

use crate::chains::resolve;
use crate::def::{Arm, Field};
use crate::head::{Head, Tag, arm_of};
use crate::hollow::list_limit;
use crate::interface::Interface;
use crate::ranges::{has_number, is_below, is_within};
use crate::ty::{Basic, Ty};
use crate::value::{Value, tag_number};

fn basic_number_fits(basic: Basic, number: i128) -> bool
    ensures { result ≡ number_fits (is_basic basic) number }
{
    match basic {
        Basic::Int => is_within(0x8000_0000, number),
        Basic::Uint => is_below(0x1_0000_0000, number),
        Basic::Hyper => is_within(0x8000_0000_0000_0000, number),
        Basic::Uhyper => is_below(0x1_0000_0000_0000_0000, number),
        Basic::Short => is_within(0x8000, number),
        Basic::Ushort => is_below(0x1_0000, number),
        Basic::Char => is_within(0x80, number),
        Basic::Uchar => is_below(0x100, number),
        Basic::Bool | Basic::Void => false,
        Basic::Opaque(_) | Basic::OpaqueUpTo(_) | Basic::Text(_) => false,
    }
}

/// Whether a number is one of a type of numbers, or of an enum's members.
pub fn number_fits(head: Head<'_>, number: i128) -> bool
    ensures { result ≡ number_fits (head_view head.entry) number }
{
    match head {
        Head::Basic(basic) => basic_number_fits(basic, number),
        Head::Enum(members) => is_within(0x8000_0000, number) && has_number(members, number),
        Head::Struct(_) | Head::Union(_, _) | Head::Array(_, _) => false,
        Head::ArrayUpTo(_, _) | Head::Maybe(_) | Head::Unknown => false,
    }
}

fn flag_fits(head: Head<'_>) -> bool
    ensures { result ≡ flag_fits (head_view head.entry) }
{
    match head {
        Head::Basic(basic) => match basic {
            Basic::Bool => true,
            Basic::Int | Basic::Uint | Basic::Hyper | Basic::Uhyper => false,
            Basic::Short | Basic::Ushort | Basic::Char | Basic::Uchar | Basic::Void => false,
            Basic::Opaque(_) | Basic::OpaqueUpTo(_) | Basic::Text(_) => false,
        },
        Head::Enum(_) | Head::Struct(_) | Head::Union(_, _) | Head::Array(_, _) => false,
        Head::ArrayUpTo(_, _) | Head::Maybe(_) | Head::Unknown => false,
    }
}

fn nothing_fits(head: Head<'_>) -> bool
    ensures { result ≡ nothing_fits (head_view head.entry) }
{
    match head {
        Head::Basic(basic) => match basic {
            Basic::Void => true,
            Basic::Int | Basic::Uint | Basic::Hyper | Basic::Uhyper => false,
            Basic::Short | Basic::Ushort | Basic::Char | Basic::Uchar | Basic::Bool => false,
            Basic::Opaque(_) | Basic::OpaqueUpTo(_) | Basic::Text(_) => false,
        },
        Head::Enum(_) | Head::Struct(_) | Head::Union(_, _) | Head::Array(_, _) => false,
        Head::ArrayUpTo(_, _) | Head::Maybe(_) | Head::Unknown => false,
    }
}

/// Whether content or a variable array with the limit may be so long: its length has four bytes.
pub fn is_length(length: usize, limit: u32) -> bool
    ensures { result ≡ octets_fit (is_basic (basics.Text limit)) length }
{
    length <= limit as usize && length <= u32::MAX as usize
}

/// Whether opaque data or a string of the type may have so many bytes.
pub fn octets_fit(head: Head<'_>, length: usize) -> bool
    ensures { result ≡ octets_fit (head_view head.entry) length }
{
    match head {
        Head::Basic(basic) => match basic {
            Basic::Opaque(n) => length == n as usize,
            Basic::OpaqueUpTo(limit) | Basic::Text(limit) => is_length(length, limit),
            Basic::Int | Basic::Uint | Basic::Hyper | Basic::Uhyper => false,
            Basic::Short | Basic::Ushort | Basic::Char | Basic::Uchar => false,
            Basic::Bool | Basic::Void => false,
        },
        Head::Enum(_) | Head::Struct(_) | Head::Union(_, _) | Head::Array(_, _) => false,
        Head::ArrayUpTo(_, _) | Head::Maybe(_) | Head::Unknown => false,
    }
}

fn number_is_tag(tag: Tag<'_>, n: i128) -> bool
    ensures { result ≡ tag_fits (tag_view tag.entry) (number n) }
{
    match tag {
        Tag::Int => is_within(0x8000_0000, n),
        Tag::Uint => is_below(0x1_0000_0000, n),
        Tag::Enum(members) => is_within(0x8000_0000, n) && has_number(members, n),
        Tag::Bool | Tag::Other => false,
    }
}

fn flag_is_tag(tag: Tag<'_>) -> bool
    ensures { result ≡ tag_fits (tag_view tag.entry) (flag true) }
{
    match tag {
        Tag::Bool => true,
        Tag::Int | Tag::Uint | Tag::Enum(_) | Tag::Other => false,
    }
}

fn tag_fits(tag: Tag<'_>, value: &Value) -> bool
    ensures { result ≡ tag_fits (tag_view tag.entry) (value_of value.now) }
{
    match value {
        Value::Number(n) => number_is_tag(tag, *n),
        Value::Flag(_) => flag_is_tag(tag),
        Value::Octets(_) | Value::List(_) | Value::Union(_, _) => false,
        Value::Maybe(_) | Value::Void => false,
    }
}

#[cycle(fits)]
fn value_fits(value: &Value, iface: &Interface, ty: &Ty) -> bool
    ensures { result ≡ does_fit (types_of iface.now.types.items) (kind_of ty.now) (value_of value.now) }
{
    let head = resolve(iface, ty);
    match value {
        Value::Number(n) => number_fits(head, *n),
        Value::Flag(_) => flag_fits(head),
        Value::Octets(bytes) => octets_fit(head, bytes.len()),
        Value::List(items) => match head {
            Head::Struct(fields) => fields_fit(items, iface, fields),
            Head::Array(of, n) => items.len() == n as usize && elements_fit(items, iface, of),
            Head::ArrayUpTo(of, n) => {
                is_length(items.len(), list_limit(iface, of, n)) && elements_fit(items, iface, of)
            }
            Head::Basic(_) | Head::Enum(_) | Head::Union(_, _) => false,
            Head::Maybe(_) | Head::Unknown => false,
        },
        Value::Union(tag_value, inner) => match head {
            Head::Union(tag, arms) => {
                tag_fits(tag, tag_value)
                    && match arm_of(arms, tag_number(tag_value)) {
                        None => false,
                        Some(arm) => arm_fits(inner, iface, arm),
                    }
            }
            Head::Basic(_) | Head::Enum(_) | Head::Struct(_) | Head::Array(_, _) => false,
            Head::ArrayUpTo(_, _) | Head::Maybe(_) | Head::Unknown => false,
        },
        Value::Maybe(inner) => match head {
            Head::Maybe(of) => match inner {
                None => true,
                Some(inner) => value_fits(inner, iface, of),
            },
            Head::Basic(_) | Head::Enum(_) | Head::Struct(_) | Head::Union(_, _) => false,
            Head::Array(_, _) | Head::ArrayUpTo(_, _) | Head::Unknown => false,
        },
        Value::Void => nothing_fits(head),
    }
}

#[cycle(fits)]
fn arm_fits(inner: &Value, iface: &Interface, arm: &Arm) -> bool
    ensures { result ≡ does_fit (types_of iface.now.types.items) (arm_kind (choice_of arm.now)) (value_of inner.now) }
{
    match &arm.field {
        None => value_fits(inner, iface, &Ty::Void),
        Some(field) => value_fits(inner, iface, &field.ty),
    }
}

#[cycle(fits)]
fn fields_fit(items: &Vec<Value>, iface: &Interface, fields: &Vec<Field>) -> bool
    ensures { result ≡ parts_fit (types_of iface.now.types.items) (map part_of fields.now.items)
        (values_of items.now.items) }
{
    if fields.len() != items.len() {
        return false;
    }
    for i in 0..items.len() {
        if !value_fits(&items[i], iface, &fields[i].ty) {
            return false;
        }
    }
    true
}

#[cycle(fits)]
fn elements_fit(items: &Vec<Value>, iface: &Interface, of: &Ty) -> bool
    ensures { result ≡ all_fit (types_of iface.now.types.items) (kind_of of.now) (values_of items.now.items) }
{
    for item in items {
        if !value_fits(item, iface, of) {
            return false;
        }
    }
    true
}

/// Whether the value is one of the type. It takes no memory.
pub fn fits(iface: &Interface, ty: &Ty, value: &Value) -> bool
    requires { IsTrue (is_known (types_of iface.now.types.items) (kind_of ty.now)) }
    ensures { IsTrue result ↔ Fits (types_of iface.now.types.items) (kind_of ty.now) (value_of value.now) }
{
    value_fits(value, iface, ty)
}
