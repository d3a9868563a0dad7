//! Types whose values take no bytes, and how many of them a list may hold.

ghost use Rattle.std.specs.Prelude.{◌≡◌, map};
ghost use Rattle.xdr_value.specs.View.{kind_of, types_of, part_of};
ghost use Rattle.xdr_value.specs.Hollow.{core, has_zero, core_hollow, kind_hollow, parts_hollow, name_hollow};
ghost use Rattle.xdr_value.specs.Hollow.{is_hollow, list_limit};

use crate::chains::reached;
use crate::def::{Field, Shape};
use crate::ends::core_of;
use crate::interface::Interface;
use crate::ty::Ty;

/// How many elements that take no bytes a variable array may have.
pub const MOST_HOLLOW: u32 = 65_536;

fn has_zero(ty: &Ty) -> bool
    ensures { result ≡ has_zero (kind_of ty.now) }
{
    match ty {
        Ty::Array(of, n) => *n == 0 || has_zero(of),
        Ty::ArrayUpTo(_, _) | Ty::Maybe(_) | Ty::Named(_, _) => false,
        Ty::Int | Ty::Uint | Ty::Hyper | Ty::Uhyper => false,
        Ty::Short | Ty::Ushort | Ty::Char | Ty::Uchar | Ty::Bool | Ty::Void => false,
        Ty::Opaque(_) | Ty::OpaqueUpTo(_) | Ty::Text(_) => false,
    }
}

#[cycle(hollow)]
fn core_hollow(iface: &Interface, ty: &Ty, hops: usize) -> bool
    ensures { result ≡ core_hollow (name_hollow hops (types_of iface.now.types.items)) (kind_of ty.now) }
{
    match ty {
        Ty::Named(name, place) => name_hollow(iface, name.as_str(), *place, hops),
        Ty::Opaque(n) => *n == 0,
        Ty::Void => true,
        Ty::Array(_, _) | Ty::ArrayUpTo(_, _) | Ty::Maybe(_) => false,
        Ty::Int | Ty::Uint | Ty::Hyper | Ty::Uhyper => false,
        Ty::Short | Ty::Ushort | Ty::Char | Ty::Uchar | Ty::Bool => false,
        Ty::OpaqueUpTo(_) | Ty::Text(_) => false,
    }
}

#[cycle(hollow)]
fn ty_hollow(iface: &Interface, ty: &Ty, hops: usize) -> bool
    ensures { result ≡ kind_hollow (name_hollow hops (types_of iface.now.types.items)) (kind_of ty.now) }
{
    has_zero(ty) || core_hollow(iface, core_of(ty), hops)
}

#[cycle(hollow)]
fn fields_hollow(iface: &Interface, fields: &Vec<Field>, hops: usize) -> bool
    ensures { result ≡ parts_hollow (name_hollow hops (types_of iface.now.types.items)) (map part_of fields.now.items) }
{
    for field in fields {
        if !ty_hollow(iface, &field.ty, hops) {
            return false;
        }
    }
    true
}

#[cycle(hollow)]
#[tactic(auto, unfolding(crate::specs::Hollow::name_hollow))]
fn name_hollow(iface: &Interface, name: &str, place: usize, hops: usize) -> bool
    ensures { result ≡ name_hollow hops (types_of iface.now.types.items) name.now }
{
    match reached(iface, name, place, hops) {
        None => false,
        Some(end) => match end.shape {
            Shape::Alias(ty) => ty_hollow(iface, ty, end.hops),
            Shape::Struct(fields) => fields_hollow(iface, fields, end.hops),
            Shape::Enum(_) => false,
            Shape::Union { .. } => false,
        },
    }
}

#[tactic(auto, unfolding(crate::specs::Hollow::is_hollow))]
fn is_hollow(iface: &Interface, ty: &Ty) -> bool
    ensures { result ≡ is_hollow (types_of iface.now.types.items) (kind_of ty.now) }
{
    ty_hollow(iface, ty, iface.types.len())
}

/// How many elements of this type a variable array of at most `limit` has at most: where they
/// take no bytes, no bytes bound them.
#[tactic(auto, unfolding(crate::specs::Hollow::list_limit))]
pub fn list_limit(iface: &Interface, of: &Ty, limit: u32) -> u32
    ensures { result ≡ list_limit (types_of iface.now.types.items) (kind_of of.now) limit }
{
    if limit > MOST_HOLLOW && is_hollow(iface, of) {
        MOST_HOLLOW
    } else {
        limit
    }
}
