//! Whether types end: none holds itself other than through optional data or a variable array.

ghost use Rattle.std.specs.Prelude.{◌≡◌, map};
ghost use Rattle.xdr_value.specs.View.{kind_of, types_of, part_of, choice_of};
ghost use Rattle.xdr_value.specs.Heads.{arm_kind};
ghost use Rattle.xdr_value.specs.Hollow.{core};
ghost use Rattle.xdr_value.specs.Facts.{part_kinds};
ghost use Rattle.xdr_value.specs.Tests.{core_ends, kinds_end, name_ends, all_end};

use crate::def::{Arm, Def, Field, Shape};
use crate::head::shape_among;
use crate::ty::Ty;

/// The type of what fixed arrays hold.
pub fn core_of(ty: &Ty) -> &Ty
    ensures { kind_of result.now ≡ core (kind_of ty.now) }
{
    match ty {
        Ty::Array(of, _) => core_of(of),
        Ty::ArrayUpTo(_, _) | Ty::Maybe(_) | Ty::Named(_, _) => ty,
        Ty::Int | Ty::Uint | Ty::Hyper | Ty::Uhyper => ty,
        Ty::Short | Ty::Ushort | Ty::Char | Ty::Uchar | Ty::Bool | Ty::Void => ty,
        Ty::Opaque(_) | Ty::OpaqueUpTo(_) | Ty::Text(_) => ty,
    }
}

#[cycle(ends)]
fn ty_ends(types: &[Def], ty: &Ty, hops: usize) -> bool
    ensures { result ≡ core_ends (name_ends hops (types_of types.now)) (core (kind_of ty.now)) }
{
    let ty = core_of(ty);
    match ty {
        Ty::Named(name, _) => chain_ends(types, name.as_str(), hops),
        Ty::Array(_, _) | Ty::ArrayUpTo(_, _) | Ty::Maybe(_) => true,
        Ty::Int | Ty::Uint | Ty::Hyper | Ty::Uhyper => true,
        Ty::Short | Ty::Ushort | Ty::Char | Ty::Uchar | Ty::Bool | Ty::Void => true,
        Ty::Opaque(_) | Ty::OpaqueUpTo(_) | Ty::Text(_) => true,
    }
}

#[cycle(ends)]
fn fields_end(types: &[Def], fields: &Vec<Field>, hops: usize) -> bool
    ensures { result ≡ kinds_end (name_ends hops (types_of types.now)) (part_kinds (map part_of fields.now.items)) }
{
    for field in fields {
        if !ty_ends(types, &field.ty, hops) {
            return false;
        }
    }
    true
}

#[cycle(ends)]
fn arm_ends(types: &[Def], arm: &Arm, hops: usize) -> bool
    ensures { result ≡ core_ends (name_ends hops (types_of types.now)) (core (arm_kind (choice_of arm.now))) }
{
    match &arm.field {
        None => true,
        Some(field) => ty_ends(types, &field.ty, hops),
    }
}

#[cycle(ends)]
fn arms_end(types: &[Def], arms: &Vec<Arm>, hops: usize) -> bool
    ensures { result ≡ kinds_end (name_ends hops (types_of types.now)) (map arm_kind (map choice_of arms.now.items)) }
{
    for arm in arms {
        if !arm_ends(types, arm, hops) {
            return false;
        }
    }
    true
}

// Whether the names that this one holds, and that they hold, end within so many.
#[cycle(ends)]
#[tactic(auto, unfolding(crate::specs::Tests::name_ends))]
fn chain_ends(types: &[Def], name: &str, hops: usize) -> bool
    ensures { result ≡ name_ends hops (types_of types.now) name.now }
{
    if hops == 0 {
        return false;
    }
    match shape_among(types, name) {
        None => false,
        Some(shape) => match shape {
            Shape::Alias(ty) => ty_ends(types, ty, hops - 1),
            Shape::Struct(fields) => fields_end(types, fields, hops - 1),
            Shape::Enum(_) => true,
            Shape::Union { tag, arms } => {
                ty_ends(types, tag, hops - 1) && arms_end(types, arms, hops - 1)
            }
        },
    }
}

/// Whether each of the types ends.
pub fn all_end(types: &[Def]) -> bool
    ensures { result ≡ all_end (types_of types.now) (types_of types.now) }
{
    for def in types {
        if !chain_ends(types, def.name.as_str(), types.len()) {
            return false;
        }
    }
    true
}
