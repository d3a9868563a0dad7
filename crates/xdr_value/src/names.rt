//! Whether the names in types are defined.

ghost use Rattle.std.specs.Prelude.{◌≡◌, map};
ghost use Rattle.xdr_value.specs.View.{kind_of, types_of, part_of, choice_of, param_of};
ghost use Rattle.xdr_value.specs.Heads.{arm_kind};
ghost use Rattle.xdr_value.specs.Facts.{part_kinds};
ghost use Rattle.xdr_value.specs.Tests.{is_known, kinds_known, params_known};

use crate::def::{Arg, Arm, Def, Field};
use crate::head::shape_among;
use crate::ty::Ty;

/// Whether each name in the type is a type of these.
pub fn known(types: &[Def], ty: &Ty) -> bool
    ensures { result ≡ is_known (types_of types.now) (kind_of ty.now) }
{
    match ty {
        Ty::Array(of, _) => known(types, of),
        Ty::ArrayUpTo(of, _) => known(types, of),
        Ty::Maybe(of) => known(types, of),
        Ty::Named(name, _) => shape_among(types, name.as_str()).is_some(),
        Ty::Int | Ty::Uint | Ty::Hyper | Ty::Uhyper => true,
        Ty::Short | Ty::Ushort | Ty::Char | Ty::Uchar | Ty::Bool | Ty::Void => true,
        Ty::Opaque(_) | Ty::OpaqueUpTo(_) | Ty::Text(_) => true,
    }
}

/// Whether each name in the types of the fields is.
pub fn fields_known(types: &[Def], fields: &Vec<Field>) -> bool
    ensures { result ≡ kinds_known (types_of types.now) (part_kinds (map part_of fields.now.items)) }
{
    for field in fields {
        if !known(types, &field.ty) {
            return false;
        }
    }
    true
}

fn arm_known(types: &[Def], arm: &Arm) -> bool
    ensures { result ≡ is_known (types_of types.now) (arm_kind (choice_of arm.now)) }
{
    match &arm.field {
        None => true,
        Some(field) => known(types, &field.ty),
    }
}

/// Whether each name in what the arms hold is.
pub fn arms_known(types: &[Def], arms: &Vec<Arm>) -> bool
    ensures { result ≡ kinds_known (types_of types.now) (map arm_kind (map choice_of arms.now.items)) }
{
    for arm in arms {
        if !arm_known(types, arm) {
            return false;
        }
    }
    true
}

/// Whether each name in the types of the arguments is.
pub fn args_known(types: &[Def], args: &Vec<Arg>) -> bool
    ensures { result ≡ params_known (types_of types.now) (map param_of args.now.items) }
{
    for arg in args {
        if !known(types, &arg.ty) {
            return false;
        }
    }
    true
}
