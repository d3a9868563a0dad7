//! What a type is once its names are followed.

ghost use Rattle.std.specs.Prelude.{◌≡◌, option_map, map};
ghost use Rattle.xdr_value.specs.View.{kind_of, types_of, form_of, choice_of, member_of};
ghost use Rattle.xdr_value.specs.Heads.{form_named, head_of, head_within, tag_of, arm_of, own_arm, default_arm};
ghost use Rattle.xdr_value.specs.HeadView.{head_view, tag_view};

use crate::def::{Arm, Def, Field, Member, Shape};
use crate::ty::{Basic, Ty};

/// The kinds of tag that a union may have (RFC 4506, section 4.15); a sound interface has no other.
#[derive(Clone, Copy, Debug)]
pub enum Tag<'a> {
    Int,
    Uint,
    Bool,
    Enum(&'a Vec<Member>),
    Other,
}

/// A type, its names followed. In a sound interface no name is unknown.
#[derive(Clone, Copy, Debug)]
pub enum Head<'a> {
    Basic(Basic),
    Enum(&'a Vec<Member>),
    Struct(&'a Vec<Field>),
    Union(Tag<'a>, &'a Vec<Arm>),
    Array(&'a Ty, u32),
    ArrayUpTo(&'a Ty, u32),
    Maybe(&'a Ty),
    Unknown,
}

/// What a name stands for, if it is defined.
pub fn shape_among<'a>(types: &'a [Def], name: &str) -> Option<&'a Shape>
    ensures { option_map (λ s. form_of s.now) result ≡ form_named name.now (types_of types.now) }
{
    for def in types {
        if def.name.as_str() == name {
            return Some(&def.shape);
        }
    }
    None
}

/// What the type is once its names are followed. Of types that may be unsound, each name is looked for from the first
/// type on.
#[tactic(auto, unfolding(crate::specs::Heads::head_of))]
pub fn head_among<'a>(types: &'a [Def], ty: &'a Ty) -> Head<'a>
    ensures { head_view result ≡ head_of (types_of types.now) (kind_of ty.now) }
{
    resolve_within(types, ty, types.len())
}

// Where at most so many names are followed.
#[tactic(auto, unfolding(crate::specs::Heads::head_within))]
fn resolve_within<'a>(types: &'a [Def], ty: &'a Ty, hops: usize) -> Head<'a>
    ensures { head_view result ≡ head_within hops (types_of types.now) (kind_of ty.now) }
{
    match ty {
        Ty::Array(of, n) => Head::Array(of, *n),
        Ty::ArrayUpTo(of, n) => Head::ArrayUpTo(of, *n),
        Ty::Maybe(of) => Head::Maybe(of),
        Ty::Named(name, _) => {
            if hops == 0 {
                return Head::Unknown;
            }
            match shape_among(types, name.as_str()) {
                None => Head::Unknown,
                Some(shape) => match shape {
                    Shape::Alias(other) => resolve_within(types, other, hops - 1),
                    Shape::Enum(members) => Head::Enum(members),
                    Shape::Struct(fields) => Head::Struct(fields),
                    Shape::Union { tag, arms } => {
                        Head::Union(as_tag(resolve_within(types, tag, hops - 1)), arms)
                    }
                },
            }
        }
        Ty::Int => Head::Basic(Basic::Int),
        Ty::Uint => Head::Basic(Basic::Uint),
        Ty::Hyper => Head::Basic(Basic::Hyper),
        Ty::Uhyper => Head::Basic(Basic::Uhyper),
        Ty::Short => Head::Basic(Basic::Short),
        Ty::Ushort => Head::Basic(Basic::Ushort),
        Ty::Char => Head::Basic(Basic::Char),
        Ty::Uchar => Head::Basic(Basic::Uchar),
        Ty::Bool => Head::Basic(Basic::Bool),
        Ty::Void => Head::Basic(Basic::Void),
        Ty::Opaque(n) => Head::Basic(Basic::Opaque(*n)),
        Ty::OpaqueUpTo(n) => Head::Basic(Basic::OpaqueUpTo(*n)),
        Ty::Text(n) => Head::Basic(Basic::Text(*n)),
    }
}

/// The kind of tag that a type is.
pub fn as_tag<'a>(head: Head<'a>) -> Tag<'a>
    ensures { tag_view result ≡ tag_of (head_view head.entry) }
{
    match head {
        Head::Basic(basic) => match basic {
            Basic::Int => Tag::Int,
            Basic::Uint => Tag::Uint,
            Basic::Bool => Tag::Bool,
            Basic::Hyper | Basic::Uhyper | Basic::Short | Basic::Ushort => Tag::Other,
            Basic::Char | Basic::Uchar | Basic::Void => Tag::Other,
            Basic::Opaque(_) | Basic::OpaqueUpTo(_) | Basic::Text(_) => Tag::Other,
        },
        Head::Enum(members) => Tag::Enum(members),
        Head::Struct(_) | Head::Union(_, _) | Head::Array(_, _) => Tag::Other,
        Head::ArrayUpTo(_, _) | Head::Maybe(_) | Head::Unknown => Tag::Other,
    }
}

fn own_arm(arms: &Vec<Arm>, number: i128) -> Option<&Arm>
    ensures { option_map (λ a. choice_of a.now) result ≡ own_arm number (map choice_of arms.now.items) }
{
    for arm in arms {
        if let Some(case) = arm.case {
            if case as i128 == number {
                return Some(arm);
            }
        }
    }
    None
}

/// The default, if there is one.
pub fn default_arm(arms: &Vec<Arm>) -> Option<&Arm>
    ensures { option_map (λ a. choice_of a.now) result ≡ default_arm (map choice_of arms.now.items) }
{
    for arm in arms {
        if arm.case.is_none() {
            return Some(arm);
        }
    }
    None
}

/// The arm of a tag with this number: the first of that case, or else the default.
pub fn arm_of(arms: &Vec<Arm>, number: i128) -> Option<&Arm>
    ensures { option_map (λ a. choice_of a.now) result ≡ arm_of number (map choice_of arms.now.items) }
{
    match own_arm(arms, number) {
        Some(arm) => Some(arm),
        None => default_arm(arms),
    }
}
