//! What names and types of an interface come to.

ghost use Rattle.std.specs.Prelude.{◌≡◌, ◌<◌, IfSome, option_map};
ghost use Rattle.xdr_value.specs.View.{kind_of, types_of, form_of};
ghost use Rattle.xdr_value.specs.Data.{named};
ghost use Rattle.xdr_value.specs.Heads.{form_named, head_of, head_of_form, head_within};
ghost use Rattle.xdr_value.specs.Hollow.{form_hollow, name_hollow};
ghost use Rattle.xdr_value.specs.Zero.{form_zero, name_zero};
ghost use Rattle.xdr_value.specs.HeadView.{head_view};
ghost use Rattle.xdr_value.specs.Chains.{end_form, end_hops};

use crate::def::Shape;
use crate::head::{Head, as_tag};
use crate::interface::Interface;
use crate::links::{link_at, place_of};
use crate::ty::{Basic, Ty};

/// What the name, whose definition may stand at this place, stands for, if it is defined.
pub fn shape_of<'a>(iface: &'a Interface, name: &str, place: usize) -> Option<&'a Shape>
    ensures { option_map (λ s. form_of s.now) result ≡ form_named name.now (types_of iface.now.types.items) }
{
    let types = iface.types.as_slice();
    match place_of(types, name, place) {
        None => None,
        Some(at) => Some(&types[at].shape),
    }
}

/// What stands at the end of a chain of names, and how many names may be followed from there.
#[derive(Clone, Copy, Debug)]
pub struct ChainEnd<'a> {
    pub shape: &'a Shape,
    pub hops: usize,
}

/// What the name, whose definition may stand at this place, comes to where at most so many names are
/// followed.
pub fn reached<'a>(
    iface: &'a Interface,
    name: &str,
    place: usize,
    hops: usize,
) -> Option<ChainEnd<'a>>
    ensures heads { head_within hops (types_of iface.now.types.items) (named name.now)
        ≡ head_of_form (head_within (end_hops result) (types_of iface.now.types.items)) (end_form result) }
    ensures hollows { name_hollow hops (types_of iface.now.types.items) name.now
        ≡ form_hollow (name_hollow (end_hops result) (types_of iface.now.types.items)) (end_form result) }
    ensures zeros { name_zero hops (types_of iface.now.types.items) name.now
        ≡ form_zero (types_of iface.now.types.items) (name_zero (end_hops result) (types_of iface.now.types.items))
        (end_form result) }
    ensures fewer { IfSome result (λ r. r.hops < hops) }
{
    if hops == 0 {
        return None;
    }
    let types = iface.types.as_slice();
    match place_of(types, name, place) {
        None => None,
        Some(at) => {
            let link = link_at(types, at);
            if hops <= link.hops {
                return None;
            }
            Some(ChainEnd {
                shape: &types[link.end].shape,
                hops: hops - link.hops - 1,
            })
        }
    }
}

/// What the type is once its names are followed.
#[tactic(auto, unfolding(crate::specs::Heads::head_of))]
pub fn resolve<'a>(iface: &'a Interface, ty: &'a Ty) -> Head<'a>
    ensures { head_view result ≡ head_of (types_of iface.now.types.items) (kind_of ty.now) }
{
    resolve_with(iface, ty, iface.types.len())
}

// Where at most so many names are followed.
#[tactic(auto, unfolding(crate::specs::Heads::head_within))]
fn resolve_with<'a>(iface: &'a Interface, ty: &'a Ty, hops: usize) -> Head<'a>
    ensures { head_view result ≡ head_within hops (types_of iface.now.types.items) (kind_of ty.now) }
{
    match ty {
        Ty::Array(of, n) => Head::Array(of, *n),
        Ty::ArrayUpTo(of, n) => Head::ArrayUpTo(of, *n),
        Ty::Maybe(of) => Head::Maybe(of),
        Ty::Named(name, place) => match reached(iface, name.as_str(), *place, hops) {
            None => Head::Unknown,
            Some(end) => match end.shape {
                Shape::Alias(other) => resolve_with(iface, other, end.hops),
                Shape::Enum(members) => Head::Enum(members),
                Shape::Struct(fields) => Head::Struct(fields),
                Shape::Union { tag, arms } => {
                    Head::Union(as_tag(resolve_with(iface, tag, end.hops)), arms)
                }
            },
        },
        Ty::Int => Head::Basic(Basic::Int),
        Ty::Uint => Head::Basic(Basic::Uint),
        Ty::Hyper => Head::Basic(Basic::Hyper),
        Ty::Uhyper => Head::Basic(Basic::Uhyper),
        Ty::Short => Head::Basic(Basic::Short),
        Ty::Ushort => Head::Basic(Basic::Ushort),
        Ty::Char => Head::Basic(Basic::Char),
        Ty::Uchar => Head::Basic(Basic::Uchar),
        Ty::Bool => Head::Basic(Basic::Bool),
        Ty::Void => Head::Basic(Basic::Void),
        Ty::Opaque(n) => Head::Basic(Basic::Opaque(*n)),
        Ty::OpaqueUpTo(n) => Head::Basic(Basic::OpaqueUpTo(*n)),
        Ty::Text(n) => Head::Basic(Basic::Text(*n)),
    }
}
