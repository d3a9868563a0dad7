//! What an object or an array has.

ghost use Rattle.std.specs.Prelude.{◌≡◌, ℕ, suc, map, option_map, IfOk};
ghost use Rattle.serde_json.specs.Find.{get_member};
ghost use Rattle.serde_json.specs.Events.{items_len, members_len};
ghost use Rattle.serde_json.specs.View.{view, items_view, members_view};
ghost use Rattle.xdr_value.specs.View.{kind_of, types_of, value_of, part_of};
ghost use Rattle.xdr_value.specs.Heads.{is_basic};
ghost use Rattle.xdr_json.specs.Judging.{all_there, has_fields, has_union, hex_string, hex_form, tag_kind};
ghost use Rattle.xdr_json.specs.Judging.{tag_kind_within};
ghost use Rattle.xdr_json.specs.TagSteps.{stepped};

use crate::leaves::hex_value;
use serde_json::{Map, Value as Json};
use std::alloc::{AllocError, Global};
use xdr_value::{Basic, Field, Interface, Shape, Ty, Value, shape_of};

/// The member of the name.
pub fn member<'a>(members: &'a Map<String, Json>, name: &str) -> Option<&'a Json>
    ensures { option_map (λ j. view j.now) result ≡ get_member name.now (members_view members.now.entries) }
{
    members.get(name)
}

fn len(members: &Map<String, Json>) -> usize
    ensures { result ≡ members_len (members_view members.now.entries) }
{
    members.len()
}

/// How many items an array has.
pub fn array_len(items: &Vec<Json>) -> usize
    ensures { result ≡ items_len (items_view items.now.items) }
{
    items.len()
}

fn all_there(members: &Map<String, Json>, fields: &Vec<Field>) -> bool
    ensures { result ≡ all_there (map part_of fields.now.items) (members_view members.now.entries) }
{
    for field in fields {
        if member(members, field.name.as_str()).is_none() {
            return false;
        }
    }
    true
}

/// Whether the keys are exactly the fields.
pub fn has_fields(members: &Map<String, Json>, fields: &Vec<Field>) -> bool
    ensures { result ≡ has_fields (map part_of fields.now.items) (members_view members.now.entries) }
{
    len(members) == fields.len() && all_there(members, fields)
}

/// Whether the keys are those of a union.
pub fn has_union(members: &Map<String, Json>) -> bool
    ensures { result ≡ has_union (members_view members.now.entries) }
{
    len(members) == 2 && member(members, "case").is_some() && member(members, "value").is_some()
}

/// The octets of an object with the one key `hex`.
pub fn hex_form(
    alloc: Global,
    basic: Basic,
    members: &Map<String, Json>,
) -> Result<Option<Value>, AllocError>
    ensures { IfOk result (λ v. option_map value_of v ≡ hex_form (is_basic basic) (members_view members.now.entries)) }
{
    if len(members) != 1 {
        return Ok(None);
    }
    match member(members, "hex") {
        None => Ok(None),
        Some(json) => match json {
            Json::String(digits) => hex_value(alloc, basic, digits.as_str()),
            Json::Null | Json::Bool(_) | Json::Number(_) => Ok(None),
            Json::Array(_) | Json::Object(_) => Ok(None),
        },
    }
}

/// What a type leads to on the way to a union's tag.
pub enum TagStep<'a> {
    Tag(&'a Ty),
    Next(&'a Ty),
}

#[tactic(auto, unfolding(crate::specs::Judging::tag_kind_within))]
fn tag_step<'a>(iface: &'a Interface, ty: &'a Ty) -> TagStep<'a>
    ensures { (n : ℕ) → tag_kind_within (suc n) (types_of iface.now.types.items) (kind_of ty.now)
        ≡ stepped n (types_of iface.now.types.items) result }
{
    match ty {
        Ty::Named(name, place) => match shape_of(iface, name.as_str(), *place) {
            None => TagStep::Tag(ty),
            Some(shape) => match shape {
                Shape::Alias(other) => TagStep::Next(other),
                Shape::Union { tag, .. } => TagStep::Tag(tag),
                Shape::Enum(_) | Shape::Struct(_) => TagStep::Tag(ty),
            },
        },
        Ty::Array(_, _) | Ty::ArrayUpTo(_, _) | Ty::Maybe(_) => TagStep::Tag(ty),
        Ty::Int | Ty::Uint | Ty::Hyper | Ty::Uhyper => TagStep::Tag(ty),
        Ty::Short | Ty::Ushort | Ty::Char | Ty::Uchar => TagStep::Tag(ty),
        Ty::Bool | Ty::Void => TagStep::Tag(ty),
        Ty::Opaque(_) | Ty::OpaqueUpTo(_) | Ty::Text(_) => TagStep::Tag(ty),
    }
}

/// The type of a union's tag, as it is written.
#[tactic(auto, unfolding(crate::specs::Judging::tag_kind, crate::specs::Judging::tag_kind_within))]
pub fn tag_type<'a>(iface: &'a Interface, ty: &'a Ty) -> &'a Ty
    ensures { kind_of result.now ≡ tag_kind (types_of iface.now.types.items) (kind_of ty.now) }
{
    let mut ty = ty;
    let mut hops = iface.types.len();
    while hops > 0 {
        match tag_step(iface, ty) {
            TagStep::Tag(tag) => return tag,
            TagStep::Next(next) => ty = next,
        }
        hops -= 1;
    }
    ty
}
