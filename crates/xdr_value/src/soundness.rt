//! Whether types and procedures have what an interface keeps.

ghost use Rattle.std.specs.Prelude.{◌≡◌, ◌↔◌, IsTrue};
ghost use Rattle.std.specs.Str.{bytes_eq};
ghost use Rattle.xdr_value.specs.View.{types_of, procs_of, form_of, proc_of};
ghost use Rattle.xdr_value.specs.Facts.{IsSound, names_of};
ghost use Rattle.xdr_value.specs.Tests.{differ, form_sound, all_sound, proc_sound, procs_sound, is_sound};
ghost use Rattle.std.specs.Prelude.{map, []};
ghost use Rattle.xdr_value.specs.Data.{enum, struct, choice, Part, Param, Procedure};
ghost use Rattle.xdr_value.specs.View.{kind_of, member_of, part_of, choice_of, param_of};
ghost use Rattle.xdr_value.specs.Heads.{tag_of, head_of};
ghost use Rattle.xdr_value.specs.HeadView.{tag_view};
ghost use Rattle.xdr_value.specs.Tests.{is_tag};

use crate::def::{Arg, Arm, Def, Field, Member, Proc, Shape};
use crate::differ::{cases_differ, names_differ, opcodes_differ};
use crate::ends::all_end;
use crate::head::{Tag, as_tag, head_among};
use crate::names::{args_known, arms_known, fields_known, known};
use crate::ranges::{arms_in_range, members_in_range};
use crate::ty::Ty;

#[tactic(auto, using(crate::proofs::Called::member_names))]
fn members_differ(members: &Vec<Member>) -> bool
    ensures { result ≡ differ bytes_eq (names_of (map member_of members.now.items)) }
{
    names_differ(members)
}

#[tactic(auto, using(crate::proofs::Called::field_names))]
fn fields_differ(fields: &Vec<Field>) -> bool
    ensures { result ≡ differ bytes_eq (map (λ (p : Part). p.name) (map part_of fields.now.items)) }
{
    names_differ(fields)
}

#[tactic(auto, using(crate::proofs::Called::arg_names))]
fn args_differ(args: &Vec<Arg>) -> bool
    ensures { result ≡ differ bytes_eq (map (λ (a : Param). a.name) (map param_of args.now.items)) }
{
    names_differ(args)
}

#[tactic(auto, using(crate::proofs::Called::def_names))]
fn types_differ(types: &[Def]) -> bool
    ensures { result ≡ differ bytes_eq (names_of (types_of types.now)) }
{
    names_differ(types)
}

#[tactic(auto, using(crate::proofs::Called::proc_names))]
fn procs_differ(procs: &[Proc]) -> bool
    ensures { result ≡ differ bytes_eq (map (λ (p : Procedure). p.name) (procs_of procs.now)) }
{
    names_differ(procs)
}

fn enum_sound(members: &Vec<Member>) -> bool
    ensures { result ≡ form_sound [] (enum (map member_of members.now.items)) }
{
    !members.is_empty() && members_differ(members) && members_in_range(members)
}

fn struct_sound(types: &[Def], fields: &Vec<Field>) -> bool
    ensures { result ≡ form_sound (types_of types.now) (struct (map part_of fields.now.items)) }
{
    fields_known(types, fields) && fields_differ(fields)
}

fn is_tag(tag: Tag<'_>) -> bool
    ensures { result ≡ is_tag (tag_view tag.entry) }
{
    match tag {
        Tag::Int | Tag::Uint | Tag::Bool | Tag::Enum(_) => true,
        Tag::Other => false,
    }
}

fn union_sound(types: &[Def], tag: &Ty, arms: &Vec<Arm>) -> bool
    ensures { result ≡ form_sound (types_of types.now) (choice (kind_of tag.now) (map choice_of arms.now.items)) }
{
    if arms.is_empty() || !(known(types, tag) && arms_known(types, arms)) {
        return false;
    }
    let tag = as_tag(head_among(types, tag));
    is_tag(tag) && cases_differ(arms) && arms_in_range(tag, arms)
}

fn shape_sound(types: &[Def], shape: &Shape) -> bool
    ensures { result ≡ form_sound (types_of types.now) (form_of shape.now) }
{
    match shape {
        Shape::Alias(ty) => known(types, ty),
        Shape::Enum(members) => enum_sound(members),
        Shape::Struct(fields) => struct_sound(types, fields),
        Shape::Union { tag, arms } => union_sound(types, tag, arms),
    }
}

fn defs_sound(types: &[Def]) -> bool
    ensures { result ≡ all_sound (types_of types.now) (types_of types.now) }
{
    for def in types {
        if !shape_sound(types, &def.shape) {
            return false;
        }
    }
    true
}

fn procs_sound(types: &[Def], procs: &[Proc]) -> bool
    ensures { result ≡ procs_sound (types_of types.now) (procs_of procs.now) }
{
    for one in procs {
        if !(args_known(types, &one.args) && args_differ(&one.args)) {
            return false;
        }
    }
    true
}

#[tactic(auto, unfolding(crate::specs::Tests::is_sound))]
fn passes(types: &[Def], procs: &[Proc]) -> bool
    ensures { result ≡ is_sound (types_of types.now) (procs_of procs.now) }
{
    let of_types = types_differ(types) && defs_sound(types) && all_end(types);
    of_types && procs_differ(procs) && opcodes_differ(procs) && procs_sound(types, procs)
}

/// Whether an interface may have these types and procedures. It takes no memory. Its time grows
/// with the ways down from a type through the types that it holds, which can be many more than
/// the types.
pub fn sound(types: &[Def], procs: &[Proc]) -> bool
    ensures test { result ≡ is_sound (types_of types.now) (procs_of procs.now) }
    ensures exact { IsTrue result ↔ IsSound (types_of types.now) (procs_of procs.now) }
{
    passes(types, procs)
}
