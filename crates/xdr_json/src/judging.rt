//! Reading values from JSON.

ghost use Rattle.std.specs.Prelude.{◌≡◌, ◌≤◌, ℕ, List, Option, codes, map, option_map, IfOk, IsTrue};
ghost use Rattle.xdr_value.specs.Data.{Datum, Types};
ghost use Rattle.serde_json.specs.Data.{depth as nesting, items_depth, members_depth};
ghost use Rattle.serde_json.specs.Events.{items_len};
ghost use Rattle.serde_json.specs.Find.{get_member};
ghost use Rattle.serde_json.specs.View.{view, items_view, members_view};
ghost use Rattle.xdr_value.specs.View.{kind_of, types_of, value_of, values_of, part_of, choice_of};
ghost use Rattle.xdr_value.specs.HeadView.{head_view, tag_view};
ghost use Rattle.xdr_value.specs.Heads.{arm_of, is_basic};
ghost use Rattle.xdr_value.specs.Tests.{is_known};
ghost use Rattle.xdr_value.specs.Fits.{Fits, tag_number};
ghost use Rattle.xdr_json.specs.Judged.{Judged, below, field_step, index_step};
ghost use Rattle.xdr_json.specs.Judging.{Judge, or_misfit, asked, parts_judged, arm_judged, tag_found, chosen_judged};
ghost use Rattle.xdr_json.specs.Judging.{object_judged, list_judged, optional_judged, array_judged, judged};
ghost use Rattle.xdr_json.specs.Judging.{elements_judged, first_judged, member_judge};
ghost use Rattle.xdr_json.specs.Answers.{Gives, IsJudged, IsValue};
ghost use Rattle.xdr_json.specs.Says.{TextSays};

use crate::fault::{JsonFault, Misfit, Stop, below, below_field, below_index, unfit};
use crate::leaves::{bool_value, null_value, string_value, tag_of_json, whole_value};
use crate::objects::{array_len, has_fields, has_union, hex_form, member, tag_type};
use serde_json::{Map, Value as Json};
use std::alloc::Global;
use xdr_value::{
    Arm, Basic, Field, Head, Interface, Tag, Ty, Value, arm_of, is_length, list_limit, resolve,
    tag_number,
};

/// How deep arrays and objects may nest in JSON that is read.
pub const MAX_NESTING: u32 = 127;

fn or_misfit(alloc: Global, ty: &Ty, value: Option<Value>) -> Result<Value, Stop>
    ensures { Gives value_of result (or_misfit (kind_of ty.now) (option_map value_of value)) }
{
    match value {
        None => Err(unfit(alloc, ty)),
        Some(value) => Ok(value),
    }
}

fn above_field(alloc: Global, name: &str, judged: Result<Value, Stop>) -> Result<Value, Stop>
    ensures { (r : Judged Datum) → Gives value_of judged r → Gives value_of result (below (field_step name.now) r) }
{
    match judged {
        Ok(value) => Ok(value),
        Err(stop) => Err(below_field(alloc, name, stop)),
    }
}

/// What an element is, or what stops above it.
pub fn above_index(alloc: Global, index: usize, judged: Result<Value, Stop>) -> Result<Value, Stop>
    ensures { (r : Judged Datum) → Gives value_of judged r → Gives value_of result (below (index_step index) r) }
{
    match judged {
        Ok(value) => Ok(value),
        Err(stop) => Err(below_index(alloc, index, stop)),
    }
}

/// The value of the type that JSON is, which nests at most so deep.
#[cycle(judge)]
pub fn judge(
    alloc: Global,
    iface: &Interface,
    levels: u32,
    json: &Json,
    ty: &Ty,
) -> Result<Value, Stop>
    requires { nesting (view json.now) ≤ levels }
    ensures { Gives value_of result (judged (types_of iface.now.types.items) (view json.now) (kind_of ty.now)) }
{
    let head = resolve(iface, ty);
    match json {
        Json::Null => or_misfit(alloc, ty, null_value(head)),
        Json::Bool(b) => or_misfit(alloc, ty, bool_value(head, *b)),
        Json::Number(n) => or_misfit(alloc, ty, whole_value(head, n.as_i128())),
        Json::String(s) => {
            let value = string_value(alloc, head, s.as_str())?;
            or_misfit(alloc, ty, value)
        }
        Json::Array(items) => judge_array(alloc, iface, levels - 1, items, ty, head),
        Json::Object(members) => judge_object(alloc, iface, levels - 1, members, ty, head),
    }
}

#[cycle(judge)]
fn judge_array(
    alloc: Global,
    iface: &Interface,
    levels: u32,
    items: &Vec<Json>,
    ty: &Ty,
    head: Head<'_>,
) -> Result<Value, Stop>
    requires { items_depth (items_view items.now.items) ≤ levels }
    ensures { Gives value_of result
        (array_judged (types_of iface.now.types.items) (kind_of ty.now) (head_view head.entry)
        (items_len (items_view items.now.items))
        (λ k. elements_judged (types_of iface.now.types.items) (items_view items.now.items) k 0)
        (λ k. first_judged (types_of iface.now.types.items) (items_view items.now.items) k)) }
{
    match head {
        Head::Array(of, n) => {
            let fits = array_len(items) == n as usize;
            judge_list(alloc, iface, levels, items, ty, of, fits)
        }
        Head::ArrayUpTo(of, n) => {
            let fits = is_length(array_len(items), list_limit(iface, of, n));
            judge_list(alloc, iface, levels, items, ty, of, fits)
        }
        Head::Maybe(of) => judge_optional(alloc, iface, levels, items, ty, of),
        Head::Basic(_) | Head::Enum(_) | Head::Struct(_) => Err(unfit(alloc, ty)),
        Head::Union(_, _) | Head::Unknown => Err(unfit(alloc, ty)),
    }
}

#[cycle(judge)]
fn judge_list(
    alloc: Global,
    iface: &Interface,
    levels: u32,
    items: &Vec<Json>,
    ty: &Ty,
    of: &Ty,
    fits: bool,
) -> Result<Value, Stop>
    requires { items_depth (items_view items.now.items) ≤ levels }
    ensures { Gives value_of result (list_judged fits (kind_of ty.now)
        (elements_judged (types_of iface.now.types.items) (items_view items.now.items) (kind_of of.now) 0)) }
{
    if !fits {
        return Err(unfit(alloc, ty));
    }
    let values = elements(alloc, iface, levels, items, of)?;
    Ok(Value::List(values))
}

#[cycle(judge)]
fn elements(
    alloc: Global,
    iface: &Interface,
    levels: u32,
    items: &Vec<Json>,
    of: &Ty,
) -> Result<Vec<Value>, Stop>
    requires { items_depth (items_view items.now.items) ≤ levels }
    ensures { Gives (λ v. values_of v.items) result
        (elements_judged (types_of iface.now.types.items) (items_view items.now.items) (kind_of of.now) 0) }
{
    let mut values = Vec::new(alloc);
    for i in 0..items.len() {
        let judged = judge(alloc, iface, levels, &items[i], of);
        let value = above_index(alloc, i, judged)?;
        values.push(value)?;
    }
    Ok(values)
}

#[cycle(judge)]
fn judge_optional(
    alloc: Global,
    iface: &Interface,
    levels: u32,
    items: &Vec<Json>,
    ty: &Ty,
    of: &Ty,
) -> Result<Value, Stop>
    requires { items_depth (items_view items.now.items) ≤ levels }
    ensures { Gives value_of result (optional_judged (kind_of ty.now) (items_len (items_view items.now.items))
        (first_judged (types_of iface.now.types.items) (items_view items.now.items) (kind_of of.now))) }
{
    if items.is_empty() {
        return Ok(Value::Maybe(None));
    }
    let is_single = items.len() == 1;
    if !is_single {
        return Err(unfit(alloc, ty));
    }
    let judged = judge(alloc, iface, levels, &items[0], of);
    let value = above_index(alloc, 0, judged)?;
    Ok(Value::there(alloc, value)?)
}

#[cycle(judge)]
fn judge_object(
    alloc: Global,
    iface: &Interface,
    levels: u32,
    members: &Map<String, Json>,
    ty: &Ty,
    head: Head<'_>,
) -> Result<Value, Stop>
    requires { members_depth (members_view members.now.entries) ≤ levels }
    ensures { Gives value_of result
        (object_judged (types_of iface.now.types.items) (kind_of ty.now) (head_view head.entry)
        (members_view members.now.entries)
        (member_judge (types_of iface.now.types.items) (members_view members.now.entries))) }
{
    match head {
        Head::Struct(fields) => {
            if !has_fields(members, fields) {
                return Err(unfit(alloc, ty));
            }
            let values = parts(alloc, iface, levels, members, fields)?;
            Ok(Value::List(values))
        }
        Head::Union(tag, arms) => {
            if !has_union(members) {
                return Err(unfit(alloc, ty));
            }
            judge_union(alloc, iface, levels, members, ty, tag, arms)
        }
        Head::Basic(basic) => judge_hex(alloc, members, ty, basic),
        Head::Enum(_) | Head::Array(_, _) | Head::ArrayUpTo(_, _) => Err(unfit(alloc, ty)),
        Head::Maybe(_) | Head::Unknown => Err(unfit(alloc, ty)),
    }
}

fn judge_hex(
    alloc: Global,
    members: &Map<String, Json>,
    ty: &Ty,
    basic: Basic,
) -> Result<Value, Stop>
    ensures { (t : Types) (found : List ℕ → Option Judge) → Gives value_of result
        (object_judged t (kind_of ty.now) (is_basic basic) (members_view members.now.entries) found) }
{
    match basic {
        Basic::Text(_) => {
            let value = hex_form(alloc, basic, members)?;
            or_misfit(alloc, ty, value)
        }
        Basic::Int | Basic::Uint | Basic::Hyper | Basic::Uhyper => Err(unfit(alloc, ty)),
        Basic::Short | Basic::Ushort | Basic::Char | Basic::Uchar => Err(unfit(alloc, ty)),
        Basic::Bool | Basic::Void => Err(unfit(alloc, ty)),
        Basic::Opaque(_) | Basic::OpaqueUpTo(_) => Err(unfit(alloc, ty)),
    }
}

#[cycle(judge)]
fn judge_member(
    alloc: Global,
    iface: &Interface,
    levels: u32,
    members: &Map<String, Json>,
    name: &str,
    ty: &Ty,
) -> Result<Value, Stop>
    requires { members_depth (members_view members.now.entries) ≤ levels }
    ensures { Gives value_of result (below (field_step name.now)
        (asked (member_judge (types_of iface.now.types.items) (members_view members.now.entries) name.now)
        (kind_of ty.now))) }
{
    match member(members, name) {
        None => above_field(alloc, name, Err(unfit(alloc, ty))),
        Some(json) => {
            let judged = judge(alloc, iface, levels, json, ty);
            above_field(alloc, name, judged)
        }
    }
}

#[cycle(judge)]
fn parts(
    alloc: Global,
    iface: &Interface,
    levels: u32,
    members: &Map<String, Json>,
    fields: &Vec<Field>,
) -> Result<Vec<Value>, Stop>
    requires { members_depth (members_view members.now.entries) ≤ levels }
    ensures { Gives (λ v. values_of v.items) result (parts_judged (map part_of fields.now.items)
        (member_judge (types_of iface.now.types.items) (members_view members.now.entries))) }
{
    let mut values = Vec::new(alloc);
    for field in fields {
        let value = judge_member(
            alloc,
            iface,
            levels,
            members,
            field.name.as_str(),
            &field.ty,
        )?;
        values.push(value)?;
    }
    Ok(values)
}

fn judge_tag(tag: Tag<'_>, members: &Map<String, Json>) -> Option<Value>
    ensures { option_map value_of result ≡ tag_found (tag_view tag.entry)
        (get_member (codes "case") (members_view members.now.entries)) }
{
    match member(members, "case") {
        None => None,
        Some(json) => tag_of_json(tag, json),
    }
}

#[cycle(judge)]
fn judge_union(
    alloc: Global,
    iface: &Interface,
    levels: u32,
    members: &Map<String, Json>,
    ty: &Ty,
    tag: Tag<'_>,
    arms: &Vec<Arm>,
) -> Result<Value, Stop>
    requires { members_depth (members_view members.now.entries) ≤ levels }
    ensures { Gives value_of result
        (chosen_judged (types_of iface.now.types.items) (kind_of ty.now) (map choice_of arms.now.items)
        (tag_found (tag_view tag.entry) (get_member (codes "case") (members_view members.now.entries)))
        (member_judge (types_of iface.now.types.items) (members_view members.now.entries) (codes "value"))) }
{
    match judge_tag(tag, members) {
        None => Err(below_field(alloc, "case", unfit(alloc, tag_type(iface, ty)))),
        Some(chosen) => judge_arm(alloc, iface, levels, members, ty, arms, chosen),
    }
}

#[cycle(judge)]
fn judge_arm(
    alloc: Global,
    iface: &Interface,
    levels: u32,
    members: &Map<String, Json>,
    ty: &Ty,
    arms: &Vec<Arm>,
    chosen: Value,
) -> Result<Value, Stop>
    requires { members_depth (members_view members.now.entries) ≤ levels }
    ensures { Gives value_of result (arm_judged (kind_of ty.now) (value_of chosen)
        (arm_of (tag_number (value_of chosen)) (map choice_of arms.now.items))
        (member_judge (types_of iface.now.types.items) (members_view members.now.entries) (codes "value"))) }
{
    match arm_of(arms, tag_number(&chosen)) {
        None => Err(unfit(alloc, ty)),
        Some(arm) => {
            let value = match &arm.field {
                None => judge_member(alloc, iface, levels, members, "value", &Ty::Void)?,
                Some(field) => judge_member(alloc, iface, levels, members, "value", &field.ty)?,
            };
            Ok(Value::chosen(alloc, chosen, value)?)
        }
    }
}

fn judge_whole(alloc: Global, iface: &Interface, json: &Json, ty: &Ty) -> Result<Value, Stop>
    requires { nesting (view json.now) ≤ 127 }
    ensures { Gives value_of result
        (below (codes "$") (judged (types_of iface.now.types.items) (view json.now) (kind_of ty.now))) }
{
    match judge(alloc, iface, MAX_NESTING, json, ty) {
        Ok(value) => Ok(value),
        Err(stop) => Err(below(alloc, "$", stop)),
    }
}

/// The value of the type that a text is as JSON; or that it is no JSON; or the first place that
/// doesn't fit. A value is judged before its parts: its kind and range, the keys of an object, the
/// length of a list; then its parts in the order of the type, of a union the tag before the arm.
pub fn from_json(alloc: Global, iface: &Interface, ty: &Ty, text: &str) -> Result<Value, JsonFault>
    requires { IsTrue (is_known (types_of iface.now.types.items) (kind_of ty.now)) }
    ensures exact { IsJudged (types_of iface.now.types.items) (kind_of ty.now) text.now result }
    // What is read is a value of the type, and the text says it, by the format alone.
    ensures fits { IfOk result (λ v. Fits (types_of iface.now.types.items) (kind_of ty.now) (value_of v)) }
    ensures says { IfOk result (λ v. TextSays (types_of iface.now.types.items) (kind_of ty.now) text.now (value_of v)) }
    // A value that the text says and that fits is read, unless memory runs out.
    ensures only { (d : Datum) → Fits (types_of iface.now.types.items) (kind_of ty.now) d
        → TextSays (types_of iface.now.types.items) (kind_of ty.now) text.now d → IsValue d result }
{
    read_text(alloc, iface, ty, text)
}

fn read_text(alloc: Global, iface: &Interface, ty: &Ty, text: &str) -> Result<Value, JsonFault>
    ensures { IsJudged (types_of iface.now.types.items) (kind_of ty.now) text.now result }
{
    match Json::from_str(alloc, text) {
        Err(e) => Err(if e.is_memory() {
            JsonFault::OutOfMemory
        } else {
            JsonFault::NotJson
        }),
        Ok(json) => match judge_whole(alloc, iface, &json, ty) {
            Ok(value) => Ok(value),
            Err(stop) => match stop {
                Stop::Memory => Err(JsonFault::OutOfMemory),
                Stop::Misfit(Misfit { path, want }) => Err(JsonFault::Mismatch { path, want }),
            },
        },
    }
}
