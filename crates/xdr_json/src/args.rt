//! The values of a procedure's arguments as one JSON array.

ghost use Rattle.std.specs.Prelude.{◌≡◌, ◌≤◌, IsTrue, map, length};
ghost use Rattle.serde_json.specs.Data.{depth as nesting, items_depth};
ghost use Rattle.serde_json.specs.View.{view, items_view};
ghost use Rattle.xdr_value.specs.Data.{Data};
ghost use Rattle.xdr_value.specs.Tests.{params_known};
ghost use Rattle.xdr_value.specs.View.{types_of, values_of, param_of};
ghost use Rattle.xdr_json.specs.Answers.{Fails, Gives};
ghost use Rattle.xdr_json.specs.Args.{AreArgs, IsValues, args_judged, array_of_args, comes_in, in_kinds, no_args};
ghost use Rattle.xdr_json.specs.Judged.{below};
ghost use Rattle.std.specs.Prelude.{codes, IfOk};
ghost use Rattle.xdr_json.specs.Says.{EachFits, TextSaysArgs};

use crate::fault::{JsonFault, Misfit, Stop, below_root};
use crate::judging::{MAX_NESTING, above_index, judge};
use crate::objects::array_len;
use serde_json::Value as Json;
use std::alloc::Global;
use xdr_value::{Arg, Def, Interface, Mode, Value};

/// How deep the elements of an array may nest in JSON that is read.
const ELEMENT_NESTING: u32 = MAX_NESTING - 1;

fn comes_in(mode: Mode) -> bool
    ensures { result ≡ comes_in mode }
{
    match mode {
        Mode::In | Mode::InOut => true,
        Mode::Out => false,
    }
}

// How many arguments are IN or INOUT.
fn in_count(args: &[Arg]) -> usize
    ensures { result ≡ length (in_kinds (map param_of args.now)) }
{
    let mut count = 0;
    for arg in args {
        if comes_in(arg.mode) {
            count += 1;
        }
    }
    count
}

fn unfit(alloc: Global) -> Stop
    ensures { Fails result (no_args {A = Data}) }
{
    match String::from_str(alloc, "args") {
        Err(_) => Stop::Memory,
        Ok(want) => Stop::Misfit(Misfit {
            path: String::new(alloc),
            want,
        }),
    }
}

// One value for each IN or INOUT argument.
fn values(
    alloc: Global,
    iface: &Interface,
    items: &[Json],
    args: &[Arg],
) -> Result<Vec<Value>, Stop>
    requires { items_depth (items_view items.now) ≤ 126 }
    ensures { Gives (λ v. values_of v.items) result
        (args_judged (types_of iface.now.types.items) (in_kinds (map param_of args.now)) (items_view items.now) 0) }
{
    let mut values = Vec::new(alloc);
    let mut left = items;
    for arg in args {
        if comes_in(arg.mode) {
            match left {
                [] => return Err(unfit(alloc)),
                [json, others @ ..] => {
                    let judged = judge(alloc, iface, ELEMENT_NESTING, json, &arg.ty);
                    let value = above_index(alloc, values.len(), judged)?;
                    values.push(value)?;
                    left = others;
                }
            }
        }
    }
    Ok(values)
}

fn array_values(
    alloc: Global,
    iface: &Interface,
    args: &[Arg],
    json: &Json,
) -> Result<Vec<Value>, Stop>
    requires { nesting (view json.now) ≤ 127 }
    ensures { Gives (λ v. values_of v.items) result
        (array_of_args (types_of iface.now.types.items) (in_kinds (map param_of args.now)) (view json.now)) }
{
    match json {
        Json::Array(items) => {
            if array_len(items) != in_count(args) {
                return Err(unfit(alloc));
            }
            values(alloc, iface, items, args)
        }
        Json::Null | Json::Bool(_) | Json::Number(_) => Err(unfit(alloc)),
        Json::String(_) | Json::Object(_) => Err(unfit(alloc)),
    }
}

fn whole_values(
    alloc: Global,
    iface: &Interface,
    args: &[Arg],
    json: &Json,
) -> Result<Vec<Value>, Stop>
    requires { nesting (view json.now) ≤ 127 }
    ensures { Gives (λ v. values_of v.items) result
        (below (codes "$")
        (array_of_args (types_of iface.now.types.items) (in_kinds (map param_of args.now)) (view json.now))) }
{
    match array_values(alloc, iface, args, json) {
        Ok(values) => Ok(values),
        Err(stop) => Err(below_root(alloc, stop)),
    }
}

/// The values of the IN and INOUT arguments, in order, that a text is as a JSON array; or that it
/// is no JSON; or the first place that doesn't fit. Where it is no array, or has another number of
/// values, the path is `$` and the type that is wanted is `args`.
pub fn args_from_json(
    alloc: Global,
    iface: &Interface,
    args: &[Arg],
    text: &str,
) -> Result<Vec<Value>, JsonFault>
    requires { IsTrue (params_known (types_of iface.now.types.items) (map param_of args.now)) }
    ensures exact { AreArgs (types_of iface.now.types.items) (map param_of args.now) text.now result }
    // Each value is one of its argument's type, and the text says them, by the format alone.
    ensures fits { IfOk result (λ vs. EachFits (types_of iface.now.types.items) (in_kinds (map param_of args.now))
        (values_of vs.items)) }
    ensures says { IfOk result (λ vs. TextSaysArgs (types_of iface.now.types.items) (map param_of args.now) text.now
        (values_of vs.items)) }
    // Values that the text says and that fit are read, unless memory runs out.
    ensures only { (ds : Data) → EachFits (types_of iface.now.types.items) (in_kinds (map param_of args.now)) ds
        → TextSaysArgs (types_of iface.now.types.items) (map param_of args.now) text.now ds → IsValues ds result }
{
    read_args(alloc, iface, args, text)
}

fn read_args(
    alloc: Global,
    iface: &Interface,
    args: &[Arg],
    text: &str,
) -> Result<Vec<Value>, JsonFault>
    ensures { AreArgs (types_of iface.now.types.items) (map param_of args.now) text.now result }
{
    match Json::from_str(alloc, text) {
        Err(e) => Err(if e.is_memory() {
            JsonFault::OutOfMemory
        } else {
            JsonFault::NotJson
        }),
        Ok(json) => match whole_values(alloc, iface, args, &json) {
            Ok(values) => Ok(values),
            Err(stop) => match stop {
                Stop::Memory => Err(JsonFault::OutOfMemory),
                Stop::Misfit(Misfit { path, want }) => Err(JsonFault::Mismatch { path, want }),
            },
        },
    }
}
