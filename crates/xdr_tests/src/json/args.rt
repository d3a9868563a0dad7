//! Arguments as one JSON array.

ghost use Rattle.std.specs.Prelude.{◌≡◌, map};
ghost use Rattle.xdr_value.specs.Tests.{params_known};
ghost use Rattle.xdr_value.specs.View.{types_of, param_of};

use super::types::interface;
use std::alloc::{AllocError, Global};
use std::process::Abort;
use std::test::*;
use xdr_json::{JsonFault, args_from_json};
use xdr_value::{Arg, Def, Mode, Ty, known};

// IN int a, OUT int b, INOUT Fid c
fn arguments(alloc: Global) -> Result<Vec<Arg>, AllocError> {
    let mut args = Vec::new(alloc);
    args.push(Arg::make(alloc, Mode::In, "a", Ty::Int)?)?;
    args.push(Arg::make(alloc, Mode::Out, "b", Ty::Int)?)?;
    args.push(Arg::make(alloc, Mode::InOut, "c", Ty::named(alloc, "Fid")?)?)?;
    Ok(args)
}

fn all_known(types: &[Def], args: &[Arg]) -> bool
    ensures { result ≡ params_known (types_of types.now) (map param_of args.now) }
{
    for arg in args {
        if !known(types, &arg.ty) {
            return false;
        }
    }
    true
}

// How many values a text gives, `no json`, or the path and the wanted type.
fn told(alloc: Global, text: &str) -> Result<String, AllocError> {
    let iface = interface(alloc)?;
    let args = arguments(alloc)?;
    if !all_known(&iface.types, &args) {
        return Err(AllocError);
    }
    match args_from_json(alloc, &iface, &args, text) {
        Ok(values) => format!(in alloc; "{}", values.len()),
        Err(JsonFault::NotJson) => String::from_str(alloc, "no json"),
        Err(JsonFault::Mismatch { path, want }) => {
            format!(in alloc; "{} {}", path.as_str(), want.as_str())
        }
        Err(JsonFault::OutOfMemory) => Err(AllocError),
    }
}

/// Texts, and how many values each has, or what is told of it.
static ARGS: [(&str, &str); 10] = [
    ("[1,{\"Volume\":1,\"Vnode\":2,\"Unique\":3}]", "2"),
    ("[1,{\"Volume\":1,\"Vnode\":2,\"Unique\":3}] x", "no json"),
    ("{}", "$ args"),
    ("null", "$ args"),
    ("[]", "$ args"),
    ("[true]", "$ args"),
    ("[true,{},3]", "$ args"),
    ("[true,{}]", "$[0] int"),
    ("[1,{}]", "$[1] Fid"),
    (
        "[1,{\"Volume\":true,\"Vnode\":2,\"Unique\":3}]",
        "$[1].Volume uint",
    ),
];

#[test]
fn arguments_are_one_array(rt: HostRuntime) -> Result<(), AllocError> {
    for (text, wanted) in &ARGS {
        let given = told(rt.alloc(), text)?;
        assert_eq!(rt; given.as_str(), *wanted, "{text}");
    }
    Ok(())
}
