//! Values of a reply as one JSON array.

ghost use Rattle.std.specs.Prelude.{◌≡◌, ◌≤◌, ◌++◌, OnOk, IfOk, map};
ghost use Rattle.std.specs.String.{string_bytes};
ghost use Rattle.serde_json.specs.Written.{comma_if, compact_text};
ghost use Rattle.stub_table.specs.Streams.{goes_with, parts_with, PartsFitWithin};
ghost use Rattle.stub_table.specs.declared.stream.Stream.TheVariants as streams;
ghost use Rattle.xdr_value.specs.Fits.{Fits, depth};
ghost use Rattle.xdr_value.specs.View.{kind_of, types_of, param_of, value_of, values_of};
ghost use Rattle.xdr_json.specs.Json.{json_of};
ghost use Rattle.rx_reply.specs.Replies.{array_text};

use std::alloc::{AllocError, Global};
use xdr_json::to_json;
use xdr_value::{Arg, Interface, MAX_LEVELS, Mode, Ty, Value};

// Whether an argument's value comes back with the reply.
fn comes_back(mode: Mode) -> bool
    ensures { result ≡ goes_with streams.Reply mode }
{
    match mode {
        Mode::Out | Mode::InOut => true,
        Mode::In => false,
    }
}

// A comma, where a value stands before.
fn put_comma(text: &mut String, later: bool) -> Result<(), AllocError>
    ensures { OnOk result (string_bytes text.new ≡ string_bytes text.old ++ comma_if later) }
{
    if later {
        text.push_str(",")?;
    }
    Ok(())
}

// One more value of an array.
fn put_value(
    alloc: Global,
    text: &mut String,
    later: bool,
    iface: &Interface,
    ty: &Ty,
    value: &Value,
) -> Result<(), AllocError>
    requires fits { Fits (types_of iface.now.types.items) (kind_of ty.now) (value_of value.now) }
    requires shallow { depth (value_of value.now) ≤ MAX_LEVELS }
    ensures { OnOk result (string_bytes text.new ≡ string_bytes text.old ++ (comma_if later
        ++ compact_text (json_of (types_of iface.now.types.items) (kind_of ty.now) (value_of value.now)))) }
{
    let json = to_json(alloc, iface, ty, value)?;
    put_comma(text, later)?;
    text.push_str(json.as_str())?;
    Ok(())
}

/// The values that come back for these arguments, as one JSON array without spaces.
pub fn array_text(
    alloc: Global,
    iface: &Interface,
    args: &Vec<Arg>,
    values: &[Value],
) -> Result<String, AllocError>
    requires { PartsFitWithin (types_of iface.now.types.items) (parts_with streams.Reply (map param_of args.now.items))
        (values_of values.now) }
    ensures { IfOk result (λ s. string_bytes s ≡ array_text (types_of iface.now.types.items)
        (parts_with streams.Reply (map param_of args.now.items)) (values_of values.now)) }
{
    let mut text = String::from_str(alloc, "[")?;
    let mut later = false;
    let mut left = values;
    for arg in args {
        if comes_back(arg.mode) {
            if let [value, others @ ..] = left {
                put_value(alloc, &mut text, later, iface, &arg.ty, value)?;
                later = true;
                left = others;
            }
        }
    }
    text.push_str("]")?;
    Ok(text)
}
