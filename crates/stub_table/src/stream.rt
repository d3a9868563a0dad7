//! Which values go with a stream.

ghost use Rattle.std.specs.Prelude.{◌≡◌, ◌↔◌, ◌++◌, IsTrue, OnOk, map};
ghost use Rattle.xdr_value.specs.Fits.{PartsFit};
ghost use Rattle.xdr_value.specs.Spelling.{parts_spelling};
ghost use Rattle.xdr_value.specs.Tests.{params_known};
ghost use Rattle.xdr_value.specs.View.{types_of, value_of, values_of, param_of};
ghost use Rattle.xdr_code.specs.Reading.{Gives, parts_at, value_at};
ghost use Rattle.stub_table.specs.Streams.{goes_with, parts_with, PartsFitWithin};

use std::alloc::{AllocError, Global};
use xdr_code::{Stop, encode, read_value};
use xdr_value::{Arg, Interface, MAX_LEVELS, Mode, Value, fits, has_levels_within};

/// The stream from the client to the server, or the one back.
#[derive(Clone, Copy, Debug, PartialEq, Eq)]
pub enum Stream {
    Request,
    Reply,
}

/// Whether an argument's value goes with the stream.
pub fn goes_with(stream: Stream, mode: Mode) -> bool
    ensures { result ≡ goes_with stream mode }
{
    match mode {
        Mode::In => match stream {
            Stream::Request => true,
            Stream::Reply => false,
        },
        Mode::Out => match stream {
            Stream::Request => false,
            Stream::Reply => true,
        },
        Mode::InOut => true,
    }
}

/// Whether there is one value for each argument that goes with the stream, in order, and each fits
/// and has at most `MAX_LEVELS` levels.
pub fn values_fit(iface: &Interface, stream: Stream, args: &Vec<Arg>, values: &[Value]) -> bool
    requires { IsTrue (params_known (types_of iface.now.types.items) (map param_of args.now.items)) }
    ensures { IsTrue result ↔ PartsFitWithin (types_of iface.now.types.items)
        (parts_with stream (map param_of args.now.items)) (values_of values.now) }
{
    let mut left = values;
    for arg in args {
        if goes_with(stream, arg.mode) {
            match left {
                [] => return false,
                [value, others @ ..] => {
                    if !fits(iface, &arg.ty, value) || !has_levels_within(value, MAX_LEVELS) {
                        return false;
                    }
                    left = others;
                }
            }
        }
    }
    left.is_empty()
}

/// Puts the spelling of the values that go with the stream behind what is there.
pub fn put_values(
    alloc: Global,
    out: &mut Vec<u8>,
    iface: &Interface,
    stream: Stream,
    args: &Vec<Arg>,
    values: &[Value],
) -> Result<(), AllocError>
    requires { PartsFitWithin (types_of iface.now.types.items) (parts_with stream (map param_of args.now.items))
        (values_of values.now) }
    ensures { OnOk result (out.new.items ≡ out.old.items ++ parts_spelling (types_of iface.now.types.items)
        (parts_with stream (map param_of args.now.items)) (values_of values.now)) }
{
    let mut left = values;
    for arg in args {
        if goes_with(stream, arg.mode) {
            if let [value, others @ ..] = left {
                out.extend_from_slice(&encode(alloc, iface, &arg.ty, value)?)?;
                left = others;
            }
        }
    }
    Ok(())
}

/// One value for each argument that goes with the stream, and the bytes behind them.
pub fn read_values<'a>(
    alloc: Global,
    iface: &Interface,
    stream: Stream,
    args: &Vec<Arg>,
    bytes: &'a [u8],
) -> Result<(Vec<Value>, &'a [u8]), Stop>
    ensures { Gives (λ x. (values_of x.0.items, x.1.now)) result
        (parts_at (value_at MAX_LEVELS (types_of iface.now.types.items))
        (parts_with stream (map param_of args.now.items)) bytes.now) }
{
    let mut values = Vec::new(alloc);
    let mut rest = bytes;
    for arg in args {
        if goes_with(stream, arg.mode) {
            let (value, after) = read_value(alloc, iface, &arg.ty, rest)?;
            values.push(value)?;
            rest = after;
        }
    }
    Ok((values, rest))
}
