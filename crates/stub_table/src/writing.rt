//! Writing the streams of a call.

ghost use Rattle.std.specs.List.{Contains};
ghost use Rattle.xdr_value.specs.View.{types_of, values_of, procs_of, proc_of};
ghost use Rattle.stub_table.specs.Answers.{IsRequest, IsReply};

use crate::codes::{CC_MARSHAL, MAX_STREAM_BYTES, SS_MARSHAL};
use crate::fault::StubFault;
use crate::stream::{Stream, put_values, values_fit};
use std::alloc::Global;
use xdr_value::{Interface, Proc, Value};

/// The request of a call with these IN and INOUT values; `CC_MARSHAL` where they don't fit, one is
/// too deep or the bytes are too many.
pub fn request(
    alloc: Global,
    iface: &Interface,
    p: &Proc,
    args: &[Value],
) -> Result<Vec<u8>, StubFault>
    requires { Contains (procs_of iface.now.procs.items) (proc_of p.now) }
    ensures { IsRequest (types_of iface.now.types.items) (proc_of p.now) (values_of args.now) result }
{
    if !values_fit(iface, Stream::Request, &p.args, args) {
        return Err(StubFault::Code(CC_MARSHAL));
    }
    let mut out = Vec::new(alloc);
    out.extend_from_slice(&p.opcode.to_be_bytes())?;
    put_values(alloc, &mut out, iface, Stream::Request, &p.args, args)?;
    if out.len() > MAX_STREAM_BYTES {
        return Err(StubFault::Code(CC_MARSHAL));
    }
    Ok(out)
}

/// The reply of a call with these INOUT and OUT values; `SS_MARSHAL` where they don't fit, one is
/// too deep or the bytes are too many.
pub fn reply(
    alloc: Global,
    iface: &Interface,
    p: &Proc,
    values: &[Value],
) -> Result<Vec<u8>, StubFault>
    requires { Contains (procs_of iface.now.procs.items) (proc_of p.now) }
    ensures { IsReply (types_of iface.now.types.items) (proc_of p.now) (values_of values.now) result }
{
    if !values_fit(iface, Stream::Reply, &p.args, values) {
        return Err(StubFault::Code(SS_MARSHAL));
    }
    let mut out = Vec::new(alloc);
    put_values(alloc, &mut out, iface, Stream::Reply, &p.args, values)?;
    if out.len() > MAX_STREAM_BYTES {
        return Err(StubFault::Code(SS_MARSHAL));
    }
    Ok(out)
}
