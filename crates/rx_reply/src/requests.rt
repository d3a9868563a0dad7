//! The bytes of requests.

ghost use Rattle.std.specs.Prelude.{◌≤◌, ◌++◌, length, option_copied};
ghost use Rattle.std.specs.List.{Contains};
ghost use Rattle.rx_script.specs.Served.{as_counted};
ghost use Rattle.stub_table.specs.Answers.{IsStream};
ghost use Rattle.xdr_value.specs.View.{types_of, procs_of, proc_of, values_of};
ghost use Rattle.rx_reply.specs.Sent.{AreRequestBytes};

use crate::counted::MAX_COUNTED_BYTES;
use std::alloc::Global;
use stub_table::{CC_MARSHAL, StubFault, request};
use xdr_value::{Interface, Proc, Value};

// A request with its upload behind it.
fn with_upload(mut bytes: Vec<u8>, upload: &[u8]) -> Result<Vec<u8>, StubFault>
    ensures { IsStream (length upload.now ≤ MAX_COUNTED_BYTES) (bytes.items ++ as_counted upload.now) CC_MARSHAL
        result }
{
    if upload.len() > MAX_COUNTED_BYTES as usize {
        return Err(StubFault::Code(CC_MARSHAL));
    }
    bytes.extend_from_slice(&(upload.len() as u32).to_be_bytes())?;
    bytes.extend_from_slice(upload)?;
    Ok(bytes)
}

/// What a caller sends: the request with these IN and INOUT values, and the upload behind it as a
/// counted stream, where there is one. `CC_MARSHAL` where there is no such request, or the upload has
/// more than `MAX_COUNTED_BYTES`.
pub fn request_bytes(
    alloc: Global,
    iface: &Interface,
    p: &Proc,
    args: &[Value],
    up: Option<&[u8]>,
) -> Result<Vec<u8>, StubFault>
    requires { Contains (procs_of iface.now.procs.items) (proc_of p.now) }
    ensures exact { AreRequestBytes (types_of iface.now.types.items) (proc_of p.now) (values_of args.now)
        (option_copied up.entry) result }
{
    match request(alloc, iface, p, args) {
        Err(fault) => Err(fault),
        Ok(bytes) => match up {
            None => Ok(bytes),
            Some(upload) => with_upload(bytes, upload),
        },
    }
}
