//! What is kept of a request while it is read.

ghost use Rattle.std.specs.Prelude.{◌≡◌, option_map};
ghost use Rattle.std.specs.Int.{from_be_bytes, w32};
ghost use Rattle.xdr_value.specs.View.{proc_of, procs_of};
ghost use Rattle.stub_table.specs.Requests.{found_from, opcode_at};
ghost use Rattle.rx_dispatch.specs.Desks.{handlers_at};
ghost use Rattle.rx_jobs.specs.Keeping.{has_upload, kept_of, most_kept};

use crate::calls::front;
use crate::deciding::{MAX_UPLOAD_BYTES, takes_upload};
use crate::desk::Desk;
use stub_table::MAX_STREAM_BYTES;
use xdr_value::{Interface, Proc};

/// Bytes of the count of an upload.
const COUNT_BYTES: usize = 4;

/// What is kept of a request that begins so.
pub fn kept_of<'a>(desk: &Desk<'_>, request: &'a [u8]) -> &'a [u8]
    ensures { result.now ≡ kept_of (handlers_at desk.now) request.now }
{
    if request.len() <= MAX_STREAM_BYTES {
        return request;
    }
    front(request, most_kept(desk, request))
}

/// How many bytes of a request that begins so are kept at most.
fn most_kept(desk: &Desk<'_>, request: &[u8]) -> usize
    ensures { result ≡ most_kept (handlers_at desk.now) request.now }
{
    if has_upload(desk, request) {
        MAX_STREAM_BYTES + COUNT_BYTES + MAX_UPLOAD_BYTES as usize
    } else {
        MAX_STREAM_BYTES
    }
}

/// Whether an upload stands behind the arguments of a request that begins so.
fn has_upload(desk: &Desk<'_>, request: &[u8]) -> bool
    ensures { result ≡ has_upload (handlers_at desk.now) request.now }
{
    let Some(opcode) = opcode_of(request) else {
        return false;
    };
    match with_opcode(desk.iface, opcode) {
        None => false,
        Some(p) => takes_upload(desk, p),
    }
}

/// The opcode of a request, where it is there.
fn opcode_of(request: &[u8]) -> Option<u32>
    ensures { result ≡ option_map (λ x. x.0) (opcode_at request.now) }
{
    if request.len() < 4 {
        return None;
    }
    Some(u32::from_be_bytes([request[0], request[1], request[2], request[3]]))
}

/// The first procedure with an opcode, which is the only one.
fn with_opcode(iface: &Interface, opcode: u32) -> Option<&Proc>
    ensures { option_map (λ p. proc_of p.now) result
        ≡ option_map (λ found. found.1) (found_from 0 opcode (procs_of iface.now.procs.items)) }
{
    for index in 0..iface.procs.len() {
        let proc = &iface.procs[index];
        if proc.opcode == opcode {
            return Some(proc);
        }
    }
    None
}
