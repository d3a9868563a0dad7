//! Reading the streams of a call.

ghost use Rattle.std.specs.Prelude.{◌≡◌, ◌≤◌, IsTrue, Some, length, map, option_map, take};
ghost use Rattle.std.specs.List.{Contains};
ghost use Rattle.xdr_value.specs.Tests.{params_known};
ghost use Rattle.xdr_value.specs.View.{types_of, param_of, procs_of, proc_of};
ghost use Rattle.stub_table.specs.Answers.{IsReplyRead};
ghost use Rattle.stub_table.specs.Requests.{opcode_at, is_open, found_from, found_answer, seen_answer, request_answer};
ghost use Rattle.stub_table.specs.Requests.{IsRequestAnswer};

use crate::codes::{CC_UNMARSHAL, DECODE, MAX_STREAM_BYTES, OPCODE, SS_UNMARSHAL};
use crate::fault::StubFault;
use crate::stream::{Stream, read_values};
use std::alloc::Global;
use xdr_code::{Fault, Stop};
use xdr_value::{Interface, Proc, Value};

/// What the front of a request is: a procedure by its index, its IN and INOUT values and how many
/// bytes they take with the opcode; or more bytes are wanted; or one of the server's codes.
#[derive(Debug, Drop)]
pub enum Request {
    Whole {
        index: usize,
        args: Vec<Value>,
        used: usize,
    },
    Short,
    Code(i32),
    OutOfMemory,
}

// The bytes of a request that are looked at.
fn looked_at(bytes: &[u8]) -> &[u8]
    ensures { result.now ≡ take MAX_STREAM_BYTES bytes.now }
{
    if bytes.len() <= MAX_STREAM_BYTES {
        return bytes;
    }
    let (front, _) = bytes.split_at(MAX_STREAM_BYTES);
    front
}

// Whether more bytes of a request may be looked at later.
fn is_open(bytes: &[u8], ended: bool) -> bool
    ensures { result ≡ is_open (length bytes.now) ended }
{
    !ended && bytes.len() < MAX_STREAM_BYTES
}

// The opcode and the bytes behind it.
fn opcode_at(bytes: &[u8]) -> Option<(u32, &[u8])>
    ensures { option_map (λ x. (x.0, x.1.now)) result ≡ opcode_at bytes.now }
{
    if bytes.len() < 4 {
        return None;
    }
    let opcode = u32::from_be_bytes([bytes[0], bytes[1], bytes[2], bytes[3]]);
    let (_, rest) = bytes.split_at(4);
    Some((opcode, rest))
}

// The first procedure with the opcode, which is the only one, and its index.
fn with_opcode(iface: &Interface, opcode: u32) -> Option<(usize, &Proc)>
    ensures found { option_map (λ x. (x.0, proc_of x.1.now)) result ≡ found_from 0 opcode
        (procs_of iface.now.procs.items) }
{
    for index in 0..iface.procs.len() {
        let proc = &iface.procs[index];
        if proc.opcode == opcode {
            return Some((index, proc));
        }
    }
    None
}

// What the bytes behind the opcode of the procedure found are, where `waits` says that more may come.
fn read_args(
    alloc: Global,
    iface: &Interface,
    found: (usize, &Proc),
    seen: usize,
    bytes: &[u8],
    waits: bool,
) -> Request
    requires known { IsTrue (params_known (types_of iface.now.types.items) (map param_of found.1.now.args.items)) }
    requires within { length bytes.now ≤ seen }
    ensures { IsRequestAnswer result (found_answer (types_of iface.now.types.items) seen waits bytes.now
        (Some (found.entry.0, proc_of found.entry.1.now))) }
{
    let (index, proc) = found;
    match read_values(alloc, iface, Stream::Request, &proc.args, bytes) {
        Ok((args, left)) => Request::Whole {
            index,
            args,
            used: seen - left.len(),
        },
        Err(stop) => match stop {
            Stop::Memory => Request::OutOfMemory,
            Stop::Fault(fault) => match fault {
                Fault::Short => {
                    if waits {
                        Request::Short
                    } else {
                        Request::Code(SS_UNMARSHAL)
                    }
                }
                Fault::Bad { left: _, why: _ } => Request::Code(SS_UNMARSHAL),
                Fault::Deep => Request::Code(SS_UNMARSHAL),
            },
        },
    }
}

// What the bytes that are looked at are.
fn read_seen(alloc: Global, iface: &Interface, seen: &[u8], ended: bool, waits: bool) -> Request
    ensures { IsRequestAnswer result
        (seen_answer (types_of iface.now.types.items) (procs_of iface.now.procs.items) seen.now
        ended waits) }
{
    match opcode_at(seen) {
        None => {
            if ended {
                Request::Code(DECODE)
            } else {
                Request::Short
            }
        }
        Some((opcode, rest)) => match with_opcode(iface, opcode) {
            None => Request::Code(OPCODE),
            Some(found) => read_args(alloc, iface, found, seen.len(), rest, waits),
        },
    }
}

/// What the front of a request is, of which these bytes have come and, where `ended` is true, no
/// more will. It looks at the first `MAX_STREAM_BYTES` bytes alone.
pub fn read_request(alloc: Global, iface: &Interface, bytes: &[u8], ended: bool) -> Request
    ensures { IsRequestAnswer result (request_answer (types_of iface.now.types.items) (procs_of iface.now.procs.items)
        bytes.now ended) }
{
    read_seen(alloc, iface, looked_at(bytes), ended, is_open(bytes, ended))
}

/// The INOUT and OUT values that the front of a reply spells; `CC_UNMARSHAL` where none spells any.
/// Later bytes are ignored.
pub fn read_reply(
    alloc: Global,
    iface: &Interface,
    p: &Proc,
    bytes: &[u8],
) -> Result<Vec<Value>, StubFault>
    requires { Contains (procs_of iface.now.procs.items) (proc_of p.now) }
    ensures { IsReplyRead (types_of iface.now.types.items) (proc_of p.now) bytes.now result }
{
    match read_values(alloc, iface, Stream::Reply, &p.args, bytes) {
        Ok((values, _)) => Ok(values),
        Err(stop) => match stop {
            Stop::Memory => Err(StubFault::OutOfMemory),
            Stop::Fault(_) => Err(StubFault::Code(CC_UNMARSHAL)),
        },
    }
}
