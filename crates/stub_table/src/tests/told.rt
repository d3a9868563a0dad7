//! The calls of the tests, and what their answers say.

use crate::{Request, StubFault, read_reply, read_request, reply, request};
use std::alloc::Global;
use xdr_value::{Interface, Value};

// What an answer says. Values that are read are compared by the bytes that they are written as again.
#[derive(Clone, Copy, Debug, PartialEq, Eq)]
pub enum Told {
    /// A request of the procedure with the index, and how many bytes it takes.
    Request(usize, usize),
    /// So many bytes, the wanted ones.
    Bytes(usize),
    Short,
    Code(i32),
    OutOfMemory,
    OtherBytes,
}

pub fn send(
    alloc: Global,
    iface: &Interface,
    index: usize,
    args: &[Value],
) -> Result<Vec<u8>, StubFault> {
    if index >= iface.procs.len() {
        return Err(StubFault::OutOfMemory);
    }
    let p = &iface.procs[index];
    request(alloc, iface, p, args)
}

pub fn answer(
    alloc: Global,
    iface: &Interface,
    index: usize,
    values: &[Value],
) -> Result<Vec<u8>, StubFault> {
    if index >= iface.procs.len() {
        return Err(StubFault::OutOfMemory);
    }
    let p = &iface.procs[index];
    reply(alloc, iface, p, values)
}

pub fn receive(
    alloc: Global,
    iface: &Interface,
    index: usize,
    bytes: &[u8],
) -> Result<Vec<Value>, StubFault> {
    if index >= iface.procs.len() {
        return Err(StubFault::OutOfMemory);
    }
    let p = &iface.procs[index];
    read_reply(alloc, iface, p, bytes)
}

fn said(fault: StubFault) -> Told {
    match fault {
        StubFault::Code(code) => Told::Code(code),
        StubFault::OutOfMemory => Told::OutOfMemory,
    }
}

// Whether what was written is the bytes.
pub fn written(made: Result<Vec<u8>, StubFault>, bytes: &[u8]) -> Told {
    match made {
        Ok(out) => if out.as_slice() == bytes {
            Told::Bytes(bytes.len())
        } else {
            Told::OtherBytes
        },
        Err(fault) => said(fault),
    }
}

// What the bytes are as a request, once they are written again.
pub fn asked(alloc: Global, iface: &Interface, bytes: &[u8], ended: bool) -> Told {
    match read_request(alloc, iface, bytes, ended) {
        Request::Whole { index, args, used } => {
            if used > bytes.len() {
                return Told::OtherBytes;
            }
            match send(alloc, iface, index, &args) {
                Ok(again) => if again.as_slice() == &bytes[..used] {
                    Told::Request(index, used)
                } else {
                    Told::OtherBytes
                },
                Err(_) => Told::OtherBytes,
            }
        }
        Request::Short => Told::Short,
        Request::Code(code) => Told::Code(code),
        Request::OutOfMemory => Told::OutOfMemory,
    }
}

// What the bytes are as a reply, once they are written again.
pub fn answered(alloc: Global, iface: &Interface, index: usize, bytes: &[u8]) -> Told {
    match receive(alloc, iface, index, bytes) {
        Ok(values) => match answer(alloc, iface, index, &values) {
            Ok(again) => if again.len() <= bytes.len()
                && again.as_slice() == &bytes[..again.len()]
            {
                Told::Bytes(again.len())
            } else {
                Told::OtherBytes
            },
            Err(_) => Told::OtherBytes,
        },
        Err(fault) => said(fault),
    }
}
