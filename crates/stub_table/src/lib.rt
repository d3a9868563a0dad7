//! The two streams of a call: a request is the procedure's opcode and the values that go in, a
//! reply is the values that come back, each as XDR (RFC 4506).
//!
//! `request` and `reply` write them, `read_request` and `read_reply` read them; what can't be done
//! is one of rxgen's codes (`rxgen_consts.h`).
//! A contract sees procedures and values as data of `xdr_value`: `FitStream` of `specs/` says which
//! values a stream may have, `request_spelling` and `stream_spelling` which bytes they are, and
//! `request_answer` what `read_request` answers. The laws say that what is written is read again,
//! and that a whole request is spelled at the front of its bytes.
//! A caller shows that its procedure is one of the interface's.
#![tactic(auto)]

mod codes;
mod fault;
mod laws;
mod reading;
mod stream;
mod writing;

pub use codes::{
    CC_MARSHAL, CC_UNMARSHAL, DECODE, MAX_STREAM_BYTES, OPCODE, SS_MARSHAL, SS_UNMARSHAL,
};
pub use fault::StubFault;
pub use laws::{numbers, reply_is_read_again, request_is_read_again, whole_request_is_spelled};
pub use reading::{Request, read_reply, read_request};
pub use stream::Stream;
pub use writing::{reply, request};

#[cfg(test)]
mod tests;
