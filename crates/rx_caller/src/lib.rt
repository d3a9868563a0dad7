//! Callers: each says the request of one call of a client and reads its reply.
//!
//! A contract sees a caller as its call, the bytes that are still to be offered, whether it shut, the bytes
//! read, the call's end, and where its turn stands. What a turn asks of the client is a program over that (`rx_asks`).
//! `begin` and `step` make the calls of a turn one by one, for whoever tells each event. Where memory is wanted no call
//! was made.
#![tactic(auto)]

mod caller;
mod calls;

pub use caller::Caller;
pub use rx_asks::REPLY_BYTES;
