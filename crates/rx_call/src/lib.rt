//! One end of one call: what came, what is said, how fast, and what is owed.
//!
//! With the bytes of its node's pool a `Call` stands for what a history says of one end of a call (`StandsCall` of
//! `specs/Standing.antt`, over `CallLooks` of `rx_rules`). Each contract says for every such record what the call
//! answers, and for which record it stands then. What it did to the pool is said by `Keeps` of `rx_pool` over the slots
//! that it holds (`slots_of`). It knows no name, no connection and no serial: those are its node's.
//! The calls of a node stand in `Calls`, under keys (`specs/Kept.antt`).
//! After `make` no call here takes memory.
#![tactic(auto)]

mod call;
mod calls;
mod giving;
mod laws;
mod owing;
mod side;

pub use call::Call;
pub use calls::Calls;
pub use giving::Giving;
pub use laws::{leads_have_slots, one_call_changes};
pub use owing::OwedAck;
pub use rx_recvwin::AckView;
pub use side::Side;
