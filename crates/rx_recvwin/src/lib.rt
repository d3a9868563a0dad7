//! The receiving window of one stream: the packets that are kept and not used, each in a slot of a pool.
//!
//! With the bytes of its pool a window stands for what was received (`StandsReceived` of `specs/Window.antt`, over
//! `Received` of `rx_rules`). Each contract says for every stream that the window stood for what the call answers, and
//! for which stream it stands then. What it did to the pool is said by `Keeps` of `rx_pool` over the slots that it
//! holds (`packet_slots`). A caller imports `specs/Window.antt`; `proofs/Undisturbed.antt` has that a window is as it
//! was where others used the same pool. After `make` no call takes memory.
#![tactic(auto)]

mod ack_view;
mod copy;
mod packet;
mod places;
#[cfg(test)]
mod tests;
mod window;

pub use ack_view::AckView;
pub use window::{RecvWin, Spare};
