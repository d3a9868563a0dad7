//! What drives a node: its clock, its polls and what it takes.
//!
//! A run over nodes tells each event of a node to what is outside (`Outside`): a journal, and the sink of its lines.
//! What a node gives goes to a carrier (`Carrier`): it is kept, or goes to a wire. A contract says that steps were
//! made and told which a part of a run may make (`rx_run`, `specs/Ran.antt`): events of the node, and entries of the
//! wire's log.
#![tactic(auto)]

mod buffers;
mod carrier;
mod endpoint;
mod events;
mod fits;
mod outside;
mod polls;
mod stop;
mod turns;

pub use carrier::Carrier;
pub use endpoint::Endpoint;
pub use events::{clock, take, take_parts};
pub use outside::Outside;
pub use polls::poll_out;
pub use stop::Stop;
pub use turns::{call_turn, dispatch};
