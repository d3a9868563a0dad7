//! Passes of a node over a wire: the node is polled and what it gives goes out, its handlers or its caller have a turn,
//! and what comes in is taken.
//!
//! `serve` serves one node until its time is up, `call` makes one call. Each event of the node is noted in a journal;
//! `serve` puts the lines of its handlers, each behind the note of its event.
#![tactic(auto)]

mod calling;
mod laws;
mod lines;
mod notes;
mod outside;
mod ports;
mod serving;

pub use calling::{CallEnd, Calling, call};
pub use laws::{calls_tell, numbers};
pub use lines::{CLIENT, SERVER};
pub use ports::{LAST_MOMENT, LONGEST_WAIT_MS, TAKE_BYTES};
pub use rx_drive::Stop;
pub use serving::{ServeEnd, Serving, serve};
