//! Memory for what reads of streams bring, kept for all streams that are read in turn.
#![tactic(auto)]

mod room;

pub use room::Room;
