//! The outside of a node: journals, where a program notes the events of its nodes, and wires, where datagrams are taken
//! and given, with a clock and counted faults.
//! Of a journal a contract sees the events noted, where they are told. A caller is generic over `Journal`; programs
//! pass one that forgets, tests one in memory. Of a wire it sees the count, the moment and what is told: the last bind
//! and the log of takes and gives, or nothing. A caller is generic over `Wire`; programs pass a UDP socket's, tests one
//! in memory. A take waits: its answer may come as late as the moment that it is given. A count stands still at 2^64-1.
#![tactic(auto)]

mod forgetting;
mod journal;
mod mem_journal;
mod mem_wire;
mod refusal;
#[cfg(test)]
mod tests;
mod udp_wire;
mod wire;
mod wire_log;

pub use forgetting::Forgetting;
pub use journal::Journal;
pub use mem_journal::MemJournal;
pub use mem_wire::{Arrival, MemWire};
pub use udp_wire::UdpWire;
pub use wire::{LastBind, Wire};
pub use wire_log::{LogEntries, LogEntry};
