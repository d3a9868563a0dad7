//! Files to read and sinks to put bytes in, each with a count of its faults, and of files one of their reads.
//! A contract sees that count and what is told: the files by name, the bytes put, or nothing.
//! A caller is generic over `Files` and `Sink`; programs pass the system's, tests those in memory.
//! A count stands still at 2^64-1, and there it passes for one that rose.
#![tactic(auto)]

mod discarding;
mod disk;
mod files;
mod laws;
mod mem_files;
mod mem_sink;
mod sink;
mod std_sink;
mod terminal;
#[cfg(test)]
mod tests;

pub use discarding::Discarding;
pub use disk::{DiskFiles, MAX_FILE_BYTES};
pub use files::{Files, ReadFault};
pub use laws::numbers;
pub use mem_files::MemFiles;
pub use mem_sink::MemSink;
pub use sink::{Failed, Sink};
pub use std_sink::StdSink;
pub use terminal::Terminal;
