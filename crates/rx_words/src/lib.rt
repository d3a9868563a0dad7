//! The words of the command line: which command they are, with every default filled in.
//!
//! A contract sees the words as the list of their bytes, a `Command` as it is written here with each text as its
//! bytes. `read_words` answers the command that the definition `command_of` gives the words, and `Usage` exactly where
//! that has none.
#![tactic(auto)]

mod command;
mod commands;
mod fault;
mod limits;
mod names;
mod number;
mod options;
mod parts;
mod pieces;
mod read;
mod rules;
mod split;
mod words;

pub use command::{CallWords, Command, ServeFiles, SimFiles};
pub use fault::WordsFault;
pub use options::{CallOptions, ServeOptions};
pub use read::read_words;

#[cfg(test)]
mod tests;
