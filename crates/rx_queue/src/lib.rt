//! Keys in the order in which they came, some of them ready: which ready key came first is found without a search.
//!
//! A contract sees a queue as the list of its keys in that order, and as what is ready (`specs/Queue.antt`).
#![tactic(auto)]

mod book;
mod queue;
mod renumber;

pub use queue::Queue;
