//! The ends of a node's calls, by key, over the packet slots that they share.
//!
//! A contract sees `Ends` as `EndsState` of `specs/Ends.antt`: the calls by key, the pool, and how many slots calls
//! hold beside one for each. Each method says of one key for what its call stands then, and that no other key changes;
//! that slots are held by one call each, and how many are, is an invariant of the type. After `make` no call takes
//! memory.
#![tactic(auto)]

mod counters;
mod ends;

pub use ends::Ends;
