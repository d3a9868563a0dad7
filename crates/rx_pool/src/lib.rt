//! The packet slots of a node: one region of memory, cut into slots of 1,444 bytes, which calls share.
//!
//! A contract sees a `Slot` as its number and a `Pool` as `Slots`: the bytes of each slot, and the numbers of the free
//! ones. Whoever holds slots has a list of their numbers, and says by `Keeps` of `specs/Held.antt` what it did to the
//! pool. A caller imports `specs/Pool.antt` and `specs/Held.antt`; `proofs/Holding.antt` and `proofs/Beside.antt` have
//! the laws by which such words follow one another and stand side by side.
//! Surprising: a slot that is dropped in place of given back is never free again.
#![tactic(auto)]

mod laws;
mod pool;
mod slot;
#[cfg(test)]
mod tests;

pub use laws::constants;
pub use pool::{MAX_SLOTS, Pool, SLOT_BYTES};
pub use slot::Slot;
