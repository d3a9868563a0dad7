//! Several peers, whose calls are made as events of their halves.
//!
//! A contract sees them as the list of `PeerAt`. Of each call it says which event it is, of which half of which peer,
//! and that the rules allow it behind each joint history for which the peers stood; that they stand then for that
//! history with the event, and that no other half changed (`Makes`). Peers have numbers from 1 on. A method that makes
//! an event takes the memory for it first, so that where that is wanted no call was made.
#![tactic(auto)]

mod joint;
mod laws;
#[cfg(test)]
mod tests;

pub use joint::{JointPeers, PolledBy};
pub use laws::joint_peers_keep_promises;
