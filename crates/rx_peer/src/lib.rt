//! Peers: a client and a server on one port, as an AFS client that its file server calls back.
#![tactic(auto)]

mod laws;
mod peer;
mod role;
#[cfg(test)]
mod tests;

pub use laws::peers_keep_promises;
pub use peer::Peer;
pub use role::Role;
