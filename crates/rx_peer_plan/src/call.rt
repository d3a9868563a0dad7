//! Calls that lines name.
use rx_model::CallName;

/// A call of a peer.
#[derive(Clone, Copy, Debug)]
pub struct PeerCall {
    pub peer: u32,
    pub name: CallName,
}
