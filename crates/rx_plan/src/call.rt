//! Calls that lines name.
use rx_model::CallName;

/// A call of a client.
#[derive(Clone, Copy, Debug)]
pub struct ClientCall {
    pub node: u32,
    pub name: CallName,
}
