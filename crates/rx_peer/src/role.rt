ghost use Rattle.std.specs.Prelude.{◌≡◌};
ghost use Rattle.rx_peer.specs.Roles.{half_of};

use rx_model::wire::{CLIENT_INITIATED, HEADER_BYTES};

/// A half of a peer: the one that calls, and the one that is called.
#[derive(Clone, Copy, Debug, PartialEq, Eq)]
pub enum Role {
    Caller,
    Served,
}

/// The place of the flags in a header.
const FLAGS: usize = 21;

impl Role {
    /// The half that a datagram is for: the served half where it is shorter than a header, or where a client sent it.
    pub fn of(bytes: &[u8]) -> Role
        ensures { result ≡ half_of bytes.now }
    {
        if bytes.len() < HEADER_BYTES || bytes[FLAGS] & CLIENT_INITIATED != 0 {
            Role::Served
        } else {
            Role::Caller
        }
    }
}
