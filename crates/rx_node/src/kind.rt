ghost use Rattle.std.specs.Prelude.{◌≡◌};
ghost use Rattle.rx_call.specs.Standing.{is_client as is_client_side};
ghost use Rattle.rx_rules.specs.Setup.{client_host, is_client, side_flag};
ghost use Rattle.rx_node.specs.Kinds.{kind_of};

use rx_call::Side;
use rx_model::Host;
use rx_model::wire::CLIENT_INITIATED;

/// Which end of its connections a node is.
#[derive(Clone, Copy, Debug, PartialEq, Eq)]
pub enum Kind {
    /// A server of one service, with the nonce of the first connection that it enters.
    Server { service: u16, nonces: u64 },
    /// A client: its own host, which its connections have in their names, and its epoch.
    Client { host: Host, epoch: u32 },
}

impl Kind {
    /// Which end of its calls it is.
    pub fn side(self) -> Side
        ensures { is_client_side result ≡ is_client (kind_of self) }
    {
        match self {
            Kind::Server { .. } => Side::Server,
            Kind::Client { .. } => Side::Client,
        }
    }

    /// The flag of each datagram that it sends.
    pub fn flag(self) -> u8
        ensures { result ≡ side_flag (kind_of self) }
    {
        match self {
            Kind::Server { .. } => 0,
            Kind::Client { .. } => CLIENT_INITIATED,
        }
    }

    /// The host in the names of its connections with a peer.
    pub fn client_host(self, peer: Host) -> Host
        ensures { result ≡ client_host (kind_of self) peer }
    {
        match self {
            Kind::Server { .. } => peer,
            Kind::Client { host, .. } => host,
        }
    }
}
