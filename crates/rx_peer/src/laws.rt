//! The law of peers.
ghost use Rattle.rx_peer.specs.PeerWorlds.{PeerLaw};

/// Between peers, each of which calls and is called on one port, with a network that invents nothing: each call of each
/// connection from one peer to another enters its handler at most once, what each end read begins what the other said,
/// and a caller's call that ended has what its end says. That holds in both directions at once, also where two
/// connections have the same epochs and cids. Each served half forgot no record, or no datagram of a connection to it
/// is old.
pub fn peers_keep_promises()
    ensures { PeerLaw }
{}
