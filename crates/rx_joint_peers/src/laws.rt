//! The law of peers that stand for a joint history.
ghost use Rattle.rx_joint_peers.specs.Worlds.{StandingLaw, StandingWorld};

/// What peers stand for is a world of peers, where the network between them invents nothing: so each call of each
/// connection from one of them to another enters its handler at most once, what each end read begins what the other
/// said, and a caller's call that ended has what its end says, in both directions at once.
pub fn joint_peers_keep_promises()
    ensures world { StandingWorld }
    ensures law { StandingLaw }
{}
