//! The limits of plans of peers.
ghost use Rattle.std.specs.Prelude.{◌≡◌};

/// Peers of a plan at most.
pub const MAX_PEERS: usize = 32;

/// A plan of peers has at most 32 of them. Its other limits are those of plans.
pub fn peer_plan_limits()
    ensures { MAX_PEERS ≡ 32 }
{}
