//! The limits of plans.
ghost use Rattle.std.specs.Prelude.{◌≡◌};

/// Slots of all nodes of a plan at most.
pub const MAX_SLOTS: u32 = 262_144;

/// Clients of a plan at most.
pub const MAX_CLIENTS: usize = 64;

/// Datagrams that are kept for `deliver` at most.
pub const MAX_PACKETS: usize = 200_000;

/// A plan has at most 64 clients, its nodes together have at most 262,144 slots, and at most 200,000 datagrams are kept
/// for its `deliver` lines.
pub fn plan_limits()
    ensures clients { MAX_CLIENTS ≡ 64 }
    ensures slots { MAX_SLOTS ≡ 262144 }
    ensures packets { MAX_PACKETS ≡ 200000 }
{}
