//! The laws of plans of peers: whatever such a plan makes is a world of peers, and has the promises of such.
ghost use Rattle.std.specs.Prelude.{◌≡◌, ◌⊎◌, [], List, reverse};
ghost use Rattle.rx_model.specs.declared.event.Noted.{Noted};
ghost use Rattle.rx_peer.specs.PeerWorlds.{PeerWorld};
ghost use Rattle.rx_peer_plan.specs.Follows.{FollowsPeers, Went, Whole};
ghost use Rattle.rx_peer_plan.specs.Promises.{AreInRange, HaveOwnHosts, PeerPromises, plan_peers};
ghost use Rattle.rx_peer_plan.specs.Stages.{PeerHandlers, PeerStage};
ghost use Rattle.rx_script.specs.declared.plan.PeerNumbered.{PeerNumbered};

/// Once a plan of peers, no two of which share a host, made an event, its peers and events are a world of peers: each
/// half of each peer that its first lines make has a legal side, and each datagram that a peer takes had been given to
/// its host by a half of its sender, and is taken by the half that it is for. Where all its lines were made, it has
/// those peers, also if there was no event.
pub fn peer_plans_are_worlds()
    ensures made { (g : PeerHandlers) (lines : List PeerNumbered) (es : List Noted) (went : Went PeerStage)
        → AreInRange lines → HaveOwnHosts (plan_peers lines) → FollowsPeers g lines es went
        → (es ≡ []) ⊎ PeerWorld (plan_peers lines) (reverse es) }
    ensures whole { (g : PeerHandlers) (lines : List PeerNumbered) (es : List Noted) (s : PeerStage)
        → AreInRange lines → HaveOwnHosts (plan_peers lines) → FollowsPeers g lines es (Whole s)
        → (s.peers ≡ plan_peers lines) × PeerWorld (plan_peers lines) (reverse es) }
{}

/// What a plan of peers makes keeps its promises at every moment, in both directions: where each served half forgot no
/// record, or no datagram of a connection to it is old, each call of each connection from one peer to another enters
/// its handler at most once, what each side read begins what the other said, and a caller's call that ended has what
/// its end says.
pub fn peer_plans_keep_promises()
    ensures { (g : PeerHandlers) (lines : List PeerNumbered) (es : List Noted) (went : Went PeerStage)
        → AreInRange lines → HaveOwnHosts (plan_peers lines) → FollowsPeers g lines es went
        → PeerPromises lines es }
{}
