//! The law of plans of peers that were read.
ghost use Rattle.std.specs.Prelude.{◌≡◌, ℕ, List, Ok};
ghost use Rattle.rx_peer_plan.specs.Promises.{AreInRange, HaveOwnHosts, plan_peers};
ghost use Rattle.rx_script.specs.declared.plan.PeerNumbered.{PeerNumbered};
ghost use Rattle.rx_script.specs.Plans.{peer_plan_of};
ghost use Rattle.rx_script.specs.Saying.{peer_rows};
ghost use Rattle.xdr_value.specs.Data.{Procs, Types};

/// In a plan of peers that was read the numbers of its peers are in range, and no two of them share a host.
pub fn peer_plans_are_apart()
    ensures range { (types : Types) (procs : Procs) (text : List ℕ) (lines : List PeerNumbered)
        → peer_plan_of types procs text ≡ Ok (peer_rows lines) → AreInRange lines }
    ensures hosts { (types : Types) (procs : Procs) (text : List ℕ) (lines : List PeerNumbered)
        → peer_plan_of types procs text ≡ Ok (peer_rows lines) → HaveOwnHosts (plan_peers lines) }
{}
