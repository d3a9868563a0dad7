ghost use Rattle.std.specs.Prelude.{◌≡◌, ◌++◌, ◌∷◌, List, [], Some, IfSome, OnErr, OnOk, length};
ghost use Rattle.std.specs.Borrow.{sem};
ghost use Rattle.rx_model.specs.declared.event.Noted.{Noted};
ghost use Rattle.rx_rules.specs.Setup as setups;
ghost use Rattle.rx_history.specs.Sides.{moment};
ghost use Rattle.rx_peer.specs.Roles.{node_of};
ghost use Rattle.rx_joint_peers.specs.Joint.{IsPeerThere, Standing, host_of, made_peer, moment_at, peer_of, peers_of};
ghost use Rattle.rx_joint_peers.specs.Worlds.{ArePeers, IsNewHost};

use rx_class::Null;
use rx_model::{Host, Limits};
use rx_peer::{Peer, Role};
use std::alloc::{AllocError, Global};
use std::marker::Model;

mod calling;
mod handling;
mod wires;

pub use wires::PolledBy;

/// A peer with its host.
#[derive(Debug, Drop)]
pub struct PeerAt {
    pub host: Host,
    pub peer: Peer<Null>,
}

/// Several peers, with numbers from 1 on.
#[derive(Debug, Drop)]
pub struct JointPeers {
    peers: Vec<PeerAt>,
}

impl Model for JointPeers {
    ghost use Rattle.std.specs.Prelude.{List};
    ghost use Rattle.rx_joint_peers.specs.declared.joint.PeerAt.{PeerAt};

    ghost Value = { List PeerAt };

    ghost view = { λ s. s.peers.items };
}

impl JointPeers {
    ghost use Rattle.rx_joint_peers.specs.Lending.{LendsPeer};

    /// No peers.
    pub fn make(alloc: Global) -> JointPeers
        ensures { result ≡ [] }
    {
        JointPeers {
            peers: Vec::new(alloc),
        }
    }

    /// One peer more, both halves at the start of their lives, each within these limits for itself.
    pub fn add(
        &mut self,
        alloc: Global,
        host: Host,
        epoch: u32,
        service: u16,
        limits: &Limits,
    ) -> Result<(), AllocError>
        requires { setups.FitsLimits limits.now }
        ensures stands { OnOk result (Standing self.old [] → Standing self.new []) }
        ensures peers { OnOk result
            (peers_of self.new ≡ peers_of self.old ++ made_peer host epoch service limits.now ∷ []) }
        ensures are { OnOk result (IsNewHost (peers_of self.old) host →
            ArePeers (peers_of self.old) → ArePeers (peers_of self.new)) }
        ensures same { OnErr result (self.new ≡ self.old) }
    {
        let peer = Peer::make(alloc, limits, host, epoch, service, Null, Null, 0)?;
        self.peers.push(PeerAt { host, peer })?;
        Ok(())
    }

    /// How many peers there are.
    pub fn count(&self) -> usize
        ensures { result ≡ length self.now }
    {
        self.peers.len()
    }

    /// The host of a peer.
    pub fn host(&self, number: u32) -> Host
        requires { IsPeerThere self.now number }
        ensures { host_of self.now number ≡ Some result }
    {
        self.peers[number as usize - 1].host
    }

    /// The moment of a half of a peer, in milliseconds.
    pub fn moment(&self, number: u32, role: Role) -> u64
        requires { IsPeerThere self.now number }
        ensures value { IfSome (peer_of self.now number) (λ p. result ≡ moment_at role p) }
        ensures exact { (h : List Noted) → Standing self.now h → result ≡ moment (node_of role number) h }
    {
        let peer = self.peer(number);
        match role {
            Role::Caller => peer.caller.moment(),
            Role::Served => peer.served.moment(),
        }
    }

    /// A peer.
    fn peer(&self, number: u32) -> &Peer<Null>
        requires { IsPeerThere self.now number }
        ensures { peer_of self.now number ≡ Some result.now }
    {
        &self.peers[number as usize - 1].peer
    }

    /// A peer, to make a call of it.
    pub fn peer_mut(&mut self, number: u32) -> &mut Peer<Null>
        requires { IsPeerThere self.old number }
        ensures* writes_back { sem 𝓛 (LendsPeer self.entry number result) }
        ensures value { peer_of self.old number ≡ Some result.now }
    {
        let at = &mut self.peers[number as usize - 1];
        &mut at.peer
    }
}
