ghost use Rattle.std.specs.Prelude.{◌≡◌, ◌≤◌, ◌<◌, ◌^◌, List, [], IfOk, length, drop};
ghost use Rattle.rx_model.specs.declared.event.Event.{Event};
ghost use Rattle.rx_model.specs.declared.event.Event.TheVariants as events;
ghost use Rattle.rx_model.specs.declared.wire.TheConstants.{DATAGRAM_BYTES};
ghost use Rattle.rx_rules.specs.Setup as setups;
ghost use Rattle.rx_due.specs.Cost.{AtMost};
ghost use Rattle.rx_node.specs.Due.{lesser_of};
ghost use Rattle.rx_node.specs.Node.{setup_of};
ghost use Rattle.rx_peer.specs.Roles.{half_of};
ghost use Rattle.rx_peer.specs.Halves.{AnswersBoth, AnswersHalf, AtMostForPolls, PollsPeer, SameSetups, StandsPeer};
ghost use Rattle.rx_peer.specs.Halves.{caller_looks, due_of, peer_count, served_looks};

use crate::role::Role;
use rx_class::Class;
use rx_client::Client;
use rx_due::Steps;
use rx_model::{Host, Limits, Took};
use rx_server::Server;
use std::alloc::{AllocError, Global};
use std::sync::ledger::Ledger;

/// A client and a server of one host. Each call that isn't named here is made on a half. A call of it takes no memory
/// once it was made.
#[derive(Debug, Drop)]
pub struct Peer<C: Class> {
    pub caller: Client<C>,
    pub served: Server<C>,
}

impl<C: Class> Peer<C> {
    /// Both halves at the start of their lives, each within these limits for itself. The caller half calls from the
    /// host with the epoch; the served half serves the service, and the k-th connection that it enters, from 0 on, has
    /// the nonce `nonces + k`. Takes all the memory that both will need, and fails only for want of it.
    pub fn make(
        alloc: Global,
        limits: &Limits,
        host: Host,
        epoch: u32,
        service: u16,
        caller: C,
        served: C,
        nonces: u64,
    ) -> Result<Peer<C>, AllocError>
        requires { setups.FitsLimits limits.now }
        ensures stands { IfOk result (λ p. StandsPeer C.class_of p [] []) }
        ensures caller { IfOk result (λ p. setup_of C.class_of p.caller
            ≡ setups.unprompted (setups.Client host epoch) limits.now (C.class_of (C.secret caller))) }
        ensures served { IfOk result (λ p. setup_of C.class_of p.served.node
            ≡ setups.unprompted (setups.Server service nonces) limits.now (C.class_of (C.secret served))) }
    {
        let caller = Client::make(alloc, limits, host, epoch, caller)?;
        let served = Server::make(alloc, limits, service, served, nonces)?;
        Ok(Peer { caller, served })
    }

    /// The moment of both halves is this one now, in milliseconds.
    pub fn clock(&mut self, now: u64)
        requires caller { self.old.caller.moment ≤ now }
        requires served { self.old.served.node.moment ≤ now }
        requires now { now < 2 ^ 62 }
        ensures answered { AnswersBoth C.class_of self.old self.new (events.Clocked now) (events.Clocked now) }
        ensures setups { SameSetups C.class_of self.old self.new }
    {
        self.caller.clock(now);
        self.served.clock(now);
    }

    /// Takes a datagram from a host, by the half that it is for, and answers which one that is and what becomes of it.
    pub fn take(&mut self, from: Host, bytes: &[u8]) -> (Role, Took)
        ensures role { result.0 ≡ half_of bytes.now }
        ensures answered { AnswersHalf C.class_of self.old self.new (half_of bytes.now)
            (events.Taken from bytes.now result.1) }
        ensures setups { SameSetups C.class_of self.old self.new }
    {
        let role = Role::of(bytes);
        let took = match role {
            Role::Caller => self.caller.take(from, bytes),
            Role::Served => self.served.take(from, bytes),
        };
        (role, took)
    }

    /// Writes the next datagram that is due to the front of the buffer, and answers which half gave it, the host that
    /// it is for and its length in bytes. The caller half is asked first, and the served half where that one gives
    /// none; none where neither gives one.
    pub fn poll<L: Ledger>(
        &mut self,
        to: &mut [u8],
        steps: &mut Steps<L>,
    ) -> Option<(Role, Host, usize)>
        requires { DATAGRAM_BYTES ≤ length to.old }
        ensures answered { PollsPeer C.class_of self.old self.new result to.new }
        ensures rest { drop (peer_count result) to.new ≡ drop (peer_count result) to.old }
        ensures setups { SameSetups C.class_of self.old self.new }
        ensures steps { (calls serves : List Event) → StandsPeer C.class_of self.old calls serves →
            AtMostForPolls (caller_looks C.class_of self.old calls) (served_looks C.class_of self.old serves)
            steps.old steps.new }
    {
        if let Some((host, count)) = self.caller.poll(to, steps) {
            return Some((Role::Caller, host, count));
        }
        let (host, count) = self.served.poll(to, steps)?;
        Some((Role::Served, host, count))
    }

    /// From which moment on a poll would do something: the lesser of those of both halves; none where neither has one.
    pub fn due<L: Ledger>(&self, steps: &mut Steps<L>) -> Option<u64>
        ensures value { (calls serves : List Event) → StandsPeer C.class_of self.now calls serves →
            result ≡ due_of C.class_of self.now calls serves }
        ensures steps { AtMost 8 steps.old steps.new }
    {
        let calls = self.caller.due(steps);
        let serves = self.served.due(steps);
        lesser(calls, serves)
    }
}

/// The lesser of two moments, where there are any.
fn lesser(a: Option<u64>, b: Option<u64>) -> Option<u64>
    ensures { result ≡ lesser_of (λ moment. moment) a b }
{
    match (a, b) {
        (Some(a), Some(b)) => Some(a.min(b)),
        (Some(a), None) => Some(a),
        (None, b) => b,
    }
}
