//! What comes to peers, as events: datagrams, polls and moments.
ghost use Rattle.std.specs.Prelude.{◌≡◌, ◌≤◌, ◌<◌, ◌^◌, IfOk, IfSome, List, OnErr, length};
ghost use Rattle.rx_model.specs.declared.event.Event.TheVariants as events;
ghost use Rattle.rx_model.specs.declared.event.Noted.{Noted};
ghost use Rattle.rx_model.specs.declared.wire.TheConstants.{DATAGRAM_BYTES};
ghost use Rattle.rx_events.specs.Events.{IsClocked, IsTaken};
ghost use Rattle.rx_peer.specs.PeerWorlds.{peer_at};
ghost use Rattle.rx_peer.specs.Roles.{half_of};
ghost use Rattle.rx_joint_peers.specs.Joint.{IsPeerThere, Makes, Standing, moment_at, peer_due, peer_of, peers_of};
ghost use Rattle.rx_joint_peers.specs.Polls.{MakesPolled, MakesPolls, polled_by};

use crate::joint::JointPeers;
use rx_due::Steps;
use rx_model::wire::DATAGRAM_BYTES;
use rx_model::{Bytes, Event, Host, Took};
use rx_peer::Role;
use std::alloc::{AllocError, Global};
use std::marker::Brand;
use std::sync::ledger::{Blank, Ledger};

/// The events of a poll of a peer.
#[derive(Debug, Drop)]
pub enum PolledBy {
    /// That of the caller half, which gave a datagram, so that the served half wasn't asked.
    Caller(Event),
    /// That of the caller half, which gave none, and then that of the served half.
    Both(Event, Event),
}

impl JointPeers {
    /// A peer takes a datagram from a host, by the half that it is for.
    pub fn take(
        &mut self,
        alloc: Global,
        number: u32,
        from: Host,
        datagram: &[u8],
    ) -> Result<(Role, Event), AllocError>
        requires { IsPeerThere self.old number }
        ensures made { IfOk result (λ r. Makes self.old self.new number (half_of datagram.now) r.1) }
        ensures role { IfOk result (λ r. r.0 ≡ half_of datagram.now) }
        ensures event { IfOk result (λ r. IsTaken from datagram.now r.1) }
        ensures same { OnErr result (self.new ≡ self.old) }
    {
        let bytes = Bytes::copied(alloc, datagram)?;
        let (role, got) = self.took(number, from, datagram);
        Ok((role, Event::Taken { from, bytes, got }))
    }

    /// The half that a datagram is for, and what becomes of it there.
    fn took(&mut self, number: u32, from: Host, datagram: &[u8]) -> (Role, Took)
        requires { IsPeerThere self.old number }
        ensures made { Makes self.old self.new number (half_of datagram.now)
            (events.Taken from datagram.now result.1) }
        ensures role { result.0 ≡ half_of datagram.now }
    {
        self.peer_mut(number).take(from, datagram)
    }

    /// A peer is asked for the datagram that is due: its caller half, and its served half where that one gives none.
    pub fn poll(&mut self, alloc: Global, number: u32) -> Result<PolledBy, AllocError>
        requires { IsPeerThere self.old number }
        ensures made { IfOk result (MakesPolls self.old self.new number) }
        ensures same { OnErr result (self.new ≡ self.old) }
    {
        let mut to = vec![in alloc; 0u8; DATAGRAM_BYTES]?;
        let got = self.polled(number, &mut to);
        Ok(polls_of(got, to))
    }

    /// What a peer gives, with its bytes at the front of the buffer.
    fn polled(&mut self, number: u32, to: &mut [u8]) -> Option<(Role, Host, usize)>
        requires there { IsPeerThere self.old number }
        requires room { DATAGRAM_BYTES ≤ length to.old }
        ensures { MakesPolled self.old self.new number result to.new }
    {
        self.polled_counted::<Brand>(number, to, Blank::new(1))
    }

    fn polled_counted<L: Ledger>(
        &mut self,
        number: u32,
        to: &mut [u8],
        blank: Blank,
    ) -> Option<(Role, Host, usize)>
        requires there { IsPeerThere self.old number }
        requires room { DATAGRAM_BYTES ≤ length to.old }
        requires name { blank.name ≡ L.name }
        requires parts { blank.parts ≡ L.parts }
        requires counts { 0 < blank.parts }
        ensures { MakesPolled self.old self.new number result to.new }
    {
        let mut steps = Steps::<L>::new(blank);
        self.peer_mut(number).poll(to, &mut steps)
    }

    /// The moment of a half of a peer is this one now, in milliseconds.
    pub fn clock(&mut self, number: u32, role: Role, now: u64) -> Event
        requires there { IsPeerThere self.old number }
        requires later { IfSome (peer_of self.old number) (λ p. moment_at role p ≤ now) }
        requires now { now < 2 ^ 62 }
        ensures made { Makes self.old self.new number role result }
        ensures event { IsClocked now result }
    {
        match role {
            Role::Caller => {
                self.peer_mut(number).caller.clock(now);
                Event::Clocked { now }
            }
            Role::Served => {
                self.peer_mut(number).served.clock(now);
                Event::Clocked { now }
            }
        }
    }

    /// From which moment on a poll of a peer would do something, in milliseconds; none where no half of it would.
    pub fn due(&self, number: u32) -> Option<u64>
        requires { IsPeerThere self.now number }
        ensures { (h : List Noted) → Standing self.now h →
            IfSome (peer_at (peers_of self.now) number) (λ p. result ≡ peer_due p number h) }
    {
        self.due_counted::<Brand>(number, Blank::new(1))
    }

    fn due_counted<L: Ledger>(&self, number: u32, blank: Blank) -> Option<u64>
        requires there { IsPeerThere self.now number }
        requires name { blank.name ≡ L.name }
        requires parts { blank.parts ≡ L.parts }
        requires counts { 0 < blank.parts }
        ensures { (h : List Noted) → Standing self.now h →
            IfSome (peer_at (peers_of self.now) number) (λ p. result ≡ peer_due p number h) }
    {
        let mut steps = Steps::<L>::new(blank);
        self.peer(number).due(&mut steps)
    }
}

/// The events of a poll, by what it gave and the first bytes of its buffer.
fn polls_of(got: Option<(Role, Host, usize)>, to: Vec<u8>) -> PolledBy
    ensures { result ≡ polled_by got to.items }
{
    let Some((role, host, count)) = got else {
        return PolledBy::Both(Event::Polled { got: None }, Event::Polled { got: None });
    };
    let mut bytes = to;
    bytes.truncate(count);
    let gave = Event::Polled {
        got: Some((host, Bytes::of(bytes))),
    };
    match role {
        Role::Caller => PolledBy::Caller(gave),
        Role::Served => PolledBy::Both(Event::Polled { got: None }, gave),
    }
}
