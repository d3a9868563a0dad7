//! The calls of caller halves, as events.
ghost use Rattle.std.specs.Prelude.{◌≡◌, ◌≤◌, ◌<◌, IfOk, OnErr, false};
ghost use Rattle.rx_rules.specs.After.{is_zero};
ghost use Rattle.rx_events.specs.Events.{written_count};
ghost use Rattle.rx_client.specs.Client.{read_count};
ghost use Rattle.rx_events.specs.Events.{IsAsked, IsCalled, IsCancelled, IsLinked, IsReadBack, IsSaid, IsShut};
ghost use Rattle.rx_peer.specs.declared.role.Role.TheVariants as roles;
ghost use Rattle.rx_joint_peers.specs.Joint.{IsPeerThere, Makes};

use crate::joint::JointPeers;
use rx_model::{Bytes, CallName, Event, Host, NotOpen, ReadAns, ReadGot, WroteGot};
use std::alloc::{AllocError, Global};

impl JointPeers {
    /// The caller half of a peer makes a connection to a service, whose calls have numbers from `first` on.
    pub fn connect(&mut self, number: u32, to: Host, service: u16, first: u32) -> Event
        requires there { IsPeerThere self.old number }
        requires first { 1 ≤ first }
        ensures made { Makes self.old self.new number roles.Caller result }
        ensures event { IsLinked to service first result }
    {
        let got = self.peer_mut(number).caller.connect(to, service, first);
        Event::Linked {
            to,
            service,
            first,
            got,
        }
    }

    /// The caller half of a peer starts a call on the connection with this cid.
    pub fn call(&mut self, number: u32, cid: u32) -> Event
        requires { IsPeerThere self.old number }
        ensures made { Makes self.old self.new number roles.Caller result }
        ensures event { IsCalled cid result }
    {
        let got = self.peer_mut(number).caller.call(cid);
        Event::Called { cid, got }
    }

    /// The caller half of a peer says bytes on a call.
    pub fn write(
        &mut self,
        alloc: Global,
        number: u32,
        call: &CallName,
        offer: &[u8],
    ) -> Result<Event, AllocError>
        requires { IsPeerThere self.old number }
        ensures made { IfOk result (Makes self.old self.new number roles.Caller) }
        ensures event { IfOk result (IsSaid call.now offer.now) }
        ensures same { OnErr result (self.new ≡ self.old) }
    {
        let mut accepted = Vec::from_slice(alloc, offer)?;
        let got = self.peer_mut(number).caller.write(call, offer);
        accepted.truncate(accepted_count(&got));
        Ok(Event::Wrote {
            call: *call,
            offered: offer.len(),
            got: WroteGot::Client(got),
            bytes: Bytes::of(accepted),
        })
    }

    /// The caller half of a peer ends what it says on a call.
    pub fn shut(&mut self, number: u32, call: &CallName) -> Event
        requires { IsPeerThere self.old number }
        ensures made { Makes self.old self.new number roles.Caller result }
        ensures event { IsShut call.now result }
    {
        let got = self.peer_mut(number).caller.shut(call);
        Event::Shut { call: *call, got }
    }

    /// The caller half of a peer reads at most `max` bytes of a reply.
    pub fn read(
        &mut self,
        alloc: Global,
        number: u32,
        call: &CallName,
        max: usize,
    ) -> Result<Event, AllocError>
        requires there { IsPeerThere self.old number }
        requires some { 0 < max }
        ensures made { IfOk result (Makes self.old self.new number roles.Caller) }
        ensures event { IfOk result (IsReadBack call.now max) }
        ensures same { OnErr result (self.new ≡ self.old) }
    {
        let mut to = vec![in alloc; 0u8; max]?;
        let got = self.peer_mut(number).caller.read(call, &mut to);
        to.truncate(given_count(got));
        Ok(Event::HasRead {
            call: *call,
            max,
            got: ReadGot::Client(got),
            bytes: Bytes::of(to),
        })
    }

    /// The caller half of a peer is asked how a call stands.
    pub fn ask(&self, number: u32, call: &CallName) -> Event
        requires { IsPeerThere self.now number }
        ensures made { Makes self.now self.now number roles.Caller result }
        ensures event { IsAsked call.now result }
    {
        let got = self.peer(number).caller.end(call);
        Event::Ended { call: *call, got }
    }

    /// The caller half of a peer gives a call up with a code other than 0.
    pub fn cancel(&mut self, number: u32, call: &CallName, code: i32) -> Event
        requires there { IsPeerThere self.old number }
        requires other { is_zero code ≡ false }
        ensures made { Makes self.old self.new number roles.Caller result }
        ensures event { IsCancelled call.now code result }
    {
        let got = self.peer_mut(number).caller.cancel(call, code);
        Event::Cancelled {
            call: *call,
            code,
            got,
        }
    }
}

/// How many bytes a write accepted.
fn accepted_count(got: &Result<usize, NotOpen>) -> usize
    ensures { result ≡ written_count got.now }
{
    match got {
        Ok(count) => *count,
        Err(_) => 0,
    }
}

/// How many bytes a read gave.
fn given_count(got: ReadAns) -> usize
    ensures { result ≡ read_count got }
{
    match got {
        ReadAns::Got(count) => count,
        ReadAns::End | ReadAns::NotYet | ReadAns::Gone(_) | ReadAns::Unknown => 0,
    }
}
