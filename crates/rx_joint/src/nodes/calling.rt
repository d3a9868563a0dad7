//! The calls of clients, as events.
ghost use Rattle.std.specs.Prelude.{◌≡◌, ◌≤◌, ◌<◌, IfOk, OnErr, false};
ghost use Rattle.rx_rules.specs.After.{is_zero};
ghost use Rattle.rx_events.specs.Events.{written_count};
ghost use Rattle.rx_client.specs.Client.{read_count};
ghost use Rattle.rx_events.specs.Events.{IsAsked, IsCalled, IsCancelled, IsLinked, IsReadBack, IsSaid, IsShut};
ghost use Rattle.rx_joint.specs.Nodes.{IsClientThere, Makes};

use crate::nodes::Nodes;
use rx_model::{Bytes, CallName, Event, Host, NotOpen, ReadAns, ReadGot, WroteGot};
use std::alloc::{AllocError, Global};

impl Nodes {
    /// A client makes a connection to a service, whose calls have numbers from `first` on.
    pub fn connect(&mut self, node: u32, to: Host, service: u16, first: u32) -> Event
        requires there { IsClientThere self.old node }
        requires first { 1 ≤ first }
        ensures made { Makes self.old self.new node result }
        ensures event { IsLinked to service first result }
    {
        let got = self.client_mut(node).connect(to, service, first);
        Event::Linked {
            to,
            service,
            first,
            got,
        }
    }

    /// A client starts a call on the connection with this cid.
    pub fn call(&mut self, node: u32, cid: u32) -> Event
        requires { IsClientThere self.old node }
        ensures made { Makes self.old self.new node result }
        ensures event { IsCalled cid result }
    {
        let got = self.client_mut(node).call(cid);
        Event::Called { cid, got }
    }

    /// A client says bytes on a call.
    pub fn write(
        &mut self,
        alloc: Global,
        node: u32,
        call: &CallName,
        offer: &[u8],
    ) -> Result<Event, AllocError>
        requires { IsClientThere self.old node }
        ensures made { IfOk result (Makes self.old self.new node) }
        ensures event { IfOk result (IsSaid call.now offer.now) }
        ensures same { OnErr result (self.new ≡ self.old) }
    {
        let mut accepted = Vec::from_slice(alloc, offer)?;
        let got = self.client_mut(node).write(call, offer);
        accepted.truncate(accepted_count(&got));
        Ok(Event::Wrote {
            call: *call,
            offered: offer.len(),
            got: WroteGot::Client(got),
            bytes: Bytes::of(accepted),
        })
    }

    /// A client ends what it says on a call.
    pub fn shut(&mut self, node: u32, call: &CallName) -> Event
        requires { IsClientThere self.old node }
        ensures made { Makes self.old self.new node result }
        ensures event { IsShut call.now result }
    {
        let got = self.client_mut(node).shut(call);
        Event::Shut { call: *call, got }
    }

    /// A client reads at most `max` bytes of a reply.
    pub fn read(
        &mut self,
        alloc: Global,
        node: u32,
        call: &CallName,
        max: usize,
    ) -> Result<Event, AllocError>
        requires there { IsClientThere self.old node }
        requires some { 0 < max }
        ensures made { IfOk result (Makes self.old self.new node) }
        ensures event { IfOk result (IsReadBack call.now max) }
        ensures same { OnErr result (self.new ≡ self.old) }
    {
        let mut to = vec![in alloc; 0u8; max]?;
        let got = self.client_mut(node).read(call, &mut to);
        to.truncate(given_count(got));
        Ok(Event::HasRead {
            call: *call,
            max,
            got: ReadGot::Client(got),
            bytes: Bytes::of(to),
        })
    }

    /// A client is asked how a call stands.
    pub fn ask(&self, node: u32, call: &CallName) -> Event
        requires { IsClientThere self.now node }
        ensures made { Makes self.now self.now node result }
        ensures event { IsAsked call.now result }
    {
        let got = self.client(node).end(call);
        Event::Ended { call: *call, got }
    }

    /// A client gives a call up with a code other than 0.
    pub fn cancel(&mut self, node: u32, call: &CallName, code: i32) -> Event
        requires there { IsClientThere self.old node }
        requires other { is_zero code ≡ false }
        ensures made { Makes self.old self.new node result }
        ensures event { IsCancelled call.now code result }
    {
        let got = self.client_mut(node).cancel(call, code);
        Event::Cancelled {
            call: *call,
            code,
            got,
        }
    }
}

/// How many bytes a write accepted.
fn accepted_count(got: &Result<usize, NotOpen>) -> usize
    ensures { result ≡ written_count got.now }
{
    match got {
        Ok(count) => *count,
        Err(_) => 0,
    }
}

/// How many bytes a read gave.
fn given_count(got: ReadAns) -> usize
    ensures { result ≡ read_count got }
{
    match got {
        ReadAns::Got(count) => count,
        ReadAns::End | ReadAns::NotYet | ReadAns::Gone(_) | ReadAns::Unknown => 0,
    }
}
