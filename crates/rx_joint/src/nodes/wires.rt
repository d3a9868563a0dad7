//! What comes to any node, as events: datagrams, polls and moments.
ghost use Rattle.std.specs.Prelude.{◌≡◌, ◌≤◌, ◌<◌, ◌^◌, IfOk, OnErr, length};
ghost use Rattle.rx_model.specs.declared.event.Event.TheVariants as events;
ghost use Rattle.rx_model.specs.declared.wire.TheConstants.{DATAGRAM_BYTES};
ghost use Rattle.rx_node.specs.Steps.{given_from};
ghost use Rattle.rx_events.specs.Events.{IsClocked, IsPolled, IsTaken};
ghost use Rattle.rx_joint.specs.Nodes.{IsNodeThere, Makes, moment_of};

use crate::nodes::{Nodes, SERVER};
use rx_due::Steps;
use rx_model::wire::DATAGRAM_BYTES;
use rx_model::{Bytes, Event, Host, Took};
use std::alloc::{AllocError, Global};
use std::marker::Brand;
use std::sync::ledger::{Blank, Ledger};

impl Nodes {
    /// A node takes a datagram from a host.
    pub fn take(
        &mut self,
        alloc: Global,
        node: u32,
        from: Host,
        datagram: &[u8],
    ) -> Result<Event, AllocError>
        requires { IsNodeThere self.old node }
        ensures made { IfOk result (Makes self.old self.new node) }
        ensures event { IfOk result (IsTaken from datagram.now) }
        ensures same { OnErr result (self.new ≡ self.old) }
    {
        let bytes = Bytes::copied(alloc, datagram)?;
        let got = self.took(node, from, datagram);
        Ok(Event::Taken { from, bytes, got })
    }

    /// What becomes of a datagram at a node.
    fn took(&mut self, node: u32, from: Host, datagram: &[u8]) -> Took
        requires { IsNodeThere self.old node }
        ensures { Makes self.old self.new node (events.Taken from datagram.now result) }
    {
        if node == SERVER {
            return self.server_mut().take(from, datagram);
        }
        self.client_mut(node).take(from, datagram)
    }

    /// A node is asked for the datagram that is due.
    pub fn poll(&mut self, alloc: Global, node: u32) -> Result<Event, AllocError>
        requires { IsNodeThere self.old node }
        ensures made { IfOk result (Makes self.old self.new node) }
        ensures event { IfOk result IsPolled }
        ensures same { OnErr result (self.new ≡ self.old) }
    {
        let mut to = vec![in alloc; 0u8; DATAGRAM_BYTES]?;
        let got = self.polled(node, &mut to);
        Ok(Event::Polled {
            got: given(got, to),
        })
    }

    /// What a node gives, with its bytes at the front of the buffer.
    fn polled(&mut self, node: u32, to: &mut [u8]) -> Option<(Host, usize)>
        requires there { IsNodeThere self.old node }
        requires room { DATAGRAM_BYTES ≤ length to.old }
        ensures { Makes self.old self.new node (events.Polled (given_from result to.new)) }
    {
        self.polled_counted::<Brand>(node, to, Blank::new(1))
    }

    fn polled_counted<L: Ledger>(
        &mut self,
        node: u32,
        to: &mut [u8],
        blank: Blank,
    ) -> Option<(Host, usize)>
        requires there { IsNodeThere self.old node }
        requires room { DATAGRAM_BYTES ≤ length to.old }
        requires name { blank.name ≡ L.name }
        requires parts { blank.parts ≡ L.parts }
        requires counts { 0 < blank.parts }
        ensures { Makes self.old self.new node (events.Polled (given_from result to.new)) }
    {
        let mut steps = Steps::<L>::new(blank);
        if node == SERVER {
            return self.server_mut().poll(to, &mut steps);
        }
        self.client_mut(node).poll(to, &mut steps)
    }

    /// A node's moment is this one now, in milliseconds.
    pub fn clock(&mut self, node: u32, now: u64) -> Event
        requires there { IsNodeThere self.old node }
        requires later { moment_of self.old node ≤ now }
        requires now { now < 2 ^ 62 }
        ensures made { Makes self.old self.new node result }
        ensures event { IsClocked now result }
    {
        if node == SERVER {
            self.server_mut().clock(now);
            return Event::Clocked { now };
        }
        self.client_mut(node).clock(now);
        Event::Clocked { now }
    }
}

/// To whom a poll gave the first bytes of its buffer.
fn given(got: Option<(Host, usize)>, to: Vec<u8>) -> Option<(Host, Bytes)>
    ensures { result ≡ given_from got to.items }
{
    let (host, count) = got?;
    let mut bytes = to;
    bytes.truncate(count);
    Some((host, Bytes::of(bytes)))
}
