//! Nodes of either end, as far as what drives them has to do with them.
ghost use Rattle.std.specs.Prelude.{◌≡◌, ◌≤◌, ◌<◌, ◌^◌, ℕ, List, length};
ghost use Rattle.rx_model.specs.declared.event.Event.{Event};
ghost use Rattle.rx_model.specs.declared.event.Event.TheVariants as events;
ghost use Rattle.rx_model.specs.declared.wire.TheConstants.{DATAGRAM_BYTES};
ghost use Rattle.rx_node.specs.Node.{setup_of};
ghost use Rattle.rx_node.specs.Steps.{AnswersNode, StandsNode, given_from};
ghost use Rattle.rx_rules.specs.After.{looks};
ghost use Rattle.rx_rules.specs.Items.{due as rules_due};
ghost use Rattle.rx_server.specs.Server.{Answered, Stands};
ghost use Rattle.rx_drive.specs.Nodes.{Answers};

use rx_class::Class;
use rx_client::Client;
use rx_due::Steps;
use rx_model::{Host, Took};
use rx_server::Server;
use std::marker::Brand;
use std::sync::ledger::{Blank, Ledger};

/// A node of either end, as far as what drives it has to do with it.
pub trait Endpoint {
    ghost use Rattle.rx_rules.specs.Rules.{Legal};
    ghost use Rattle.rx_rules.specs.Setup.{Setup};

    /// How it is set up.
    ghost setup: { Self → Setup };

    /// The histories for which it stands, the newest event first.
    ghost stands: { Self → List Event → Type 0 };

    /// Its moment, in milliseconds.
    ghost clocked: { Self → ℕ };

    /// Its moment, in milliseconds.
    fn moment(&self) -> u64
        ensures value { result ≡ clocked self.now }
        ensures exact { (h : List Event) → stands self.now h → result ≡ (looks (setup self.now) h).now };

    /// Its moment is this one now, in milliseconds.
    fn clock(&mut self, now: u64)
        requires later { clocked self.old ≤ now }
        requires now { now < 2 ^ 62 }
        ensures answered { Answers (setup self.old) (stands self.old) (stands self.new) (events.Clocked now) }
        ensures setup { setup self.new ≡ setup self.old };

    /// Writes the next datagram that is due to the front of the buffer, and answers the host that it is for and its
    /// length in bytes; none where nothing is due.
    fn poll(&mut self, to: &mut [u8]) -> Option<(Host, usize)>
        requires { DATAGRAM_BYTES ≤ length to.old }
        ensures answered { Answers (setup self.old) (stands self.old) (stands self.new)
            (events.Polled (given_from result to.new)) }
        ensures setup { setup self.new ≡ setup self.old };

    /// Takes a single datagram from a host.
    fn take(&mut self, from: Host, bytes: &[u8]) -> Took
        ensures answered { Answers (setup self.old) (stands self.old) (stands self.new)
            (events.Taken from bytes.now result) }
        ensures setup { setup self.new ≡ setup self.old };

    /// From which moment on a poll would do something; none where it never would.
    fn due(&self) -> Option<u64>
        ensures { (h : List Event) → stands self.now h →
            result ≡ rules_due (setup self.now) (looks (setup self.now) h) };

    // Each history for which it stands is legal.
    ghost legal: { (s : Self) (h : List Event) → stands s h → Legal (setup s) h };

    // Its moment is the one that such a history says.
    ghost timed: { (s : Self) (h : List Event) → stands s h → clocked s ≡ (looks (setup s) h).now };
}

impl<C: Class> Endpoint for Server<C> {
    ghost setup = { λ s. setup_of C.class_of s.node };

    ghost stands = { λ s h. Stands C.class_of s h };

    ghost clocked = { λ s. s.node.moment };

    ghost legal = { λ s h is. is.legal };

    ghost timed = { λ s h is. is.serves.mirrors.now };

    fn moment(&self) -> u64 {
        Server::moment(self)
    }

    fn clock(&mut self, now: u64) {
        Server::clock(self, now);
    }

    fn poll(&mut self, to: &mut [u8]) -> Option<(Host, usize)> {
        poll_server::<C, Brand>(self, to, Blank::new(1))
    }

    fn take(&mut self, from: Host, bytes: &[u8]) -> Took {
        Server::take(self, from, bytes)
    }

    fn due(&self) -> Option<u64> {
        server_due::<C, Brand>(self, Blank::new(1))
    }
}

fn poll_server<C: Class, L: Ledger>(
    server: &mut Server<C>,
    to: &mut [u8],
    blank: Blank,
) -> Option<(Host, usize)>
    requires room { DATAGRAM_BYTES ≤ length to.old }
    requires name { blank.name ≡ L.name }
    requires parts { blank.parts ≡ L.parts }
    requires counts { 0 < blank.parts }
    ensures answered { Answered C.class_of server.old server.new (events.Polled (given_from result to.new)) }
    ensures setup { setup_of C.class_of server.new.node ≡ setup_of C.class_of server.old.node }
{
    let mut steps = Steps::<L>::new(blank);
    server.poll(to, &mut steps)
}

fn server_due<C: Class, L: Ledger>(server: &Server<C>, blank: Blank) -> Option<u64>
    requires name { blank.name ≡ L.name }
    requires parts { blank.parts ≡ L.parts }
    requires counts { 0 < blank.parts }
    ensures { (h : List Event) → Stands C.class_of server.now h →
        result ≡ rules_due (setup_of C.class_of server.now.node) (looks (setup_of C.class_of server.now.node) h) }
{
    let mut steps = Steps::<L>::new(blank);
    server.due(&mut steps)
}

impl<C: Class> Endpoint for Client<C> {
    ghost setup = { λ s. setup_of C.class_of s };

    ghost stands = { λ s h. StandsNode C.class_of s h };

    ghost clocked = { λ s. s.moment };

    ghost legal = { λ s h is. is.legal };

    ghost timed = { λ s h is. is.mirrors.now };

    fn moment(&self) -> u64 {
        Client::moment(self)
    }

    fn clock(&mut self, now: u64) {
        Client::clock(self, now);
    }

    fn poll(&mut self, to: &mut [u8]) -> Option<(Host, usize)> {
        poll_client::<C, Brand>(self, to, Blank::new(1))
    }

    fn take(&mut self, from: Host, bytes: &[u8]) -> Took {
        Client::take(self, from, bytes)
    }

    fn due(&self) -> Option<u64> {
        client_due::<C, Brand>(self, Blank::new(1))
    }
}

fn poll_client<C: Class, L: Ledger>(
    client: &mut Client<C>,
    to: &mut [u8],
    blank: Blank,
) -> Option<(Host, usize)>
    requires room { DATAGRAM_BYTES ≤ length to.old }
    requires name { blank.name ≡ L.name }
    requires parts { blank.parts ≡ L.parts }
    requires counts { 0 < blank.parts }
    ensures answered { AnswersNode C.class_of client.old client.new (events.Polled (given_from result to.new)) }
    ensures setup { setup_of C.class_of client.new ≡ setup_of C.class_of client.old }
{
    let mut steps = Steps::<L>::new(blank);
    client.poll(to, &mut steps)
}

fn client_due<C: Class, L: Ledger>(client: &Client<C>, blank: Blank) -> Option<u64>
    requires name { blank.name ≡ L.name }
    requires parts { blank.parts ≡ L.parts }
    requires counts { 0 < blank.parts }
    ensures { (h : List Event) → StandsNode C.class_of client.now h →
        result ≡ rules_due (setup_of C.class_of client.now) (looks (setup_of C.class_of client.now) h) }
{
    let mut steps = Steps::<L>::new(blank);
    client.due(&mut steps)
}
