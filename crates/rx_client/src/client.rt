ghost use Rattle.std.specs.Prelude.{true, ◌≡◌, ◌≤◌, ◌<◌, ◌^◌, List, [], IfOk, length, drop};
ghost use Rattle.rx_model.specs.declared.event.Event.{Event};
ghost use Rattle.rx_model.specs.declared.event.Event.TheVariants as events;
ghost use Rattle.rx_model.specs.declared.wire.TheConstants.{DATAGRAM_BYTES};
ghost use Rattle.rx_due.specs.Cost.{AtMost};
ghost use Rattle.rx_rules.specs.After.{looks};
ghost use Rattle.rx_rules.specs.Items.{due as rules_due};
ghost use Rattle.rx_rules.specs.Setup as setups;
ghost use Rattle.rx_rules.specs.Slots.{live as rules_live};
ghost use Rattle.rx_books.specs.Costs.{AtMostForPoll};
ghost use Rattle.rx_node.specs.Node.{setup_of};
ghost use Rattle.rx_node.specs.Steps.{AnswersNode, StandsNode, given_count, given_from};

use rx_books::{Kind, Node};
use rx_class::Class;
use rx_due::Steps;
use rx_model::{Host, Limits};
use std::alloc::{AllocError, Global};
use std::marker::Model;
use std::sync::ledger::Ledger;

mod calling;
mod taking;

/// A client. A call of it takes no memory once it was made.
#[derive(Debug, Drop)]
pub struct Client<C: Class> {
    node: Node<C>,
    host: Host,
    epoch: u32,
}

impl<C: Class> Model for Client<C> {
    ghost use Rattle.std.specs.Prelude.{◌≡◌};
    ghost use Rattle.rx_rules.specs.Setup as setups;
    ghost use Rattle.rx_node.specs.Node.{NodeState};
    ghost use Rattle.rx_client.specs.Client.{IsCalling};

    ghost Value = { NodeState };

    ghost view = { λ s. s.node };

    ghost invariant = { λ s. IsCalling C.class_of s.node × (s.node.kind ≡ setups.Client s.host s.epoch) };
}

impl<C: Class> Client<C> {
    /// A client on a host with an epoch, at the start of its life, within these limits. Takes all the memory that it
    /// will need, and fails only for want of it.
    pub fn make(
        alloc: Global,
        limits: &Limits,
        host: Host,
        epoch: u32,
        class: C,
    ) -> Result<Client<C>, AllocError>
        requires { setups.FitsLimits limits.now }
        ensures stands { IfOk result (λ n. StandsNode C.class_of n []) }
        ensures setup { IfOk result (λ n. setup_of C.class_of n
            ≡ setups.unprompted (setups.Client host epoch) limits.now (C.class_of (C.secret class))) }
    {
        let node = Node::make(alloc, Kind::Client { host, epoch }, limits, false, class)?;
        Ok(Client { node, host, epoch })
    }

    /// The same, but prompt: it asks for an acknowledgement behind each half of a call's window, so that no stream
    /// waits for a delayed one where the peer's window is no narrower than its own, and one half is on its way while
    /// the other is acknowledged. It gives again at once what it takes for lost, and acknowledges at once what fills a
    /// hole.
    pub fn make_prompt(
        alloc: Global,
        limits: &Limits,
        host: Host,
        epoch: u32,
        class: C,
    ) -> Result<Client<C>, AllocError>
        requires { setups.FitsLimits limits.now }
        ensures stands { IfOk result (λ n. StandsNode C.class_of n []) }
        ensures setup { IfOk result (λ n. setup_of C.class_of n ≡ record {
          kind = setups.Client host epoch;
          limits = limits.now;
          prompt = true;
          class = C.class_of (C.secret class);
        }) }
    {
        let node = Node::make(alloc, Kind::Client { host, epoch }, limits, true, class)?;
        Ok(Client { node, host, epoch })
    }

    /// Its moment, in milliseconds.
    pub fn moment(&self) -> u64
        ensures value { result ≡ self.now.moment }
        ensures exact { (h : List Event) → StandsNode C.class_of self.now h →
            result ≡ (looks (setup_of C.class_of self.now) h).now }
    {
        self.node.moment()
    }

    /// How many calls live.
    pub fn live(&self) -> u32
        ensures { (h : List Event) → StandsNode C.class_of self.now h →
            result ≡ rules_live (looks (setup_of C.class_of self.now) h) }
    {
        self.node.live()
    }

    /// Its moment is this one now, in milliseconds.
    pub fn clock(&mut self, now: u64)
        requires later { self.old.moment ≤ now }
        requires now { now < 2 ^ 62 }
        ensures answered { AnswersNode C.class_of self.old self.new (events.Clocked now) }
        ensures setup { setup_of C.class_of self.new ≡ setup_of C.class_of self.old }
    {
        self.node.clock(now);
    }

    /// Writes the next datagram that is due to the front of the buffer, and answers the host that it is for and its
    /// length in bytes; none where nothing is due.
    pub fn poll<L: Ledger>(&mut self, to: &mut [u8], steps: &mut Steps<L>) -> Option<(Host, usize)>
        requires { DATAGRAM_BYTES ≤ length to.old }
        ensures answered { AnswersNode C.class_of self.old self.new (events.Polled (given_from result to.new)) }
        ensures rest { drop (given_count result) to.new ≡ drop (given_count result) to.old }
        ensures setup { setup_of C.class_of self.new ≡ setup_of C.class_of self.old }
        ensures steps { (h : List Event) → StandsNode C.class_of self.old h →
            AtMostForPoll (looks (setup_of C.class_of self.old) h) steps.old steps.new }
    {
        self.node.poll(to, steps)
    }

    /// From which moment on a poll would do something, at least its own; none where nothing is owed and no call lives.
    pub fn due<L: Ledger>(&self, steps: &mut Steps<L>) -> Option<u64>
        ensures value { (h : List Event) → StandsNode C.class_of self.now h →
            result ≡ rules_due (setup_of C.class_of self.now) (looks (setup_of C.class_of self.now) h) }
        ensures steps { AtMost 4 steps.old steps.new }
    {
        self.node.due(steps)
    }
}
