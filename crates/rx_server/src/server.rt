ghost use Rattle.std.specs.Prelude.{true, ◌≡◌, ◌≤◌, ◌<◌, ◌^◌, List, [], IfOk, length, drop};
ghost use Rattle.rx_model.specs.declared.event.Event.{Event};
ghost use Rattle.rx_model.specs.declared.event.Event.TheVariants as events;
ghost use Rattle.rx_model.specs.declared.wire.TheConstants.{DATAGRAM_BYTES};
ghost use Rattle.rx_due.specs.Cost.{AtMost};
ghost use Rattle.rx_rules.specs.After.{looks};
ghost use Rattle.rx_rules.specs.Items.{due as rules_due};
ghost use Rattle.rx_rules.specs.Setup as setups;
ghost use Rattle.rx_rules.specs.Slots.{live as rules_live};
ghost use Rattle.rx_books.specs.Costs.{AtMostForPoll};
ghost use Rattle.rx_node.specs.Node.{setup_of};
ghost use Rattle.rx_node.specs.Steps.{given_count, given_from};
ghost use Rattle.rx_server.specs.Server.{Answered, Stands};

use rx_books::{Kind, Node};
use rx_class::Class;
use rx_due::Steps;
use rx_model::{Host, Limits};
use rx_queue::Queue;
use rx_table::CHANNELS;
use std::alloc::{AllocError, Global};
use std::marker::Model;
use std::sync::ledger::Ledger;

mod handling;
mod promises;
mod taking;
mod waiting;

/// A server of one service. A call of it takes no memory once it was made.
#[derive(Debug, Drop)]
pub struct Server<C: Class> {
    node: Node<C>,
    service: u16,
    /// The nonce of the next connection that it enters.
    nonce: u64,
    /// The channels of calls whose packet 1 was kept, in the order of its keeping: all that wait are among them, and
    /// those of them that may be given to a handler are ready.
    firsts: Queue,
}

impl<C: Class> Model for Server<C> {
    ghost use Rattle.std.specs.Prelude.{◌≡◌, ◌≤◌, ◌*◌, length};
    ghost use Rattle.rx_server.specs.Server.{IsServing, ServerState};
    ghost use Rattle.rx_table.specs.declared.seat.TheConstants.{CHANNELS};

    ghost Value = { ServerState };

    ghost view = { λ s. record { node = s.node; service = s.service; nonce = s.nonce; firsts = s.firsts } };

    ghost invariant = { λ s.
        IsServing C.class_of (record { node = s.node; service = s.service; nonce = s.nonce; firsts = s.firsts })
        × (CHANNELS * s.node.limits.conns ≤ length s.firsts.ready) };
}

impl<C: Class> Server<C> {
    /// A server of a service, at the start of its life, within these limits. The k-th connection that it enters, from 0
    /// on, has the nonce `nonces + k`. Takes all the memory that it will need, and fails only for want of it.
    pub fn make(
        alloc: Global,
        limits: &Limits,
        service: u16,
        class: C,
        nonces: u64,
    ) -> Result<Server<C>, AllocError>
        requires { setups.FitsLimits limits.now }
        ensures stands { IfOk result (λ s. Stands C.class_of s []) }
        ensures setup { IfOk result (λ s. setup_of C.class_of s.node
            ≡ setups.unprompted (setups.Server service nonces) limits.now (C.class_of (C.secret class))) }
    {
        Server::make_paced(alloc, limits, false, service, class, nonces)
    }

    /// The same, but prompt: it asks for an acknowledgement behind each half of a call's window, so that no stream
    /// waits for a delayed one where the peer's window is no narrower than its own, and one half is on its way while
    /// the other is acknowledged. It gives again at once what it takes for lost, and acknowledges at once what fills a
    /// hole.
    pub fn make_prompt(
        alloc: Global,
        limits: &Limits,
        service: u16,
        class: C,
        nonces: u64,
    ) -> Result<Server<C>, AllocError>
        requires { setups.FitsLimits limits.now }
        ensures stands { IfOk result (λ s. Stands C.class_of s []) }
        ensures setup { IfOk result (λ s. setup_of C.class_of s.node ≡ record {
          kind = setups.Server service nonces;
          limits = limits.now;
          prompt = true;
          class = C.class_of (C.secret class);
        }) }
    {
        Server::make_paced(alloc, limits, true, service, class, nonces)
    }

    /// Either.
    fn make_paced(
        alloc: Global,
        limits: &Limits,
        prompt: bool,
        service: u16,
        class: C,
        nonces: u64,
    ) -> Result<Server<C>, AllocError>
        requires { setups.FitsLimits limits.now }
        ensures stands { IfOk result (λ s. Stands C.class_of s []) }
        ensures setup { IfOk result (λ s. setup_of C.class_of s.node ≡ record {
          kind = setups.Server service nonces;
          limits = limits.now;
          prompt = prompt;
          class = C.class_of (C.secret class);
        }) }
    {
        let node = Node::make(
            alloc,
            Kind::Server { service, nonces },
            limits,
            prompt,
            class,
        )?;
        let firsts = Queue::make(alloc, CHANNELS * limits.conns)?;
        Ok(Server {
            node,
            service,
            nonce: nonces,
            firsts,
        })
    }

    /// Its moment, in milliseconds.
    pub fn moment(&self) -> u64
        ensures value { result ≡ self.now.node.moment }
        ensures exact { (h : List Event) → Stands C.class_of self.now h →
            result ≡ (looks (setup_of C.class_of self.now.node) h).now }
    {
        self.node.moment()
    }

    /// How many calls live.
    pub fn live(&self) -> u32
        ensures { (h : List Event) → Stands C.class_of self.now h →
            result ≡ rules_live (looks (setup_of C.class_of self.now.node) h) }
    {
        self.node.live()
    }

    /// Its moment is this one now, in milliseconds.
    pub fn clock(&mut self, now: u64)
        requires later { self.old.node.moment ≤ now }
        requires now { now < 2 ^ 62 }
        ensures answered { Answered C.class_of self.old self.new (events.Clocked now) }
        ensures setup { setup_of C.class_of self.new.node ≡ setup_of C.class_of self.old.node }
    {
        self.node.clock(now);
    }

    /// Writes the next datagram that is due to the front of the buffer, and answers the host that it is for and its
    /// length in bytes; none where nothing is due.
    pub fn poll<L: Ledger>(&mut self, to: &mut [u8], steps: &mut Steps<L>) -> Option<(Host, usize)>
        requires { DATAGRAM_BYTES ≤ length to.old }
        ensures answered { Answered C.class_of self.old self.new (events.Polled (given_from result to.new)) }
        ensures rest { drop (given_count result) to.new ≡ drop (given_count result) to.old }
        ensures setup { setup_of C.class_of self.new.node ≡ setup_of C.class_of self.old.node }
        ensures steps { (h : List Event) → Stands C.class_of self.old h →
            AtMostForPoll (looks (setup_of C.class_of self.old.node) h) steps.old steps.new }
    {
        self.node.poll(to, steps)
    }

    /// From which moment on a poll would do something, at least its own; none where nothing is owed and no call lives
    /// that isn't broken.
    pub fn due<L: Ledger>(&self, steps: &mut Steps<L>) -> Option<u64>
        ensures value { (h : List Event) → Stands C.class_of self.now h →
            result ≡ rules_due (setup_of C.class_of self.now.node) (looks (setup_of C.class_of self.now.node) h) }
        ensures steps { AtMost 4 steps.old steps.new }
    {
        self.node.due(steps)
    }
}
