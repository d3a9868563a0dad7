//! The dispatcher and its turns.

ghost use Rattle.std.specs.Prelude.{◌≡◌, [], length, IfOk, OnErr};
ghost use Rattle.rx_node.specs.Node.{setup_of};
ghost use Rattle.rx_script.specs.Saying.{blocks_of};
ghost use Rattle.rx_dispatch.specs.Rounds.{begun_turn, resting, turning_of};
ghost use Rattle.rx_dispatch.specs.Making.{Kept, NextCall, Remembers};
ghost use Rattle.rx_dispatch.specs.States.{state_of};
ghost use Rattle.rx_dispatch.specs.Wanting.{WantsMemory};
ghost use Rattle.rx_jobs.specs.Handlers.{handlers_of};

use crate::desk::Desk;
use crate::round::Round;
use rx_class::Class;
use rx_model::Event;
use rx_script::Script;
use rx_server::Server;
use std::alloc::{AllocError, Global};
use xdr_value::Interface;

/// The handlers of a server: a job for each call that they accepted and that isn't finished.
#[derive(Debug, Drop)]
pub struct Dispatcher {
    alloc: Global,
    script: Script,
    round: Round,
}

impl Dispatcher {
    /// Handlers that serve what a script says and have no job.
    pub fn make(alloc: Global, script: Script) -> Dispatcher
        ensures { state_of result ≡ record { script = blocks_of script.blocks.items; round = resting [] } }
    {
        Dispatcher {
            alloc,
            script,
            round: Round::make(alloc),
        }
    }

    /// How many jobs it has.
    pub fn jobs(&self) -> usize
        ensures { result ≡ length (state_of self.now).round.jobs }
    {
        self.round.jobs()
    }

    /// A turn begins.
    pub fn begin(&mut self)
        ensures { state_of self.new ≡ record (state_of self.old) { round = begun_turn (state_of self.old).round } }
    {
        self.round.begin();
    }

    /// Makes the next call of its turn, and answers the event; none where the turn is over. The interface is that of
    /// the turn's earlier calls. Where memory is wanted, it made no call.
    pub fn step<C: Class>(
        &mut self,
        iface: &Interface,
        server: &mut Server<C>,
    ) -> Result<Option<Event>, AllocError>
        requires { Remembers (handlers_of iface.now (state_of self.old).script) (state_of self.old).round }
        ensures made { IfOk result (NextCall C.class_of (handlers_of iface.now (state_of self.old).script)
            (turning_of (handlers_of iface.now (state_of self.old).script) (state_of self.old).round)
            (turning_of (handlers_of iface.now (state_of self.old).script) (state_of self.new).round)
            (state_of self.new).round.jobs server.old server.new) }
        ensures wanting { OnErr result (Kept
            (turning_of (handlers_of iface.now (state_of self.old).script) (state_of self.old).round)
            (turning_of (handlers_of iface.now (state_of self.old).script) (state_of self.new).round)
            server.old server.new) }
        ensures wants { OnErr result (WantsMemory (handlers_of iface.now (state_of self.old).script)
            (state_of self.new).round) }
        ensures remembered { Remembers (handlers_of iface.now (state_of self.new).script) (state_of self.new).round }
        ensures script { (state_of self.new).script ≡ (state_of self.old).script }
        ensures setup { setup_of C.class_of server.new.node ≡ setup_of C.class_of server.old.node }
    {
        let desk = Desk {
            alloc: self.alloc,
            iface,
            script: &self.script,
        };
        self.round.step(&desk, server)
    }
}
