//! What a run keeps: its nodes, the names that it answered, the datagrams that it gave, and who makes its calls.
ghost use Rattle.std.specs.Prelude.{◌≡◌, ◌≤◌, ◌<◌, ◌+◌, ◌^◌, IfOk, length, option_map};
ghost use Rattle.rx_joint.specs.Nodes.{IsClientThere, IsNodeThere};
ghost use Rattle.rx_wire.specs.Turns.{noted};
ghost use Rattle.rx_stage.specs.LinesPlayed.{Found};
ghost use Rattle.rx_plan.specs.Finds.{call_at, client_at, node_at, numbered, where_there};
ghost use Rattle.rx_stage.specs.Ran.{stop_of};
ghost use Rattle.rx_stage.specs.Shown.{Shows};
ghost use Rattle.rx_plan.specs.Stages.{Stage};
ghost use Rattle.rx_stage.specs.Tells.{IsTold, told};

use crate::invokes::Callers;
use crate::stop::Stop;
use crate::telling::{Telling, plan_end};
use crate::trace::Trace;
use rx_base::Sink;
use rx_dispatch::Dispatcher;
use rx_drive::Outside;
use rx_joint::{Nodes, SERVER};
use rx_model::{Bytes, CallName, Event, Host};
use rx_plan::ClientCall;
use rx_room::Room;
use rx_script::PlanWhy;
use rx_wire::Journal;
use std::alloc::Global;
use std::marker::Model;

/// A datagram that a poll gave: the host that gave it, and the one that it is for.
#[derive(Debug, Drop)]
pub struct Datagram {
    pub from: Host,
    pub to: Host,
    pub bytes: Bytes,
}

impl Model for Datagram {
    ghost use Rattle.rx_law.specs.Worlds.{Datagram as Given};

    ghost Value = { Given };

    ghost view = { λ s. record { from = s.from; to = s.to; bytes = s.bytes } };
}

/// What a run keeps.
#[derive(Debug, Drop)]
pub struct World {
    pub alloc: Global,
    pub nodes: Nodes,
    /// The server's.
    pub service: u16,
    /// The calls that `call` and `invoke` lines answered, in order: #1 is the first.
    pub calls: Vec<ClientCall>,
    /// Those that `accept` lines answered: @1 is the first.
    pub accepted: Vec<CallName>,
    /// The datagrams that `poll` lines gave: %1 is the first.
    pub packets: Vec<Datagram>,
    pub callers: Callers,
    pub dispatcher: Dispatcher,
    pub trace: Trace,
    /// What nodes are polled into.
    pub room: Room,
}

impl Model for World {
    ghost use Rattle.std.specs.Coded.{codes};
    ghost use Rattle.rx_dispatch.specs.contracts.dispatcher.Dispatcher as dispatchers;
    ghost use Rattle.rx_stage.specs.Shown.{WorldState};

    ghost Value = { WorldState };

    ghost coded = { Prim.hlevel (codes, dispatchers.the_row.coded) };

    ghost view = { λ s. record {
      nodes = s.nodes;
      service = s.service;
      calls = s.calls.items;
      accepted = s.accepted.items;
      packets = s.packets.items;
      callers = s.callers;
      dispatcher = s.dispatcher;
    } };
}

impl World {
    /// The number of a client that is there.
    pub fn client(&self, client: u32) -> Result<u32, Stop>
        ensures there { IfOk result (IsClientThere self.now.nodes) }
        ensures same { IfOk result (λ node. node ≡ client) }
        ensures found { (s : Stage) → Shows self.now s → Found (client_at client s) PlanWhy.NoNode result }
    {
        if client == SERVER || client as usize > self.nodes.clients() {
            return Err(Stop::Refused(PlanWhy::NoNode));
        }
        Ok(client)
    }

    /// The number of a node that is there.
    pub fn node(&self, node: u32) -> Result<u32, Stop>
        ensures there { IfOk result (IsNodeThere self.now.nodes) }
        ensures same { IfOk result (λ n. n ≡ node) }
        ensures found { (s : Stage) → Shows self.now s → Found (node_at node s) PlanWhy.NoNode result }
    {
        if node as usize > self.nodes.clients() {
            return Err(Stop::Refused(PlanWhy::NoNode));
        }
        Ok(node)
    }

    /// The call #K, of a client that is there.
    pub fn call(&self, k: u32) -> Result<ClientCall, Stop>
        ensures there { IfOk result (λ c. IsClientThere self.now.nodes c.node) }
        ensures found { (s : Stage) → Shows self.now s → Found (call_at k s) PlanWhy.NoCall result }
    {
        match at_number(&self.calls, k) {
            Some(call) => self.call_there(*call),
            None => Err(Stop::Refused(PlanWhy::NoCall)),
        }
    }

    /// A call, if its client is there.
    fn call_there(&self, call: ClientCall) -> Result<ClientCall, Stop>
        ensures there { IfOk result (λ c. IsClientThere self.now.nodes c.node) }
        ensures found { (s : Stage) → Shows self.now s → Found (where_there s (Some call)) PlanWhy.NoCall result }
    {
        if call.node == SERVER || call.node as usize > self.nodes.clients() {
            return Err(Stop::Refused(PlanWhy::NoCall));
        }
        Ok(call)
    }

    /// The call @K.
    pub fn accepted(&self, k: u32) -> Result<CallName, Stop>
        ensures { (s : Stage) → Shows self.now s → Found (numbered s.accepted k) PlanWhy.NoCall result }
    {
        match at_number(&self.accepted, k) {
            Some(name) => Ok(*name),
            None => Err(Stop::Refused(PlanWhy::NoCall)),
        }
    }

    /// Tells an event.
    pub fn tell<O: Sink, J: Journal>(
        &mut self,
        node: u32,
        event: &Event,
        out: &mut O,
        book: &mut J,
    ) -> Result<(), Stop>
        ensures told { IsTold (stop_of result) (told (J.told book.old) (O.told out.old) (O.faults out.old))
            (told (J.told book.new) (O.told out.new) (O.faults out.new)) (noted node event.now) }
        ensures same { self.new ≡ self.old }
    {
        event.fits();
        let mut telling = Telling {
            trace: &mut self.trace,
            out,
            book,
        };
        plan_end(telling.tell(node, event))
    }
}

/// How many nodes there are, as far as they have numbers.
pub fn node_count(nodes: &Nodes) -> u32
    ensures some { 1 ≤ result }
    ensures there { result ≤ length nodes.now.clients + 1 }
    ensures count { length nodes.now.clients + 1 < 2 ^ 32 → result ≡ length nodes.now.clients + 1 }
{
    let clients = nodes.clients();
    if clients >= u32::MAX as usize {
        return u32::MAX;
    }
    clients as u32 + 1
}

/// What has a number in a list, from 1.
pub fn at_number<T>(list: &[T], k: u32) -> Option<&T>
    ensures { option_map (λ x. x.now) result ≡ numbered list.now k }
{
    if k == 0 {
        return None;
    }
    list.get(k as usize - 1)
}
