//! The lines of the network: polls, deliveries and invented bytes.
ghost use Rattle.std.specs.Prelude.{◌≡◌, ◌<◌, ◌+◌, None, IfErr, IfOk, IsTrue, length};
ghost use Rattle.rx_model.specs.Names.{same_host};
ghost use Rattle.rx_joint.specs.Nodes.{IsNodeThere};
ghost use Rattle.rx_law.specs.Worlds.{Datagram as Given};
ghost use Rattle.rx_stage.specs.LinesPlayed.{Found};
ghost use Rattle.rx_plan.specs.Finds.{at_node, at_packet, numbered};
ghost use Rattle.rx_stage.specs.LinesPlayed.{KeepsPacket};
ghost use Rattle.rx_plan.specs.Lines.{can_join, forges, given_by, joined, joins, joins_to, jumbo_line};
ghost use Rattle.rx_plan.specs.Lines.{polls_line};
ghost use Rattle.rx_plan.specs.Network.{comes_to, delivers};
ghost use Rattle.rx_plan.specs.Parts.{each};
ghost use Rattle.rx_stage.specs.Ran.{stop_of};
ghost use Rattle.rx_stage.specs.Shown.{Plays, PlaysNodes, script_of};
ghost use Rattle.rx_plan.specs.Stages.{packet_given};
ghost use Rattle.rx_stage.specs.Tells.{told};

use crate::stop::{Stop, keep};
use crate::telling::{Telling, plan_end};
use crate::trace::Trace;
use crate::world::{Datagram, World, at_number, node_count};
use rx_base::Sink;
use rx_drive::{take, take_parts};
use rx_joint::{Nodes, SERVER};
use rx_jumbo::{JUMBO_PARTS, Joiner, is_jumbo};
use rx_model::wire::DATAGRAM_BYTES;
use rx_model::{Bytes, Event, Host};
use rx_plan::MAX_PACKETS;
use rx_script::{PlanWhy, Spelled};
use rx_wire::Journal;
use std::alloc::{AllocError, Global};

impl World {
    /// The node is polled, and the datagram that it gives is kept.
    pub fn poll_line<O: Sink, J: Journal>(
        &mut self,
        node: u32,
        out: &mut O,
        book: &mut J,
    ) -> Result<(), Stop>
        ensures plays { Plays (at_node node polls_line) self.old self.new (stop_of result)
            (told (J.told book.old) (O.told out.old) (O.faults out.old))
            (told (J.told book.new) (O.told out.new) (O.faults out.new)) }
        ensures script { script_of self.new ≡ script_of self.old }
    {
        let node = self.node(node)?;
        let from = self.nodes.host(node);
        let event = self.nodes.poll(self.alloc, node)?;
        self.tell(node, &event, out, book)?;
        keep_packet(&mut self.packets, from, event)
    }

    /// Each node that the datagram is for takes it.
    pub fn deliver_line<O: Sink, J: Journal>(
        &mut self,
        k: u32,
        out: &mut O,
        book: &mut J,
    ) -> Result<(), Stop>
        ensures plays { Plays (at_packet k delivers) self.old self.new (stop_of result)
            (told (J.told book.old) (O.told out.old) (O.faults out.old))
            (told (J.told book.new) (O.told out.new) (O.faults out.new)) }
        ensures script { script_of self.new ≡ script_of self.old }
    {
        match at_number(&self.packets, k) {
            Some(datagram) => deliver(&mut self.nodes, &mut self.trace, datagram, out, book),
            None => Err(Stop::Refused(PlanWhy::NoPacket)),
        }
    }

    /// The datagrams from `first` to `last` are joined and delivered as the parts of one.
    pub fn jumbo_line<O: Sink, J: Journal>(
        &mut self,
        first: u32,
        last: u32,
        out: &mut O,
        book: &mut J,
    ) -> Result<(), Stop>
        ensures plays { Plays (jumbo_line first last) self.old self.new (stop_of result)
            (told (J.told book.old) (O.told out.old) (O.faults out.old))
            (told (J.told book.new) (O.told out.new) (O.faults out.new)) }
        ensures script { script_of self.new ≡ script_of self.old }
    {
        let from = self.packet_place(first)?;
        let to = self.packet_place(last)?;
        self.join_line(from, to, out, book)
    }

    /// The datagrams from one place to another are joined and delivered as the parts of one.
    fn join_line<O: Sink, J: Journal>(
        &mut self,
        from: usize,
        to: usize,
        out: &mut O,
        book: &mut J,
    ) -> Result<(), Stop>
        requires { to < length self.old.packets }
        ensures plays { Plays (joins_to (from + 1) (to + 1)) self.old self.new (stop_of result)
            (told (J.told book.old) (O.told out.old) (O.faults out.old))
            (told (J.told book.new) (O.told out.new) (O.faults out.new)) }
        ensures script { script_of self.new ≡ script_of self.old }
    {
        if to < from {
            return Err(Stop::Refused(PlanWhy::Jumbo));
        }
        let packets = &self.packets[from..to + 1];
        let joins = can_join(self.alloc, packets)?;
        if joins {
            return deliver_all(&mut self.nodes, &mut self.trace, packets, out, book);
        }
        Err(Stop::Refused(PlanWhy::Jumbo))
    }

    /// The place of the datagram %K.
    fn packet_place(&self, k: u32) -> Result<usize, Stop>
        ensures within { IfOk result (λ place. place < length self.now.packets) }
        ensures is { IfOk result (λ place. place + 1 ≡ k) }
        ensures found { IfErr result (λ stop. (numbered self.now.packets k ≡ None)
            × (stop ≡ Stop.Refused PlanWhy.NoPacket)) }
    {
        if k >= 1 && k as usize <= self.packets.len() {
            return Ok(k as usize - 1);
        }
        Err(Stop::Refused(PlanWhy::NoPacket))
    }

    /// A node takes each part of invented bytes.
    pub fn forge_line<O: Sink, J: Journal>(
        &mut self,
        node: u32,
        from: Host,
        bytes: &Spelled,
        out: &mut O,
        book: &mut J,
    ) -> Result<(), Stop>
        ensures plays { Plays (at_node node (forges from bytes.now)) self.old self.new (stop_of result)
            (told (J.told book.old) (O.told out.old) (O.faults out.old))
            (told (J.told book.new) (O.told out.new) (O.faults out.new)) }
        ensures script { script_of self.new ≡ script_of self.old }
    {
        let node = self.node(node)?;
        let sent = bytes.spell_out(self.alloc)?;
        self.forge(node, from, sent.as_slice(), out, book)
    }

    /// A node that is there takes each part of invented bytes.
    fn forge<O: Sink, J: Journal>(
        &mut self,
        node: u32,
        from: Host,
        bytes: &[u8],
        out: &mut O,
        book: &mut J,
    ) -> Result<(), Stop>
        requires { IsNodeThere self.old.nodes node }
        ensures plays { Plays (forges from bytes.now node) self.old self.new (stop_of result)
            (told (J.told book.old) (O.told out.old) (O.faults out.old))
            (told (J.told book.new) (O.told out.new) (O.faults out.new)) }
        ensures script { script_of self.new ≡ script_of self.old }
    {
        let mut single = vec![in self.alloc; 0u8; bytes.len()]?;
        let mut telling = Telling {
            trace: &mut self.trace,
            out,
            book,
        };
        if node == SERVER {
            let server = self.nodes.server_mut();
            return plan_end(take_parts(node, server, from, bytes, &mut single, &mut telling));
        }
        let client = self.nodes.client_mut(node);
        plan_end(take_parts(node, client, from, bytes, &mut single, &mut telling))
    }
}

/// The datagram that a poll gave is kept, where there is room.
fn keep_packet(packets: &mut Vec<Datagram>, from: Host, event: Event) -> Result<(), Stop>
    ensures { KeepsPacket (packet_given from event) packets.old.items packets.new.items (stop_of result) }
{
    let Some((to, bytes)) = given(event) else {
        return Ok(());
    };
    if packets.len() >= MAX_PACKETS {
        return Err(Stop::Refused(PlanWhy::Bag));
    }
    keep(packets, Datagram { from, to, bytes })?;
    Ok(())
}

/// The datagram that a poll gave, with the host that it is for.
pub fn given(event: Event) -> Option<(Host, Bytes)>
    ensures { result ≡ given_by event }
{
    match event {
        Event::Polled { got } => got,
        Event::Linked { .. } | Event::Called { .. } | Event::Wrote { .. } | Event::Shut { .. } =>
            None,
        Event::HasRead { .. } | Event::Ended { .. } | Event::Cancelled { .. } => None,
        Event::Accepted { .. } | Event::Finished { .. } | Event::Taken { .. } => None,
        Event::Clocked { .. } => None,
    }
}

/// Whether the datagrams can be joined to one.
fn can_join(alloc: Global, packets: &[Datagram]) -> Result<bool, AllocError>
    ensures { IfOk result (λ joins. joins ≡ can_join packets.now) }
{
    let mut joiner = Joiner::make(alloc, JUMBO_PARTS)?;
    for packet in packets {
        let taken = joins(&mut joiner, packet);
        if !taken {
            return Ok(false);
        }
    }
    Ok(true)
}

/// Whether a joiner takes a datagram.
fn joins(joiner: &mut Joiner, packet: &Datagram) -> bool
    ensures takes { result ≡ joins joiner.old packet.now }
    ensures taken { IsTrue result → joiner.new ≡ joined joiner.old packet.now }
{
    let bytes = packet.bytes.as_slice();
    if is_jumbo(bytes) {
        return false;
    }
    if bytes.len() > DATAGRAM_BYTES {
        return false;
    }
    joiner.push(packet.to, bytes)
}

/// Each of these datagrams is delivered, in order.
pub fn deliver_all<O: Sink, J: Journal>(
    nodes: &mut Nodes,
    trace: &mut Trace,
    packets: &[Datagram],
    out: &mut O,
    book: &mut J,
) -> Result<(), Stop>
    ensures { PlaysNodes (each delivers packets.now) nodes.old nodes.new (stop_of result)
        (told (J.told book.old) (O.told out.old) (O.faults out.old))
        (told (J.told book.new) (O.told out.new) (O.faults out.new)) }
{
    for datagram in packets {
        deliver(nodes, trace, datagram, out, book)?;
    }
    Ok(())
}

/// Each node with the host that a datagram is for takes it: the server, or the clients in their order.
pub fn deliver<O: Sink, J: Journal>(
    nodes: &mut Nodes,
    trace: &mut Trace,
    datagram: &Datagram,
    out: &mut O,
    book: &mut J,
) -> Result<(), Stop>
    ensures { PlaysNodes (delivers datagram.now) nodes.old nodes.new (stop_of result)
        (told (J.told book.old) (O.told out.old) (O.faults out.old))
        (told (J.told book.new) (O.told out.new) (O.faults out.new)) }
{
    for node in 0..node_count(nodes) {
        come_to(nodes, trace, node, datagram, out, book)?;
    }
    Ok(())
}

/// A node takes a datagram, where it is for that node.
fn come_to<O: Sink, J: Journal>(
    nodes: &mut Nodes,
    trace: &mut Trace,
    node: u32,
    datagram: &Datagram,
    out: &mut O,
    book: &mut J,
) -> Result<(), Stop>
    requires { IsNodeThere nodes.old node }
    ensures plays { PlaysNodes (comes_to datagram.now node) nodes.old nodes.new (stop_of result)
        (told (J.told book.old) (O.told out.old) (O.faults out.old))
        (told (J.told book.new) (O.told out.new) (O.faults out.new)) }
    ensures clients { length nodes.new.clients ≡ length nodes.old.clients }
{
    let here = is_for(datagram.to, nodes.host(node));
    if !here {
        return Ok(());
    }
    let bytes = datagram.bytes.as_slice();
    let mut telling = Telling { trace, out, book };
    if node == SERVER {
        let server = nodes.server_mut();
        return plan_end(take(node, server, datagram.from, bytes, &mut telling));
    }
    let client = nodes.client_mut(node);
    plan_end(take(node, client, datagram.from, bytes, &mut telling))
}

/// Whether what is for one host comes to another.
fn is_for(to: Host, host: Host) -> bool
    ensures { result ≡ same_host to host }
{
    to == host
}
