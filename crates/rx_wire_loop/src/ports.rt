//! What stands between a node and its wire: the datagrams that it gives are joined and go out, and what comes in is
//! split and taken.
ghost use Rattle.std.specs.Prelude.{◌≡◌, ◌≤◌, ◌<◌, ◌∷◌, ◌++◌, ◌^◌, [], ℕ, List, Bool, None, Some, false, true, length};
ghost use Rattle.std.specs.Prelude.{take};
ghost use Rattle.std.specs.Prelude.{IfErr, IfOk, OnErr, OnOk};
ghost use Rattle.rx_jumbo.specs.declared.sizes.TheConstants.{JUMBO_BYTES, JUMBO_PARTS};
ghost use Rattle.rx_jumbo.specs.JoinerState.{takes};
ghost use Rattle.rx_jumbo.specs.Parts.{is_jumbo};
ghost use Rattle.rx_model.specs.declared.event.Event.{Event as OneEvent};
ghost use Rattle.rx_model.specs.declared.wire.TheConstants.{DATAGRAM_BYTES};
ghost use Rattle.rx_rules.specs.Setup.{FitsSetup};
ghost use Rattle.rx_wire_loop.specs.Ports.{Empties, GivesOne, IsWithin, Keeps, NotesOne, Passes, PassesOn, clocks};
ghost use Rattle.rx_wire_loop.specs.Ports.{lesser, polls, polls_once, takes_until, until_of};
ghost use Rattle.rx_drive.specs.Ran.{stop_of};
ghost use Rattle.rx_wire_loop.specs.Runs.{IsBehind, Plays, change};
ghost use Rattle.rx_wire_loop.specs.Tells.{SinkTells, told, wire_tells};

use crate::notes::{note, note_polled};
use crate::outside::Unlined;
use rx_drive::{Endpoint, Stop, clock, take_parts};
use rx_jumbo::{JUMBO_BYTES, Joiner};
use rx_model::wire::DATAGRAM_BYTES;
use rx_model::{Event, Host};
use rx_wire::{Journal, Wire};
use std::alloc::{AllocError, Global};
use std::marker::Model;

/// Bytes that a take has room for.
pub const TAKE_BYTES: usize = 65_536;

/// Milliseconds that a take waits at most.
pub const LONGEST_WAIT_MS: u64 = 60_000;

/// The last moment up to which a take waits.
pub const LAST_MOMENT: u64 = (1 << 62) - 1;

/// The buffers between a node and its wire, and the datagrams that are to be given as one.
#[derive(Debug, Drop)]
pub struct Ports {
    /// The number for which events are noted.
    node: u32,
    joiner: Joiner,
    /// What comes in, or goes out.
    whole: Vec<u8>,
    /// A part of it.
    single: Vec<u8>,
}

impl Model for Ports {
    ghost use Rattle.std.specs.Prelude.{◌≡◌, vec_len};
    ghost use Rattle.rx_wire_loop.specs.Ports.{IsWithin, PortsState};
    ghost use Rattle.rx_wire_loop.specs.declared.ports.TheConstants.{TAKE_BYTES};

    ghost Value = { PortsState };

    ghost view = { λ s. record { node = s.node; joiner = s.joiner } };

    ghost invariant = { λ s. IsWithin s.joiner × (vec_len s.whole ≡ TAKE_BYTES) × (vec_len s.single ≡ TAKE_BYTES) };
}

impl Ports {
    /// Those of a node with this number in the journal, which join at most so many datagrams, from 1 to 16, to one.
    pub fn make(alloc: Global, node: u32, most: u32) -> Result<Ports, AllocError>
        requires some { 1 ≤ most }
        requires few { most ≤ JUMBO_PARTS }
        ensures node { IfOk result (λ s. s.node ≡ node) }
        ensures most { IfOk result (λ s. s.joiner.most ≡ most) }
        ensures empty { IfOk result (λ s. s.joiner.datagrams ≡ []) }
    {
        Ok(Ports {
            node,
            joiner: Joiner::make(alloc, most)?,
            whole: vec![in alloc; 0u8; TAKE_BYTES]?,
            single: vec![in alloc; 0u8; TAKE_BYTES]?,
        })
    }

    /// The node's moment is the wire's now.
    pub fn clock<N: Endpoint, W: Wire, J: Journal>(
        &self,
        node: &mut N,
        wire: &W,
        book: &mut J,
    ) -> Result<(), Stop>
        requires { IsBehind (N.setup node.old) (N.stands node.old) (W.moment wire.now) }
        ensures plays { (sink : SinkTells) → Plays (change self.now.node (N.setup node.old)
            (N.stands node.old) (N.stands node.new)
            (told (J.told book.old) sink (wire_tells (W.told wire.now) (W.faults wire.now) (W.moment wire.now)))
            (told (J.told book.new) sink (wire_tells (W.told wire.now) (W.faults wire.now) (W.moment wire.now))))
            clocks (λ u. Unit {0}) (stop_of result) }
        ensures refused { IfErr result (λ stop. stop ≡ Stop.Unnoted) }
        ensures wants { OnErr result (J.may_want ≡ true) }
        ensures setup { N.setup node.new ≡ N.setup node.old }
    {
        clock(self.node, node, wire.now(), &mut Unlined { book })
    }

    /// Polls the node until nothing is due, and gives what it gave, as many datagrams as can be joined as one.
    pub fn give_due<N: Endpoint, W: Wire, J: Journal>(
        &mut self,
        node: &mut N,
        wire: &mut W,
        book: &mut J,
    ) -> Result<(), Stop>
        requires empty { self.old.joiner.datagrams ≡ [] }
        requires fits { FitsSetup (N.setup node.old) }
        requires behind { IsBehind (N.setup node.old) (N.stands node.old) (W.moment wire.old) }
        ensures plays { (sink : SinkTells) → Plays (change self.old.node (N.setup node.old)
            (N.stands node.old) (N.stands node.new)
            (told (J.told book.old) sink (wire_tells (W.told wire.old) (W.faults wire.old) (W.moment wire.old)))
            (told (J.told book.new) sink (wire_tells (W.told wire.new) (W.faults wire.new) (W.moment wire.new))))
            (polls self.old.joiner.most) (λ u. Unit {0}) (stop_of result) }
        ensures unnoted { IfErr result (λ stop. stop ≡ Stop.Unnoted → J.may_want ≡ true) }
        ensures empty { OnOk result (self.new.joiner.datagrams ≡ []) }
        ensures most { self.new.joiner.most ≡ self.old.joiner.most }
        ensures node { self.new.node ≡ self.old.node }
        ensures setup { N.setup node.new ≡ N.setup node.old }
    {
        'polls: for given in 0..u64::MAX {
            if !self.poll_once(node, wire, book)? {
                return self.flush(wire);
            }
        }
        self.flush(wire)?;
        Err(Stop::Endless)
    }

    /// Polls the node once. Whether it gave something.
    fn poll_once<N: Endpoint, W: Wire, J: Journal>(
        &mut self,
        node: &mut N,
        wire: &mut W,
        book: &mut J,
    ) -> Result<bool, Stop>
        requires fits { FitsSetup (N.setup node.old) }
        requires behind { IsBehind (N.setup node.old) (N.stands node.old) (W.moment wire.old) }
        ensures plays { (sink : SinkTells) → Plays (change self.old.node (N.setup node.old)
            (N.stands node.old) (N.stands node.new)
            (told (J.told book.old) sink (wire_tells (W.told wire.old) (W.faults wire.old) (W.moment wire.old)))
            (told (J.told book.new) sink (wire_tells (W.told wire.new) (W.faults wire.new) (W.moment wire.new))))
            (polls_once self.old.joiner self.new.joiner) (λ b. IfOk result (λ r. b ≡ r)) (stop_of result) }
        ensures unnoted { IfErr result (λ stop. stop ≡ Stop.Unnoted → J.may_want ≡ true) }
        ensures within { IsWithin self.new.joiner }
        ensures most { self.new.joiner.most ≡ self.old.joiner.most }
        ensures node { self.new.node ≡ self.old.node }
        ensures setup { N.setup node.new ≡ N.setup node.old }
    {
        match node.poll(&mut self.single) {
            Some((to, count)) => {
                let datagram = front(&self.single, count);
                pass_on(
                    self.node,
                    to,
                    datagram,
                    &mut self.joiner,
                    &mut self.whole,
                    wire,
                    book,
                )
            }
            None => note_none(self.node, book),
        }
    }

    /// Gives what is held back.
    fn flush<W: Wire>(&mut self, wire: &mut W) -> Result<(), Stop>
        ensures empties { Empties self.old.joiner self.new.joiner
            (wire_tells (W.told wire.old) (W.faults wire.old) (W.moment wire.old))
            (wire_tells (W.told wire.new) (W.faults wire.new) (W.moment wire.new)) (stop_of result) }
        ensures failed { IfErr result (λ stop. stop ≡ Stop.WireFault) }
        ensures most { self.new.joiner.most ≡ self.old.joiner.most }
        ensures node { self.new.node ≡ self.old.node }
    {
        give_held(&mut self.joiner, &mut self.whole, wire)
    }

    /// Takes a datagram, where one comes up to this moment, and has the node take its parts at the moment then.
    pub fn take<N: Endpoint, W: Wire, J: Journal>(
        &mut self,
        until: u64,
        node: &mut N,
        wire: &mut W,
        book: &mut J,
    ) -> Result<(), Stop>
        requires until { until < 2 ^ 62 }
        requires behind { IsBehind (N.setup node.old) (N.stands node.old) (W.moment wire.old) }
        ensures plays { (sink : SinkTells) → Plays (change self.old.node (N.setup node.old)
            (N.stands node.old) (N.stands node.new)
            (told (J.told book.old) sink (wire_tells (W.told wire.old) (W.faults wire.old) (W.moment wire.old)))
            (told (J.told book.new) sink (wire_tells (W.told wire.new) (W.faults wire.new) (W.moment wire.new))))
            (takes_until until) (λ u. Unit {0}) (stop_of result) }
        ensures unnoted { IfErr result (λ stop. stop ≡ Stop.Unnoted → J.may_want ≡ true) }
        ensures ports { self.new ≡ self.old }
        ensures setup { N.setup node.new ≡ N.setup node.old }
    {
        match wire.take(until, &mut self.whole) {
            Ok(Some((from, count))) => {
                let mut outside = Unlined { book };
                clock(self.node, node, wire.now(), &mut outside)?;
                let came = front(&self.whole, count);
                take_parts(self.node, node, from, came, &mut self.single, &mut outside)
            }
            Ok(None) => Ok(()),
            Err(_) => Err(Stop::WireFault),
        }
    }
}

/// Notes that a poll gave nothing.
fn note_none<J: Journal>(number: u32, book: &mut J) -> Result<bool, Stop>
    ensures told { NotesOne number (J.told book.old) (J.told book.new) (OneEvent.Polled None) (stop_of result) }
    ensures wants { OnErr result (J.may_want ≡ true) }
    ensures none { IfOk result (λ again. again ≡ false) }
{
    note(number, &Event::Polled { got: None }, book)?;
    Ok(false)
}

/// Notes a datagram that was polled, and gives it or holds it back.
fn pass_on<W: Wire, J: Journal>(
    number: u32,
    to: Host,
    datagram: &[u8],
    joiner: &mut Joiner,
    whole: &mut [u8],
    wire: &mut W,
    book: &mut J,
) -> Result<bool, Stop>
    requires room { JUMBO_BYTES ≤ length whole.old }
    requires within { IsWithin joiner.old }
    requires size { length datagram.now ≤ DATAGRAM_BYTES }
    requires single { is_jumbo datagram.now ≡ false }
    ensures passes { PassesOn number joiner.old joiner.new (J.told book.old) (J.told book.new) (to, datagram.now)
        (wire_tells (W.told wire.old) (W.faults wire.old) (W.moment wire.old))
        (wire_tells (W.told wire.new) (W.faults wire.new) (W.moment wire.new)) (stop_of result) }
    ensures unnoted { IfErr result (λ stop. stop ≡ Stop.Unnoted → J.may_want ≡ true) }
    ensures some { IfOk result (λ again. again ≡ true) }
    ensures kept { Keeps joiner.old joiner.new }
{
    note_polled(number, to, datagram, book)?;
    offer(joiner, whole, to, datagram, wire)?;
    Ok(true)
}

/// Holds a datagram back behind those that it follows, and gives what it doesn't follow.
fn offer<W: Wire>(
    joiner: &mut Joiner,
    whole: &mut [u8],
    to: Host,
    datagram: &[u8],
    wire: &mut W,
) -> Result<(), Stop>
    requires room { JUMBO_BYTES ≤ length whole.old }
    requires within { IsWithin joiner.old }
    requires size { length datagram.now ≤ DATAGRAM_BYTES }
    requires single { is_jumbo datagram.now ≡ false }
    ensures passes { Passes (to, datagram.now) joiner.old joiner.new
        (wire_tells (W.told wire.old) (W.faults wire.old) (W.moment wire.old))
        (wire_tells (W.told wire.new) (W.faults wire.new) (W.moment wire.new)) (stop_of result) }
    ensures failed { IfErr result (λ stop. stop ≡ Stop.WireFault) }
    ensures kept { Keeps joiner.old joiner.new }
{
    if joiner.push(to, datagram) {
        return Ok(());
    }
    give_before(joiner, whole, to, datagram, wire)
}

/// Gives what is held back, and holds a datagram back that doesn't follow it.
fn give_before<W: Wire>(
    joiner: &mut Joiner,
    whole: &mut [u8],
    to: Host,
    datagram: &[u8],
    wire: &mut W,
) -> Result<(), Stop>
    requires room { JUMBO_BYTES ≤ length whole.old }
    requires within { IsWithin joiner.old }
    requires size { length datagram.now ≤ DATAGRAM_BYTES }
    requires single { is_jumbo datagram.now ≡ false }
    requires apart { takes joiner.old to datagram.now ≡ false }
    ensures passes { Passes (to, datagram.now) joiner.old joiner.new
        (wire_tells (W.told wire.old) (W.faults wire.old) (W.moment wire.old))
        (wire_tells (W.told wire.new) (W.faults wire.new) (W.moment wire.new)) (stop_of result) }
    ensures failed { IfErr result (λ stop. stop ≡ Stop.WireFault) }
    ensures kept { Keeps joiner.old joiner.new }
{
    give_held(joiner, whole, wire)?;
    let _ = joiner.push(to, datagram);
    Ok(())
}

/// Gives what is held back, if anything is.
fn give_held<W: Wire>(joiner: &mut Joiner, whole: &mut [u8], wire: &mut W) -> Result<(), Stop>
    requires room { JUMBO_BYTES ≤ length whole.old }
    requires within { IsWithin joiner.old }
    ensures empties { Empties joiner.old joiner.new
        (wire_tells (W.told wire.old) (W.faults wire.old) (W.moment wire.old))
        (wire_tells (W.told wire.new) (W.faults wire.new) (W.moment wire.new)) (stop_of result) }
    ensures failed { IfErr result (λ stop. stop ≡ Stop.WireFault) }
    ensures kept { Keeps joiner.old joiner.new }
{
    match joiner.out(whole) {
        Some((to, count)) => give(to, front(whole, count), wire),
        None => Ok(()),
    }
}

/// Gives a datagram.
fn give<W: Wire>(to: Host, bytes: &[u8], wire: &mut W) -> Result<(), Stop>
    ensures gives { GivesOne (wire_tells (W.told wire.old) (W.faults wire.old) (W.moment wire.old))
        (wire_tells (W.told wire.new) (W.faults wire.new) (W.moment wire.new)) (to, bytes.now) (stop_of result) }
    ensures failed { IfErr result (λ stop. stop ≡ Stop.WireFault) }
{
    match wire.give(to, bytes) {
        Ok(()) => Ok(()),
        Err(_) => Err(Stop::WireFault),
    }
}

/// The first bytes, so many of them or all.
fn front(bytes: &[u8], count: usize) -> &[u8]
    ensures { result.now ≡ take count bytes.now }
{
    let (first, _) = bytes.split_at(count.min(bytes.len()));
    first
}

/// Up to which moment a take waits: what is due next, the end if there is one, and a minute at most.
pub fn wait_until<N: Endpoint>(node: &N, end: Option<u64>) -> u64
    ensures exact { (h : List OneEvent) → N.stands node.now h → result ≡ until_of (N.setup node.now) end h }
    ensures within { result < 2 ^ 62 }
{
    let longest = node
        .moment()
        .saturating_add(LONGEST_WAIT_MS)
        .min(LAST_MOMENT);
    earlier(earlier(longest, end), node.due())
}

/// The earlier of two moments, if there is another.
fn earlier(moment: u64, other: Option<u64>) -> u64
    ensures { result ≡ lesser other moment }
{
    match other {
        Some(other) => moment.min(other),
        None => moment,
    }
}
