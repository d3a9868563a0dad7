//! Fair rounds: each node gives what is due, all of it arrives, and each handler and caller has a turn.
ghost use Rattle.std.specs.Prelude.{◌≡◌, ℕ, ◌+◌, ◌<◌, ◌^◌, ◌&&◌, ◌==◌, [], length, not, true, Some};
ghost use Rattle.rx_joint.specs.Nodes.{IsNodeThere, KeepsOthers, moment_of};
ghost use Rattle.rx_jobs.specs.Handlers.{handlers_of};
ghost use Rattle.rx_plan.specs.Network.{delivers};
ghost use Rattle.rx_plan.specs.Parts.{each};
ghost use Rattle.rx_stage.specs.Ran.{stop_of};
ghost use Rattle.rx_stage.specs.TurnsPlayed.{PlaysTurn};
ghost use Rattle.rx_stage.specs.RoundsPlayed.{PlaysGiven, ended_with};
ghost use Rattle.rx_plan.specs.Rounds.{clients_first, may_move};
ghost use Rattle.rx_stage.specs.RoundsPlayed.{more_from};
ghost use Rattle.rx_plan.specs.Rounds.{moves_by, moves_on, polling, polls_out, round, rounds};
ghost use Rattle.rx_plan.specs.Rounds.{settles, turns, waits};
ghost use Rattle.rx_stage.specs.Shown.{Plays, Shows, script_of};
ghost use Rattle.rx_plan.specs.Stages.{Stage};
ghost use Rattle.rx_stage.specs.Tells.{told};

use crate::giving::Giving;
use crate::network_lines::deliver_all;
use crate::stop::Stop;
use crate::telling::{Telling, plan_end};
use crate::world::{Datagram, World, node_count};
use rx_base::Sink;
use rx_drive::poll_out;
use rx_joint::SERVER;
use rx_model::Host;
use rx_model::wire::DATAGRAM_BYTES;
use rx_wire::Journal;
use xdr_value::Interface;

/// The moment below which every clock stays, in milliseconds.
pub const MOMENT_END: u64 = 1 << 62;

impl World {
    /// Rounds until so many were made, or no call lives at any node.
    pub fn rounds<O: Sink, J: Journal>(
        &mut self,
        iface: &Interface,
        count: u32,
        out: &mut O,
        book: &mut J,
    ) -> Result<(), Stop>
        ensures plays { Plays (rounds (handlers_of iface.now (script_of self.old)) count) self.old self.new
            (stop_of result)
            (told (J.told book.old) (O.told out.old) (O.faults out.old))
            (told (J.told book.new) (O.told out.new) (O.faults out.new)) }
        ensures script { script_of self.new ≡ script_of self.old }
    {
        let mut given = Vec::new(self.alloc);
        for made in 0..count {
            if !self.nodes.any_lives() {
                return Ok(());
            }
            given.clear();
            self.round(iface, &mut given, out, book)?;
        }
        Ok(())
    }

    /// One round, whose datagrams are put into an empty list.
    fn round<O: Sink, J: Journal>(
        &mut self,
        iface: &Interface,
        given: &mut Vec<Datagram>,
        out: &mut O,
        book: &mut J,
    ) -> Result<(), Stop>
        requires { given.old.items ≡ [] }
        ensures plays { Plays (round (handlers_of iface.now (script_of self.old))) self.old self.new (stop_of result)
            (told (J.told book.old) (O.told out.old) (O.faults out.old))
            (told (J.told book.new) (O.told out.new) (O.faults out.new)) }
        ensures script { script_of self.new ≡ script_of self.old }
    {
        self.poll_all(given, out, book)?;
        self.deliver_given(given, out, book)?;
        self.turn_all(iface, out, book)?;
        self.settle(given.is_empty(), out, book)
    }

    /// Each of these datagrams is delivered, in order.
    pub fn deliver_given<O: Sink, J: Journal>(
        &mut self,
        given: &[Datagram],
        out: &mut O,
        book: &mut J,
    ) -> Result<(), Stop>
        ensures plays { Plays (each delivers given.now) self.old self.new (stop_of result)
            (told (J.told book.old) (O.told out.old) (O.faults out.old))
            (told (J.told book.new) (O.told out.new) (O.faults out.new)) }
        ensures script { script_of self.new ≡ script_of self.old }
    {
        deliver_all(&mut self.nodes, &mut self.trace, given, out, book)
    }

    /// The turns of a round: the dispatcher's, and then each caller's.
    pub fn turn_all<O: Sink, J: Journal>(
        &mut self,
        iface: &Interface,
        out: &mut O,
        book: &mut J,
    ) -> Result<(), Stop>
        ensures plays { Plays (turns (handlers_of iface.now (script_of self.old))) self.old self.new (stop_of result)
            (told (J.told book.old) (O.told out.old) (O.faults out.old))
            (told (J.told book.new) (O.told out.new) (O.faults out.new)) }
        ensures script { script_of self.new ≡ script_of self.old }
    {
        self.dispatch(iface, out, book)?;
        self.turn_of_all(out, book)
    }

    /// The end of a round: where nothing came, all clocks move.
    pub fn settle<O: Sink, J: Journal>(
        &mut self,
        quiet: bool,
        out: &mut O,
        book: &mut J,
    ) -> Result<(), Stop>
        ensures plays { Plays (settles quiet) self.old self.new (stop_of result)
            (told (J.told book.old) (O.told out.old) (O.faults out.old))
            (told (J.told book.new) (O.told out.new) (O.faults out.new)) }
        ensures script { script_of self.new ≡ script_of self.old }
    {
        if quiet {
            return self.wait(out, book);
        }
        Ok(())
    }

    /// Polls each client and then the server until none is due, and collects what they give.
    pub fn poll_all<O: Sink, J: Journal>(
        &mut self,
        given: &mut Vec<Datagram>,
        out: &mut O,
        book: &mut J,
    ) -> Result<(), Stop>
        ensures plays { PlaysGiven (λ p. each polls_out (clients_first p.stage) p) self.old given.old.items
            self.new given.new.items (stop_of result)
            (told (J.told book.old) (O.told out.old) (O.faults out.old))
            (told (J.told book.new) (O.told out.new) (O.faults out.new)) }
        ensures script { script_of self.new ≡ script_of self.old }
    {
        for node in 1..node_count(&self.nodes) {
            self.poll_out(node, given, out, book)?;
        }
        self.poll_out(SERVER, given, out, book)
    }

    /// Polls a node until none is due.
    fn poll_out<O: Sink, J: Journal>(
        &mut self,
        node: u32,
        given: &mut Vec<Datagram>,
        out: &mut O,
        book: &mut J,
    ) -> Result<(), Stop>
        requires { IsNodeThere self.old.nodes node }
        ensures plays { PlaysGiven (polls_out node) self.old given.old.items
            self.new given.new.items (stop_of result)
            (told (J.told book.old) (O.told out.old) (O.faults out.old))
            (told (J.told book.new) (O.told out.new) (O.faults out.new)) }
        ensures script { script_of self.new ≡ script_of self.old }
        ensures clients { length self.new.nodes.clients ≡ length self.old.nodes.clients }
    {
        let from = self.nodes.host(node);
        self.poll_from(node, from, given, out, book)
    }

    /// The same of a node with this host.
    fn poll_from<O: Sink, J: Journal>(
        &mut self,
        node: u32,
        from: Host,
        given: &mut Vec<Datagram>,
        out: &mut O,
        book: &mut J,
    ) -> Result<(), Stop>
        requires { IsNodeThere self.old.nodes node }
        ensures plays { PlaysTurn (polling from) node (more_from given.old.items) (ended_with given.new.items)
            self.old.nodes self.new.nodes (stop_of result)
            (told (J.told book.old) (O.told out.old) (O.faults out.old))
            (told (J.told book.new) (O.told out.new) (O.faults out.new)) }
        ensures rest { self.new ≡ record self.old { nodes = self.new.nodes } }
        ensures clients { length self.new.nodes.clients ≡ length self.old.nodes.clients }
    {
        let mut single = self.room.lend(DATAGRAM_BYTES)?;
        let mut giving = Giving {
            alloc: self.alloc,
            from,
            given,
        };
        let mut telling = Telling {
            trace: &mut self.trace,
            out,
            book,
        };
        if node == SERVER {
            let server = self.nodes.server_mut();
            let polled = poll_out(node, server, &mut single, &mut giving, &mut telling);
            self.room.take_back(single);
            return plan_end(polled);
        }
        let client = self.nodes.client_mut(node);
        let polled = poll_out(node, client, &mut single, &mut giving, &mut telling);
        self.room.take_back(single);
        plan_end(polled)
    }

    /// All clocks move by the least time from a node's moment to what is due there next.
    fn wait<O: Sink, J: Journal>(&mut self, out: &mut O, book: &mut J) -> Result<(), Stop>
        ensures plays { Plays (waits) self.old self.new (stop_of result)
            (told (J.told book.old) (O.told out.old) (O.faults out.old))
            (told (J.told book.new) (O.told out.new) (O.faults out.new)) }
        ensures script { script_of self.new ≡ script_of self.old }
    {
        match self.nodes.least_wait() {
            Some(time) => self.move_by(time, out, book),
            None => Ok(()),
        }
    }

    /// All clocks move by a time, unless it is none or one would reach the end of moments.
    fn move_by<O: Sink, J: Journal>(
        &mut self,
        time: u64,
        out: &mut O,
        book: &mut J,
    ) -> Result<(), Stop>
        ensures plays { Plays (moves_by (Some time)) self.old self.new (stop_of result)
            (told (J.told book.old) (O.told out.old) (O.faults out.old))
            (told (J.told book.new) (O.told out.new) (O.faults out.new)) }
        ensures script { script_of self.new ≡ script_of self.old }
    {
        if !self.can_move(time) {
            return Ok(());
        }
        self.move_all(time, out, book)
    }

    /// Whether that is a time, and no clock would reach the end of moments by it.
    fn can_move(&self, time: u64) -> bool
        ensures exact { (s : Stage) → Shows self.now s → result ≡ not (time == 0) && may_move time s }
        ensures early { result ≡ true → (node : ℕ) → moment_of self.now.nodes node + time < 2 ^ 62 }
    {
        time != 0 && time < MOMENT_END.saturating_sub(self.nodes.latest_moment())
    }

    /// All clocks move by a time.
    fn move_all<O: Sink, J: Journal>(
        &mut self,
        time: u64,
        out: &mut O,
        book: &mut J,
    ) -> Result<(), Stop>
        requires { (node : ℕ) → moment_of self.old.nodes node + time < 2 ^ 62 }
        ensures plays { Plays (λ s. each (moves_on time) (clients_first s) s) self.old self.new (stop_of result)
            (told (J.told book.old) (O.told out.old) (O.faults out.old))
            (told (J.told book.new) (O.told out.new) (O.faults out.new)) }
        ensures script { script_of self.new ≡ script_of self.old }
    {
        for node in 1..node_count(&self.nodes) {
            self.move_on(node, time, out, book)?;
        }
        self.move_on(SERVER, time, out, book)
    }

    /// A node's clock moves by a time.
    fn move_on<O: Sink, J: Journal>(
        &mut self,
        node: u32,
        time: u64,
        out: &mut O,
        book: &mut J,
    ) -> Result<(), Stop>
        requires there { IsNodeThere self.old.nodes node }
        requires early { moment_of self.old.nodes node + time < 2 ^ 62 }
        ensures plays { Plays (moves_on time node) self.old self.new (stop_of result)
            (told (J.told book.old) (O.told out.old) (O.faults out.old))
            (told (J.told book.new) (O.told out.new) (O.faults out.new)) }
        ensures script { script_of self.new ≡ script_of self.old }
        ensures clients { length self.new.nodes.clients ≡ length self.old.nodes.clients }
        ensures others { KeepsOthers self.old.nodes self.new.nodes node }
    {
        let now = self.nodes.moment(node) + time;
        self.clock(node, now, out, book)
    }
}
