//! Rounds over a network that loses, repeats and holds datagrams, as words of a generator say.
ghost use Rattle.std.specs.Prelude.{◌≡◌, ◌∷◌, ◌%◌, ◌&&◌, ◌==◌, ◌++◌, [], OnOk, length};
ghost use Rattle.rand_pcg.specs.Lcg.{increment_of, started};
ghost use Rattle.rand_pcg.specs.Pcg.{multiplier_64};
ghost use Rattle.rx_jobs.specs.Handlers.{handlers_of};
ghost use Rattle.rx_stage.specs.RoundsPlayed.{PlaysCarried, PlaysLossy};
ghost use Rattle.rx_plan.specs.Tallies.{no_tally, tallied};
ghost use Rattle.rx_plan.specs.Lossy.{carries, comes, drawn, fate_of, fated, gathered, lossy, lossy_round, stays};
ghost use Rattle.rx_plan.specs.Network.{delivers};
ghost use Rattle.rx_plan.specs.Parts.{each};
ghost use Rattle.rx_stage.specs.Ran.{stop_of};
ghost use Rattle.rx_stage.specs.Shown.{Plays, script_of};
ghost use Rattle.rx_stage.specs.Tells.{told};

use crate::network_lines::deliver;
use crate::stop::{Stop, keep};
use crate::world::{Datagram, World};
use rand_core::utils::NextWord;
use rand_pcg::Pcg32;
use rx_base::Sink;
use rx_plan::{Fate, Tally};
use rx_wire::Journal;
use std::alloc::Global;
use std::mem::replace;
use xdr_value::Interface;

/// A network that loses, repeats and holds datagrams.
#[derive(Debug, Drop)]
pub struct LossyNetwork {
    /// The generator whose words say what becomes of each.
    pub words: Pcg32,
    /// The datagrams that are held for the next round.
    pub held: Vec<Datagram>,
    /// What became of those so far.
    pub tally: Tally,
}

impl LossyNetwork {
    /// One whose generator begins at a number, and to which nothing was given yet.
    pub fn begin(alloc: Global, number: u64) -> LossyNetwork
        ensures words { result.words ≡ started 64 multiplier_64 number (increment_of 64 1) }
        ensures held { result.held.items ≡ [] }
        ensures tally { result.tally ≡ no_tally }
    {
        LossyNetwork {
            words: Pcg32::new(number, 1),
            held: Vec::new(alloc),
            tally: Tally::none(),
        }
    }
}

/// The fate that a word of the generator says.
fn fate_of(word: u32) -> Fate
    ensures { result ≡ fate_of word }
{
    match word % 16 {
        0 => Fate::Lost,
        1 => Fate::Twice,
        2 => Fate::Held,
        _ => Fate::Once,
    }
}

/// Whether there is no datagram in either list.
fn none_of(given: &Vec<Datagram>, held: &Vec<Datagram>) -> bool
    ensures { result ≡ (length given.now.items == 0) && (length held.now.items == 0) }
{
    given.is_empty() && held.is_empty()
}

impl World {
    /// Lossy rounds until so many were made, or no call lives at any node. What is held at their end is dropped.
    pub fn lossy<O: Sink, J: Journal>(
        &mut self,
        iface: &Interface,
        number: u64,
        count: u32,
        out: &mut O,
        book: &mut J,
    ) -> Result<(), Stop>
        ensures plays { Plays (lossy (handlers_of iface.now (script_of self.old)) number count) self.old self.new
            (stop_of result)
            (told (J.told book.old) (O.told out.old) (O.faults out.old))
            (told (J.told book.new) (O.told out.new) (O.faults out.new)) }
        ensures script { script_of self.new ≡ script_of self.old }
    {
        let mut network = LossyNetwork::begin(self.alloc, number);
        for made in 0..count {
            if !self.nodes.any_lives() {
                return Ok(());
            }
            self.lossy_round(iface, &mut network, out, book)?;
        }
        Ok(())
    }

    /// One lossy round: delivers what was held, and holds anew for the next.
    fn lossy_round<O: Sink, J: Journal>(
        &mut self,
        iface: &Interface,
        network: &mut LossyNetwork,
        out: &mut O,
        book: &mut J,
    ) -> Result<(), Stop>
        ensures plays { PlaysLossy (lossy_round (handlers_of iface.now (script_of self.old)))
            self.old network.old.words network.old.held.items
            self.new network.new.words network.new.held.items (stop_of result)
            (told (J.told book.old) (O.told out.old) (O.faults out.old))
            (told (J.told book.new) (O.told out.new) (O.faults out.new)) }
        ensures script { script_of self.new ≡ script_of self.old }
    {
        let mut given = Vec::new(self.alloc);
        self.poll_all(&mut given, out, book)?;
        self.carry_round(iface, given, network, out, book)
    }

    /// What a lossy round does with the datagrams that its polls gave: each meets its fate, and is tallied by that;
    /// what was held comes behind them; and then each handler and caller has a turn, and the clocks move where nothing
    /// came.
    pub fn carry_round<O: Sink, J: Journal>(
        &mut self,
        iface: &Interface,
        given: Vec<Datagram>,
        network: &mut LossyNetwork,
        out: &mut O,
        book: &mut J,
    ) -> Result<(), Stop>
        ensures plays { PlaysCarried
            (carries (handlers_of iface.now (script_of self.old))
            network.old.words network.old.held.items given.items)
            self.old self.new network.new.words network.new.held.items (stop_of result)
            (told (J.told book.old) (O.told out.old) (O.faults out.old))
            (told (J.told book.new) (O.told out.new) (O.faults out.new)) }
        ensures tally { OnOk result (network.new.tally
            ≡ tallied (fated network.old.words given.items) network.old.tally) }
        ensures script { script_of self.new ≡ script_of self.old }
    {
        let quiet = none_of(&given, &network.held);
        let held = replace(&mut network.held, Vec::new(self.alloc));
        self.carry_all(given, network, out, book)?;
        self.deliver_given(&held, out, book)?;
        self.turn_all(iface, out, book)?;
        self.settle(quiet, out, book)
    }

    /// Each of these datagrams meets its fate; those that are held are put behind the others.
    fn carry_all<O: Sink, J: Journal>(
        &mut self,
        given: Vec<Datagram>,
        network: &mut LossyNetwork,
        out: &mut O,
        book: &mut J,
    ) -> Result<(), Stop>
        ensures plays { Plays (each delivers (gathered comes (fated network.old.words given.items))) self.old self.new
            (stop_of result)
            (told (J.told book.old) (O.told out.old) (O.faults out.old))
            (told (J.told book.new) (O.told out.new) (O.faults out.new)) }
        ensures held { OnOk result (network.new.held.items
            ≡ network.old.held.items ++ gathered stays (fated network.old.words given.items)) }
        ensures words { OnOk result (network.new.words ≡ drawn network.old.words given.items) }
        ensures tally { OnOk result (network.new.tally
            ≡ tallied (fated network.old.words given.items) network.old.tally) }
        ensures script { script_of self.new ≡ script_of self.old }
    {
        for datagram in given {
            let fate = fate_of(network.words.next_word());
            network.tally.count(fate);
            self.carry(fate, datagram, &mut network.held, out, book)?;
        }
        Ok(())
    }

    /// A datagram meets its fate.
    fn carry<O: Sink, J: Journal>(
        &mut self,
        fate: Fate,
        datagram: Datagram,
        held: &mut Vec<Datagram>,
        out: &mut O,
        book: &mut J,
    ) -> Result<(), Stop>
        ensures plays { Plays (each delivers (comes (datagram, fate))) self.old self.new (stop_of result)
            (told (J.told book.old) (O.told out.old) (O.faults out.old))
            (told (J.told book.new) (O.told out.new) (O.faults out.new)) }
        ensures held { OnOk result (held.new.items ≡ held.old.items ++ stays (datagram, fate)) }
        ensures script { script_of self.new ≡ script_of self.old }
    {
        match fate {
            Fate::Lost => Ok(()),
            Fate::Twice => self.deliver_twice(&datagram, out, book),
            Fate::Held => {
                keep(held, datagram)?;
                Ok(())
            }
            Fate::Once => self.deliver_one(&datagram, out, book),
        }
    }

    /// A datagram is delivered twice.
    fn deliver_twice<O: Sink, J: Journal>(
        &mut self,
        datagram: &Datagram,
        out: &mut O,
        book: &mut J,
    ) -> Result<(), Stop>
        ensures plays { Plays (each delivers (datagram.now ∷ datagram.now ∷ [])) self.old self.new (stop_of result)
            (told (J.told book.old) (O.told out.old) (O.faults out.old))
            (told (J.told book.new) (O.told out.new) (O.faults out.new)) }
        ensures script { script_of self.new ≡ script_of self.old }
    {
        self.deliver_one(datagram, out, book)?;
        self.deliver_one(datagram, out, book)
    }

    /// A datagram is delivered.
    fn deliver_one<O: Sink, J: Journal>(
        &mut self,
        datagram: &Datagram,
        out: &mut O,
        book: &mut J,
    ) -> Result<(), Stop>
        ensures plays { Plays (delivers datagram.now) self.old self.new (stop_of result)
            (told (J.told book.old) (O.told out.old) (O.faults out.old))
            (told (J.told book.new) (O.told out.new) (O.faults out.new)) }
        ensures script { script_of self.new ≡ script_of self.old }
    {
        deliver(&mut self.nodes, &mut self.trace, datagram, out, book)
    }
}
