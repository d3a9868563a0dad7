//! A load at work: its connections, and its rounds.
ghost use Rattle.std.specs.Prelude.{◌≡◌, ◌≤◌, ◌<◌, ◌+◌, ◌∷◌, [], IfOk, None, OnOk};
ghost use Rattle.rx_jobs.specs.Handlers.{handlers_of};
ghost use Rattle.rx_load.specs.Loads.{all_ended, connects_all, has_ended, load_handlers, load_round, load_rounds};
ghost use Rattle.rx_load.specs.Loads.{lossy_with};
ghost use Rattle.rx_load.specs.Summing.{summary_of};
ghost use Rattle.rx_loader.specs.Showing.{IsAtStart, Loads, PlaysLoad};
ghost use Rattle.rx_stage.specs.Ran.{stop_of};
ghost use Rattle.rx_stage.specs.Shown.{script_of};
ghost use Rattle.rx_stage.specs.Tells.{told};

use crate::handlers::script;
use crate::nodes::nodes;
use crate::summary::sum_up;
use rx_base::{Discarding, Sink};
use rx_load::{CLIENTS, MAX_CALLS, MAX_ROUNDS, SERVICE, Summary};
use rx_stage::{LossyNetwork, Stop, World, at_start};
use rx_wire::Journal;
use std::alloc::{AllocError, Global};
use xdr_value::Interface;

/// A load at work.
#[derive(Debug, Drop)]
pub struct Loading {
    pub world: World,
    /// What carries the datagrams; how long a Body is, is drawn from its words too.
    pub network: LossyNetwork,
    /// The number of each client's next call.
    pub next: Vec<u32>,
    /// How long the Body of each call is, by its number; 0 of those that aren't open yet.
    pub bodies: Vec<u32>,
    pub rounds: u32,
}

impl Loading {
    /// A load before its first event.
    pub fn begin(alloc: Global, number: u64, calls: u32) -> Result<Loading, AllocError>
        ensures shows { IfOk result (IsAtStart number calls) }
        ensures script { IfOk result (λ loading. script_of loading.world ≡ load_handlers.script) }
        ensures first { IfOk result (λ loading. loading.rounds ≡ 0) }
    {
        let world = at_start(alloc, nodes(alloc)?, SERVICE, script(alloc)?);
        Ok(Loading {
            world,
            network: LossyNetwork::begin(alloc, number),
            next: first_numbers(alloc)?,
            bodies: vec![in alloc; 0u32; calls as usize]?,
            rounds: 0,
        })
    }

    /// Each client connects to the server.
    pub fn connect_all<J: Journal>(&mut self, book: &mut J) -> Result<(), Stop>
        ensures plays { PlaysLoad connects_all self.old self.new (stop_of result)
            (told (J.told book.old) None 0) (told (J.told book.new) None 0) }
        ensures script { script_of self.new.world ≡ script_of self.old.world }
        ensures rounds { self.new.rounds ≡ self.old.rounds }
    {
        for client in 1..CLIENTS + 1 {
            self.world.connect_line(client, 1, &mut Discarding, book)?;
        }
        Ok(())
    }

    /// Rounds until every one of so many calls ended, or as many as there may be.
    pub fn make_rounds<E: Sink, J: Journal>(
        &mut self,
        iface: &Interface,
        calls: u32,
        err: &mut E,
        book: &mut J,
    ) -> Result<(), Stop>
        requires few { calls ≤ MAX_CALLS }
        requires first { self.old.rounds ≡ 0 }
        requires iface { handlers_of iface.now load_handlers.script ≡ load_handlers }
        requires script { script_of self.old.world ≡ load_handlers.script }
        ensures plays { PlaysLoad (load_rounds calls MAX_ROUNDS) self.old self.new (stop_of result)
            (told (J.told book.old) None 0) (told (J.told book.new) None 0) }
        ensures err_told { E.told err.new ≡ E.told err.old }
        ensures err_faults { E.faults err.new ≡ E.faults err.old }
    {
        for made in 0..MAX_ROUNDS {
            if self.all_ended(calls) {
                return Ok(());
            }
            self.round(iface, calls, book)?;
            self.show(calls, err);
        }
        Ok(())
    }

    /// Shows how far so many calls are, where that is shown.
    fn show<E: Sink>(&self, calls: u32, err: &mut E)
        ensures told { E.told err.new ≡ E.told err.old }
        ensures faults { E.faults err.new ≡ E.faults err.old }
    {
        let Some(elapsed) = err.shows() else {
            return;
        };
        let ended = self.ended();
        let rounds = self.rounds;
        let rate = self.network.tally.given.saturating_mul(1000) / elapsed.max(1);
        if let Ok(line) = format!(in self.world.alloc;
            "{ended} of {calls} calls ended, {rounds} rounds, {rate} datagrams a second"
        ) {
            err.show(line.as_str());
        }
    }

    /// How many of the calls that were opened ended at their client.
    fn ended(&self) -> u32 {
        let mut ended: u32 = 0;
        for client in 1..CLIENTS + 1 {
            let opened = self.next_call(client).saturating_sub(client - 1) / CLIENTS;
            ended = ended.saturating_add(opened.saturating_sub(self.live(client)));
        }
        ended
    }

    /// One round: calls are opened, and then the network has a lossy round.
    fn round<J: Journal>(&mut self, iface: &Interface, calls: u32, book: &mut J) -> Result<(), Stop>
        requires few { calls ≤ MAX_CALLS }
        requires low { self.old.rounds < MAX_ROUNDS }
        requires iface { handlers_of iface.now load_handlers.script ≡ load_handlers }
        requires script { script_of self.old.world ≡ load_handlers.script }
        ensures plays { PlaysLoad (load_round calls) self.old self.new (stop_of result)
            (told (J.told book.old) None 0) (told (J.told book.new) None 0) }
        ensures script { script_of self.new.world ≡ script_of self.old.world }
        ensures rounds { OnOk result (self.new.rounds ≡ self.old.rounds + 1) }
    {
        self.open_all(iface, calls, book)?;
        self.lossy_round(iface, book)
    }

    /// A lossy round of the network.
    fn lossy_round<J: Journal>(&mut self, iface: &Interface, book: &mut J) -> Result<(), Stop>
        requires low { self.old.rounds < MAX_ROUNDS }
        requires iface { handlers_of iface.now load_handlers.script ≡ load_handlers }
        requires script { script_of self.old.world ≡ load_handlers.script }
        ensures plays { PlaysLoad lossy_with self.old self.new (stop_of result)
            (told (J.told book.old) None 0) (told (J.told book.new) None 0) }
        ensures script { script_of self.new.world ≡ script_of self.old.world }
        ensures rounds { OnOk result (self.new.rounds ≡ self.old.rounds + 1) }
    {
        let mut given = Vec::new(self.world.alloc);
        self.world.poll_all(&mut given, &mut Discarding, book)?;
        self.world
            .carry_round(iface, given, &mut self.network, &mut Discarding, book)?;
        self.rounds += 1;
        Ok(())
    }

    /// Whether every one of so many calls ended at its client.
    fn all_ended(&self, calls: u32) -> bool
        ensures { Loads self.now (λ l. result ≡ all_ended calls l) }
    {
        for client in 1..CLIENTS + 1 {
            if !self.has_ended(client, calls) {
                return false;
            }
        }
        true
    }

    /// Whether every call of a client did.
    fn has_ended(&self, client: u32, calls: u32) -> bool
        requires { 1 ≤ client }
        ensures { Loads self.now (λ l. result ≡ has_ended calls l client) }
    {
        self.next_call(client) >= calls && self.live(client) == 0
    }

    /// What became of so many calls.
    pub fn summary(&self, calls: u32) -> Summary
        ensures { Loads self.now (λ l. result ≡ summary_of calls l) }
    {
        sum_up(
            calls,
            self.world.callers.as_slice(),
            self.bodies.as_slice(),
            self.rounds,
            self.network.tally,
        )
    }
}

/// The number of each client's first call.
fn first_numbers(alloc: Global) -> Result<Vec<u32>, AllocError>
    ensures { IfOk result (λ numbers. numbers.items ≡ 0 ∷ 1 ∷ 2 ∷ 3 ∷ []) }
{
    let mut numbers = Vec::new(alloc);
    for client in 0..CLIENTS {
        numbers.push(client)?;
    }
    Ok(numbers)
}
