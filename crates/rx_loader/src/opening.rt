//! Calls that are opened.
ghost use Rattle.std.specs.Prelude.{◌≡◌, ◌≤◌, ◌<◌, ◌+◌, None, set, true};
ghost use Rattle.rx_jobs.specs.Handlers.{handlers_of};
ghost use Rattle.rx_load.specs.Loads.{live_at, load_handlers, may_open, next_call, opens, opens_all, opens_free};
ghost use Rattle.rx_loader.specs.Showing.{Loads, PlaysLoad};
ghost use Rattle.rx_stage.specs.Ran.{stop_of};
ghost use Rattle.rx_stage.specs.Shown.{script_of};
ghost use Rattle.rx_stage.specs.Tells.{told};

use crate::handlers::request;
use crate::loading::Loading;
use rand_core::utils::NextWord;
use rx_base::Discarding;
use rx_load::{BODY_BYTES, CID, CLIENTS, MAX_CALLS};
use rx_stage::{Invoke, Stop};
use rx_table::CHANNELS;
use rx_wire::Journal;
use xdr_value::Interface;

impl Loading {
    /// Each client, in order, opens its next calls while its connection has a free channel.
    pub fn open_all<J: Journal>(
        &mut self,
        iface: &Interface,
        calls: u32,
        book: &mut J,
    ) -> Result<(), Stop>
        requires few { calls ≤ MAX_CALLS }
        requires iface { handlers_of iface.now load_handlers.script ≡ load_handlers }
        ensures plays { PlaysLoad (opens_all calls) self.old self.new (stop_of result)
            (told (J.told book.old) None 0) (told (J.told book.new) None 0) }
        ensures script { script_of self.new.world ≡ script_of self.old.world }
        ensures rounds { self.new.rounds ≡ self.old.rounds }
    {
        for client in 1..CLIENTS + 1 {
            self.open_free(iface, client, calls, book)?;
        }
        Ok(())
    }

    /// A client opens its next calls while its connection has a free channel.
    fn open_free<J: Journal>(
        &mut self,
        iface: &Interface,
        client: u32,
        calls: u32,
        book: &mut J,
    ) -> Result<(), Stop>
        requires some { 1 ≤ client }
        requires few { calls ≤ MAX_CALLS }
        requires iface { handlers_of iface.now load_handlers.script ≡ load_handlers }
        ensures plays { PlaysLoad (opens_free calls CHANNELS client) self.old self.new (stop_of result)
            (told (J.told book.old) None 0) (told (J.told book.new) None 0) }
        ensures script { script_of self.new.world ≡ script_of self.old.world }
        ensures rounds { self.new.rounds ≡ self.old.rounds }
    {
        for made in 0..CHANNELS {
            if !self.may_open(client, calls) {
                return Ok(());
            }
            self.open(iface, client, book)?;
        }
        Ok(())
    }

    /// Whether a client has a next call, and its connection a free channel for it.
    fn may_open(&self, client: u32, calls: u32) -> bool
        requires { 1 ≤ client }
        ensures exact { Loads self.now (λ l. result ≡ may_open calls client l) }
        ensures few { result ≡ true → next_call self.now.next.items client < calls }
    {
        self.next_call(client) < calls && self.live(client) < CHANNELS
    }

    /// A client opens its next call: a word is drawn for it, which says how long its Body is.
    fn open<J: Journal>(&mut self, iface: &Interface, client: u32, book: &mut J) -> Result<(), Stop>
        requires some { 1 ≤ client }
        requires few { next_call self.old.next.items client < MAX_CALLS }
        requires iface { handlers_of iface.now load_handlers.script ≡ load_handlers }
        ensures plays { PlaysLoad (opens client) self.old self.new (stop_of result)
            (told (J.told book.old) None 0) (told (J.told book.new) None 0) }
        ensures script { script_of self.new.world ≡ script_of self.old.world }
        ensures rounds { self.new.rounds ≡ self.old.rounds }
    {
        let number = self.next_call(client);
        let length = self.network.words.next_word() % (BODY_BYTES + 1);
        let bytes = request(self.world.alloc, iface, number, length)?;
        let invoke = Invoke {
            client,
            cid: CID,
            line: number as usize,
            bytes,
        };
        self.world.invoke_line(invoke, &mut Discarding, book)?;
        put_at(&mut self.bodies, number as usize, length);
        put_at(&mut self.next, client as usize - 1, number + CLIENTS);
        Ok(())
    }

    /// The number of a client's next call.
    pub fn next_call(&self, client: u32) -> u32
        requires { 1 ≤ client }
        ensures { result ≡ next_call self.now.next.items client }
    {
        match self.next.get(client as usize - 1) {
            Some(number) => *number,
            None => 0,
        }
    }

    /// How many calls of a client live.
    pub fn live(&self, client: u32) -> u32
        requires { 1 ≤ client }
        ensures { Loads self.now (λ l. result ≡ live_at client l.net.stage) }
    {
        if client as usize > self.world.nodes.clients() {
            return 0;
        }
        self.world.nodes.live(client)
    }
}

/// Puts a number at a place of a list, where it has that place.
fn put_at(list: &mut Vec<u32>, place: usize, number: u32)
    ensures { list.new.items ≡ set list.old.items place number }
{
    if let Some(at) = list.get_mut(place) {
        *at = number;
    }
}
