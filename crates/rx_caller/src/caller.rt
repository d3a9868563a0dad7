ghost use Rattle.std.specs.Prelude.{◌≡◌, ◌<◌, ◌^◌, IfOk, OnErr, length};
ghost use Rattle.rx_node.specs.Node.{setup_of};
ghost use Rattle.rx_asks.specs.declared.ask.Ask.TheVariants as asks;
ghost use Rattle.rx_asks.specs.Asks.{asking, begun, calling, is_done, next_ask, next_offering};
ghost use Rattle.rx_caller.specs.Turn.{CallerWants, Does, MakesNext, Stays};
ghost use Rattle.rx_asks.specs.View.{caller_for};

use crate::calls::{end_after, next_block, phase_after, phase_offered, read, write};
use rx_asks::{Ask, BLOCK_BYTES, CC_UNMARSHAL, Phase, REPLY_BYTES};
use rx_class::Class;
use rx_client::Client;
use rx_model::{Bytes, CallName, End, Event, ReadGot, WroteGot};
use rx_room::Room;
use std::alloc::{AllocError, Global};
use std::marker::Model;

/// What says the request of one call of a client and reads its reply.
#[derive(Debug, Drop)]
pub struct Caller {
    alloc: Global,
    call: CallName,
    request: Vec<u8>,
    accepted: usize,
    shut: bool,
    reply: Vec<u8>,
    end: Option<End>,
    phase: Phase,
}

impl Model for Caller {
    ghost use Rattle.std.specs.Prelude.{◌≤◌, drop, vec_len};
    ghost use Rattle.rx_asks.specs.View.{CallerState};

    ghost Value = { CallerState };

    ghost view = { λ s. record {
      call = s.call;
      offering = drop s.accepted s.request.items;
      shut = s.shut;
      reply = s.reply.items;
      end = s.end;
      phase = s.phase;
    } };

    ghost invariant = { λ s. s.accepted ≤ vec_len s.request };
}

impl Caller {
    /// A caller for a call of a client, which has said and read nothing.
    pub fn make(alloc: Global, call: CallName, request: Vec<u8>) -> Caller
        ensures { result ≡ caller_for call request.items }
    {
        Caller {
            alloc,
            call,
            request,
            accepted: 0,
            shut: false,
            reply: Vec::new(alloc),
            end: None,
            phase: Phase::Resting,
        }
    }

    /// The bytes read so far.
    pub fn reply(&self) -> &[u8]
        ensures { result.now ≡ self.now.reply }
    {
        self.reply.as_slice()
    }

    /// The end of its call, once it is finished.
    pub fn ended(&self) -> Option<End>
        ensures { result ≡ self.now.end }
    {
        self.end
    }

    /// Whether it is finished and a turn began since: one more would make no call and change nothing.
    pub fn is_done(&self) -> bool
        ensures { result ≡ is_done self.now }
    {
        match self.phase {
            Phase::Offering => self.end.is_some(),
            Phase::Reading | Phase::Resting => false,
        }
    }

    /// The bytes that are still to be offered are fewer than 2^63. Nothing here does anything as it runs.
    pub fn offers_few(&self)
        ensures { length self.now.offering < 2 ^ 63 }
    {
        let _count = self.request.len();
    }

    /// A turn begins. One that is finished gives back what it doesn't need any more.
    pub fn begin(&mut self)
        ensures { self.new ≡ begun self.old }
    {
        self.phase = Phase::Offering;
        if self.end.is_some() {
            self.let_go();
        }
    }

    /// Gives back the memory that its reply doesn't fill, and its request where all of it was accepted.
    fn let_go(&mut self)
        ensures { self.new ≡ self.old }
    {
        self.reply.shrink_to_fit();
        if self.accepted == self.request.len() {
            self.accepted = 0;
            self.request = Vec::new(self.alloc);
        }
    }

    /// Makes the next call of its turn, and answers the event; none where the turn is over. What it reads goes through
    /// this room. Where memory is wanted, it made no call.
    pub fn step<C: Class>(
        &mut self,
        room: &mut Room,
        client: &mut Client<C>,
    ) -> Result<Option<Event>, AllocError>
        ensures made { IfOk result (MakesNext C.class_of REPLY_BYTES
            (record { old = self.old; new = self.new; client_old = client.old; client_new = client.new })) }
        ensures wanting { OnErr result (Stays
            (record { old = self.old; new = self.new; client_old = client.old; client_new = client.new })) }
        ensures wants { OnErr result (CallerWants REPLY_BYTES self.old) }
        ensures setup { setup_of C.class_of client.new ≡ setup_of C.class_of client.old }
    {
        match self.next() {
            Some(Ask::Offer) => Ok(Some(self.offer(client)?)),
            Some(Ask::Shut) => Ok(Some(self.shut(client))),
            Some(Ask::Read) => Ok(Some(self.read(room, client)?)),
            Some(Ask::Cancel) => Ok(Some(self.cancel(client))),
            None => Ok(None),
        }
    }

    /// Its next call, where its turn isn't over.
    fn next(&self) -> Option<Ask>
        ensures { result ≡ next_ask REPLY_BYTES self.now }
    {
        if self.end.is_some() {
            return None;
        }
        if self.reply.len() > REPLY_BYTES {
            return Some(Ask::Cancel);
        }
        match self.phase {
            Phase::Offering => Some(self.next_offering()),
            Phase::Reading => Some(Ask::Read),
            Phase::Resting => None,
        }
    }

    /// The same while all was accepted.
    fn next_offering(&self) -> Ask
        ensures { result ≡ next_offering self.now.shut self.now.offering }
    {
        if self.shut {
            return Ask::Read;
        }
        if self.accepted == self.request.len() {
            return Ask::Shut;
        }
        Ask::Offer
    }

    /// Offers the next bytes of its request.
    fn offer<C: Class>(&mut self, client: &mut Client<C>) -> Result<Event, AllocError>
        ensures done { IfOk result (Does C.class_of (asking self.old asks.Offer)
            (record { old = self.old; new = self.new; client_old = client.old; client_new = client.new })) }
        ensures wanting { OnErr result (Stays
            (record { old = self.old; new = self.new; client_old = client.old; client_new = client.new })) }
        ensures setup { setup_of C.class_of client.new ≡ setup_of C.class_of client.old }
    {
        let block = next_block(self.request.as_slice(), self.accepted);
        let offered = block.len();
        let (got, bytes) = write(self.alloc, client, &self.call, block)?;
        self.accepted += bytes.len();
        self.phase = phase_offered(bytes.len(), offered, self.phase);
        Ok(Event::Wrote {
            call: self.call,
            offered,
            got: WroteGot::Client(got),
            bytes: Bytes::of(bytes),
        })
    }

    /// Ends its request.
    fn shut<C: Class>(&mut self, client: &mut Client<C>) -> Event
        ensures done { Does C.class_of (asking self.old asks.Shut)
            (record { old = self.old; new = self.new; client_old = client.old; client_new = client.new }) result }
        ensures setup { setup_of C.class_of client.new ≡ setup_of C.class_of client.old }
    {
        let got = client.shut(&self.call);
        self.shut = true;
        Event::Shut {
            call: self.call,
            got,
        }
    }

    /// Reads the next bytes of its reply.
    fn read<C: Class>(
        &mut self,
        room: &mut Room,
        client: &mut Client<C>,
    ) -> Result<Event, AllocError>
        ensures done { IfOk result (Does C.class_of (asking self.old asks.Read)
            (record { old = self.old; new = self.new; client_old = client.old; client_new = client.new })) }
        ensures wanting { OnErr result (Stays
            (record { old = self.old; new = self.new; client_old = client.old; client_new = client.new })) }
        ensures setup { setup_of C.class_of client.new ≡ setup_of C.class_of client.old }
    {
        room.ready(&mut self.reply, BLOCK_BYTES)?;
        let (got, bytes) = read(room, client, &self.call)?;
        room.put(&mut self.reply, bytes.as_slice());
        self.end = end_after(got, self.end);
        self.phase = phase_after(got, bytes.as_slice());
        Ok(Event::HasRead {
            call: self.call,
            max: BLOCK_BYTES,
            got: ReadGot::Client(got),
            bytes: Bytes::of(bytes),
        })
    }

    /// Gives its call up.
    fn cancel<C: Class>(&mut self, client: &mut Client<C>) -> Event
        ensures done { Does C.class_of (asking self.old asks.Cancel)
            (record { old = self.old; new = self.new; client_old = client.old; client_new = client.new }) result }
        ensures setup { setup_of C.class_of client.new ≡ setup_of C.class_of client.old }
    {
        let got = client.cancel(&self.call, CC_UNMARSHAL);
        self.end = Some(End::Cancelled(CC_UNMARSHAL));
        Event::Cancelled {
            call: self.call,
            code: CC_UNMARSHAL,
            got,
        }
    }
}
