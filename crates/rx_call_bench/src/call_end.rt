ghost use Rattle.std.specs.Prelude.{◌≤◌, ◌<◌, ◌^◌, length, IfOk, IfSome};
ghost use Rattle.rx_packet.specs.Seen.{body_of};
ghost use Rattle.rx_call.specs.Standing.{HasSpare, HoldsPiece, FitsSlot};
ghost use Rattle.rx_call_bench.specs.Standing.{Stands};

use rx_call::{Call, Giving, Side};
use rx_model::wire::{LAST_PACKET, PAYLOAD_BYTES, REQUEST_ACK};
use rx_model::{CallRead, Pace};
use rx_packet::{AckBody, Body, Head};
use rx_pool::Pool;
use std::alloc::{AllocError, Global};

/// One end of the call, with the packet slots of its node.
#[derive(Debug, Drop)]
pub struct CallEnd {
    pub call: Call,
    pub slots: Pool,
    /// The window of its node, in packets.
    pub window: u32,
    /// The serial of the latest message that it gave.
    pub serial: u32,
}

impl CallEnd {
    ghost use Rattle.rx_model.specs.declared.wire.TheConstants.{MIN_WINDOW, MAX_WINDOW};

    /// A call that starts at moment 0, with one slot more than its window is wide.
    pub fn make(alloc: Global, side: Side, window: u32) -> Result<CallEnd, AllocError>
        requires least { MIN_WINDOW ≤ window }
        requires most { window ≤ MAX_WINDOW }
        ensures { IfOk result Stands }
    {
        let slots = Pool::make(alloc, window + 1)?;
        let pace = Pace {
            window,
            prompt: false,
        };
        let mut call = Call::make(alloc, pace)?;
        call.start(side, 0);
        Ok(CallEnd {
            call,
            slots,
            window,
            serial: 0,
        })
    }

    /// How many free slots there are beside one for the lead; none where not even that one is free.
    fn left(&self) -> Option<u32>
        ensures { IfSome result (λ left. HasSpare self.now.slots self.now.call left) }
    {
        self.slots.free().checked_sub(1)
    }

    /// Says what fits of these bytes, and answers how many.
    pub fn say(&mut self, bytes: &[u8]) -> usize
        requires { Stands self.old }
        ensures stands { Stands self.new }
        ensures within { result ≤ length bytes.now }
    {
        if self.call.is_shut() {
            return 0;
        }
        match self.left() {
            Some(left) => self.call.write(&mut self.slots, left, bytes),
            None => 0,
        }
    }

    /// Says no more.
    pub fn shut(&mut self)
        requires { Stands self.old }
        ensures { Stands self.new }
    {
        if !self.call.is_shut() && self.slots.free() > 0 {
            self.call.shut(&mut self.slots);
        }
    }

    /// Reads what fits.
    pub fn read(&mut self, now: u64, to: &mut [u8]) -> CallRead
        requires stands { Stands self.old }
        requires now { now < 2 ^ 62 }
        requires some { 0 < length to.old }
        ensures { Stands self.new }
    {
        self.call.read(&mut self.slots, now, to)
    }

    /// Takes a message in.
    fn hear(&mut self, now: u64, head: &Head, body: &Body<'_>)
        requires stands { Stands self.old }
        requires now { now < 2 ^ 62 }
        requires size { FitsSlot (body_of body.now) }
        ensures { Stands self.new }
    {
        if let Some(left) = self.left() {
            let _took = self.call.take(&mut self.slots, left, now, head, body);
        }
    }

    /// Gives what is due to the other end; whether anything was.
    pub fn give(&mut self, now: u64, other: &mut CallEnd) -> bool
        requires stands { Stands self.old }
        requires other { Stands other.old }
        requires now { now < 2 ^ 62 }
        ensures stands { Stands self.new }
        ensures other { Stands other.new }
    {
        match self.call.poll(now) {
            Some(Giving::Piece { seq, asks, last }) => {
                self.serial = self.serial.wrapping_add(1);
                let head = head(self.serial, seq, flags(asks, last));
                let (payload, _last) = self.call.piece(&self.slots, seq);
                let (chunk, _more) = payload.split_at(payload.len().min(PAYLOAD_BYTES));
                other.hear(now, &head, &Body::Chunk(chunk));
                true
            }
            Some(Giving::Ack { reason, serial }) => {
                self.serial = self.serial.wrapping_add(1);
                let head = head(self.serial, 0, 0);
                let view = self.call.ack_view();
                let body = Body::Ack(AckBody {
                    first: view.first,
                    previous: view.previous,
                    serial,
                    reason,
                    marks: view.marks,
                    window: Some(self.window),
                });
                other.hear(now, &head, &body);
                true
            }
            None => false,
        }
    }
}

/// The header of a message of the call.
fn head(serial: u32, seq: u32, flags: u8) -> Head {
    Head {
        epoch: 1,
        cid: 4,
        number: 1,
        seq,
        serial,
        flags,
        status: 0,
        index: 0,
        spare: 0,
        service: 1,
    }
}

/// The flags of a piece.
fn flags(asks: bool, last: bool) -> u8 {
    let asked = if asks { REQUEST_ACK } else { 0 };
    let ends = if last { LAST_PACKET } else { 0 };
    asked | ends
}
