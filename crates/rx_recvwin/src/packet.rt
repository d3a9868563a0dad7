ghost use Rattle.std.specs.Prelude.{◌≡◌, ◌≤◌, drop, take};
ghost use Rattle.rx_model.specs.declared.wire.TheConstants.{PAYLOAD_BYTES};
ghost use Rattle.rx_pool.specs.Pool.{IsSlotOf, bytes_at};
ghost use Rattle.rx_recvwin.specs.Places.{is_packet_done};

use rx_pool::{Pool, Slot};

/// A packet that is kept: its slot, how many bytes it has there, and its last mark.
#[derive(Debug, Drop)]
pub struct KeptPacket {
    pub slot: Slot,
    pub size: u32,
    pub last: bool,
}

impl KeptPacket {
    /// Whether the packet is done with, where so many of its bytes were read.
    pub fn is_done(&self, offset: u32, ended: bool) -> bool
        ensures { result ≡ is_packet_done self.now offset ended }
    {
        if self.last {
            return ended;
        }
        self.size <= offset
    }

    /// The packet's bytes behind the first `offset`.
    pub fn unread<'a>(&self, pool: &'a Pool, offset: u32) -> &'a [u8]
        requires of { IsSlotOf pool.now self.now.slot }
        requires size { self.now.size ≤ PAYLOAD_BYTES }
        ensures { result.now ≡ drop offset (take self.now.size (bytes_at pool.now self.now.slot)) }
    {
        let (payload, _room) = pool.bytes(&self.slot).split_at(self.size as usize);
        let (_read, unread) = payload.split_at((offset as usize).min(payload.len()));
        unread
    }
}
