ghost use Rattle.std.specs.Prelude.{◌≡◌, ◌≤◌, take};
ghost use Rattle.rx_model.specs.declared.wire.TheConstants.{PAYLOAD_BYTES};
ghost use Rattle.rx_rules.specs.Lost.{order_by};
ghost use Rattle.rx_pool.specs.Pool.{IsSlotOf, bytes_at};
ghost use Rattle.rx_sendwin.specs.Pieces.{giving_at};

use rx_pool::{Pool, Slot};

/// When a piece was last given, in milliseconds, whether it was given before that, and which of all givings that was,
/// from 1 on.
#[derive(Clone, Copy, Debug, PartialEq, Eq)]
pub struct LastGiving {
    pub moment: u64,
    pub again: bool,
    pub order: u64,
}

/// A piece that isn't hard acknowledged: its slot, how many bytes it has there, and its last giving.
#[derive(Debug, Drop)]
pub struct HeldPiece {
    pub slot: Slot,
    pub size: u32,
    pub given: Option<LastGiving>,
}

impl HeldPiece {
    /// Which of all givings its last one was; 0 where it was never given.
    pub fn order(&self) -> u64
        ensures { result ≡ order_by (giving_at self.now) }
    {
        match self.given {
            Some(giving) => giving.order,
            None => 0,
        }
    }

    /// The piece's bytes.
    pub fn payload<'a>(&self, pool: &'a Pool) -> &'a [u8]
        requires of { IsSlotOf pool.now self.now.slot }
        requires size { self.now.size ≤ PAYLOAD_BYTES }
        ensures { result.now ≡ take self.now.size (bytes_at pool.now self.now.slot) }
    {
        let (payload, _room) = pool.bytes(&self.slot).split_at(self.size as usize);
        payload
    }
}
