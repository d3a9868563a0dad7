ghost use Rattle.std.specs.Prelude.{◌≡◌};
ghost use Rattle.rx_table.specs.Records.{fresh_seat};

use arrayvec::ArrayVec;
use rx_model::End;
use rx_model::wire::SECURITY_BYTES;

/// Channels of a connection (`rx.h`, `RX_MAXCALLS`).
pub const CHANNELS: u32 = 4;

/// What is kept of a channel. Its key is `4 * place + channel`, by the place of its connection.
#[derive(Debug, Drop, PartialEq, Eq)]
pub struct Seat {
    /// The number of the latest call, 0 where there was none.
    pub number: u32,
    /// The key of that call, while it lives.
    pub live: Option<usize>,
    /// How that call ended.
    pub end: Option<End>,
    /// The code of the ABORT that is owed.
    pub owed_abort: Option<i32>,
    /// The call number of the BUSY that is owed.
    pub owed_busy: Option<u32>,
    pub owed_ackall: bool,
    pub owed_challenge: bool,
    /// The bytes of the RESPONSE that is owed.
    pub owed_response: Option<ArrayVec<u8, SECURITY_BYTES>>,
}

impl Seat {
    /// The seat of a channel whose latest call has this number, and that owes nothing.
    pub fn fresh(number: u32) -> Seat
        ensures { result ≡ fresh_seat number }
    {
        Seat {
            number,
            live: None,
            end: None,
            owed_abort: None,
            owed_busy: None,
            owed_ackall: false,
            owed_challenge: false,
            owed_response: None,
        }
    }
}
