ghost use Rattle.std.specs.Prelude.{◌≡◌, Some, true, option_map, position, slice_get};
ghost use Rattle.rx_model.specs.Names.{same_connection};
ghost use Rattle.rx_table.specs.Layout.{name_in, record_of};
ghost use Rattle.rx_table.specs.Names.{key_of};
ghost use Rattle.rx_table.specs.Records.{fresh_record, fresh_seats};

use crate::key::Key;
use rx_model::Host;

/// A connection without its seats.
#[derive(Clone, Copy, Debug, PartialEq, Eq)]
pub struct Conn {
    pub host: Host,
    pub epoch: u32,
    pub cid: u32,
    pub nonce: u64,
    /// The serial of the latest datagram that was given on it, 0 before the first.
    pub serial: u32,
    /// In milliseconds.
    pub last_use: u64,
    pub proved: bool,
}

impl Conn {
    /// A connection that is entered now.
    pub fn fresh(host: Host, epoch: u32, cid: u32, nonce: u64, now: u64) -> Conn
        ensures { record_of result fresh_seats
            ≡ fresh_record (record { host = host; epoch = epoch; cid = cid }) nonce now }
    {
        Conn {
            host,
            epoch,
            cid,
            nonce,
            serial: 0,
            last_use: now,
            proved: false,
        }
    }

    /// Its key.
    pub fn key(&self) -> Key
        ensures { result ≡ key_of (name_in self.now) }
    {
        Key::of(self.host, self.epoch, self.cid)
    }

    /// Whether it has this name.
    pub fn is(&self, host: Host, epoch: u32, cid: u32) -> bool
        ensures { result
            ≡ same_connection (name_in self.now) (record { host = host; epoch = epoch; cid = cid }) }
    {
        self.host == host && (self.epoch == epoch && self.cid == cid)
    }
}

/// The place of a connection in a list.
pub fn place_among(conns: &[Conn], host: Host, epoch: u32, cid: u32) -> Option<usize>
    ensures { result ≡ position (λ c. same_connection (name_in c)
        (record { host = host; epoch = epoch; cid = cid })) conns.now }
{
    conns.iter().position(|conn| conn.is(host, epoch, cid))
}

/// Whether a connection stands at a place in a list.
pub fn stands_at(conns: &[Conn], place: u32, host: Host, epoch: u32, cid: u32) -> bool
    ensures { result ≡ true → option_map name_in (slice_get conns.now place)
        ≡ Some (record { host = host; epoch = epoch; cid = cid }) }
{
    match conns.get(place as usize) {
        Some(conn) => conn.is(host, epoch, cid),
        None => false,
    }
}
