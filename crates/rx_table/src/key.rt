ghost use Rattle.std.specs.Prelude.{◌≡◌};
ghost use Rattle.rx_table.specs.Names.{key_of};

use rx_model::Host;

/// A connection's name, as the index looks it up.
#[derive(Clone, Copy, Debug, PartialEq, Eq, Hash)]
pub struct Key {
    addr: u32,
    port: u16,
    epoch: u32,
    cid: u32,
}

impl Key {
    /// The key of a connection.
    pub fn of(host: Host, epoch: u32, cid: u32) -> Key
        ensures { result ≡ key_of (record { host = host; epoch = epoch; cid = cid }) }
    {
        Key {
            addr: host.addr,
            port: host.port,
            epoch,
            cid,
        }
    }
}
