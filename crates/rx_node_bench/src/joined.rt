ghost use Rattle.std.specs.Prelude.{◌≤◌, ◌<◌, length};

use rx_class::Null;
use rx_client::Client;
use rx_due::Steps;
use rx_model::wire::{DATAGRAM_BYTES, DEFAULT_CALLS, DEFAULT_SLOTS, DEFAULT_WINDOW};
use rx_model::{CallName, Host, Limits, ReadAns, ServeRead};
use rx_server::Server;
use std::alloc::{AllocError, Global};
use std::sync::ledger::Ledger;

/// The host of the server.
const SERVER: Host = Host {
    addr: 0x0a00_0001,
    port: 7000,
};

/// The host of the client.
const CLIENT: Host = Host {
    addr: 0x0a00_0002,
    port: 7001,
};

/// The service of the server.
const SERVICE: u16 = 1;

/// The most idle connections.
pub const MAX_IDLE: u32 = 60_000;

/// The most connections on which a call lives beside those that are made.
pub const MAX_LIVE: u32 = 4000;

/// The most datagrams that a node gives at a time.
const MOST_GIVEN: u32 = 4096;

/// The end of moments.
const END: u64 = 1 << 62;

/// A client and a server that are joined in memory. What is measured says nothing of what they answer, so their
/// contracts end here.
#[derive(Drop)]
pub struct Joined {
    client: Client<Null>,
    server: Server<Null>,
    /// The datagram that is on its way.
    room: [u8; DATAGRAM_BYTES],
    /// How many datagrams were given and taken.
    pub datagrams: u64,
}

impl Joined {
    /// Nodes with room for so many idle connections, as many on which a call lives, and one more.
    pub fn make(alloc: Global, idle: u32, live: u32) -> Result<Joined, AllocError>
        requires idle { idle ≤ 60000 }
        requires live { live ≤ 4000 }
    {
        let limits = Limits {
            conns: idle + live + 1,
            calls: DEFAULT_CALLS + live,
            slots: DEFAULT_SLOTS + live,
            window: DEFAULT_WINDOW,
        };
        Ok(Joined {
            client: Client::make(alloc, &limits, CLIENT, 1, Null)?,
            server: Server::make(alloc, &limits, SERVICE, Null, 0)?,
            room: [0; DATAGRAM_BYTES],
            datagrams: 0,
        })
    }

    /// The client opens a connection to the server.
    pub fn connect(&mut self) -> Option<u32> {
        self.client.connect(SERVER, SERVICE, 1).ok()
    }

    /// The client starts a call on a connection.
    pub fn call(&mut self, cid: u32) -> Option<CallName> {
        self.client.call(cid).ok()
    }

    /// The client writes bytes of a request. Answers how many were accepted.
    pub fn write_request(&mut self, c: &CallName, bytes: &[u8]) -> usize {
        self.client.write(c, bytes).unwrap_or(0)
    }

    /// The client shuts a request.
    pub fn shut(&mut self, c: &CallName) {
        let _shut = self.client.shut(c);
    }

    /// A handler takes the next call.
    pub fn accept(&mut self) -> Option<CallName> {
        self.server.accept()
    }

    /// A handler reads of a request.
    pub fn read_request(&mut self, c: &CallName, to: &mut [u8]) -> ServeRead
        requires { 0 < length to.old }
    {
        self.server.read(c, to)
    }

    /// A handler writes bytes of a reply. Answers how many were accepted.
    pub fn write_reply(&mut self, c: &CallName, bytes: &[u8]) -> usize {
        self.server.write(c, bytes).unwrap_or(0)
    }

    /// A handler finishes a call.
    pub fn finish(&mut self, c: &CallName) {
        let _finished = self.server.finish(c, 0);
    }

    /// The client reads of a reply.
    pub fn read_reply(&mut self, c: &CallName, to: &mut [u8]) -> ReadAns
        requires { 0 < length to.old }
    {
        self.client.read(c, to)
    }

    /// Both moments move on by so many milliseconds.
    pub fn wait(&mut self, time: u64) {
        let now = self.client.moment().saturating_add(time);
        if now >= END {
            return;
        }
        if self.client.moment() <= now {
            self.client.clock(now);
        }
        if self.server.moment() <= now {
            self.server.clock(now);
        }
    }

    /// The client gives all that is due, and the server takes it.
    pub fn client_gives<L: Ledger>(&mut self, steps: &mut Steps<L>) {
        for _ in 0..MOST_GIVEN {
            let Some((_to, count)) = self.client.poll(&mut self.room, steps) else {
                return;
            };
            let (datagram, _rest) = self.room.split_at(count.min(DATAGRAM_BYTES));
            let _took = self.server.take(CLIENT, datagram);
            self.datagrams = self.datagrams.wrapping_add(1);
        }
    }

    /// The server gives all that is due, and the client takes it.
    pub fn server_gives<L: Ledger>(&mut self, steps: &mut Steps<L>) {
        for _ in 0..MOST_GIVEN {
            let Some((_to, count)) = self.server.poll(&mut self.room, steps) else {
                return;
            };
            let (datagram, _rest) = self.room.split_at(count.min(DATAGRAM_BYTES));
            let _took = self.client.take(SERVER, datagram);
            self.datagrams = self.datagrams.wrapping_add(1);
        }
    }
}
