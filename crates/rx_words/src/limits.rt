//! The numbers that bound what options say, and those that stand where one isn't given.

use rx_model::Host;

/// Connections of a node at most.
pub const MAX_CONNS: u32 = 65_536;

/// Connections of a server where none are named: each program that makes one call is one, and stays for ten minutes.
pub const DEFAULT_CONNS: u32 = 16_384;

/// Live calls of a node at most.
pub const MAX_CALLS: u32 = 4096;

/// Packet slots of a node at most.
pub const MAX_SLOTS: u32 = 65_536;

/// Milliseconds that a server serves at most.
pub const MAX_SPAN: u64 = 1 << 40;

/// Milliseconds that a server serves where none are named.
pub const DEFAULT_SPAN: u64 = 60_000;

/// Turns at most.
pub const MAX_TURNS: u64 = 1_000_000_000;

/// Turns where none are named.
pub const DEFAULT_TURNS: u64 = 1_000_000;

/// Packets of one jumbo datagram at most.
pub const MAX_JUMBO: u32 = 16;

/// Packets of one jumbo datagram where none are named: no datagram is joined.
pub const DEFAULT_JUMBO: u32 = 1;

/// The service where none is named.
pub const DEFAULT_SERVICE: u16 = 1;

/// The nonce where none is named.
pub const DEFAULT_NONCE: u64 = 0;

/// The host that a caller binds where none is named: a free port of the loopback address.
pub const DEFAULT_FROM: Host = Host {
    addr: 0x7f00_0001,
    port: 0,
};

/// Calls of a large plan at most.
pub const MAX_LOAD_CALLS: u32 = 10_000;
