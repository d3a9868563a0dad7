//! The numbers and names of a load.
ghost use Rattle.std.specs.Prelude.{◌≡◌, ◌*◌, ◌+◌, ◌^◌};

/// Calls of a load at most.
pub const MAX_CALLS: u32 = 10_000;

/// Rounds of a load at most.
pub const MAX_ROUNDS: u32 = 1_000_000;

/// Clients of a load.
pub const CLIENTS: u32 = 4;

/// Bytes of a Body at most.
pub const BODY_BYTES: u32 = 4096;

/// The procedure that is called.
pub const PROC: &str = "Take";

/// Its opcode.
pub const OPCODE: u32 = 1;

/// What a call brings.
pub const BODY: &str = "Body";

/// What it answers.
pub const SIZE: &str = "Size";

/// The cid of a client's first connection.
pub const CID: u32 = 4;

/// The service of the server.
pub const SERVICE: u16 = 1;

/// The server's port.
pub const SERVER_PORT: u16 = 7000;

/// The port of each client.
pub const CLIENT_PORT: u16 = 7001;

/// The server's address, 10.0.0.1: that of client k is k above it.
pub const FIRST_ADDR: u32 = 0x0a00_0001;

/// A load has at most 10,000 calls, in at most 1,000,000 rounds, by four clients; a Body has at most 4,096 bytes.
pub fn load_limits()
    ensures calls { MAX_CALLS ≡ 10000 }
    ensures rounds { MAX_ROUNDS ≡ 1000000 }
    ensures clients { CLIENTS ≡ 4 }
    ensures body { BODY_BYTES ≡ 4096 }
    ensures opcode { OPCODE ≡ 1 }
    ensures cid { CID ≡ 4 }
    ensures service { SERVICE ≡ 1 }
    ensures ports { (SERVER_PORT ≡ 7000) × (CLIENT_PORT ≡ 7001) }
    ensures first { FIRST_ADDR ≡ 10 * 2 ^ 24 + 1 }
{}
