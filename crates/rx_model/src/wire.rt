//! The numbers of the wire, by their names in OpenAFS's `rx.h` and `rx_packet.h` without `RX_`.

/// The type of a packet that carries data.
pub const DATA: u8 = 1;

/// The type of an acknowledgement.
pub const ACK: u8 = 2;

/// The type of a refusal for want of room.
pub const BUSY: u8 = 3;

/// The type of an abort, which carries a code.
pub const ABORT: u8 = 4;

/// The type of an acknowledgement of all packets.
pub const ACKALL: u8 = 5;

/// The type of a security challenge.
pub const CHALLENGE: u8 = 6;

/// The type of the response to a challenge.
pub const RESPONSE: u8 = 7;

/// The flag of a datagram that the client of its connection sent.
pub const CLIENT_INITIATED: u8 = 1;

/// The flag that asks for an acknowledgement.
pub const REQUEST_ACK: u8 = 2;

/// The flag of the last packet of a stream.
pub const LAST_PACKET: u8 = 4;

/// The flag of a DATA datagram with several packets.
pub const JUMBO: u8 = 0x20;

/// Why an ACK is sent: it was asked for.
pub const ACK_REQUESTED: u8 = 1;

/// A packet came again.
pub const ACK_DUPLICATE: u8 = 2;

/// A packet came before one that is missing.
pub const ACK_OUT_OF_SEQUENCE: u8 = 3;

/// A packet came that lies past the window.
pub const ACK_EXCEEDS_WINDOW: u8 = 4;

/// A packet came that there was no slot for.
pub const ACK_NOSPACE: u8 = 5;

/// The sender wants to know whether the receiver is there.
pub const ACK_PING: u8 = 6;

/// The answer to a ping.
pub const ACK_PING_RESPONSE: u8 = 7;

/// Nothing asked for it: a delayed acknowledgement.
pub const ACK_DELAY: u8 = 8;

/// Bytes of the header of a message.
pub const HEADER_BYTES: usize = 28;

/// Bytes of a payload at most, on reading.
pub const PAYLOAD_BYTES: usize = 1444;

/// Bytes of a datagram at most.
pub const DATAGRAM_BYTES: usize = 1472;

/// Bytes of a full piece of a stream, as this node sends it.
pub const PIECE_BYTES: usize = 1412;

/// The greatest seq of a piece, so that the seq above it is one too.
pub const LAST_SEQ: u32 = 4_294_967_294;

/// Packets of a node's window, by default.
pub const DEFAULT_WINDOW: u32 = 32;

/// The least window that a node can be made with.
pub const MIN_WINDOW: u32 = 32;

/// The greatest window that a node can be made with, and that a peer has.
pub const MAX_WINDOW: u32 = 255;

/// Packets of a peer's window before it tells its own.
pub const FIRST_PEER_WINDOW: u32 = 32;

/// Milliseconds after which a delayed acknowledgement is due.
pub const ACK_DELAY_MS: u64 = 100;

/// The same at a prompt node, of a packet behind which more is to come: its sender's window may be full until then. Far
/// less than the 500 that RFC 5681, section 4.2, allows.
pub const PROMPT_ACK_DELAY_MS: u64 = 3;

/// Milliseconds after which a packet is sent again, before a round trip was measured.
pub const FIRST_RTO_MS: u64 = 1000;

/// The least milliseconds after which a packet is sent again.
pub const MIN_RTO_MS: u64 = 350;

/// The most milliseconds after which a packet is sent again.
pub const MAX_RTO_MS: u64 = 4000;

/// The longest round trip that is measured, in milliseconds.
pub const MAX_ROUND_TRIP_MS: u64 = 60000;

/// The congestion window of a call that has just started, in packets.
pub const FIRST_CWND: u32 = 2;

/// The least threshold of slow start, in packets.
pub const MIN_SSTHRESH: u32 = 2;

/// Milliseconds after its last sending when a client pings.
pub const PING_MS: u64 = 2000;

/// Milliseconds of silence that end a call.
pub const SILENCE_MS: u64 = 12000;

/// Milliseconds without use after which a server may forget a connection.
pub const IDLE_MS: u64 = 600_000;

/// The most connections that a node keeps, by default.
pub const DEFAULT_CONNS: u32 = 1024;

/// The most calls that live at a node, by default.
pub const DEFAULT_CALLS: u32 = 64;

/// The packet slots of a node, by default.
pub const DEFAULT_SLOTS: u32 = 2048;

/// The most stray aborts that a server owes; a further one drops the oldest.
pub const STRAYS: usize = 64;

/// The security index of no security.
pub const NULL_INDEX: u8 = 0;

/// The security index of the class by a shared key.
pub const TOKEN_INDEX: u8 = 200;

/// Bytes of a challenge or of its answer at most.
pub const SECURITY_BYTES: usize = 64;

/// Bytes of the nonce that the class by a shared key challenges with.
pub const NONCE_BYTES: usize = 8;

/// Milliseconds of the server's clock within which the premise of forgetting has a datagram come.
pub const LIFETIME_MS: u64 = 120_000;

/// Milliseconds by which the same premise lets a client's clock fall behind the server's.
pub const SKEW_MS: u64 = 60_000;

/// The code of a call whose peer is silent, or whose channel a later call takes.
pub const RX_CALL_DEAD: i32 = -1;

/// The code of an abort: there is no such operation here.
pub const RX_INVALID_OPERATION: i32 = -2;

/// The code of an abort: the peer's answer to a challenge is wrong.
pub const RX_PROTOCOL_ERROR: i32 = -5;
