//! The numbers of jumbo datagrams (`rx_packet.h`, `struct rx_jumboHeader`, `RX_JUMBOBUFFERSIZE`).

use rx_model::wire::{HEADER_BYTES, PAYLOAD_BYTES, PIECE_BYTES};

/// Parts of a jumbo datagram at most.
pub const JUMBO_PARTS: u32 = 16;

/// Bytes between two parts: flags, a spare byte and a checksum.
pub const LINK_BYTES: usize = 4;

/// Bytes from the beginning of one part to that of the next.
pub const PART_BYTES: usize = PIECE_BYTES + LINK_BYTES;

/// Bytes of a joined datagram at most: sixteen parts, the last one as long as a payload may be.
pub const JUMBO_BYTES: usize = HEADER_BYTES
    + (JUMBO_PARTS as usize - 1) * PART_BYTES
    + PAYLOAD_BYTES;
