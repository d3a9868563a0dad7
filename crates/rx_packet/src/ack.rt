use arrayvec::ArrayVec;

/// An acknowledgement (`rx_packet.h`, `struct rx_ackPacket`, with the trailer of later versions).
#[derive(Debug, Drop, PartialEq, Eq)]
pub struct AckBody {
    /// The first packet that the marks speak of.
    pub first: u32,
    pub previous: u32,
    /// The serial of the datagram that caused it.
    pub serial: u32,
    /// Why it was sent, from 1 to 8.
    pub reason: u8,
    /// Which packets from `first` on are acknowledged.
    pub marks: ArrayVec<bool, 255>,
    /// The receive window in packets.
    pub window: Option<u32>,
}
