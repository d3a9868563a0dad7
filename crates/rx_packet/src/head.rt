/// The header of a message but for its type, which the body has (`rx_packet.h`, `struct rx_header`).
#[derive(Clone, Copy, Debug, PartialEq, Eq)]
pub struct Head {
    pub epoch: u32,
    /// The connection, with the channel in its two low bits.
    pub cid: u32,
    /// The call number.
    pub number: u32,
    pub seq: u32,
    pub serial: u32,
    pub flags: u8,
    /// `userStatus`.
    pub status: u8,
    /// `securityIndex`.
    pub index: u8,
    /// The checksum.
    pub spare: u16,
    pub service: u16,
}
