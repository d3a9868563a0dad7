use crate::ack::AckBody;

/// What a message says behind its header; the payload is borrowed from the datagram.
#[derive(Debug, Drop, PartialEq, Eq)]
pub enum Body<'a> {
    /// The payload of a DATA packet.
    Chunk(&'a [u8]),
    Busy,
    Ack(AckBody),
    /// The code of an abort.
    Abort(i32),
    AckAll,
    /// The bytes of a security class.
    Challenge(&'a [u8]),
    Response(&'a [u8]),
}
