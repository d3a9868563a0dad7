/// What a call gives next: a piece of its stream, by its seq, and whether it asks for an acknowledgement and is the
/// last; or an acknowledgement, with its reason and the serial that caused it.
#[derive(Clone, Copy, Debug, PartialEq, Eq)]
pub enum Giving {
    Piece { seq: u32, asks: bool, last: bool },
    Ack { reason: u8, serial: u32 },
}
