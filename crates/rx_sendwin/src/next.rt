/// A piece that is due: its seq, whether it was sent before, and whether it asks for an acknowledgement. One that was
/// sent before is sent as its time is up, or as it was taken for lost; then sending it may close the window by half.
#[derive(Clone, Copy, Debug, PartialEq, Eq)]
pub struct NextPiece {
    pub seq: u32,
    pub again: bool,
    pub asks: bool,
    pub up: bool,
    pub half: bool,
}
