use arrayvec::ArrayVec;

/// What an acknowledgement tells of the packets that came: the seq of its first mark, the seq of the latest packet, and
/// for each seq from the first on whether it is kept.
#[derive(Debug, Drop)]
pub struct AckView {
    pub first: u32,
    pub previous: u32,
    pub marks: ArrayVec<bool, 255>,
}
