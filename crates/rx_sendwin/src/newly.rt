/// What an acknowledgement newly acknowledges: how many pieces, and the round trip that it measures, in milliseconds.
/// There is none where the highest of them was sent more than once, or none is new.
#[derive(Clone, Copy, Debug, PartialEq, Eq)]
pub struct Newly {
    pub count: u32,
    pub sample: Option<u64>,
}
