//! Where a turn of a caller stands, and which call comes next.

/// Bytes that a call of a caller offers or reads at most.
pub const BLOCK_BYTES: usize = 4096;

/// Bytes of a reply at most: a counted stream and 65,536 more.
pub const REPLY_BYTES: usize = 16_842_756;

/// The code of a call whose reply is too long (`rxgen_consts.h`, `RXGEN_CC_UNMARSHAL`).
pub const CC_UNMARSHAL: i32 = -451;

/// Where a turn of a caller stands.
#[derive(Clone, Copy, Debug, PartialEq, Eq)]
pub enum Phase {
    /// All that it offered in this turn was accepted.
    Offering,
    /// It offers no more in this turn, and the reads of this turn gave bytes.
    Reading,
    /// No turn is under way, or the turn is over.
    Resting,
}

/// The next call of a caller.
#[derive(Clone, Copy, Debug, PartialEq, Eq)]
pub enum Ask {
    /// A write of the next bytes of its request.
    Offer,
    /// The end of its request.
    Shut,
    /// A read of its reply.
    Read,
    /// Giving up, since its reply is too long.
    Cancel,
}
