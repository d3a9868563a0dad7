/// What a channel owes, in the order in which ties are broken.
#[derive(Clone, Copy, Debug, PartialEq, Eq)]
pub enum Item {
    /// An ABORT with this code; at once.
    Abort(i32),
    /// A BUSY for the call with this number; at once.
    Busy(u32),
    /// A CHALLENGE, while the call lives and its client isn't proved; at once.
    Challenge,
    /// A RESPONSE, while the call lives; at once.
    Response,
    /// An ACKALL; at once.
    AckAll,
    /// The first DATA or ACK of the call with this end, from its own moment on.
    Sending(usize),
}

/// An item that is due, with the key of its channel.
#[derive(Clone, Copy, Debug, PartialEq, Eq)]
pub struct Due {
    /// From when on it is due, in milliseconds: 0 where that is at once.
    pub rank: u64,
    /// That of its channel.
    pub key: u32,
    pub item: Item,
}
