//! Fates of datagrams.

/// What becomes of a datagram that was given.
#[derive(Clone, Copy, Debug, PartialEq, Eq)]
pub enum Fate {
    Lost,
    Twice,
    Held,
    Once,
}
