//! Where a job is in its step, and which call comes next.

/// Bytes that are read or offered at a time, at most.
pub const OFFER_BYTES: usize = 4096;

/// Where a job is in its step.
#[derive(Clone, Copy, Debug, PartialEq, Eq)]
pub enum Phase {
    /// It makes its next call, if it has one.
    Moves,
    /// It was told that its call broke, and has to end it.
    Quits,
    /// Its step is over.
    Rests,
    /// It ended.
    Gone,
}

/// The next call of a job.
#[derive(Clone, Copy, Debug, PartialEq, Eq)]
pub enum Want {
    Read,
    Write,
    Finish(i32),
}
