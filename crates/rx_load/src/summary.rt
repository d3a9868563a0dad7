//! What became of a load.

/// How a load ended.
#[derive(Clone, Copy, Debug, PartialEq, Eq)]
pub enum Loaded {
    /// Its rounds were made until every call ended, or as many as there may be.
    Ran(Summary),
    /// Memory was wanted, or one polling or turn went on for 2^64 - 1 events.
    OutOfMemory,
}

/// What became of a load.
#[derive(Clone, Copy, Debug, PartialEq, Eq)]
pub struct Summary {
    /// The calls that were to be made.
    pub calls: u32,
    /// Those that ended Ok, with a Size that is the length of their Body.
    pub ok: u32,
    pub aborted: u32,
    pub dead: u32,
    /// The others; those that were never opened are among them.
    pub unended: u32,
    pub rounds: u32,
    /// The datagrams that were given; and how many of these were lost, came twice, and were held for a round.
    pub given: u64,
    pub lost: u64,
    pub repeated: u64,
    pub held: u64,
}
