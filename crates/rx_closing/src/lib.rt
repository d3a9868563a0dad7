//! Fair rounds and the calls that live as they begin, whatever was lost, repeated and reordered before them.
//!
//! `laws.rt` has the laws: where one call lives as rounds begin, it is closed at its client within a stated number of
//! them (`specs/Closing.antt`), and is found dead only in silence (`specs/Silence.antt`); so is each of several calls,
//! where each node has room for all of them (`specs/Several.antt`). All of it holds of the rounds that a plan ends with
//! (`specs/Ended.antt`, `specs/EndedAll.antt`), and says by itself what isn't left behind them (`specs/Left.antt`,
//! `specs/LeftAll.antt`).
#![tactic(auto)]

mod laws;

pub use laws::{
    all_close, all_closed_live_no_more, all_dead_only_in_silence, calls_close,
    closed_calls_live_no_more, dead_only_in_silence,
};
