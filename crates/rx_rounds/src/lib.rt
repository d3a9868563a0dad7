//! What fair rounds of a plan come to.
//!
//! `laws.rt` has the laws: a request that a plan writes arrives (`specs/Arriving.antt`), an invoke comes to its end
//! (`specs/Completing.antt`), and clocks move where nothing is given (`specs/Clocks.antt`).
#![tactic(auto)]

mod laws;

pub use laws::{clocks_move, completed_calls_have_ended, plans_arrive, plans_complete};
