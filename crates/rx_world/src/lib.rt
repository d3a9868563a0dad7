//! The run of a plan with all that is promised of it: what it makes and tells (`rx_stage`), and what comes of that by
//! the laws of rounds (`rx_rounds`, `rx_closing`).
#![tactic(auto)]

mod runs;

pub use runs::run;
