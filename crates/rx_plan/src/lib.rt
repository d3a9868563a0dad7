//! The meaning of a plan: which events its lines may make, what they come to, and what they promise.
//!
//! A part of a run is a list of events with what it comes to (`specs/Parts.antt`), at each stage that a run may have
//! come to (`specs/Stages.antt`). Turns of programs are such (`Programs`, `Turned`), deliveries (`Network`), rounds
//! (`Rounds`, `Lossy`) and lines (`Lines`); a whole plan is in `Follows`, its answer lines in `Answers`, and what it
//! promises in `Promises`, `Answering` and `Causes`. `laws.rt` has what follows for whatever a plan makes.
#![tactic(auto)]

mod call;
mod fate;
mod laws;
mod limits;
mod plans;
mod tally;

pub use call::ClientCall;
pub use fate::Fate;
pub use laws::{plans_answer_as_served, plans_are_legal, plans_are_worlds, plans_keep_promises};
pub use limits::{MAX_CLIENTS, MAX_PACKETS, MAX_SLOTS, plan_limits};
pub use plans::{plans_are_well, scripts_answer_no_zero, scripts_wait_shortly};
pub use tally::Tally;
