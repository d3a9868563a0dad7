//! The meaning of a plan of peers: which events its lines may make, what they come to, and what they promise.
//!
//! A part of a run is a list of events with what it comes to (`Parts` of `rx_plan`), at each stage that a run may have
//! come to (`specs/Stages.antt`). Polls of a peer are such (`Polls`), deliveries (`Network`), turns (`Turned`), clocks
//! (`Clocks`), rounds over any network (`Rounds`) and lines (`Lines`); a whole plan is in `Follows`, its answer lines
//! in `Answers`, and what it promises in `Promises`. `laws.rt` has what follows for whatever a plan of peers makes.
#![tactic(auto)]

mod call;
mod laws;
mod limits;
mod plans;

pub use call::PeerCall;
pub use laws::{peer_plans_are_worlds, peer_plans_keep_promises};
pub use limits::{MAX_PEERS, peer_plan_limits};
pub use plans::peer_plans_are_apart;
