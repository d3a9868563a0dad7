//! Scripts, plans and plans of peers as text.
#![tactic(auto)]

mod answers;
mod bytes_word;
mod fault;
mod kinds;
mod laws;
mod limits;
mod marks;
mod number;
mod options;
mod outcome;
mod peer_reader;
mod peer_rows;
mod pieces;
mod plan;
mod plan_reader;
mod plan_rows;
mod procs;
mod same;
mod script;
mod script_reader;
mod script_rows;
mod served;
mod shared;
mod skipped;
mod spelled;
mod taken;
mod verb;
mod words;

pub use answers::Answer;
pub use fault::{LineFault, LineWhy};
pub use laws::{characters, numbers, same_is, tables};
pub use outcome::{Outcome, PlanWhy};
pub use peer_reader::read_peer_plan;
pub use plan::{Numbered, PeerLine, PeerNumbered, PeerPlan, Plan, PlanLine};
pub use plan_reader::read_plan;
pub use script::{Block, Script, ScriptLine};
pub use script_reader::read_script;
pub use served::Served;
pub use spelled::Spelled;
