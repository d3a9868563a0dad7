//! The commands of the program: `sim` runs a plan, `serve` serves a node and `call` makes a call over a wire, `compile`
//! prints the table of an interface file, `load` has many calls made over a network that loses.
#![tactic(auto)]

mod around;
mod asked;
mod call;
mod cause;
mod compile;
mod inputs;
mod keys;
mod load;
mod ok_line;
mod outcome;
mod reply;
mod request;
mod saying;
mod serve;
mod setup;
mod sim;
mod status;
mod top;
mod wire_outcome;

pub use cause::Cause;
pub use compile::CompileOutcome;
pub use load::LoadOutcome;
pub use outcome::SimOutcome;
pub use status::Status;
pub use top::{end_without_words, rx_main};
pub use wire_outcome::{ArgsFault, WireOutcome};
