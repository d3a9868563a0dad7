//! The interface that the tree of an interface file means, or its first fault.
#![tactic(auto)]

mod bases;
mod checker;
mod constants;
mod encoding;
mod endless;
mod fault;
mod graph;
mod laws;
mod lists;
mod marks;
mod meaning;
mod names;
mod opcodes;
mod order;
mod procs;
mod reach;
mod ringless;
mod sizes;
mod tags;
mod twice;
mod types;
mod unknown;
mod values;

pub use checker::check;
pub use fault::CheckFault;
pub use laws::{meaning_is_sound, no_type_is_endless, procedures_differ, types_differ};
