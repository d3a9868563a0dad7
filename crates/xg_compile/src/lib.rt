//! An interface file from its text to its table.
//!
//! A contract sees an interface as `Meant` of `xg_check`. `Means` of `specs/Means.antt` says which interface a
//! text means, `IsFirstFaultOf` which fault it has first, and `table_text` of `specs/Tables.antt` what the table
//! of an interface is.
//! A caller compiles a text with `compile` and prints what it gives with `table`.
//! Of tokens, grammar and meaning the first that has a fault is told, with that one's first.
#![tactic(auto)]

mod compiler;
mod fault;
mod printing;

pub use compiler::compile;
pub use fault::CompileFault;
pub use printing::table;

#[cfg(test)]
mod tests;
