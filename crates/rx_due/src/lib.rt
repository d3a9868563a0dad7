//! When keys are due: a book of one moment for each key, which gives its least pair of moment and key.
//!
//! A contract sees a book as a list with the moment of each key, if it has one (`specs/Book.antt`), the cells of its
//! heap as the list of their entries, and a counter of steps as the number of steps that were taken.
//! A caller hands a counter in, or makes one of its own by `Steps::new` in a function over `L: Ledger`, which it calls
//! with `Brand` for `L` and `Blank::new(1)`. A counter has no bytes, and counting no code.
#![tactic(auto)]

mod book;
mod cells;
mod heap;
mod laws;
mod steps;
#[cfg(test)]
mod tests;

pub use book::DueBook;
pub use cells::Cells;
pub use laws::bound_by_power;
pub use steps::Steps;
