//! Security classes: what a node needs of one, and the class without security.
//!
//! A contract sees a class as the record of functions that the rules have (`rx_rules`, `Classes`): that of its secret,
//! by the ghost members `secret` and `class_of`. What a class writes goes to the front of a buffer; the rest stays.
#![tactic(auto)]

mod class;
mod null;
#[cfg(test)]
mod tests;

pub use class::{Class, class_law};
pub use null::Null;
