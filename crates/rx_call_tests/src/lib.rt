//! Tests of one end of a call, and of the calls of a node. They stand in a crate of their own, since each crate with
//! tests is proved twice.
#![tactic(auto)]

#[cfg(test)]
mod tests;
