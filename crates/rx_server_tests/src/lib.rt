//! Tests of what no plan can say: what a server counts. They stand in a crate of their own, since each crate with tests
//! is proved twice.
#![tactic(auto)]

#[cfg(test)]
mod tests;
