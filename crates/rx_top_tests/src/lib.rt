//! Tests of the commands over files, sinks and a wire in memory, whose calls and puts fail where a test says so. They
//! stand in a crate of their own, since each crate with tests is proved twice.
#![tactic(auto)]

#[cfg(test)]
mod tests;
