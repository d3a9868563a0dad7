//! Tests of the trees of interface files, and of the first fault of faulty ones. They stand in a crate of their own,
//! since each crate with tests is proved twice.
#![tactic(auto)]

#[cfg(test)]
mod tests;
