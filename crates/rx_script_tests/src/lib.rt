//! Tests of scripts, plans and plans of peers as text, and of what a script answers. They stand in a crate of their
//! own, since each crate with tests is proved twice.
#![tactic(auto)]

#[cfg(test)]
mod tests;
