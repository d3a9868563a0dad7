//! Tests of types and values of XDR, and of their JSON. They stand in a crate of their own, since each crate with tests
//! is proved twice.
#![tactic(auto)]

#[cfg(test)]
mod json;
#[cfg(test)]
mod values;
