//! Jumbo datagrams: DATA that carries several packets of one call.
//!
//! `parts` and `part` split a datagram that was taken into single ones, by `parts_of` of `specs/Parts.antt`; `Joiner`
//! joins datagrams that were given. A contract sees a joiner as the list of the datagrams that it holds and their
//! host, `JoinerState` of `specs/JoinerState.antt`. Nothing but `Joiner::make` takes memory.
#![tactic(auto)]

mod fields;
mod joiner;
mod laws;
mod sizes;
mod split;
#[cfg(test)]
mod tests;
mod text;
mod write;

pub use fields::is_jumbo;
pub use joiner::Joiner;
pub use laws::{numbers_of_jumbo, splits_where_it_can};
pub use sizes::{JUMBO_BYTES, JUMBO_PARTS, LINK_BYTES, PART_BYTES};
pub use split::{part, parts};
