//! The connections of a node, each in a place of its own, and the seats of their channels.
//!
//! A contract sees a `Table` as the list of its records by place, and how many it has room for (`specs/Records.antt`).
//! Each call changes the record of one place, or adds one at the end. A caller imports `Records` for its clauses.
//! After `make` no call takes memory: a key that the index has no room for is found by going through the list. The
//! connection that was used last is found without the index (`rx.c`, `rxLastConn`). Which is idle the longest is found
//! in the order of their last uses, which a book keeps.
#![tactic(auto)]

mod conn;
mod index;
mod key;
mod laws;
mod seat;
mod seats;
mod table;
mod uses;

pub use laws::constants;
pub use seat::{CHANNELS, Seat};
pub use table::Table;
