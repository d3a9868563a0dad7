//! A node with its books: from when on each channel has something to give, and when each call would die of silence. So
//! a poll looks at what is due, and at nothing else.
//!
//! A contract sees it as the node that it holds (`NodeState` of `rx_node`); that its books are right is an invariant.
#![tactic(auto)]

mod books;
mod node;
mod silence;

pub use node::{Node, is_response};
pub use rx_node::{Facts, Kind, Life, Link, Turn, is_data, named};
