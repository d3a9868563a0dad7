//! What both ends of the protocol share: a node's connections, its calls with their lives, and what it owes.
//!
//! A contract sees a node part by part (`NodeState`). A method's clause `steps` says what it makes of all that a
//! history says of the node: where the node mirrors that (`Mirrors`), it mirrors behind the method what the rules of
//! `rx_rules` make of it. No method but `Node::make` takes memory.
#![tactic(auto)]

mod facts;
mod item;
mod kind;
mod life;
mod link;
mod node;
mod strays;

pub use facts::Facts;
pub use item::{Due, Item};
pub use kind::Kind;
pub use life::{Life, Turn};
pub use link::Link;
pub use node::{Node, is_data, named};
