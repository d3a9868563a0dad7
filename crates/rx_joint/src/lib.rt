//! A server and clients, whose calls are made as events.
//!
//! A contract sees them as `NodesState`. Of each call it says which event it is, and that the rules allow it behind
//! each joint history for which the nodes stood, that they stand then for that history with the event, and that no
//! other node changed (`Makes`). Node 0 is the server, node k the k-th client. A method that makes an event takes the
//! memory for it first, so that where that is wanted no call was made.
#![tactic(auto)]

mod nodes;

pub use nodes::{Nodes, SERVER, server_number};
