//! The server: connections that come, calls with handlers, and what it owes.
//!
//! Calls of a server wait until `accept` gives them to a handler, which reads the request, writes the reply and
//! finishes; `Life` of `rx_node` draws the lives of a call. A pass takes what came, accepts and serves, and polls until
//! nothing is due; `due` says when to poll again.
#![tactic(auto)]

mod rows;
mod server;

pub use server::Server;
